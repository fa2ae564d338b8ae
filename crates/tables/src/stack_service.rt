// The stack as a service.
ghost use Rattle.std.specs.Prelude.{◌≡◌, ◌≤◌, true, false, List, [], ◌∷◌, length, ℤ, Some, None, Ok, Err, nat_lt};
ghost use Rattle.service.specs.Doings.{Shows, doing_of};
ghost use Rattle.tables.specs.StackRecords.{stacked, recorded};
ghost use Rattle.tables.specs.Stacks.{most, push, pop, operate, stack};
ghost use Rattle.tables.specs.StackLaws;
ghost use Rattle.std.proofs.Common.{arith};
ghost use Rattle.std.proofs.lemmas.List.{length-reverse};
ghost use Rattle.std.proofs.lemmas.Bool.{le-leb};
ghost use Rattle.lists.specs.Held.{held};
ghost use Rattle.lists.proofs.Held.{held-within};

use crate::notes::Undo;
use crate::stack::{Stack, StackRecord};
use lists::{Full, Plain, Seq};
use service::{Doing, Done, NotDone, Note, Operation, Request, Service};

impl Stack {
    // The stack with one more value, if there is a place for it.
    fn with(&self, value: i32) -> Result<Stack, Full>
        ensures { elim result [ Ok s ↦ (nat_lt (length (stacked self.now)) most ≡ true) × (stacked s ≡ value ∷ stacked self.now) | Err _ ↦ nat_lt (length (stacked self.now)) most ≡ false ] }
    {
        let mut values = self.values;
        values.try_push(value)?;
        Ok(Stack { values })
    }

    // The newest value of the stack, and the stack without it, unless it is empty.
    fn without(&self) -> Option<(i32, Stack)>
        ensures { elim result [ Some p ↦ stacked self.now ≡ p.0 ∷ stacked p.1 | None ↦ stacked self.now ≡ [] ] }
    {
        let mut values = self.values;
        let newest = values.pop()?;
        Some((newest, Stack { values }))
    }

    fn depth(&self) -> usize
        ensures is { result ≡ length (stacked self.now) }
        ensures few { result ≤ most }
    {
        self.values.len()
    }

    // The value goes on top, if there is a place for it.
    fn push(&self, value: i32) -> Result<Done<Stack>, NotDone>
        ensures { Shows stacked (doing_of self.now result) (push (stacked self.now) value) }
    {
        let after = self.with(value).or(Err(NotDone::Full))?;
        Ok(Done {
            after,
            number: after.depth() as i32,
            note: Note::from(Undo::PutIn),
        })
    }

    // The value on top is taken off, if there is one.
    fn pop(&self) -> Result<Done<Stack>, NotDone>
        ensures { Shows stacked (doing_of self.now result) (pop (stacked self.now)) }
    {
        let (value, after) = self.without().ok_or(NotDone::Absent)?;
        let undo = Undo::TakenOut {
            place: 0,
            value,
            channel: 0,
        };
        Ok(Done {
            after,
            number: value,
            note: Note::from(undo),
        })
    }

    // What comes of a request. A `match`, since which operations there are is fixed.
    fn outcome(&self, request: Request) -> Result<Done<Stack>, NotDone>
        ensures { Shows stacked (doing_of self.now result) (operate (stacked self.now) request.operation request.first) }
    {
        match request.operation {
            Operation::Push => self.push(request.first),
            Operation::Pop => self.pop(),
            Operation::Put | Operation::Drop | Operation::Count => Err(NotDone::Foreign),
        }
    }
}

impl Service for Stack {
    type Record = StackRecord;

    ghost State = { List ℤ };

    ghost model = { stack };

    ghost state = { stacked };

    ghost recorded = { recorded };

    ghost lawful = { StackLaws.lawful };

    ghost sound = { λ x. le-leb _ 16 (omega (arith, length-reverse (held x.values), held-within x.values)) };

    fn clear() -> Stack {
        Stack {
            values: Seq::new(0),
        }
    }

    fn perform(self, request: Request) -> Doing<Stack> {
        Doing::from_outcome(self, self.outcome(request))
    }

    fn undo(self, note: Note) -> Option<Stack> {
        match Undo::try_from(note).ok()? {
            Undo::Nothing => Some(self),
            Undo::PutIn => self.without().map(|(_, before)| before),
            Undo::TakenOut { value, .. } => self.with(value).ok(),
        }
    }

    fn from_record(plain: &StackRecord) -> Stack {
        Seq::from_plain(plain, 0).map_or(Stack::clear(), |values| Stack { values })
    }

    fn to_record(&self) -> StackRecord {
        Plain::from(&self.values)
    }
}
