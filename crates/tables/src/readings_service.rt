// The readings table as a service.
ghost use Rattle.std.specs.Prelude.{List, Ok};
ghost use Rattle.service.specs.Doings.{Shows, doing_of};
ghost use Rattle.tables.specs.Notes.{note_of};
ghost use Rattle.tables.specs.Readings.{counted, put_row, drop_row, count_rows, operate, readings};
ghost use Rattle.tables.specs.ReadingsRecords.{tabled, recorded};
ghost use Rattle.tables.specs.declared.row.Row.{Row};
ghost use Rattle.tables.specs.ReadingsLaws;
ghost use Rattle.std.proofs.Common.{rules, arith};

use crate::notes::Undo;
use crate::readings::{Readings, ReadingsRecord};
use crate::row::Row;
use lists::{Plain, Seq, between, position};
use service::{Doing, Done, NotDone, Note, Operation, Request, Service};

impl Readings {
    // What is done when this is the table afterwards: its number of rows is given.
    fn counted(self, undo: Undo) -> Done<Readings>
        ensures { Shows tabled (doing_of self (Ok result)) (counted (tabled self) (note_of undo)) }
    {
        Done {
            after: self,
            number: self.len() as i32,
            note: Note::from(undo),
        }
    }

    // The row goes last, if it is not there and there is a place for it.
    fn put(&self, row: Row) -> Result<Done<Readings>, NotDone>
        ensures { Shows tabled (doing_of self.now result) (put_row (tabled self.now) row) }
    {
        if self.rows.contains(&row) {
            return Err(NotDone::Already);
        }
        let after = self.with(row).or(Err(NotDone::Full))?;
        Ok(after.counted(Undo::PutIn))
    }

    // The row is taken out of its place, if it is there.
    fn drop_row(&self, row: Row) -> Result<Done<Readings>, NotDone>
        ensures { Shows tabled (doing_of self.now result) (drop_row (tabled self.now) row) }
    {
        let at = position(self.rows(), &row).ok_or(NotDone::Absent)?;
        let Row { value, channel } = row;
        let undo = Undo::TakenOut {
            place: at as u8,
            value,
            channel,
        };
        Ok(self.without(at).counted(undo))
    }

    // The rows from one value to another are counted, whatever their channels.
    fn count(&self, window: Request) -> Done<Readings>
        ensures { Shows tabled (doing_of self.now (Ok result)) (count_rows (tabled self.now) window.first window.second) }
    {
        let low = Row {
            value: window.first,
            channel: 0,
        };
        let high = Row {
            value: window.second,
            channel: 255,
        };
        let count = between(self.rows(), &low, &high);
        Done {
            after: *self,
            number: count as i32,
            note: Note::nothing(),
        }
    }

    // What comes of a request. A `match`, since which operations there are is fixed.
    fn outcome(&self, request: Request) -> Result<Done<Readings>, NotDone>
        ensures { Shows tabled (doing_of self.now result) (operate (tabled self.now) request.operation request.first request.second) }
    {
        let Request {
            operation,
            first,
            second,
        } = request;
        match operation {
            Operation::Put => self.put(Row::named(first, second).ok_or(NotDone::Foreign)?),
            Operation::Drop => self.drop_row(Row::named(first, second).ok_or(NotDone::Foreign)?),
            Operation::Count => Ok(self.count(request)),
            Operation::Push | Operation::Pop => Err(NotDone::Foreign),
        }
    }
}

impl Service for Readings {
    type Record = ReadingsRecord;

    ghost State = { List Row };

    ghost model = { readings };

    ghost state = { tabled };

    ghost recorded = { recorded };

    ghost lawful = { ReadingsLaws.lawful };

    ghost sound = { first_of (Prim.search rules, Prim.grind (arith, Self.row.coded.inj)) };

    fn clear() -> Readings {
        Readings {
            rows: Seq::new(Row::default()),
        }
    }

    fn perform(self, request: Request) -> Doing<Readings> {
        Doing::from_outcome(self, self.outcome(request))
    }

    fn undo(self, note: Note) -> Option<Readings> {
        match Undo::try_from(note).ok()? {
            Undo::Nothing => Some(self),
            Undo::PutIn => self.without_last(),
            Undo::TakenOut {
                place,
                value,
                channel,
            } => self.with_at(place as usize, Row { value, channel }),
        }
    }

    fn from_record(plain: &ReadingsRecord) -> Readings {
        Readings::of_record(plain).unwrap_or(Readings::clear())
    }

    fn to_record(&self) -> ReadingsRecord {
        Plain::from(&self.rows)
    }
}
