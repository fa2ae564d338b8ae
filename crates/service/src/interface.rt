// The interface of services.
ghost use Rattle.std.specs.Prelude.{◌≡◌, true};
ghost use Rattle.service.specs.Doings.{Shows};
ghost use Rattle.service.specs.Model.{Model, Lawful, Undone};

use crate::doing::Doing;
use crate::reply::Note;
use crate::request::Request;

// A service is told what to do by value. Between tellings it lies in a plain record, which may say anything: a service is
// made from one after a check, and written back as one that means the same state.
pub trait Service: Copy {
    type Record: Copy;

    // The meaning: the states, and what every call does to them.
    ghost State: { Type 0 };

    ghost model: { Model State };

    // The state of a service, and the state that a record means; a record that breaks the service's rules means the empty one.
    ghost state: { Self → State };

    ghost recorded: { Self.Record → State };

    // The empty service.
    fn clear() -> Self
        ensures { state result ≡ model.empty };

    // Does what a request asks.
    fn perform(self, request: Request) -> Doing<Self>
        ensures { Shows state result (model.doing (state self) request) };

    // Undoes a note, or nothing where the note does not fit.
    fn undo(self, note: Note) -> Option<Self>
        ensures { Undone model state (state self) note result };

    // The state that a plain record means. No `From`, here and below: their contracts speak of this trait's states.
    fn from_record(plain: &Self::Record) -> Self
        ensures { state result ≡ recorded plain.now };

    // A plain record that means the same state.
    fn to_record(&self) -> Self::Record
        ensures { recorded result ≡ state self.now };

    // The undo of a doing gives back the state before, in every state that a service can have.
    ghost lawful: { Lawful model };

    ghost sound: { (x : Self) → model.sound (state x) ≡ true };
}
