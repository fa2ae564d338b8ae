// What a doing gives.
ghost use Rattle.std.specs.Prelude.{◌≡◌};
ghost use Rattle.service.specs.Doings.{nothing, refused, done, doing_of};

use crate::reply::{Code, NotDone, Note, Reply};

// The service as it is afterwards, the reply, and the note that undoes the doing.
#[derive(Clone, Copy)]
pub struct Doing<S> {
    pub after: S,
    pub reply: Reply,
    pub note: Note,
}

// An operation that is done: the service as it is afterwards, the number that it gives, and the note that undoes it.
#[derive(Clone, Copy)]
pub struct Done<S> {
    pub after: S,
    pub number: i32,
    pub note: Note,
}

impl Note {
    // The note of kind 0, which undoes nothing.
    pub fn nothing() -> Note
        ensures { result ≡ nothing }
    {
        Note::default()
    }
}

impl<S> Doing<S> {
    // An operation that is not done: the code carries number 0, nothing is to be undone, and nothing has changed.
    pub fn refused(service: S, code: Code) -> Doing<S>
        ensures { result ≡ refused code service }
    {
        Doing {
            after: service,
            reply: Reply { code, number: 0 },
            note: Note::nothing(),
        }
    }

    // An operation that is done, with the number that it gives.
    pub fn done(after: S, number: i32, note: Note) -> Doing<S>
        ensures { result ≡ done after number note }
    {
        Doing {
            after,
            reply: Reply {
                code: Code::Done,
                number,
            },
            note,
        }
    }
}

impl<S: Copy> Doing<S> {
    // What comes of an operation on a service: it is done, or not for a reason. No `From`, since it takes the service too.
    pub fn from_outcome(service: S, outcome: Result<Done<S>, NotDone>) -> Doing<S>
        ensures { result ≡ doing_of service outcome }
    {
        match outcome {
            Ok(done) => Doing::done(done.after, done.number, done.note),
            Err(why) => Doing::refused(service, Code::from(why)),
        }
    }
}
