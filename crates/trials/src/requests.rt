// Requests of services, and what each must give.
use service::{Code, Doing, Note, Operation, Reply, Request, Service};
use std::process::Abort;
use std::test::Fail;

pub(crate) fn ask(operation: Operation, first: i32, second: i32) -> Request {
    Request {
        operation,
        first,
        second,
    }
}

pub(crate) fn put(channel: i32, value: i32) -> Request {
    ask(Operation::Put, channel, value)
}

// A note by its numbers, as it stands in a record.
pub(crate) fn note(kind: u8, place: u8, value: i32, channel: u8) -> Note {
    Note {
        kind,
        place,
        value,
        channel,
    }
}

// Performs a request, checks the reply, and gives the service afterwards with the note.
pub(crate) fn performed<S: Service>(
    rt: &impl Abort,
    service: &S,
    request: Request,
    code: Code,
    number: i32,
) -> (S, Note) {
    let Doing { after, reply, note } = (*service).perform(request);
    assert_eq!(rt; reply, Reply { code, number });
    (after, note)
}

// A request that is not done: the code with number 0, and nothing to undo.
pub(crate) fn refused<S: Service>(rt: &impl Abort, service: &S, request: Request, code: Code) -> S {
    let (after, note) = performed(rt, service, request, code, 0);
    assert_eq!(rt; note, Note::nothing());
    after
}

// The service before the doing that a note is of.
pub(crate) fn undone<S: Service>(service: &S, note: Note) -> Result<S, Fail> {
    (*service)
        .undo(note)
        .ok_or_else(|| Fail::new("the note fits"))
}
