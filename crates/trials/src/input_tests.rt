// Inputs: their size, their lines, and what is taken of them.
use intake::{Desk, InputError, MOST, Tally, lines_of, read_input, take_all};
use service::{Operation, Request};
use std::io;
use std::io::Read;
use std::process::Abort;
use std::test::Fail;

// Adds up the first numbers of what is asked.
#[derive(Drop)]
struct Adder {
    sum: i64,
}

impl Desk for Adder {
    ghost State = { Unit {0} };

    ghost state = { λ _. tt };

    ghost after = { λ s _. s };

    fn answer(&mut self, rt: &impl Print, number: usize, request: Request) -> io::Result<()> {
        self.sum = self.sum.saturating_add(i64::from(request.first));
        println!(rt; "{number}: {request}")
    }
}

fn has_lines(rt: &impl Abort, text: &[u8], expected: &[&[u8]]) {
    assert_eq!(rt; lines_of(text).count(), expected.len());
    for (line, wanted) in lines_of(text).zip(expected) {
        assert_eq!(rt; line, *wanted);
    }
}

#[test]
fn inputs_have_lines(rt: HostRuntime) {
    has_lines(&rt, b"", &[]);
    has_lines(&rt, b"\n", &[b""]);
    has_lines(&rt, b"pop\n", &[b"pop"]);
    has_lines(&rt, b"pop\n\npush;1", &[b"pop", b"", b"push;1"]);
}

#[test]
fn inputs_are_read_up_to_the_most(rt: HostRuntime) -> Result<(), Fail> {
    let Ok(short) = read_input(rt.alloc(), &b"pop\n"[..]) else {
        return Err(Fail::new("a short input is read"));
    };
    assert_eq!(rt; short.as_slice(), b"pop\n".as_slice());
    let Ok(full) = read_input(rt.alloc(), io::repeat(b'a').take(MOST)) else {
        return Err(Fail::new("the most bytes are read"));
    };
    assert_eq!(rt; full.len(), 1_048_576);
    match read_input(rt.alloc(), io::repeat(b'a').take(MOST + 1)) {
        Err(InputError::TooLong) => Ok(()),
        _ => Err(Fail::new("one byte more is too long")),
    }
}

#[test]
fn requests_are_answered_in_order(rt: HostRuntime) -> Result<(), Fail> {
    let mut adder = Adder { sum: 0 };
    let Ok(tally) = take_all(&rt, b"push;0.5\nstop\npush;-0.25\n", &mut adder) else {
        return Err(Fail::new("printing works"));
    };
    assert_eq!(rt; tally, Tally { read: 2, faulty: 1 });
    assert_eq!(rt; adder.sum, 250);
    Ok(())
}
