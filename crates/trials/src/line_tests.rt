// Serial lines, and what each must give: the request with its two numbers, or cause, field and offset.
use lines::{Report, field, read};
use service::{Operation, Request};
use std::process::Abort;
use std::test::Fail;

fn reads(
    rt: &impl Abort,
    line: &[u8],
    operation: Operation,
    first: i32,
    second: i32,
) -> Result<(), Fail> {
    let wanted = Request {
        operation,
        first,
        second,
    };
    assert_eq!(rt; read(line), Ok(wanted));
    Ok(())
}

// A line that is not read, with its fault by numbers, as a report has them.
fn faults(
    rt: &impl Abort,
    line: &[u8],
    cause: u8,
    field: usize,
    offset: usize,
) -> Result<(), Fail> {
    let wanted = Report {
        cause,
        field,
        offset,
    };
    assert_eq!(rt; read(line).map_err(Report::from), Err(wanted));
    Ok(())
}

#[test]
fn good_lines_of_two_fields(rt: HostRuntime) -> Result<(), Fail> {
    reads(&rt, b"put;4;-0.75", Operation::Put, 4, -750)?;
    reads(&rt, b"put;255;1", Operation::Put, 255, 1000)?;
    reads(&rt, b"put;0;0", Operation::Put, 0, 0)?;
    reads(&rt, b"put;007;12.5", Operation::Put, 7, 12_500)?;
    reads(&rt, b"put;42;999999.999", Operation::Put, 42, 999_999_999)?;
    reads(&rt, b"put;1;0.001", Operation::Put, 1, 1)?;
    reads(&rt, b"put;1;0.01", Operation::Put, 1, 10)?;
    reads(&rt, b"put;1;0.1", Operation::Put, 1, 100)?;
    reads(&rt, b"put;1;000001.100", Operation::Put, 1, 1100)?;
    reads(&rt, b"drop;4;-0.75", Operation::Drop, 4, -750)?;
    reads(&rt, b"drop;99;12", Operation::Drop, 99, 12_000)?;
    reads(&rt, b"count;-0.9;-0", Operation::Count, -900, 0)?;
    reads(&rt, b"count;-1;1", Operation::Count, -1000, 1000)?;
    reads(&rt, b"count;5;-5", Operation::Count, 5000, -5000)
}

#[test]
fn good_lines_of_one_field_or_none(rt: HostRuntime) -> Result<(), Fail> {
    reads(&rt, b"push;-999999.999", Operation::Push, -999_999_999, 0)?;
    reads(&rt, b"push;-0", Operation::Push, 0, 0)?;
    reads(&rt, b"push;-0.000", Operation::Push, 0, 0)?;
    reads(&rt, b"push;0.75", Operation::Push, 750, 0)?;
    reads(&rt, b"push;-0.031", Operation::Push, -31, 0)?;
    reads(&rt, b"push;123456", Operation::Push, 123_456_000, 0)?;
    reads(&rt, b"push;7.08", Operation::Push, 7080, 0)?;
    reads(&rt, b"pop", Operation::Pop, 0, 0)
}

#[test]
fn unknown_words(rt: HostRuntime) -> Result<(), Fail> {
    faults(&rt, b"", 1, 0, 0)?;
    faults(&rt, b";", 1, 0, 0)?;
    faults(&rt, b"PUT;1;1", 1, 0, 0)?;
    faults(&rt, b" pop", 1, 0, 0)?;
    faults(&rt, b"pop ", 1, 0, 0)?;
    faults(&rt, b"pops", 1, 0, 0)?;
    faults(&rt, b"po", 1, 0, 0)?;
    faults(&rt, b"put,1,1", 1, 0, 0)?;
    faults(&rt, b"pop\r", 1, 0, 0)?;
    faults(&rt, b"\0pop", 1, 0, 0)?;
    faults(&rt, b"\xff", 1, 0, 0)
}

#[test]
fn missing_and_surplus_fields(rt: HostRuntime) -> Result<(), Fail> {
    faults(&rt, b"put;4", 2, 2, 0)?;
    faults(&rt, b"put", 2, 1, 0)?;
    faults(&rt, b"drop;x", 2, 2, 0)?;
    faults(&rt, b"count;", 2, 2, 0)?;
    faults(&rt, b"push", 2, 1, 0)?;
    faults(&rt, b"pop;", 2, 1, 0)?;
    faults(&rt, b"pop;;", 2, 1, 0)?;
    faults(&rt, b"push;1;", 2, 2, 0)?;
    faults(&rt, b"put;4;1;7;8", 2, 3, 0)?;
    faults(&rt, b"put;x;y;", 2, 3, 0)
}

#[test]
fn broken_channels(rt: HostRuntime) -> Result<(), Fail> {
    faults(&rt, b"put;256;1", 4, 1, 0)?;
    faults(&rt, b"put;999;1", 4, 1, 0)?;
    faults(&rt, b"drop;300;1", 4, 1, 0)?;
    faults(&rt, b"put;256;x", 4, 1, 0)?;
    faults(&rt, b"put;0256;1", 3, 1, 3)?;
    faults(&rt, b"put;256x;1", 3, 1, 3)?;
    faults(&rt, b"put;1234;1", 3, 1, 3)?;
    faults(&rt, b"put;;1", 3, 1, 0)?;
    faults(&rt, b"put;-1;1", 3, 1, 0)?;
    faults(&rt, b"put;1.5;1", 3, 1, 1)?;
    faults(&rt, b"put;4\0;1", 3, 1, 1)?;
    faults(&rt, b"put;\xff;1", 3, 1, 0)
}

#[test]
fn broken_values(rt: HostRuntime) -> Result<(), Fail> {
    faults(&rt, b"push;", 3, 1, 0)?;
    faults(&rt, b"push;-", 3, 1, 1)?;
    faults(&rt, b"push;-.5", 3, 1, 1)?;
    faults(&rt, b"push;.5", 3, 1, 0)?;
    faults(&rt, b"push;5.", 3, 1, 2)?;
    faults(&rt, b"push;-5.", 3, 1, 3)?;
    faults(&rt, b"push;1234567", 3, 1, 6)?;
    faults(&rt, b"push;-1234567.1", 3, 1, 7)?;
    faults(&rt, b"push;1.2345", 3, 1, 5)?;
    faults(&rt, b"push;1.2.3", 3, 1, 3)?;
    faults(&rt, b"push;--1", 3, 1, 1)?;
    faults(&rt, b"push;+1", 3, 1, 0)?;
    faults(&rt, b"push;1,5", 3, 1, 1)?;
    faults(&rt, b"push; 1", 3, 1, 0)?;
    faults(&rt, b"push;1 ", 3, 1, 1)?;
    faults(&rt, b"push;1.\xff", 3, 1, 2)?;
    faults(&rt, b"count;1;0x", 3, 2, 1)
}

#[test]
fn faults_from_the_left(rt: HostRuntime) -> Result<(), Fail> {
    faults(&rt, b"put;x;y", 3, 1, 0)?;
    faults(&rt, b"put;1;y", 3, 2, 0)?;
    faults(&rt, b"count;1.;2.", 3, 1, 2)?;
    faults(&rt, b"count;1;2.", 3, 2, 2)
}

#[test]
fn long_lines(rt: HostRuntime) -> Result<(), Fail> {
    let mut line = [b'1'; 10_000];
    faults(&rt, &line, 1, 0, 0)?;
    line[3] = b';';
    faults(&rt, &line, 1, 0, 0)?;
    line[0] = b'p';
    line[1] = b'o';
    line[2] = b'p';
    faults(&rt, &line, 2, 1, 0)?;
    line[1] = b'u';
    line[2] = b's';
    line[3] = b'h';
    line[4] = b';';
    faults(&rt, &line, 3, 1, 6)
}

#[test]
fn fields_with_their_places(rt: HostRuntime) -> Result<(), Fail> {
    let line = b"put;4;-0.75";
    let value = field(line, 2).ok_or_else(|| Fail::new("field 2 is there"))?;
    assert_eq!(rt; value.number, 2);
    assert_eq!(rt; value.start, 6);
    assert!(rt; value.bytes == b"-0.75".as_slice());
    assert!(rt; field(line, 3).is_none());
    assert!(rt; field(b"", 0).is_some());
    assert!(rt; field(b"", 1).is_none());
    assert!(rt; field(b";", 1).is_some());
    assert!(rt; field(line, usize::MAX).is_none());
    Ok(())
}
