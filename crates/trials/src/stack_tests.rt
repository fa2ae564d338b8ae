// The stack: what each request must give and leave, and what its undo must give back.
use crate::callers::there_and_back;
use crate::requests::{ask, note, performed, put, refused, undone};
use service::{Code, Operation, Request, Service};
use std::process::Abort;
use std::test::Fail;
use tables::{Stack, StackRecord};

fn push(value: i32) -> Request {
    ask(Operation::Push, value, 0)
}

// A stack of the values 1 to depth, the last one on top.
fn stack(depth: i32) -> Stack {
    let mut stack: Stack = Stack::clear();
    for value in 0..depth {
        stack = stack.perform(push(value + 1)).after;
    }
    stack
}

fn deep(rt: &impl Abort, stack: &Stack, depth: usize) -> Result<(), Fail> {
    assert_eq!(rt; stack.to_record().len, depth);
    Ok(())
}

#[test]
fn stacks_have_16_values(rt: HostRuntime) -> Result<(), Fail> {
    let (full, first) = performed(&rt, &stack(15), push(-750), Code::Done, 16);
    assert_eq!(rt; first, note(1, 0, 0, 0));
    deep(&rt, &refused(&rt, &full, push(17), Code::Full), 16)?;
    assert!(rt; full.undo(note(2, 0, 5, 0)).is_none());
    let (less, second) = performed(&rt, &full, ask(Operation::Pop, 0, 0), Code::Done, -750);
    assert_eq!(rt; second, note(2, 0, -750, 0));
    deep(&rt, &less, 15)?;
    let back = undone(&less, second)?;
    deep(&rt, &back, 16)?;
    performed(&rt, &back, ask(Operation::Pop, 0, 0), Code::Done, -750);
    let back = undone(&full, first)?;
    deep(&rt, &back, 15)?;
    performed(&rt, &back, ask(Operation::Pop, 0, 0), Code::Done, 15);
    Ok(())
}

#[test]
fn empty_stacks_give_nothing(rt: HostRuntime) -> Result<(), Fail> {
    let empty: Stack = Stack::clear();
    deep(
        &rt,
        &refused(&rt, &empty, ask(Operation::Pop, 0, 0), Code::Absent),
        0,
    )?;
    assert!(rt; empty.undo(note(1, 0, 0, 0)).is_none());
    assert!(rt; empty.undo(note(0, 1, 1, 1)).is_some());
    assert!(rt; empty.undo(note(3, 0, 0, 0)).is_none());
    Ok(())
}

#[test]
fn stacks_do_not_read(rt: HostRuntime) -> Result<(), Fail> {
    deep(&rt, &refused(&rt, &stack(3), put(1, 5), Code::Foreign), 3)?;
    deep(
        &rt,
        &refused(&rt, &stack(3), ask(Operation::Drop, 1, 5), Code::Foreign),
        3,
    )?;
    deep(
        &rt,
        &refused(&rt, &stack(3), ask(Operation::Count, 1, 5), Code::Foreign),
        3,
    )
}

fn tops(rt: &impl Abort, record: &StackRecord, code: Code, number: i32) {
    let stack: Stack = Stack::from_record(record);
    performed(rt, &stack, ask(Operation::Pop, 0, 0), code, number);
}

#[test]
fn records_of_stacks(rt: HostRuntime) {
    let mut items = [0; 16];
    items[0] = 4;
    items[15] = 9;
    tops(&rt, &StackRecord { items, len: 0 }, Code::Absent, 0);
    tops(&rt, &StackRecord { items, len: 1 }, Code::Done, 4);
    tops(&rt, &StackRecord { items, len: 16 }, Code::Done, 9);
    // deeper than there are places
    tops(&rt, &StackRecord { items, len: 17 }, Code::Absent, 0);
    tops(
        &rt,
        &StackRecord {
            items,
            len: 18_446_744_073_709_551_615,
        },
        Code::Absent,
        0,
    );
}

#[test]
fn every_doing_can_be_undone(rt: HostRuntime) -> Result<(), Fail> {
    let back = there_and_back(stack(16), ask(Operation::Pop, 0, 0));
    deep(
        &rt,
        &back.ok_or_else(|| Fail::new("a doing's note fits"))?,
        16,
    )
}

#[test]
fn codes_have_numbers(rt: HostRuntime) {
    assert_eq!(rt; u8::from(Code::Done), 0);
    assert_eq!(rt; u8::from(Code::Already), 1);
    assert_eq!(rt; u8::from(Code::Full), 2);
    assert_eq!(rt; u8::from(Code::Absent), 3);
    assert_eq!(rt; u8::from(Code::Foreign), 4);
}
