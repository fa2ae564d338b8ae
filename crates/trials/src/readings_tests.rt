// The readings table: what each request must give and leave, and what its undo must give back.
use crate::callers::there_and_back;
use crate::requests::{ask, note, performed, put, refused, undone};
use service::{Code, Note, Operation, Service};
use std::process::Abort;
use std::test::Fail;
use tables::{Readings, ReadingsRecord, Row};

fn row(value: i32, channel: u8) -> Row {
    Row { value, channel }
}

fn holds(rt: &impl Abort, table: &Readings, expected: &[Row]) -> Result<(), Fail> {
    assert_eq!(rt; table.rows(), expected);
    Ok(())
}

// Three rows: 5 on channel 1, 7 on channel 2, 5 on channel 3.
fn three() -> Readings {
    let mut table: Readings = Readings::clear();
    table = table.perform(put(1, 5)).after;
    table = table.perform(put(2, 7)).after;
    table.perform(put(3, 5)).after
}

// Drops a row, checks what is left and the place that the note keeps, and undoes the drop.
fn dropped(rt: &impl Abort, channel: u8, value: i32, place: u8, left: &[Row]) -> Result<(), Fail> {
    let table = three();
    let request = ask(Operation::Drop, channel as i32, value);
    let (after, note) = performed(rt, &table, request, Code::Done, 2);
    holds(rt, &after, left)?;
    let expected = Note {
        kind: 2,
        place,
        value,
        channel,
    };
    assert_eq!(rt; note, expected);
    holds(rt, &undone(&after, note)?, table.rows())
}

#[test]
fn rows_go_out_and_back(rt: HostRuntime) -> Result<(), Fail> {
    dropped(&rt, 1, 5, 0, &[row(7, 2), row(5, 3)])?;
    dropped(&rt, 2, 7, 1, &[row(5, 1), row(5, 3)])?;
    dropped(&rt, 3, 5, 2, &[row(5, 1), row(7, 2)])?;
    let table = refused(&rt, &three(), ask(Operation::Drop, 2, 5), Code::Absent);
    holds(&rt, &table, &[row(5, 1), row(7, 2), row(5, 3)])
}

#[test]
fn rows_go_in_and_out(rt: HostRuntime) -> Result<(), Fail> {
    let (after, note) = performed(&rt, &three(), put(1, 7), Code::Done, 4);
    holds(&rt, &after, &[row(5, 1), row(7, 2), row(5, 3), row(7, 1)])?;
    let expected = Note {
        kind: 1,
        place: 0,
        value: 0,
        channel: 0,
    };
    assert_eq!(rt; note, expected);
    let twice = refused(&rt, &after, put(2, 7), Code::Already);
    holds(&rt, &undone(&twice, note)?, three().rows())
}

// A table of the values 0 to count - 1 on channel 9.
fn filled(count: i32) -> Readings {
    let mut table: Readings = Readings::clear();
    for value in 0..count {
        table = table.perform(put(9, value)).after;
    }
    table
}

#[test]
fn tables_have_32_rows(rt: HostRuntime) -> Result<(), Fail> {
    let (full, note) = performed(&rt, &filled(31), put(9, 31), Code::Done, 32);
    assert_eq!(rt; full.rows(), filled(32).rows());
    let still = refused(&rt, &full, put(9, 32), Code::Full);
    assert_eq!(rt; still.rows(), full.rows());
    refused(&rt, &full, put(9, 0), Code::Already);
    let back = Note {
        kind: 2,
        place: 0,
        value: 40,
        channel: 9,
    };
    assert!(rt; full.undo(back).is_none());
    let less = undone(&full, note)?;
    assert_eq!(rt; less.rows(), filled(31).rows());
    Ok(())
}

fn counts(rt: &impl Abort, table: &Readings, low: i32, high: i32, expected: i32) {
    let (after, note) = performed(
        rt,
        table,
        ask(Operation::Count, low, high),
        Code::Done,
        expected,
    );
    assert_eq!(rt; note, Note::nothing());
    assert_eq!(rt; after.rows(), table.rows());
}

#[test]
fn windows_are_counted(rt: HostRuntime) {
    let mut table: Readings = Readings::clear();
    counts(&rt, &table, -1000, 1000, 0);
    table = table.perform(put(4, -750)).after;
    counts(&rt, &table, -900, 0, 1);
    counts(&rt, &table, -750, -750, 1);
    counts(&rt, &table, -749, 0, 0);
    counts(&rt, &table, -900, -751, 0);
    counts(&rt, &table, 0, -900, 0);
    table = table.perform(put(0, 12)).after;
    table = table.perform(put(255, 12)).after;
    counts(&rt, &table, 12, 12, 2);
    counts(&rt, &table, 11, 11, 0);
    counts(&rt, &table, 13, 11, 0);
    counts(&rt, &table, -2_147_483_648, 2_147_483_647, 3);
}

#[test]
fn equal_values_on_two_channels_are_two_rows(rt: HostRuntime) -> Result<(), Fail> {
    let (one, _) = performed(&rt, &Readings::clear(), put(255, 12), Code::Done, 1);
    let (two, _) = performed(&rt, &one, put(0, 12), Code::Done, 2);
    holds(&rt, &two, &[row(12, 255), row(12, 0)])?;
    let (left, _) = performed(&rt, &two, ask(Operation::Drop, 255, 12), Code::Done, 1);
    holds(&rt, &left, &[row(12, 0)])
}

#[test]
fn channels_end_at_255(rt: HostRuntime) -> Result<(), Fail> {
    refused(&rt, &three(), put(-1, 5), Code::Foreign);
    refused(&rt, &three(), put(256, 5), Code::Foreign);
    refused(&rt, &three(), put(2_147_483_647, 5), Code::Foreign);
    refused(&rt, &three(), ask(Operation::Drop, -1, 5), Code::Foreign);
    refused(&rt, &three(), ask(Operation::Drop, 256, 5), Code::Foreign);
    // 257 is no other name of channel 1
    let same = refused(&rt, &three(), ask(Operation::Drop, 257, 5), Code::Foreign);
    holds(&rt, &same, three().rows())
}

#[test]
fn tables_do_not_stack(rt: HostRuntime) -> Result<(), Fail> {
    refused(&rt, &three(), ask(Operation::Push, 1, 0), Code::Foreign);
    let same = refused(&rt, &three(), ask(Operation::Pop, 0, 0), Code::Foreign);
    holds(&rt, &same, three().rows())
}

fn undoes(rt: &impl Abort, table: &Readings, note: Note, expected: &[Row]) -> Result<(), Fail> {
    holds(rt, &undone(table, note)?, expected)
}

#[test]
fn notes_fit_or_do_not(rt: HostRuntime) -> Result<(), Fail> {
    undoes(&rt, &three(), note(0, 77, 77, 77), three().rows())?;
    undoes(&rt, &three(), note(1, 77, 77, 77), &[row(5, 1), row(7, 2)])?;
    undoes(
        &rt,
        &three(),
        note(2, 0, 9, 9),
        &[row(9, 9), row(5, 1), row(7, 2), row(5, 3)],
    )?;
    undoes(
        &rt,
        &three(),
        note(2, 3, 9, 9),
        &[row(5, 1), row(7, 2), row(5, 3), row(9, 9)],
    )?;
    assert!(rt; three().undo(note(2, 4, 9, 9)).is_none());
    assert!(rt; three().undo(note(2, 0, 7, 2)).is_none());
    assert!(rt; three().undo(note(3, 0, 0, 0)).is_none());
    assert!(rt; three().undo(note(255, 0, 0, 0)).is_none());
    let empty: Readings = Readings::clear();
    assert!(rt; empty.undo(note(1, 0, 0, 0)).is_none());
    undoes(&rt, &empty, note(2, 0, 9, 9), &[row(9, 9)])
}

fn readings_record(rows: &[Row], len: usize) -> ReadingsRecord {
    let mut items = [row(3, 3); 32];
    for (place, row) in items.iter_mut().zip(rows) {
        *place = *row;
    }
    ReadingsRecord { items, len }
}

#[test]
fn records_of_tables(rt: HostRuntime) -> Result<(), Fail> {
    let rows = &[row(5, 1), row(7, 2), row(5, 1)][..];
    holds(&rt, &Readings::from_record(&readings_record(rows, 0)), &[])?;
    holds(
        &rt,
        &Readings::from_record(&readings_record(rows, 2)),
        &[row(5, 1), row(7, 2)],
    )?;
    // a row twice, more rows than places, and both
    holds(&rt, &Readings::from_record(&readings_record(rows, 3)), &[])?;
    holds(&rt, &Readings::from_record(&readings_record(rows, 32)), &[])?;
    holds(&rt, &Readings::from_record(&readings_record(rows, 33)), &[])?;
    let written = filled(32).to_record();
    assert_eq!(rt; written.len, 32);
    assert_eq!(rt; Readings::from_record(&written).rows(), filled(32).rows());
    Ok(())
}

#[test]
fn every_doing_can_be_undone(rt: HostRuntime) -> Result<(), Fail> {
    let back = there_and_back(three(), ask(Operation::Drop, 2, 7));
    holds(
        &rt,
        &back.ok_or_else(|| Fail::new("a doing's note fits"))?,
        three().rows(),
    )
}
