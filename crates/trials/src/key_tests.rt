// Lists of elements with an order of their own, and what holds a sequence passed by value more than once.
use crate::keys::{Key, newest_off};
use crate::requests::put;
use lists::{Seq, between, contains, position, without};
use service::Service;
use std::test::Fail;
use tables::Readings;

fn key(id: u8, tag: u8) -> Key {
    Key { id, tag }
}

#[test]
fn keys_have_their_own_order(rt: HostRuntime) -> Result<(), Fail> {
    let keys = [key(3, 1), key(3, 2), key(4, 0)];
    assert_eq!(rt; contains(&keys, &key(3, 2)), true);
    assert_eq!(rt; contains(&keys, &key(3, 0)), false);
    assert_eq!(rt; position(&keys, &key(4, 0)), Some(2));
    assert_eq!(rt; between(&keys, &key(3, 2), &key(4, 0)), 2);
    let left: Seq<Key, 4> = without(&keys, &[key(3, 1)], key(0, 0)).map_err(|_| Fail::new(
        "does not fit",
    ))?;
    assert_eq!(rt; left.len(), 2);
    let mut left = left;
    let newest = newest_off(&mut left).ok_or_else(|| Fail::new("none is left"))?;
    assert_eq!(rt; (newest.id, newest.tag), (4, 0));
    Ok(())
}

fn rows_in(table: Readings) -> usize {
    table.rows().len()
}

#[test]
fn tables_are_passed_by_value(rt: HostRuntime) {
    let empty: Readings = Readings::clear();
    let table = empty.perform(put(1, 5)).after;
    assert_eq!(rt; (rows_in(table), rows_in(table)), (1, 1));
    let once = table.perform(put(2, 7)).after;
    let again = table.perform(put(3, 7)).after;
    assert_eq!(rt; (rows_in(once), rows_in(again), rows_in(table)), (2, 2, 1));
}
