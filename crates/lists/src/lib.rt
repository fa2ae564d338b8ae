// Lists of ordered elements, for every type of element.
//
// `Order` says which elements are the same and which comes first. The operations over slices join two lists, take one out of
// another, merge two, count a range, and find what two have in common at their beginning; `split` parts an open order from
// a decided one. A new list is a `Seq`, a sequence of at most N elements, or a refusal where it does not fit.
//
// What each operation means is defined in specs/, one file a topic, and told in docs/lists.md.

#![tactic(auto)]

mod bounded;
mod full;
mod inserting;
mod laws;
mod ordering;
mod plain;
mod prefix;
mod reading;
mod seq;
mod slices;

pub use full::Full;
pub use laws::{
    begins_laws, membership_laws, merge_laws, name_laws, order_laws, place_laws, split_laws,
};
pub use ordering::Order;
pub use plain::Plain;
pub use prefix::{Parts, common_beginning, split};
pub use seq::Seq;
pub use slices::{between, contains, is_distinct, join, merge, position, without};

#[cfg(test)]
mod tests {
    use super::*;
    use std::process::Abort;
    use std::test::Fail;

    fn made(rt: &impl Abort, res: Result<Seq<u8, 4>, Full>, expected: &[u8]) -> Result<(), Fail> {
        let made = res.map_err(|_| Fail::new("does not fit"))?;
        assert_eq!(rt; made.as_slice(), expected);
        Ok(())
    }

    fn refused(rt: &impl Abort, res: Result<Seq<u8, 4>, Full>) {
        assert!(rt; res.is_err());
    }

    #[test]
    fn lists_are_joined(rt: HostRuntime) -> Result<(), Fail> {
        made(&rt, join(&[3, 4], &[4, 5], 0), &[3, 4, 4, 5])?;
        made(&rt, join(&[], &[], 0), &[])?;
        refused(&rt, join(&[1, 2, 3], &[4, 5], 0));
        refused(&rt, join(&[1, 2, 3, 4, 5], &[], 0));
        Ok(())
    }

    #[test]
    fn elements_are_taken_out(rt: HostRuntime) -> Result<(), Fail> {
        made(&rt, without(&[3, 4, 5], &[4], 0), &[3, 5])?;
        made(&rt, without(&[], &[4], 0), &[])?;
        made(&rt, without(&[3, 4, 3], &[], 0), &[3, 4, 3])?;
        made(&rt, without(&[1, 2, 3, 4, 5], &[1], 0), &[2, 3, 4, 5])?;
        refused(&rt, without(&[1, 2, 3, 4, 5], &[6], 0));
        Ok(())
    }

    #[test]
    fn lists_are_merged(rt: HostRuntime) -> Result<(), Fail> {
        made(&rt, merge(&[3, 4], &[4, 5], 0), &[3, 4, 5])?;
        made(&rt, merge(&[], &[], 0), &[])?;
        made(&rt, merge(&[2, 2, 1], &[1, 3, 2, 0], 0), &[2, 1, 3, 0])?;
        refused(&rt, merge(&[0, 1, 2], &[3, 1, 4], 0));
        Ok(())
    }

    #[test]
    fn ranges_are_counted(rt: HostRuntime) {
        assert_eq!(rt; between(&[5, 1, 3, 3, 9], &3, &5), 3);
        assert_eq!(rt; between(&[5, 1, 3, 3, 9], &5, &3), 0);
        assert_eq!(rt; between(&[], &0, &255), 0);
    }

    #[test]
    fn elements_have_places(rt: HostRuntime) {
        assert_eq!(rt; position(&[3, 4, 4], &4), Some(1));
        assert_eq!(rt; position(&[3, 4, 4], &5), None);
        assert_eq!(rt; position(&[], &4), None);
        assert!(rt; is_distinct::<u8>(&[]));
        assert!(rt; is_distinct(&[3, 4, 5]));
        assert!(rt; !is_distinct(&[3, 4, 3]));
        assert!(rt; !is_distinct(&[3, 4, 4]));
    }

    #[test]
    fn sequences_change_at_a_place(rt: HostRuntime) {
        let mut names = Seq::<u8, 3>::new(9);
        assert_eq!(rt; names.try_insert(1, 5).is_ok(), false);
        assert_eq!(rt; names.try_insert(0, 5).is_ok(), true);
        assert_eq!(rt; names.try_insert(1, 7).is_ok(), true);
        assert_eq!(rt; names.try_insert(1, 6).is_ok(), true);
        assert_eq!(rt; names.try_insert(0, 4).is_ok(), false);
        assert_eq!(rt; names.as_slice(), &[5, 6, 7][..]);
        assert_eq!(rt; names.remove(3), None);
        assert_eq!(rt; names.remove(1), Some(6));
        assert_eq!(rt; names.as_slice(), &[5, 7][..]);
        assert_eq!(rt; names.to_array(), [5, 7, 9]);
        assert_eq!(rt; names.remove(0), Some(5));
        assert_eq!(rt; names.remove(0), Some(7));
        assert_eq!(rt; names.remove(0), None);
    }

    fn parts(rt: &impl Abort, opened: &[u8], decided: &[u8], good: &[u8], bad: &[u8], new: &[u8]) {
        let found = split(opened, decided);
        assert_eq!(rt; found.good, good);
        assert_eq!(rt; found.bad, bad);
        assert_eq!(rt; found.new, new);
        assert_eq!(rt; common_beginning(opened, decided), good);
    }

    #[test]
    fn orders_are_split(rt: HostRuntime) {
        parts(&rt, &[0, 1], &[0, 1], &[0, 1], &[], &[]);
        parts(&rt, &[0, 1], &[1, 0], &[], &[0, 1], &[1, 0]);
        parts(&rt, &[0, 1, 2], &[0, 2, 1], &[0], &[1, 2], &[2, 1]);
        parts(&rt, &[0, 1], &[0, 2, 1], &[0], &[1], &[2, 1]);
        parts(&rt, &[], &[7], &[], &[], &[7]);
    }

    #[test]
    fn sequences_fill_and_empty(rt: HostRuntime) {
        let mut names = Seq::<u8, 3>::new(0);
        assert_eq!(rt; names.pop(), None);
        assert_eq!(rt; names.try_extend(&[5, 6]).is_ok(), true);
        assert_eq!(rt; names.try_extend(&[7, 8]).is_ok(), false);
        assert_eq!(rt; names.try_push(7).is_ok(), true);
        assert_eq!(rt; names.try_push(8).is_ok(), false);
        assert_eq!(rt; names.as_slice(), &[5, 6, 7][..]);
        assert_eq!(rt; names.pop(), Some(7));
        assert_eq!(rt; names.try_merge(&[6, 8, 9]).is_ok(), false);
        assert_eq!(rt; names.try_merge(&[8, 6, 8]).is_ok(), true);
        assert_eq!(rt; names.as_slice(), &[5, 6, 8][..]);
        names.truncate(1);
        assert_eq!(rt; names.as_slice(), &[5][..]);
    }

    #[test]
    fn plain_records_are_read(rt: HostRuntime) {
        let plain = |len| Plain {
            items: [5, 6, 7],
            len,
        };
        assert!(rt; Seq::<u8, 3>::from_plain(&plain(4), 0).is_none());
        assert_eq!(rt;
            Seq::from_plain(&plain(2), 0).map(|told| told.to_array()),
            Some([5, 6, 0])
        );
        assert_eq!(rt;
            Seq::from_plain(&plain(3), 0).map(|told| Plain::from(&told).len),
            Some(3)
        );
    }
}
