// Agreements, call by call, with what each call must answer: an acceptance, a set of boards, or a refusal's number.
use crate::callers::{ask_all, ask_twice};
use agreement::{Agreement, AgreementRefusal, BoardSet, First, Late};
use std::process::Abort;
use std::test::Fail;

fn accepts(res: Result<(), AgreementRefusal>) -> Result<(), Fail> {
    res.map_err(|_| Fail::new("a call that should be accepted is not"))
}

fn refuses<T: Drop>(
    rt: &impl Abort,
    res: Result<T, AgreementRefusal>,
    number: u8,
) -> Result<(), Fail> {
    assert_eq!(rt; res.err().map(u8::from), Some(number));
    Ok(())
}

fn same(rt: &impl Abort, set: BoardSet, boards: BoardSet) -> Result<(), Fail> {
    for board in 0..9 {
        assert_eq!(rt; set.contains(board), boards.contains(board));
    }
    Ok(())
}

fn answers(
    rt: &impl Abort,
    res: Result<BoardSet, AgreementRefusal>,
    boards: BoardSet,
) -> Result<(), Fail> {
    let set = res.map_err(|_| Fail::new("a learn that should be accepted is not"))?;
    same(rt, set, boards)
}

fn boards(numbers: &[usize]) -> BoardSet {
    let mut set = BoardSet::empty();
    for number in numbers {
        set = set.with(*number);
    }
    set
}

#[test]
fn sets_of_boards(rt: HostRuntime) -> Result<(), Fail> {
    same(&rt, boards(&[]), BoardSet::empty())?;
    same(&rt, boards(&[6, 0, 6]), BoardSet::empty().with(0).with(6))?;
    same(&rt, boards(&[2]).with(7), boards(&[2]))?;
    same(
        &rt,
        boards(&[0, 3]).union(boards(&[3, 5])),
        boards(&[0, 3, 5]),
    )?;
    same(&rt, BoardSet::below(0), boards(&[]))?;
    same(&rt, BoardSet::below(3), boards(&[0, 1, 2]))?;
    same(&rt, BoardSet::below(9), boards(&[0, 1, 2, 3, 4, 5, 6]))?;
    assert_eq!(rt; boards(&[1, 4, 6]).contains(4), true);
    assert_eq!(rt; boards(&[1, 4, 6]).contains(5), false);
    assert_eq!(rt; boards(&[1, 4, 6]).contains(7), false);
    assert_eq!(rt; boards(&[1, 4, 6]).count_below(0), 0);
    assert_eq!(rt; boards(&[1, 4, 6]).count_below(4), 1);
    assert_eq!(rt; boards(&[1, 4, 6]).count_below(5), 2);
    assert_eq!(rt; boards(&[1, 4, 6]).count_below(1000), 3);
    Ok(())
}

#[test]
fn majorities_of_each_number(rt: HostRuntime) {
    for (n, majority) in [(1, 1), (2, 2), (3, 2), (4, 3), (5, 3), (6, 4), (7, 4)] {
        for k in 0..8usize {
            assert_eq!(rt; BoardSet::below(k).is_majority(n), k >= majority);
        }
    }
    assert_eq!(rt; boards(&[3, 4, 5, 6]).is_majority(5), false);
}

#[test]
fn refusals_have_numbers(rt: HostRuntime) {
    assert_eq!(rt; u8::from(AgreementRefusal::Size), 1);
    assert_eq!(rt; u8::from(AgreementRefusal::Unknown), 4);
    assert_eq!(rt; u8::from(AgreementRefusal::Already), 8);
    assert_eq!(rt; u8::from(AgreementRefusal::TooFew), 11);
}

// Below, at and past the majority, asked after each proposal: both kinds decide the same.
fn at_the_majority<A: Agreement>(
    rt: &impl Abort,
    a: &mut A,
    n: usize,
    majority: usize,
) -> Result<(), Fail> {
    accepts(a.clear(n))?;
    for board in 0..majority {
        refuses(rt, a.learn(15), 11)?;
        accepts(a.propose(15, board))?;
    }
    for board in majority..n {
        answers(rt, a.learn(15), BoardSet::below(majority))?;
        accepts(a.propose(15, board))?;
    }
    answers(rt, a.learn(15), BoardSet::below(majority))
}

#[test]
fn each_kind_at_the_majority(rt: HostRuntime) -> Result<(), Fail> {
    let mut first = First::new();
    let mut late = Late::new();
    for (n, majority) in [(1, 1), (2, 2), (3, 2), (5, 3), (7, 4)] {
        at_the_majority(&rt, &mut first, n, majority)?;
        at_the_majority(&rt, &mut late, n, majority)?;
    }
    Ok(())
}

#[test]
fn each_kind_asked_once(rt: HostRuntime) -> Result<(), Fail> {
    let mut first = First::new();
    let mut late = Late::new();
    for (n, majority) in [(1, 1), (2, 2), (3, 2), (5, 3), (7, 4)] {
        answers(&rt, ask_all(&mut first, n, 0), BoardSet::below(majority))?;
        answers(&rt, ask_all(&mut late, n, 0), BoardSet::below(n))?;
    }
    refuses(&rt, ask_all(&mut first, 0, 0), 1)?;
    refuses(&rt, ask_all(&mut late, 8, 16), 1)?;
    refuses(&rt, ask_all(&mut first, 7, 16), 4)?;
    refuses(&rt, ask_all(&mut late, 7, 16), 4)
}

// The set of epoch 2 is answered before and after board 1 has proposed in an epoch, there or elsewhere.
fn stays<A: Agreement>(rt: &impl Abort, a: &mut A, later: usize) -> Result<(), Fail> {
    let asked = ask_twice(a, 2, later, 1);
    let (before, after) = asked.map_err(|_| Fail::new("a learn that should be accepted is not"))?;
    same(rt, before, boards(&[0, 2]))?;
    same(rt, after, before)
}

fn asked_twice<A: Agreement>(rt: &impl Abort, a: &mut A) -> Result<(), Fail> {
    accepts(a.clear(3))?;
    accepts(a.propose(2, 2))?;
    accepts(a.propose(2, 0))?;
    stays(rt, a, 2)?;
    stays(rt, a, 1)
}

#[test]
fn a_decided_set_stays(rt: HostRuntime) -> Result<(), Fail> {
    asked_twice(&rt, &mut First::new())?;
    asked_twice(&rt, &mut Late::new())
}

fn limits<A: Agreement>(rt: &impl Abort, a: &mut A) -> Result<(), Fail> {
    refuses(rt, a.propose(0, 1), 4)?;
    accepts(a.propose(0, 0))?;
    answers(rt, a.learn(0), boards(&[0]))?;
    accepts(a.clear(3))?;
    refuses(rt, a.propose(16, 0), 4)?;
    refuses(rt, a.propose(15, 3), 4)?;
    refuses(rt, a.learn(16), 4)?;
    refuses(rt, a.learn(15), 11)?;
    accepts(a.propose(15, 2))?;
    refuses(rt, a.propose(15, 2), 8)?;
    refuses(rt, a.propose(16, 2), 4)?;
    accepts(a.propose(14, 2))?;
    refuses(rt, a.learn(15), 11)?;
    accepts(a.propose(15, 1))?;
    refuses(rt, a.learn(14), 11)?;
    answers(rt, a.learn(15), boards(&[1, 2]))
}

#[test]
fn each_kind_at_its_limits(rt: HostRuntime) -> Result<(), Fail> {
    limits(&rt, &mut First::new())?;
    limits(&rt, &mut Late::new())
}

fn cleared_between<A: Agreement>(rt: &impl Abort, a: &mut A) -> Result<(), Fail> {
    accepts(a.clear(5))?;
    accepts(a.propose(1, 4))?;
    accepts(a.propose(1, 3))?;
    accepts(a.propose(1, 0))?;
    answers(rt, a.learn(1), boards(&[0, 3, 4]))?;
    refuses(rt, a.clear(0), 1)?;
    refuses(rt, a.clear(8), 1)?;
    answers(rt, a.learn(1), boards(&[0, 3, 4]))?;
    accepts(a.clear(2))?;
    refuses(rt, a.learn(1), 11)?;
    refuses(rt, a.propose(1, 4), 4)?;
    accepts(a.propose(1, 0))?;
    accepts(a.propose(1, 1))?;
    answers(rt, a.learn(1), boards(&[0, 1]))
}

#[test]
fn each_kind_cleared_in_the_middle(rt: HostRuntime) -> Result<(), Fail> {
    cleared_between(&rt, &mut First::new())?;
    cleared_between(&rt, &mut Late::new())
}

// Refused first, and asked again only when more than a majority have proposed.
fn asked_late<A: Agreement>(rt: &impl Abort, a: &mut A, decided: BoardSet) -> Result<(), Fail> {
    accepts(a.clear(5))?;
    accepts(a.propose(3, 4))?;
    accepts(a.propose(3, 1))?;
    refuses(rt, a.learn(3), 11)?;
    accepts(a.propose(3, 0))?;
    accepts(a.propose(3, 2))?;
    answers(rt, a.learn(3), decided)?;
    accepts(a.propose(3, 3))?;
    answers(rt, a.learn(3), decided)
}

#[test]
fn each_kind_asked_late(rt: HostRuntime) -> Result<(), Fail> {
    asked_late(&rt, &mut First::new(), boards(&[0, 1, 4]))?;
    asked_late(&rt, &mut Late::new(), boards(&[0, 1, 2, 4]))
}
