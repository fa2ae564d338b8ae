// What two lists have in common at their beginning, and the split of an open order against a decided one.
ghost use Rattle.std.specs.Prelude.{◌≡◌, ◌≤◌, List, length};
ghost use Rattle.lists.specs.Beginnings.{common, Longest};
ghost use Rattle.lists.specs.Splits.{IsSplit};

use crate::ordering::Order;

// How many elements the two lists have in common at their beginning.
fn common_length<T: Order>(a: &[T], b: &[T]) -> usize
    ensures is { result ≡ length (common T.Order.same a.now b.now) }
    ensures left { result ≤ length a.now }
    ensures right { result ≤ length b.now }
{
    a.iter().zip(b).take_while(|(x, y)| x.is_same(*y)).count()
}

// The longest list that begins both, as a part of the first.
pub fn common_beginning<'a, T: Order>(a: &'a [T], b: &[T]) -> &'a [T]
    ensures is { result.now ≡ common T.Order.same a.now b.now }
    ensures longest { Longest a.now b.now result.now }
{
    &a[..common_length(a, b)]
}

// An open order and a decided one, split: `good` begins both, `bad` is the rest of the open one, `new` the rest of the
// decided one, and nothing begins both rests.
#[derive_where(Clone, Copy)]
pub struct Parts<'o, 'd, T> {
    pub good: &'o [T],
    pub bad: &'o [T],
    pub new: &'d [T],
}

// The one split of an open order against a decided order.
pub fn split<'o, 'd, T: Order>(opened: &'o [T], decided: &'d [T]) -> Parts<'o, 'd, T>
    ensures is { IsSplit opened.now decided.now result.good.now result.bad.now result.new.now }
    ensures only { (good bad new : List T) → IsSplit opened.now decided.now good bad new → (good ≡ result.good.now) × (bad ≡ result.bad.now) × (new ≡ result.new.now) }
    ensures good { result.good.now ≡ common T.Order.same opened.now decided.now }
{
    let n = common_length(opened, decided);
    let (good, bad) = opened.split_at(n);
    Parts {
        good,
        bad,
        new: &decided[n..],
    }
}
