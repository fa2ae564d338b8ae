// Operations over slices of ordered elements. What makes a new list takes the blank of its unused places from the caller, since
// a type of elements owes no default.
ghost use Rattle.std.specs.Prelude.{◌≡◌, true, ◌++◌, length, if◌then◌else◌, Some, None};
ghost use Rattle.lists.specs.Ranges.{between, in_range};
ghost use Rattle.lists.specs.Held.{Made};
ghost use Rattle.lists.specs.Membership.{member, distinct};
ghost use Rattle.lists.specs.Places.{place, PlaceIn};
ghost use Rattle.lists.specs.Difference.{without};
ghost use Rattle.lists.specs.Merging.{merge};

use crate::full::Full;
use crate::ordering::Order;
use crate::seq::Seq;

// Whether `x` stands in the list.
pub fn contains<T: Order>(list: &[T], x: &T) -> bool
    ensures { result ≡ member T.Order.same x.now list.now }
{
    x.stands_in(list)
}

// The place where `x` first stands in the list.
pub fn position<T: Order>(list: &[T], x: &T) -> Option<usize>
    ensures is { result ≡ (if member T.Order.same x.now list.now then Some (place T.Order.same x.now list.now) else None) }
    ensures within { PlaceIn result (length list.now) }
{
    list.iter().position(|y| x.is_same(y))
}

// Whether no element stands twice.
pub fn is_distinct<T: Order>(list: &[T]) -> bool
    ensures { result ≡ distinct T.Order.same list.now }
{
    let mut left = list;
    while let [x, rest @ ..] = left {
        if contains(rest, x) {
            return false;
        }
        left = rest;
    }
    true
}

// The elements of `a`, and behind them those of `b`; refused where they do not fit.
pub fn join<T: Copy, const N: usize>(a: &[T], b: &[T], blank: T) -> Result<Seq<T, N>, Full>
    ensures { Made N result (a.now ++ b.now) blank }
{
    let mut both = Seq::new(blank);
    both.try_extend(a)?;
    both.try_extend(b)?;
    Ok(both)
}

// The elements of `a` that are not in `b`, in order; refused where they do not fit.
pub fn without<T: Order, const N: usize>(a: &[T], b: &[T], blank: T) -> Result<Seq<T, N>, Full>
    ensures { Made N result (without T.Order.same a.now b.now) blank }
{
    let mut left = Seq::new(blank);
    for x in a {
        if !contains(b, x) {
            left.try_push(*x)?;
        }
    }
    Ok(left)
}

// The elements of both lists, each where it first appears; refused where they do not fit.
pub fn merge<T: Order, const N: usize>(a: &[T], b: &[T], blank: T) -> Result<Seq<T, N>, Full>
    ensures { Made N result (merge T.Order.same a.now b.now) blank }
{
    let mut all = Seq::new(blank);
    all.try_merge(a)?;
    all.try_merge(b)?;
    Ok(all)
}

// Whether `x` is neither before `low` nor behind `high`.
fn is_between<T: Order>(x: &T, low: &T, high: &T) -> bool
    ensures { result ≡ in_range T.Order.before low.now high.now x.now }
{
    !x.is_before(low) && !high.is_before(x)
}

// How many elements of the list are from `low` to `high`, both counted: none where `low` exceeds `high`.
pub fn between<T: Order>(list: &[T], low: &T, high: &T) -> usize
    ensures is { result ≡ between T.Order.before low.now high.now list.now }
    ensures none { T.Order.before high.now low.now ≡ true → result ≡ 0 }
{
    list.iter()
        .map(|x| usize::from(is_between(x, low, high)))
        .sum()
}
