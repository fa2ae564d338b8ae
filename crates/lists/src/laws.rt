// The laws of the operations, each the contract of a function that does nothing. A crate whose contracts rest on a law
// calls the function, or cites the law's proof.
ghost use Rattle.lists.specs.Laws.{MembershipLaws, MergeLaws, BeginsLaws, SplitLaws, FewNames, ProcedureDiffers};
ghost use Rattle.lists.specs.Orders.{Tells, Ordered};
ghost use Rattle.lists.specs.Places.{PlaceLaws};

use crate::ordering::Order;

// Equal elements are one element, and of any two others one comes before the other.
pub fn order_laws<T: Order>()
    ensures tells { Tells T.Order.same }
    ensures ordered { Ordered T.Order.same T.Order.before }
{}

// Members and distinctness of one list without another.
pub fn membership_laws<T: Order>()
    ensures { MembershipLaws T.Order.same }
{}

// Members and distinctness of a merge, and merging lists in turn.
pub fn merge_laws<T: Order>()
    ensures { MergeLaws T.Order.same }
{}

// To begin is a partial order, for elements of any type.
pub fn begins_laws<T>()
    ensures { BeginsLaws T }
{}

// A split is the only one, and a procedure that starts from the longest decided order finds it where that order and the
// open one begin one another.
pub fn split_laws<T: Order>()
    ensures { SplitLaws T.Order.same }
{}

// Distinct names below a number are at most that number; and elsewhere the procedure may not find the split.
pub fn name_laws()
    ensures few { FewNames }
    ensures differs { ProcedureDiffers }
{}

// An element stands at its place: what taking it out and putting it back leaves.
pub fn place_laws<T: Order>()
    ensures { PlaceLaws T.Order.same }
{}
