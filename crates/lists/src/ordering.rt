// The order of elements.
ghost use Rattle.std.specs.Prelude.{◌≡◌, Bool, ◌||◌, nat_eq, nat_lt};
ghost use Rattle.lists.specs.Membership.{member};
ghost use Rattle.lists.specs.Orders.{Tells, Ordered};
ghost use Rattle.std.proofs.Common.{rules};

// Elements of which any two compare: one comes before the other, or they are the same element. Each implementation shows by
// the laws `tells` and `ordered` that its two tests make a total order. No `Ord` is asked for: a type may hold two of its elements
// equal that are not one element, or have another order of its own.
pub trait Order: Copy {
    ghost same: { Self → Self → Bool };

    ghost before: { Self → Self → Bool };

    // Whether the two are one element.
    fn is_same(&self, other: &Self) -> bool
        ensures { result ≡ same self.now other.now };

    // Whether this one comes first.
    fn is_before(&self, other: &Self) -> bool
        ensures { result ≡ before self.now other.now };

    // Whether this one comes first, or the two are one element.
    fn at_most(&self, other: &Self) -> bool
        ensures { result ≡ (before self.now other.now || same self.now other.now) }
    {
        self.is_before(other) || self.is_same(other)
    }

    // Whether this one stands in the list. Provided; a type that the library finds faster has its own.
    fn stands_in(&self, list: &[Self]) -> bool
        ensures { result ≡ member same self.now list.now }
    {
        list.iter().any(|x| self.is_same(x))
    }

    ghost tells: { Tells same };

    ghost ordered: { Ordered same before };
}

// A name is one byte, and names are ordered as numbers.
impl Order for u8 {
    ghost same = { nat_eq };

    ghost before = { nat_lt };

    ghost tells = { Prim.search rules };

    ghost ordered = { Prim.search rules };

    fn is_same(&self, other: &u8) -> bool {
        *self == *other
    }

    fn is_before(&self, other: &u8) -> bool {
        *self < *other
    }

    fn stands_in(&self, list: &[u8]) -> bool {
        list.contains(self)
    }
}
