// Reading a sequence of bounded length.
ghost use Rattle.std.specs.Prelude.{◌≡◌, ◌≤◌, length, ◌==◌};
ghost use Rattle.lists.specs.Filling.{KnownByContents};
ghost use Rattle.lists.specs.Held.{held, seen, places};
ghost use Rattle.lists.specs.Membership.{member};

use crate::ordering::Order;
use crate::seq::Seq;
use crate::slices::contains;

impl<T: Copy, const N: usize> Seq<T, N> {
    pub fn len(&self) -> usize
        ensures is { result ≡ length (held self.now) }
        ensures within { result ≤ N }
    {
        self.len
    }

    pub fn is_empty(&self) -> bool
        ensures { result ≡ (length (held self.now) == 0) }
    {
        self.as_slice().is_empty()
    }

    pub fn as_slice(&self) -> &[T]
        ensures is { result.now ≡ held self.now }
        ensures within { length (held self.now) ≤ N }
    {
        &self.items[..self.len]
    }

    // Every place of the sequence: its elements, and the blank in each place past them. No `From`, since an array of a type
    // parameter takes none from this crate.
    pub fn to_array(&self) -> [T; N]
        ensures { result ≡ places N (seen self.now) }
    {
        self.items
    }

    // Two sequences with equal contents, over the same blank, are equal, and so is every byte of the places and the length.
    pub fn known_by_contents(&self, other: &Seq<T, N>)
        ensures bytes { KnownByContents T N }
        ensures seen { held self.now ≡ held other.now → self.now.blank ≡ other.now.blank → self.now ≡ other.now }
    {}
}

impl<T: Order, const N: usize> Seq<T, N> {
    pub fn contains(&self, x: &T) -> bool
        ensures { result ≡ member T.Order.same x.now (held self.now) }
    {
        contains(self.as_slice(), x)
    }
}
