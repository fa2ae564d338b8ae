// A sequence of bounded length, as it lies in memory.
ghost use Rattle.std.specs.Prelude.{◌≡◌, ◌-◌, ◌≤◌, length, drop, replicate, ⊤};

use std::alloc::AllocError;

// At most `N` elements, in an array with a length: a rule of the project, as an answer must not depend on free memory. The
// places past the length hold `blank`, so that sequences with equal contents are equal records. Ghost fields, and no model: of each
// value it is known what they say, and a struct that holds one is copied as any other.
pub struct Seq<T, const N: usize> {
    pub(crate) items: [T; N],
    pub(crate) len: usize,
    pub(crate) blank: T,
    ghost within: { len ≤ N },
    ghost full: { length items ≡ N },
    ghost rest: { drop len items ≡ replicate (N - len) blank },
}

// By hand, and `Copy` too: a derive is refused where a struct has both a parameter and a ghost field.
impl<T: Copy, const N: usize> Clone for Seq<T, N> {
    ghost is_clone = { λ x y. y ≡ x };

    ghost is_infallible = { λ _. ⊤ };

    fn clone(&self) -> Result<Self, AllocError> {
        Ok(*self)
    }
}

impl<T: Copy, const N: usize> Copy for Seq<T, N> {}
