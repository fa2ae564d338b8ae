// A sequence as a plain record, which may say anything.
ghost use Rattle.std.specs.Prelude.{◌≡◌, ◌≤◌, length, take, option_map};
ghost use Rattle.std.specs.Option.{SomeIff};
ghost use Rattle.lists.specs.Held.{held, seen, places};

use crate::seq::Seq;

// As many elements as `len` says, if there are so many places. Nothing is known of it. An array with a length: a rule of the
// project, as such records are lent.
#[derive(Clone, Copy)]
pub struct Plain<T, const N: usize> {
    pub items: [T; N],
    pub len: usize,
}

impl<T: Copy, const N: usize> Seq<T, N> {
    // The sequence of which a plain record tells, over `blank`, and so no `TryFrom`: none where the record says that there are more than `N` elements.
    pub fn from_plain(plain: &Plain<T, N>, blank: T) -> Option<Seq<T, N>>
        ensures { SomeIff (option_map seen result) (plain.now.len ≤ N) (record { held = take plain.now.len plain.now.items; blank = blank }) }
    {
        let items = &plain.items[..];
        let mut told = Seq::new(blank);
        told.try_extend(items.get(..plain.len)?).unwrap();
        Some(told)
    }
}

// A plain record of the sequence, as it lies in memory.
impl<T: Copy, const N: usize> From<&Seq<T, N>> for Plain<T, N> {
    ghost from_gives = { λ s plain. plain ≡ record { items = places N (seen s.now); len = length (held s.now) } };

    fn from(told: &Seq<T, N>) -> Plain<T, N> {
        Plain {
            items: told.items,
            len: told.len,
        }
    }
}
