// Making and changing a sequence of bounded length.
ghost use Rattle.std.specs.Prelude.{◌≡◌, ◌<◌, ◌≤◌, ◌↔◌, [], ◌∷◌, ◌++◌, length, take, replicate, if◌then◌else◌, IsOk, is_ok};
ghost use Rattle.lists.specs.Held.{held, seen, holding, Popped};
ghost use Rattle.lists.specs.Merging.{merged_into};

use crate::full::Full;
use crate::ordering::Order;
use crate::seq::Seq;

// Writes `x` into each place.
fn overwrite<T: Copy>(places: &mut [T], x: T)
    ensures { places.new ≡ replicate (length places.old) x }
{
    for place in places.iter_mut() {
        *place = x;
    }
}

impl<T: Copy, const N: usize> Seq<T, N> {
    // No elements: each place holds `blank`, which the caller gives, since a type of elements owes no default.
    pub fn new(blank: T) -> Seq<T, N>
        ensures held { held result ≡ [] }
        ensures blank { result.blank ≡ blank }
    {
        Seq {
            items: [blank; N],
            len: 0,
            blank,
        }
    }

    // Puts `x` behind the others, if there is a place for it.
    pub fn try_push(&mut self, x: T) -> Result<(), Full>
        ensures fits { IsOk result ↔ (length (held self.old) < N) }
        ensures held { seen self.new ≡ (if is_ok result then holding (held self.old ++ x ∷ []) self.old else seen self.old) }
    {
        if self.len >= N {
            return Err(Full);
        }
        self.items[self.len] = x;
        self.len += 1;
        Ok(())
    }

    // Takes the last element off, and writes the blank in its place.
    pub fn pop(&mut self) -> Option<T>
        ensures held { Popped result (held self.old) (held self.new) }
        ensures blank { self.new.blank ≡ self.old.blank }
    {
        let last = *self.as_slice().last()?;
        self.items[self.len - 1] = self.blank;
        self.len -= 1;
        Some(last)
    }

    // Keeps the first `len` elements, or all where there are no more.
    pub fn truncate(&mut self, len: usize)
        ensures { seen self.new ≡ holding (take len (held self.old)) self.old }
    {
        if len >= self.len {
            return;
        }
        let blank = self.blank;
        let all = &mut self.items[..];
        overwrite(&mut all[len..self.len], blank);
        self.len = len;
    }

    // Puts all of `more` behind the others if they fit, and else nothing.
    pub fn try_extend(&mut self, more: &[T]) -> Result<(), Full>
        ensures fits { IsOk result ↔ (length (held self.old ++ more.now) ≤ N) }
        ensures held { seen self.new ≡ (if is_ok result then holding (held self.old ++ more.now) self.old else seen self.old) }
    {
        if more.len() > N - self.len {
            return Err(Full);
        }
        let all = &mut self.items[..];
        all[self.len..self.len + more.len()].copy_from_slice(more);
        self.len += more.len();
        Ok(())
    }
}

impl<T: Order, const N: usize> Seq<T, N> {
    // Puts those elements of `more` behind the others that are not there yet, each once, if they fit, and else nothing.
    pub fn try_merge(&mut self, more: &[T]) -> Result<(), Full>
        ensures fits { IsOk result ↔ (length (merged_into T.Order.same (held self.old) more.now) ≤ N) }
        ensures held { seen self.new ≡ (if is_ok result then holding (merged_into T.Order.same (held self.old) more.now) self.old else seen self.old) }
    {
        let before = self.len;
        for x in more {
            if !self.contains(x) && self.try_push(*x).is_err() {
                self.truncate(before);
                return Err(Full);
            }
        }
        Ok(())
    }
}
