// Changing a sequence of bounded length at a place.
ghost use Rattle.std.specs.Prelude.{◌≡◌, ◌<◌, ◌≤◌, ◌↔◌, length, if◌then◌else◌, IsOk, is_ok};
ghost use Rattle.lists.specs.Held.{held, seen, holding};
ghost use Rattle.lists.specs.Places.{Taken};
ghost use Rattle.std.specs.List.{insert};

use crate::full::Full;
use crate::seq::Seq;

impl<T: Copy, const N: usize> Seq<T, N> {
    // Puts `x` in at a place from 0 to the length, those from there on moving down, if there is a place for it.
    pub fn try_insert(&mut self, at: usize, x: T) -> Result<(), Full>
        ensures fits { IsOk result ↔ ((at ≤ length (held self.old)) × (length (held self.old) < N)) }
        ensures held { seen self.new ≡ (if is_ok result then holding (insert (held self.old) at x) self.old else seen self.old) }
    {
        if at > self.len {
            return Err(Full);
        }
        self.try_push(x)?;
        let all = &mut self.items[..];
        all[at..self.len].rotate_right(1);
        Ok(())
    }

    // Takes the element at a place out, those behind it moving up.
    pub fn remove(&mut self, at: usize) -> Option<T>
        ensures held { Taken result at (held self.old) (held self.new) }
        ensures blank { self.new.blank ≡ self.old.blank }
    {
        if at >= self.len {
            return None;
        }
        let all = &mut self.items[..];
        all[at..self.len].rotate_left(1);
        self.pop()
    }
}
