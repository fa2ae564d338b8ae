// A type of elements that has no `==` and no order of the library's, and a caller that knows of any sequence how much it holds.
ghost use Rattle.std.specs.Prelude.{◌≤◌, length};
ghost use Rattle.lists.specs.Held.{held, Popped};

use lists::{Order, Seq};

// Two numbers.
#[derive(Clone, Copy)]
pub struct Key {
    pub id: u8,
    pub tag: u8,
}

impl Order for Key {
    ghost use Rattle.std.proofs.Common.{rules};
    ghost use Rattle.trials.specs.Keys.{same_key, before_key};

    ghost same = { same_key };

    ghost before = { before_key };

    ghost tells = { Prim.search rules };

    ghost ordered = { Prim.search rules };

    fn is_same(&self, other: &Key) -> bool {
        self.id == other.id && self.tag == other.tag
    }

    fn is_before(&self, other: &Key) -> bool {
        if self.id == other.id {
            self.tag < other.tag
        } else {
            self.id < other.id
        }
    }
}

// Takes the newest key off. That no sequence holds more than its places needs no call.
pub fn newest_off(keys: &mut Seq<Key, 4>) -> Option<Key>
    ensures newest { Popped result (held keys.old) (held keys.new) }
    ensures few { length (held keys.new) ≤ 4 }
{
    keys.pop()
}
