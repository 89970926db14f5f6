//! Orders of the occurrences of an expansion proof.

ghost use Rattle.std.specs.Prelude.{◌≡◌, ◌<◌, Some, length, slice_get};

use std::marker::Model;

/// All occurrences, each once, before those that it is directly before and before those below it. Contracts see the list of their
/// numbers, from 1.
#[derive(Drop)]
pub struct Order {
    pub(crate) items: Vec<u64>,
}

impl Model for Order {
    ghost use Rattle.std.specs.Prelude.{List, ℕ};

    ghost Value = { List ℕ };

    ghost view = { λ order. order.items.items };
}

impl Order {
    /// How many occurrences there are.
    pub fn len(&self) -> u64
        ensures { result ≡ length self.now }
    {
        self.items.len() as u64
    }

    /// The occurrence at a place, counted from 0.
    pub fn at(&self, i: u64) -> u64
        requires { i < length self.now }
        ensures { slice_get self.now i ≡ Some result }
    {
        self.items[i as usize]
    }
}
