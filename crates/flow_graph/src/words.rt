//! The argument words of a call.

ghost use Rattle.std.specs.Prelude.{◌≡◌, IfOk, length, slice_get};

use pcc_base::NoMemory;
use std::alloc::Global;
use std::marker::Model;

/// The variables whose values a call passes, in order. A contract sees a list of numbers, so that two calls that pass
/// the same words are the same op.
#[derive(Drop)]
pub struct Words {
    list: Vec<u32>,
}

impl Model for Words {
    ghost use Rattle.std.specs.Prelude.{List, ℕ};

    ghost Value = { List ℕ };

    ghost view = { λ w. w.list.items };
}

impl Words {
    /// These variables, in order.
    pub fn new(list: Vec<u32>) -> Words
        ensures { result ≡ list.items }
    {
        Words { list }
    }

    /// The variables, in order.
    pub fn as_slice(&self) -> &[u32]
        ensures { result.now ≡ self.now }
    {
        self.list.as_slice()
    }

    /// How many variables there are.
    pub fn len(&self) -> usize
        ensures { result ≡ length self.now }
    {
        self.list.len()
    }

    /// The variable at a place, if there are so many.
    pub fn at(&self, place: usize) -> Option<u32>
        ensures { result ≡ slice_get self.now place }
    {
        self.list.get(place).copied()
    }

    /// The same variables once more.
    pub fn copy(&self, alloc: Global) -> Result<Words, NoMemory>
        ensures { IfOk result (λ words. words ≡ self.now) }
    {
        Ok(Words {
            list: self.list.to_vec(alloc)?,
        })
    }
}
