//! Blocks that lines name before it is known which ones they are.

ghost use Rattle.std.specs.Prelude.{◌≡◌, true, IfOk};

use pcc_base::NoMemory;
use std::alloc::Global;
use std::marker::Model;

/// The blocks of second ways of `if`, and of what comes after the body of a `for`: their numbers are known only behind
/// the lines before them, which name them. So the lines of a function are made twice: the first time each such number
/// is written down in the order of the text, whatever the lines name, and the second time it is at hand. Each time it
/// is compared with the number that the block gets: the lines are right where all were the same.
#[derive(Drop)]
pub struct Ahead {
    known: Vec<u32>,
    at: usize,
    right: bool,
}

impl Model for Ahead {
    ghost use Rattle.std.specs.Prelude.{Bool};

    ghost Value = { Bool };

    ghost view = { λ a. a.right };
}

impl Ahead {
    /// Nothing is known yet.
    pub fn new(alloc: Global) -> Ahead {
        Ahead {
            known: Vec::new(alloc),
            at: 0,
            right: true,
        }
    }

    /// From the start of the text on once more.
    pub fn again(&mut self) {
        self.at = 0;
        self.right = true;
    }

    /// Whether each block that was named ahead has got its number since the start of the text.
    pub fn is_right(&self) -> bool
        ensures { result ≡ self.now }
    {
        self.right
    }

    /// The place of the next block among those that are named ahead, and its number, or 0 where that isn't known.
    pub fn next(&mut self) -> Result<(usize, u32), NoMemory>
        ensures { IfOk result (λ _. self.new ≡ self.old) }
    {
        let place = self.at;
        // This sum is never refused: each place that is named ahead is a block of its own.
        self.at = place.checked_add(1).ok_or(NoMemory)?;
        match self.known.get(place).copied() {
            Some(block) => Ok((place, block)),
            None => {
                self.known.push(0)?;
                Ok((place, 0))
            }
        }
    }

    /// The block that was named ahead by one number has got another.
    pub fn settle(&mut self, place: usize, named: u32, block: u32)
        ensures { self.new ≡ true → (self.old ≡ true) × (named ≡ block) }
    {
        if named != block {
            self.right = false;
            if place < self.known.len() {
                self.known[place] = block;
            }
        }
    }
}
