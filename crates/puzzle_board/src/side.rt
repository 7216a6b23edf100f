ghost use Rattle.std.specs.Prelude.{◌≡◌, ◌≤◌, [], length, slice_get, MatchResult};
ghost use Rattle.puzzle_board.specs.Places.{IsPosition, IsRising, is_entry_of, place_in, with_place};

use crate::place::Place;
use pcc_base::NoMemory;
use std::alloc::Global;
use std::marker::Model;

/// The places of variables on one side of a point. A contract sees a list of variables with their places, in ascending
/// order of the variables.
#[derive(Drop)]
pub(crate) struct Side {
    entries: Vec<(u32, Place)>,
}

impl Model for Side {
    ghost use Rattle.std.specs.Prelude.{List};
    ghost use Rattle.puzzle_board.specs.Places.{Entry, IsRising};

    ghost Value = { List Entry };

    ghost view = { λ p. p.entries.items };

    ghost invariant = { λ p. IsRising p.entries.items };
}

/// Where the entry of a variable is, or comes in.
fn position(entries: &[(u32, Place)], var: u32) -> usize
    requires { IsRising entries.now }
    ensures { IsPosition entries.now var result }
{
    entries.partition_point(|entry| entry.0 < var)
}

/// The entry there is the variable's.
fn is_at(entries: &[(u32, Place)], i: usize, var: u32) -> bool
    ensures { result ≡ is_entry_of (slice_get entries.now i) var }
{
    if i >= entries.len() {
        return false;
    }
    entries[i].0 == var
}

impl Side {
    // No places.
    pub(crate) fn new(alloc: Global) -> Side
        ensures { result ≡ [] }
    {
        Side {
            entries: Vec::new(alloc),
        }
    }

    // The place of a variable, if it has one.
    pub(crate) fn get(&self, var: u32) -> Option<Place>
        ensures { result ≡ place_in self.now var }
    {
        let i = position(&self.entries, var);
        if is_at(&self.entries, i, var) {
            return Some(self.entries[i].1);
        }
        None
    }

    // The entries, in order.
    pub(crate) fn as_slice(&self) -> &[(u32, Place)]
        ensures { result.now ≡ self.now }
    {
        self.entries.as_slice()
    }

    // Gives a variable this place.
    pub(crate) fn set(&mut self, var: u32, place: Place) -> Result<(), NoMemory>
        ensures { MatchResult result (λ _. self.new ≡ with_place self.old var place) (λ _. self.new ≡ self.old) }
    {
        let i = position(&self.entries, var);
        if is_at(&self.entries, i, var) {
            self.entries[i] = (var, place);
            return Ok(());
        }
        self.entries.insert(i, (var, place))?;
        Ok(())
    }
}
