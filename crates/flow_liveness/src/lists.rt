//! Lists that grow at their ends, one for each of so many places.

ghost use Rattle.std.specs.Prelude.{◌≡◌, ◌<◌, ◌++◌, ◌∷◌, [], length, replicate, IfOk, MatchResult};
ghost use Rattle.flow_liveness.specs.Lists.{list_at, with_last};

use pcc_base::NoMemory;
use std::alloc::Global;
use std::marker::Model;

/// The list of one place.
#[derive(Drop)]
struct Row<T> {
    entries: Vec<T>,
}

impl<T> Model for Row<T> {
    ghost use Rattle.std.specs.Prelude.{List};

    ghost Value = { List T };

    ghost view = { λ r. r.entries.items };
}

impl<T: Copy> Row<T> {
    // No entries.
    fn new(alloc: Global) -> Row<T>
        ensures { result ≡ [] }
    {
        Row {
            entries: Vec::new(alloc),
        }
    }

    // Puts an entry last.
    fn push(&mut self, entry: T) -> Result<(), NoMemory>
        ensures { MatchResult result (λ _. self.new ≡ self.old ++ entry ∷ []) (λ _. self.new ≡ self.old) }
    {
        self.entries.push(entry)?;
        Ok(())
    }

    // The entries.
    fn as_slice(&self) -> &[T]
        ensures { result.now ≡ self.now }
    {
        self.entries.as_slice()
    }
}

/// A list for each of so many places. A contract sees a list of lists.
#[derive(Drop)]
pub struct Lists<T> {
    rows: Vec<Row<T>>,
}

impl<T> Model for Lists<T> {
    ghost use Rattle.std.specs.Prelude.{List};

    ghost Value = { List (List T) };

    ghost view = { λ l. l.rows.items };
}

impl<T: Copy> Lists<T> {
    /// Empty lists for so many places.
    pub fn new(alloc: Global, places: u32) -> Result<Lists<T>, NoMemory>
        ensures { IfOk result (λ lists. lists ≡ replicate places []) }
    {
        let mut rows = Vec::new(alloc);
        for _place in 0..places {
            rows.push(Row::new(alloc))?;
        }
        Ok(Lists { rows })
    }

    /// Puts an entry last in the list of a place.
    pub fn push(&mut self, place: u32, entry: T) -> Result<(), NoMemory>
        requires { place < length self.old }
        ensures { MatchResult result (λ _. self.new ≡ with_last self.old place entry) (λ _. self.new ≡ self.old) }
    {
        let row = &mut self.rows[place as usize];
        row.push(entry)
    }

    /// How many places there are.
    pub fn len(&self) -> usize
        ensures { result ≡ length self.now }
    {
        self.rows.len()
    }

    /// The list of a place.
    pub fn at(&self, place: u32) -> &[T]
        requires { place < length self.now }
        ensures { result.now ≡ list_at self.now place }
    {
        let row = &self.rows[place as usize];
        row.as_slice()
    }
}
