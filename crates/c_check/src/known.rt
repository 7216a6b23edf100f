//! What notes define (C99 6.9.2).

ghost use Rattle.std.specs.Prelude.{◌≡◌, ◌∷◌, [], List, map, IfOk, OnOk};
ghost use Rattle.c_typing.specs.Checked as checked;
ghost use Rattle.c_check_expressions.specs.Notes.{note_of, stored_of};
ghost use Rattle.c_check_names.specs.Views.{entity_of};
ghost use Rattle.c_check.specs.Tables.{known_of, IsKnownOf};

use crate::tables::{Things, Values};
use c_check_expressions::{Contents, Note, Stored};
use c_check_names::Entity;
use pcc_base::NoMemory;
use std::alloc::Global;

/// Which objects and functions are defined, and what values the objects have.
#[derive(Drop)]
pub struct Known {
    pub(crate) objects: Things,
    pub(crate) values: Values,
    pub(crate) functions: Things,
}

impl Known {
    fn new(alloc: Global) -> Known
        ensures { IsKnownOf [] (known_of result) }
    {
        Known {
            objects: Things::new(alloc),
            values: Values::new(alloc),
            functions: Things::new(alloc),
        }
    }

    /// An object before those that are known.
    fn add_object(&mut self, alloc: Global, stored: &Stored) -> Result<(), NoMemory>
        ensures { OnOk result ((notes : List checked.Note) → IsKnownOf notes (known_of self.old)
            → IsKnownOf (checked.Stores (stored_of stored.now) ∷ notes) (known_of self.new)) }
    {
        match &stored.contents {
            Contents::Elsewhere => Ok(()),
            Contents::Zeros => self.objects.add(alloc, &stored.entity),
            Contents::Values(values) => {
                self.objects.add(alloc, &stored.entity)?;
                self.values.put(alloc, &stored.entity, values.as_slice())
            }
        }
    }

    /// A note before those that are known.
    fn add(&mut self, alloc: Global, note: &Note) -> Result<(), NoMemory>
        ensures { OnOk result ((notes : List checked.Note) → IsKnownOf notes (known_of self.old)
            → IsKnownOf (note_of note.now ∷ notes) (known_of self.new)) }
    {
        match note {
            Note::Uses(_, _) => Ok(()),
            Note::Stores(stored) => self.add_object(alloc, stored),
            Note::Defines(entity, _) => self.functions.add(alloc, entity),
        }
    }
}

/// What the notes define.
pub fn defined(alloc: Global, notes: &[Note]) -> Result<Known, NoMemory>
    ensures { IfOk result (λ k. IsKnownOf (map note_of notes.now) (known_of k)) }
{
    let mut known = Known::new(alloc);
    let mut left = notes.len();
    'notes: while left > 0 {
        left -= 1;
        known.add(alloc, &notes[left])?;
    }
    Ok(known)
}
