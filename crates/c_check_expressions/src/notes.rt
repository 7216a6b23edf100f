//! What a part of a program says beside its tree.

ghost use Rattle.std.specs.Prelude.{◌≡◌, ◌++◌, ◌∷◌, [], map, OnOk};
ghost use Rattle.c_typing.specs.Checked as checked;
ghost use Rattle.c_check_expressions.specs.Notes.{note_of};
ghost use Rattle.c_check_names.specs.Views.{entity_of};

use c_check_names::{Declared, Entity};
use c_tree::IntegerType;
use pcc_base::{NoMemory, Span};
use std::alloc::Global;
use std::marker::Model;

/// What a declaration of an object holds at first (C99 6.7.8 and 6.9.2p2).
#[derive(Drop)]
pub enum Contents {
    /// The object isn't defined here.
    Elsewhere,
    /// It is zero where no other declaration gives values.
    Zeros,
    /// The first elements.
    Values(Vec<i32>),
}

/// An object of static storage where it is declared or spelled.
#[derive(Drop)]
pub struct Stored {
    pub entity: Entity,
    /// The type of the elements, of which an object that is no array has one.
    pub element: IntegerType,
    pub count: usize,
    pub contents: Contents,
}

/// What a part of a program says beside its tree.
#[derive(Drop)]
pub enum Note {
    /// A function is called, or an object is used, at its name.
    Uses(Entity, Span),
    /// An object is declared, or a string literal spelled.
    Stores(Stored),
    /// A function is defined, with its type.
    Defines(Entity, Declared),
}

/// What was said so far, in the order of the text.
#[derive(Drop)]
pub struct Notes {
    notes: Vec<Note>,
}

impl Model for Notes {
    ghost use Rattle.std.specs.Prelude.{List, map};
    ghost use Rattle.c_typing.specs.Checked as checked;
    ghost use Rattle.c_check_expressions.specs.Notes.{note_of};

    ghost Value = { List checked.Note };

    ghost view = { λ n. map note_of n.notes.items };
}

impl Notes {
    /// Nothing was said.
    pub fn new(alloc: Global) -> Notes
        ensures { result ≡ [] }
    {
        Notes {
            notes: Vec::new(alloc),
        }
    }

    /// The notes, in the order of the text.
    pub fn as_slice(&self) -> &[Note]
        ensures { map note_of result.now ≡ self.now }
    {
        self.notes.as_slice()
    }

    /// One more note.
    pub fn push(&mut self, note: Note) -> Result<(), NoMemory>
        ensures { OnOk result (self.new ≡ self.old ++ note_of note ∷ []) }
    {
        self.notes.push(note)?;
        Ok(())
    }

    /// What was said in another list, behind.
    pub fn append(&mut self, mut others: Notes) -> Result<(), NoMemory>
        ensures { OnOk result (self.new ≡ self.old ++ others) }
    {
        self.notes.append(&mut others.notes)?;
        Ok(())
    }

    /// A function is called, or an object is used, at its name.
    pub(crate) fn uses(&mut self, alloc: Global, entity: &Entity, at: Span) -> Result<(), NoMemory>
        ensures { OnOk result (self.new ≡ self.old ++ checked.Uses (entity_of entity.now) at ∷ []) }
    {
        let copy = entity.copy(alloc)?;
        self.push(Note::Uses(copy, at))
    }
}
