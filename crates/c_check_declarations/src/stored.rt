//! Objects of static storage (C99 6.7.8 and 6.9.2).

ghost use Rattle.std.specs.Prelude.{◌≡◌, IfOk};
ghost use Rattle.c_syntax.specs.Declarations.{value_of};
ghost use Rattle.c_typing.specs.Checked.{Stores};
ghost use Rattle.c_typing.specs.Initialisers.{contents_for};
ghost use Rattle.c_typing.specs.Statements.{elements_of, size_of, stored};
ghost use Rattle.c_check_names.specs.Views.{entity_of};
ghost use Rattle.c_check_expressions.specs.Notes.{contents_of, note_of};
ghost use Rattle.c_check_expressions.specs.Said.{IsSaid};
ghost use Rattle.c_check_declarations.specs.Views.{object_of};
ghost use Rattle.c_check_declarations.specs.ItemAnswers.{IsAnything};

use crate::initialisers::contents_for;
use crate::objects::ObjectType;
use c_check_expressions::{Contents, Judged, Note, Notes, Stored};
use c_check_names::{Entity, Scopes};
use c_syntax::InitialiserPart;
use c_tree::IntegerType;
use pcc_base::NoMemory;
use std::alloc::Global;

/// The type of the elements, of which an object that is no array has one.
fn elements_of(of: ObjectType) -> IntegerType
    ensures { result ≡ elements_of (object_of of) }
{
    match of {
        ObjectType::Integer(element)
        | ObjectType::Pointer(element)
        | ObjectType::Array(element, _) => element,
    }
}

/// How many elements an object has.
fn size_of(of: ObjectType) -> usize
    ensures { result ≡ size_of (object_of of) }
{
    match of {
        ObjectType::Integer(_) | ObjectType::Pointer(_) => 1,
        ObjectType::Array(_, count) => count as usize,
    }
}

/// That an object is declared, with what it holds at first.
fn stored_note(entity: Entity, of: ObjectType, contents: Contents) -> Note
    ensures { note_of result ≡ Stores (record {
      entity = entity_of entity;
      element = elements_of (object_of of);
      count = size_of (object_of of);
      contents = contents_of contents;
    }) }
{
    Note::Stores(Stored {
        entity,
        element: elements_of(of),
        count: size_of(of),
        contents,
    })
}

/// An object of static storage is declared: the note of it stands before those of its initialiser. It holds `otherwise`
/// where nothing initialises it.
pub fn stored_object(
    alloc: Global,
    scopes: &Scopes,
    notes: &mut Notes,
    entity: Entity,
    of: ObjectType,
    otherwise: Contents,
    value: &Option<InitialiserPart>,
) -> Result<Judged<()>, NoMemory>
    ensures { IfOk result (λ j. IsSaid IsAnything (stored {A = Unit {0}} (entity_of entity) (object_of of) tt
        (contents_for scopes.now (object_of of) (contents_of otherwise) (value_of value.now))) j
        notes.old notes.new) }
{
    let mut inside = Notes::new(alloc);
    match contents_for(alloc, scopes, &mut inside, of, otherwise, value)? {
        Judged::Fails(fault) => Ok(Judged::Fails(fault)),
        Judged::Fits(contents) => {
            notes.push(stored_note(entity, of, contents))?;
            notes.append(inside)?;
            Ok(Judged::Fits(()))
        }
    }
}
