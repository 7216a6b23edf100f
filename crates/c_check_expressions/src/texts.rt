//! String literals (C99 6.4.5).

ghost use Rattle.std.specs.Prelude.{◌≡◌, ◌++◌, pos, map, length, IfOk, OnOk};
ghost use Rattle.c_tree.specs.Store.{converted};
ghost use Rattle.c_tree.specs.declared.types.IntegerType.TheVariants.{Char};
ghost use Rattle.c_typing.specs.Expressions.{text_literal, text_note, text_values, text_entity};
ghost use Rattle.c_check_expressions.specs.Judged.{IsOperandOf};
ghost use Rattle.c_check_names.specs.Views.{entity_of};
ghost use Rattle.c_check_expressions.specs.Notes.{note_of};
ghost use Rattle.c_check_expressions.specs.Said.{IsSaid};

use crate::judged::{Judged, Operand};
use crate::named::fitting;
use crate::notes::{Contents, Note, Notes, Stored};
use crate::places::first_piece;
use c_check_names::{Entity, Scopes};
use c_operators::convert;
use c_syntax::TextPiece;
use c_tree::{ArrayRef, Expression, IntegerType};
use pcc_base::NoMemory;
use std::alloc::Global;

/// The values of one literal's bytes behind others; `char` is signed.
fn add_bytes(values: &mut Vec<i32>, bytes: &[u8]) -> Result<(), NoMemory>
    ensures { OnOk result (values.new.items
        ≡ values.old.items ++ map (λ byte. converted Char (pos byte)) bytes.now) }
{
    for byte in bytes {
        values.push(convert(IntegerType::Char, i32::from(*byte)))?;
    }
    Ok(())
}

/// The values of an array that string literals are, the zero at its end among them.
pub fn text_values(alloc: Global, pieces: &[TextPiece]) -> Result<Vec<i32>, NoMemory>
    ensures { IfOk result (λ v. v.items ≡ text_values pieces.now) }
{
    let mut values = Vec::new(alloc);
    for piece in pieces {
        add_bytes(&mut values, piece.bytes.as_bytes())?;
    }
    values.push(0)?;
    Ok(values)
}

/// The array that string literals are, named by the place of the first one.
pub fn text_entity(pieces: &[TextPiece]) -> Entity
    ensures { entity_of result ≡ text_entity pieces.now }
{
    let at = first_piece(pieces);
    Entity::At(at.file, at.line, at.col)
}

/// That string literals are spelled, with the values of their array.
pub fn text_note(alloc: Global, pieces: &[TextPiece]) -> Result<Note, NoMemory>
    ensures { IfOk result (λ n. note_of n ≡ text_note pieces.now) }
{
    let values = text_values(alloc, pieces)?;
    Ok(Note::Stores(Stored {
        entity: text_entity(pieces),
        element: IntegerType::Char,
        count: values.len(),
        contents: Contents::Values(values),
    }))
}

/// String literals that stand one after the other: the first element of an array of their own.
pub fn text(
    alloc: Global,
    scopes: &Scopes,
    notes: &mut Notes,
    pieces: &[TextPiece],
) -> Result<Judged<Operand>, NoMemory>
    ensures { IfOk result (λ j. IsSaid IsOperandOf (text_literal scopes.now pieces.now) j notes.old notes.new) }
{
    let entity = text_entity(pieces);
    let number = scopes.object_number(&entity)?;
    let note = text_note(alloc, pieces)?;
    notes.push(note)?;
    fitting(
        alloc,
        Expression::Start(IntegerType::Char, ArrayRef::Static(number)),
    )
}
