//! What is called or used without a definition.

ghost use Rattle.std.specs.Prelude.{◌≡◌, [], List, map, Some};
ghost use Rattle.std.specs.List.{list_any};
ghost use Rattle.c_typing.specs.Checked as checked;
ghost use Rattle.c_typing.specs.Faults.{earlier, least};
ghost use Rattle.c_typing.specs.Numbering.{missing, missing_at};
ghost use Rattle.c_typing.specs.Typed.{is_main, main};
ghost use Rattle.c_typing.specs.Library.{same_entity};
ghost use Rattle.c_check_expressions.specs.Notes.{note_of};
ghost use Rattle.c_tree.specs.Program.{int};
ghost use Rattle.c_typing.specs.Types.{DeclaredFunction, same_type, same_value, same_values};
ghost use Rattle.c_check_names.specs.Views.{declared_of, entity_of};
ghost use Rattle.c_check.specs.Tables.{known_of, IsKnownOf};

use crate::known::Known;
use c_check_expressions::{Note, earlier};
use c_check_names::{Declared, Entity};
use c_tree::{IntegerType, ValueType};
use pcc_base::{Fault, FaultKind};

/// The fault of a note, where what it uses isn't defined.
fn missing_at(note: &Note, known: &Known) -> Option<Fault>
    ensures { (notes : List checked.Note) → IsKnownOf notes (known_of known.now)
        → result ≡ missing_at notes (note_of note.now) }
{
    match note {
        Note::Uses(entity, at) => {
            if known.objects.has(entity) || known.functions.has(entity) {
                return None;
            }
            Some(Fault {
                kind: FaultKind::NoBody,
                at: *at,
            })
        }
        Note::Stores(_) | Note::Defines(_, _) => None,
    }
}

/// The earlier one of two faults that there may be.
fn earlier_of(first: Option<Fault>, second: Option<Fault>) -> Option<Fault>
    ensures { result ≡ earlier first second }
{
    match (first, second) {
        (None, second) => second,
        (Some(f), None) => Some(f),
        (Some(f), Some(g)) => Some(earlier(f, g)),
    }
}

/// The least fault of something that is called or used without a definition (C99 6.9p5), where there is one.
pub(crate) fn least_missing(notes: &[Note], known: &Known) -> Option<Fault>
    requires { IsKnownOf (map note_of notes.now) (known_of known.now) }
    ensures { result ≡ least (missing (map note_of notes.now)) }
{
    let mut found = None;
    let mut left = notes.len();
    'notes: while left > 0 {
        left -= 1;
        found = earlier_of(missing_at(&notes[left], known), found);
    }
    found
}

/// Whether a thing is the function `main`, which has external linkage.
fn is_called_main(entity: &Entity) -> bool
    ensures { result ≡ same_entity (entity_of entity.now) main }
{
    match entity {
        Entity::Shared(name) => name.as_slice() == b"main".as_slice(),
        Entity::Library(_) | Entity::OfFile(_, _) | Entity::At(_, _, _) => false,
    }
}

/// Whether a type is `int`.
fn is_int(of: ValueType) -> bool
    ensures { result ≡ same_value of int }
{
    match of {
        ValueType::Integer(IntegerType::Int) => true,
        ValueType::Integer(IntegerType::Char | IntegerType::Short | IntegerType::UnsignedInt)
        | ValueType::Void
        | ValueType::Pointer(_) => false,
    }
}

/// Whether there are no types.
fn are_none(types: &[ValueType]) -> bool
    ensures { result ≡ same_values types.now [] }
{
    match types {
        [] => true,
        [_, ..] => false,
    }
}

/// Whether a type is that of `int main(void)`.
fn is_type_of_main(declared: &Declared) -> bool
    ensures { result ≡ same_type (declared_of declared.now) (DeclaredFunction (Some int) []) }
{
    match declared {
        Declared::Function(Some(returns), parameters) => {
            is_int(*returns) && are_none(parameters.as_slice())
        }
        Declared::Function(None, _) | Declared::Value(_) | Declared::Array(_, _) => false,
    }
}

/// Whether a note defines `int main(void)`.
fn is_main(note: &Note) -> bool
    ensures { result ≡ is_main (note_of note.now) }
{
    match note {
        Note::Defines(entity, declared) => is_called_main(entity) && is_type_of_main(declared),
        Note::Uses(_, _) | Note::Stores(_) => false,
    }
}

/// Whether `int main(void)` is defined (C99 5.1.2.2.1).
pub fn has_main(notes: &[Note]) -> bool
    ensures { result ≡ list_any is_main (map note_of notes.now) }
{
    let mut found = false;
    let mut left = notes.len();
    'notes: while left > 0 {
        left -= 1;
        found = is_main(&notes[left]) || found;
    }
    found
}
