//! The numbers of functions and static objects.

ghost use Rattle.std.specs.Prelude.{◌≡◌, map, IfOk, OnOk};
ghost use Rattle.c_typing.specs.Numbering.{numbers_of};
ghost use Rattle.c_check_expressions.specs.Notes.{note_of};
ghost use Rattle.c_check.specs.Tables.{known_of, with_number, AreDefinedOnce, IsKnownOf};

use crate::known::Known;
use c_check_expressions::Note;
use c_check_names::Numbers;
use pcc_base::NoMemory;
use std::alloc::Global;

/// What a note numbers has a number.
fn add(alloc: Global, numbers: &mut Numbers, note: &Note, known: &Known) -> Result<(), NoMemory>
    ensures { OnOk result (numbers.new ≡ with_number (known_of known.now).objects (note_of note.now) numbers.old) }
{
    match note {
        Note::Uses(_, _) => Ok(()),
        Note::Stores(stored) => {
            if !known.objects.has(&stored.entity) {
                return Ok(());
            }
            let copy = stored.entity.copy(alloc)?;
            numbers.add_object(copy)
        }
        Note::Defines(entity, _) => {
            let copy = entity.copy(alloc)?;
            numbers.add_function(copy)
        }
    }
}

/// The numbers of the functions and objects that notes define, where each function is defined once.
pub fn numbered(alloc: Global, notes: &[Note], known: &Known) -> Result<Numbers, NoMemory>
    requires known { IsKnownOf (map note_of notes.now) (known_of known.now) }
    requires once { AreDefinedOnce (map note_of notes.now) }
    ensures { IfOk result (λ n. n ≡ numbers_of (map note_of notes.now)) }
{
    let mut numbers = Numbers::new(alloc);
    'notes: for note in notes {
        add(alloc, &mut numbers, note, known)?;
    }
    Ok(numbers)
}
