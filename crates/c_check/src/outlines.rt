//! What files that fit note, as the outline of a program.

ghost use Rattle.std.specs.Prelude.{◌≡◌, List, map, IfErr, IfOk};
ghost use Rattle.c_syntax.specs.Statements.{ExternalTree};
ghost use Rattle.c_typing.specs.Library.{number_among};
ghost use Rattle.c_typing.specs.Numbering.{numbers_of, static_objects};
ghost use Rattle.c_typing.specs.Typed.{main, no_main, no_numbers, numbers_in};
ghost use Rattle.c_check_expressions.specs.Notes.{note_of};
ghost use Rattle.c_check_expressions.specs.Said.{IfFits};
ghost use Rattle.c_check.specs.Tables.{known_of, object_described, AreDefinedOnce, IsKnownOf};
ghost use Rattle.c_check.specs.ProgramAnswers.{AreJudged, IsRefusal};
ghost use Rattle.c_check.specs.Outlines.{IsOutline, IsOutlineOf, IsUnfinished, unfinished};

use crate::first_values::{Described, describe};
use crate::known::{Known, defined};
use crate::missing::{has_main, least_missing};
use crate::numbers::numbered;
use c_check_expressions::{Judged, Note, Notes};
use c_check_names::{Entity, Numbers};
use c_tree::Function;
use pcc_base::{Fault, FaultKind, NoMemory, Refusal, Span};
use std::alloc::Global;

/// A program before its functions have their numbers and its objects their elements.
#[derive(Drop)]
pub struct Outline {
    /// The number of the function `main`.
    pub main: u32,
    /// The static objects, in the order of their numbers.
    pub objects: Vec<Described>,
}

/// What files give where nothing has a number yet: the numbers of functions and objects, and the program's outline.
#[derive(Drop)]
pub struct Plan {
    pub numbers: Numbers,
    pub outline: Outline,
}

/// The fault of files that fit: the least one of a missing definition, or else a missing `main`.
fn unfinished(notes: &[Note], known: &Known, end: Span) -> Option<Fault>
    requires { IsKnownOf (map note_of notes.now) (known_of known.now) }
    ensures { result ≡ unfinished (map note_of notes.now) end }
{
    match least_missing(notes, known) {
        Some(fault) => Some(fault),
        None => without_main(has_main(notes), end),
    }
}

/// The fault at the end of the last file, where there is no `main` (C99 5.1.2.2.1).
fn without_main(there: bool, end: Span) -> Option<Fault>
    ensures { result ≡ no_main there end }
{
    if there {
        return None;
    }
    Some(Fault {
        kind: FaultKind::NoMain,
        at: end,
    })
}

/// The number of the function `main`.
fn main_number(alloc: Global, numbers: &Numbers) -> Result<u32, NoMemory>
    ensures { IfOk result (λ n. n ≡ number_among numbers.now.functions main) }
{
    let name = b"main".as_slice().to_vec(alloc)?;
    numbers.function(&Entity::Shared(name))
}

/// The outline that notes give of a program with these numbers.
fn outline_of(
    alloc: Global,
    notes: &[Note],
    known: &Known,
    numbers: &Numbers,
) -> Result<Outline, NoMemory>
    requires known { IsKnownOf (map note_of notes.now) (known_of known.now) }
    requires once { AreDefinedOnce (map note_of notes.now) }
    ensures main { IfOk result (λ o. o.main ≡ number_among numbers.now.functions main) }
    ensures objects { IfOk result (λ o.
        map object_described o.objects.items ≡ static_objects (map note_of notes.now)) }
{
    let main = main_number(alloc, numbers)?;
    let objects = describe(alloc, notes, known)?;
    Ok(Outline { main, objects })
}

/// What notes give of a program.
fn outlined(alloc: Global, notes: &[Note], known: &Known) -> Result<Plan, NoMemory>
    requires known { IsKnownOf (map note_of notes.now) (known_of known.now) }
    requires once { AreDefinedOnce (map note_of notes.now) }
    ensures numbers { IfOk result (λ p. p.numbers ≡ numbers_of (map note_of notes.now)) }
    ensures main { IfOk result (λ p.
        p.outline.main ≡ number_among (numbers_of (map note_of notes.now)).functions main) }
    ensures objects { IfOk result (λ p.
        map object_described p.outline.objects.items ≡ static_objects (map note_of notes.now)) }
{
    let numbers = numbered(alloc, notes, known)?;
    let outline = outline_of(alloc, notes, known, &numbers)?;
    Ok(Plan { numbers, outline })
}

/// What the notes of files that fit give of a program, or the fault of what is missing among what they define.
fn outlined_or_missing(
    alloc: Global,
    notes: &[Note],
    known: &Known,
    end: Span,
) -> Result<Plan, Refusal>
    requires known { IsKnownOf (map note_of notes.now) (known_of known.now) }
    requires once { AreDefinedOnce (map note_of notes.now) }
    ensures numbers { IfOk result (λ p. p.numbers ≡ numbers_of (map note_of notes.now)) }
    ensures outline { IfOk result (λ p. IsOutlineOf (map note_of notes.now) p.outline) }
    ensures refused { IfErr result (IsUnfinished (map note_of notes.now) end) }
{
    match unfinished(notes, known, end) {
        Some(fault) => Err(Refusal::Fault(fault)),
        None => Ok(outlined(alloc, notes, known)?),
    }
}

/// What the notes of files that fit give of a program, or the fault of what is missing.
fn outlined_or_unfinished(alloc: Global, notes: &[Note], end: Span) -> Result<Plan, Refusal>
    requires { AreDefinedOnce (map note_of notes.now) }
    ensures numbers { IfOk result (λ p. p.numbers ≡ numbers_of (map note_of notes.now)) }
    ensures outline { IfOk result (λ p. IsOutlineOf (map note_of notes.now) p.outline) }
    ensures refused { IfErr result (IsUnfinished (map note_of notes.now) end) }
{
    let known = defined(alloc, notes)?;
    outlined_or_missing(alloc, notes, &known, end)
}

/// The numbers of the functions and objects of files, and the outline of their program, or the least fault: what comes
/// of judging them where nothing has a number, with their notes, and where the last one ends.
pub fn planned(
    alloc: Global,
    first: Judged<Vec<Function>>,
    notes: &Notes,
    end: Span,
) -> Result<Plan, Refusal>
    requires { IfFits first (λ _. AreDefinedOnce notes.now) }
    ensures numbers { IfOk result (λ p. (units : List (List ExternalTree))
        → AreJudged no_numbers units first notes.now → p.numbers ≡ numbers_in units) }
    ensures outline { IfOk result (λ p. (units : List (List ExternalTree))
        → AreJudged no_numbers units first notes.now → IsOutline units p.outline) }
    ensures refused { IfErr result (λ r. (units : List (List ExternalTree))
        → AreJudged no_numbers units first notes.now → IsRefusal units end r) }
{
    match first {
        Judged::Fails(fault) => Err(Refusal::Fault(fault)),
        Judged::Fits(functions) => {
            drop(functions);
            outlined_or_unfinished(alloc, notes.as_slice(), end)
        }
    }
}
