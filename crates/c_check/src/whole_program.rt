//! All files, judged twice: for what they note, and then with the numbers that the notes give.

ghost use Rattle.std.specs.Prelude.{◌≡◌, ◌≤◌, length, map, IfErr, IfOk};
ghost use Rattle.std.specs.List.{All};
ghost use Rattle.c_syntax.specs.Statements.{unit_of};
ghost use Rattle.c_tree.specs.Erased.{program_of};
ghost use Rattle.c_tree.specs.Sizes.{function_size};
ghost use Rattle.c_tree.specs.WellTyped.{WellTyped};
ghost use Rattle.c_typing.specs.Laws.{AreSources};
ghost use Rattle.c_typing.specs.Typed.{judged, numbers_in, IsAccepted};
ghost use Rattle.c_check_expressions.specs.Said.{IsSaid};
ghost use Rattle.c_check.specs.ProgramAnswers.{AreFunctions, IsRefusal};
ghost use Rattle.c_check.specs.Outlines.{IsOutline};

use crate::numbering_laws::functions_are_defined_once;
use crate::outlines::{Plan, planned};
use crate::programs::finished;
use crate::units::units;
use c_check_expressions::{Judged, Notes};
use c_check_laws::{arrays_are_declared, typed_is_well_typed};
use c_check_names::{Numbers, Scopes};
use c_syntax::RawUnit;
use c_tree::{Function, Program};
use pcc_base::{NoMemory, Refusal, Span};
use std::alloc::Global;

/// What comes of judging files, where objects and functions have these numbers. What they note is put behind.
fn judged(
    alloc: Global,
    numbers: Numbers,
    notes: &mut Notes,
    files: &[RawUnit],
) -> Result<Judged<Vec<Function>>, NoMemory>
    ensures { IfOk result (λ j. IsSaid AreFunctions (judged numbers (map unit_of files.now)) j notes.old notes.new) }
{
    let mut scopes = Scopes::new(alloc, numbers)?;
    units(alloc, &mut scopes, notes, files)
}

/// The numbers of the functions and objects of files, and the outline of their program, or their least fault.
fn plan(alloc: Global, files: &[RawUnit], end: Span) -> Result<Plan, Refusal>
    ensures numbers { IfOk result (λ p. p.numbers ≡ numbers_in (map unit_of files.now)) }
    ensures outline { IfOk result (λ p. IsOutline (map unit_of files.now) p.outline) }
    ensures refused { IfErr result (IsRefusal (map unit_of files.now) end) }
{
    functions_are_defined_once();
    let mut notes = Notes::new(alloc);
    let first = judged(alloc, Numbers::new(alloc), &mut notes, files)?;
    planned(alloc, first, &notes, end)
}

/// The typed program of files, within the limits, or why there is none.
fn judged_twice(alloc: Global, files: &[RawUnit], end: Span) -> Result<Program, Refusal>
    ensures accepted { IfOk result (λ p. IsAccepted (map unit_of files.now) (program_of p)) }
    ensures refused { IfErr result (IsRefusal (map unit_of files.now) end) }
{
    let Plan { numbers, outline } = plan(alloc, files, end)?;
    let mut notes = Notes::new(alloc);
    let second = judged(alloc, numbers, &mut notes, files)?;
    finished(alloc, &outline, second)
}

/// The typed program of files by their raw trees, where the last one ends at `end` (C99 6.2 to 6.9). A fault of kinds 8
/// to 19 is answered with its place: the least one where there are several. Where the files have a typed program that
/// is above a limit, this is answered, that on the bytes of static objects before that on the bytes of a frame.
pub fn check(alloc: Global, files: &[RawUnit], end: Span) -> Result<Program, Refusal>
    ensures accepted { IfOk result (λ p. IsAccepted (map unit_of files.now) (program_of p)) }
    ensures typed { IfOk result (λ p. AreSources (map unit_of files.now) → WellTyped (program_of p)) }
    ensures declared { IfOk result (λ p. All (λ f. length f.arrays ≤ function_size f) (program_of p).functions) }
    ensures refused { IfErr result (IsRefusal (map unit_of files.now) end) }
{
    typed_is_well_typed();
    arrays_are_declared();
    judged_twice(alloc, files, end)
}
