//! The typed program of sources.

ghost use Rattle.std.specs.Prelude.{◌≡◌, ◌≤◌, ◌<◌, ◌+◌, ◌^◌, length, map, IfOk, IfErr};
ghost use Rattle.std.specs.List.{All, AllByRecursion};
ghost use Rattle.c_tree.specs.Erased.{program_of};
ghost use Rattle.c_tree.specs.Sizes.{function_size};
ghost use Rattle.c_tree.specs.WellTyped.{WellTyped};
ghost use Rattle.c_syntax.specs.Statements.{unit_of};
ghost use Rattle.c_front.specs.Units.{HaveUnits};
ghost use Rattle.c_front.specs.Answers.{AreRefused, HaveTypedProgram, end_of};

use crate::lexed::{first_place, lex_files, text_end};
use crate::parsed::parse_files;
use crate::refused::{Refused, without_program, without_trees};
use crate::unit_laws::units_are_sources;
use c_check::check;
use c_syntax::RawUnit;
use c_tree::Program;
use pcc_base::Span;
use std::alloc::Global;

/// The place behind the last text, and the first place where there is none.
fn end_of(texts: &[Vec<u8>]) -> Span
    requires few { length texts.now ≤ 16 }
    requires small { AllByRecursion (λ t. length t.items + 1 < 2 ^ 32) texts.now }
    ensures { result ≡ end_of (map (λ t. t.items) texts.now) }
{
    let last = texts.len().saturating_sub(1);
    match texts.get(last) {
        Some(text) => text_end(last as u32, text.as_slice()),
        None => first_place(0),
    }
}

/// The raw trees of source files. A lexical fault is answered first, then one of the first file without a raw tree.
fn units_of_texts(alloc: Global, texts: &[Vec<u8>]) -> Result<Vec<RawUnit>, Refused>
    requires few { length texts.now ≤ 16 }
    requires small { AllByRecursion (λ t. length t.items + 1 < 2 ^ 32) texts.now }
    ensures units { IfOk result (λ units. HaveUnits (map (λ t. t.items) texts.now) (map unit_of units.items)) }
    ensures refused { IfErr result (AreRefused (map (λ t. t.items) texts.now)) }
{
    match lex_files(alloc, texts) {
        Ok(files) => match parse_files(alloc, files.as_slice()) {
            Ok(units) => Ok(units),
            Err(refusal) => Err(without_trees(refusal)),
        },
        Err(refusal) => Err(without_trees(refusal)),
    }
}

/// The typed program of source files, in their order (C99 5.1.1.2, 6.2 to 6.9). The first fault is answered with its
/// kind and its place: a lexical one of any file; then one of the first file that has no raw tree; then the least one
/// of typing. The limit on tokens is answered where more than 65,536 stand before any lexical fault, and those on
/// static objects and frames where the program is above them, that on frames with the name of the first such function.
pub fn typed_program(alloc: Global, texts: &[Vec<u8>]) -> Result<Program, Refused>
    requires few { length texts.now ≤ 16 }
    requires small { AllByRecursion (λ t. length t.items + 1 < 2 ^ 32) texts.now }
    ensures accepted { IfOk result (λ p. HaveTypedProgram (map (λ t. t.items) texts.now) (program_of p)) }
    ensures typed { IfOk result (λ p. WellTyped (program_of p)) }
    ensures declared { IfOk result (λ p. All (λ f. length f.arrays ≤ function_size f) (program_of p).functions) }
    ensures refused { IfErr result (AreRefused (map (λ t. t.items) texts.now)) }
{
    units_are_sources();
    let units = units_of_texts(alloc, texts)?;
    match check(alloc, units.as_slice(), end_of(texts)) {
        Ok(program) => Ok(program),
        Err(refusal) => Err(without_program(alloc, units.as_slice(), refusal)),
    }
}
