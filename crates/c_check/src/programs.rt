//! The program, where it is within the limits.

ghost use Rattle.std.specs.Prelude.{◌≡◌, List, None, map, IfErr, IfOk};
ghost use Rattle.pcc_base.specs.declared.span.Span.{Span};
ghost use Rattle.c_syntax.specs.Statements.{ExternalTree};
ghost use Rattle.c_tree.specs.Erased.{function_of, program_of};
ghost use Rattle.c_typing.specs.Typed.{checked, limit_of, IsAccepted};
ghost use Rattle.c_check_expressions.specs.Parts.{Stands};
ghost use Rattle.c_check.specs.ProgramAnswers.{AreFunctions, IsRefusal};
ghost use Rattle.c_check.specs.Outlines.{made, IsOutline, IsTooLarge};

use crate::first_values::{arrays_bytes, built};
use crate::limits::limit;
use crate::outlines::Outline;
use c_check_expressions::Judged;
use c_tree::{Function, Program};
use pcc_base::{Limit, NoMemory, Refusal};
use std::alloc::Global;

/// The limit that a program is above, where it is.
fn limit_above(outline: &Outline, functions: &[Function]) -> Result<Option<Limit>, NoMemory>
    ensures { IfOk result (λ l. l ≡ limit_of (made outline.now (map function_of functions.now))) }
{
    let bytes = arrays_bytes(outline.objects.as_slice())?;
    limit(bytes, functions)
}

/// The program with these functions.
fn program(alloc: Global, outline: &Outline, functions: Vec<Function>) -> Result<Program, NoMemory>
    ensures { IfOk result (λ p. program_of p ≡ made outline.now (map function_of functions.items)) }
{
    match built(alloc, outline.objects.as_slice()) {
        Ok(objects) => Ok(Program {
            objects,
            functions,
            main: outline.main,
        }),
        Err(refusal) => {
            drop(functions);
            Err(refusal)
        }
    }
}

/// The program with these functions, where it is within the limits.
fn within(alloc: Global, outline: &Outline, functions: Vec<Function>) -> Result<Program, Refusal>
    ensures program { IfOk result (λ p. program_of p ≡ made outline.now (map function_of functions.items)) }
    ensures small { IfOk result (λ p. limit_of (program_of p) ≡ None) }
    ensures refused { IfErr result (IsTooLarge (made outline.now (map function_of functions.items))) }
{
    match limit_above(outline, functions.as_slice()) {
        Ok(None) => Ok(program(alloc, outline, functions)?),
        Ok(Some(limit)) => {
            drop(functions);
            Err(Refusal::Limit(limit))
        }
        Err(refusal) => {
            drop(functions);
            Err(Refusal::from(refusal))
        }
    }
}

/// The typed program of files with this outline, or the limit that it is above: what comes of judging them where
/// functions and objects have their numbers.
pub fn finished(
    alloc: Global,
    outline: &Outline,
    second: Judged<Vec<Function>>,
) -> Result<Program, Refusal>
    ensures accepted { IfOk result (λ p. (units : List (List ExternalTree)) → IsOutline units outline.now
        → Stands AreFunctions (checked units) second → IsAccepted units (program_of p)) }
    ensures refused { IfErr result (λ r. (units : List (List ExternalTree)) (end : Span) → IsOutline units outline.now
        → Stands AreFunctions (checked units) second → IsRefusal units end r) }
{
    match second {
        Judged::Fails(fault) => Err(Refusal::Fault(fault)),
        Judged::Fits(functions) => within(alloc, outline, functions),
    }
}
