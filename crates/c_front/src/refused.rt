//! Why sources have no typed program, and what is told of it.

ghost use Rattle.std.specs.Prelude.{◌≡◌, ◌≤◌, ℕ, List, map, slice_get, Some, IfOk};
ghost use Rattle.pcc_base.specs.declared.refusal.Limit.TheVariants as limits;
ghost use Rattle.c_lex.specs.declared.token.Token.{Token};
ghost use Rattle.c_syntax.specs.Statements.{unit_of};
ghost use Rattle.c_typing.specs.Typed.{IsAbove};
ghost use Rattle.c_check.specs.ProgramAnswers.{IsRefusal};
ghost use Rattle.c_check_laws.specs.Names.{defined_names};
ghost use Rattle.c_front.specs.Accepted.{HaveTokens, total};
ghost use Rattle.c_front.specs.Refusals.{AreUnread, ends_of};
ghost use Rattle.c_front.specs.SoFar.{AreUnparsed};
ghost use Rattle.c_front.specs.Units.{HaveUnits};
ghost use Rattle.c_front.specs.Answers.{AreRefused, end_of};

use crate::names::name_of;
use c_check_laws::functions_are_named;
use c_syntax::RawUnit;
use pcc_base::{Fault, Limit, NoMemory, Refusal};
use std::alloc::Global;

/// Why sources have no typed program within the limits.
#[derive(Drop)]
pub enum Refused {
    /// They have this fault.
    Fault(Fault),
    /// They have more than 65,536 tokens, of which so many were counted.
    Tokens(u64),
    /// The static objects have so many bytes, which are more than 16,777,216.
    Arrays(u64),
    /// The frame of the function of this name has so many bytes, which are more than 16,384. It is the first such
    /// function.
    Frame { name: Vec<u8>, bytes: u64 },
    /// There was no memory.
    NoMemory,
}

/// What is told of texts without tokens or raw trees.
pub(crate) fn without_trees(refusal: Refusal) -> Refused
    ensures unread { (texts : List (List ℕ)) → AreUnread texts refusal → AreRefused texts result }
    ensures unparsed { (texts : List (List ℕ)) (files : List (List Token)) → HaveTokens 0 texts files
        → total files ≤ 65536 → AreUnparsed files (ends_of 0 texts) refusal → AreRefused texts result }
{
    match refusal {
        Refusal::Fault(fault) => Refused::Fault(fault),
        Refusal::Limit(Limit::Tokens(tokens)) => Refused::Tokens(tokens),
        // No other limit is met so early.
        Refusal::Limit(_) | Refusal::NoMemory => Refused::NoMemory,
    }
}

/// The name of the function of this number. The only refusal is want of memory.
fn copied_name(alloc: Global, units: &[RawUnit], function: u32) -> Result<Vec<u8>, NoMemory>
    ensures { IfOk result (λ name. slice_get (defined_names (map unit_of units.now)) function ≡ Some name.items) }
{
    match name_of(units, function as usize) {
        Some(name) => Ok(name.to_vec(alloc)?),
        // Not met, since each function of a typed program has a definition.
        None => Err(NoMemory),
    }
}

/// What is told of the function of this number, whose frame has so many bytes.
fn large_frame(alloc: Global, units: &[RawUnit], function: u32, bytes: u64) -> Refused
    ensures { (texts : List (List ℕ)) → HaveUnits texts (map unit_of units.now)
        → IsAbove (map unit_of units.now) (limits.Frame function bytes) → AreRefused texts result }
{
    functions_are_named();
    match copied_name(alloc, units, function) {
        Ok(name) => Refused::Frame { name, bytes },
        Err(NoMemory) => Refused::NoMemory,
    }
}

/// What is told of raw trees without a typed program within the limits.
pub(crate) fn without_program(alloc: Global, units: &[RawUnit], refusal: Refusal) -> Refused
    ensures { (texts : List (List ℕ)) → HaveUnits texts (map unit_of units.now)
        → IsRefusal (map unit_of units.now) (end_of texts) refusal → AreRefused texts result }
{
    match refusal {
        Refusal::Fault(fault) => Refused::Fault(fault),
        Refusal::Limit(Limit::Arrays(bytes)) => Refused::Arrays(bytes),
        Refusal::Limit(Limit::Frame(function, bytes)) => large_frame(alloc, units, function, bytes),
        // No other limit is met so late.
        Refusal::Limit(_) | Refusal::NoMemory => Refused::NoMemory,
    }
}
