//! Calls, whose arguments were judged (C99 6.5.2.2).

ghost use Rattle.std.specs.Prelude.{◌≡◌, ◌∷◌, ◌++◌, [], List, Some, IfOk, OnOk, option_map, length};
ghost use Rattle.std.specs.Prelude.{if◌then◌else◌};
ghost use Rattle.pcc_base.specs.declared.fault.FaultKind.TheVariants as kinds;
ghost use Rattle.c_tree.specs.Erased.{expression_of};
ghost use Rattle.c_tree.specs.Program as typed;
ghost use Rattle.c_tree.specs.Program.{Arguments as TypedArguments, Expression as Typed};
ghost use Rattle.c_typing.specs.Checked.{also, faults_in, if_fits, Checked, Note, Uses};
ghost use Rattle.c_typing.specs.Expressions.{
  arguments_for,
  call_of,
  function_call,
  have_types,
  library_call,
  Given,
};
ghost use Rattle.c_typing.specs.Faults.{fault, least};
ghost use Rattle.c_typing.specs.Library.{Putchar, Exit};
ghost use Rattle.c_typing.specs.Names.{function_number};
ghost use Rattle.c_typing.specs.Types.{is_pointer};
ghost use Rattle.c_check_expressions.specs.Judged.{IsJudged, IsOperandOf};
ghost use Rattle.c_check_expressions.specs.Parts.{Stands};
ghost use Rattle.c_check_names.specs.Views.{entity_of, library_of, signature_of};
ghost use Rattle.c_check_expressions.specs.Arguments.{AreArguments, first_of};
ghost use Rattle.c_check_expressions.specs.Said.{IsSaid};

use crate::arguments::Arguments;
use crate::fault_order::earlier;
use crate::judged::{Judged, Operand, plain, plain_node};
use crate::notes::Notes;
use c_check_names::{Entity, LibraryFunction, Scopes, Signature};
use c_tree::{Expression, ValueType};
use pcc_base::{Fault, FaultKind, NoMemory, Span};
use std::alloc::Global;

/// A call of a function of the program.
fn call_tree(of: ValueType, number: u32, values: Vec<Expression>) -> Expression
    ensures { (es : TypedArguments) → AreArguments es values → expression_of result ≡ typed.Call of number es }
{
    Expression::Call(of, number, values)
}

/// The first of several expressions.
fn first_of(values: Vec<Expression>) -> Option<Expression>
    ensures { (es : TypedArguments) → AreArguments es values → option_map expression_of result ≡ first_of es }
{
    values.into_iter().next()
}

/// `putchar` of the first argument.
#[tactic(auto, using(crate::proofs::Library::putchar_none, crate::proofs::Library::putchar_some))]
fn putchar(alloc: Global, at: Span, first: Option<Expression>) -> Result<Judged<Operand>, NoMemory>
    ensures { IfOk result (λ j. (es : TypedArguments) → option_map expression_of first ≡ first_of es
        → IsJudged (library_call at Putchar es) j) }
{
    match first {
        Some(first) => {
            let first = Box::new(alloc, first)?;
            Ok(Judged::Fits(plain(Expression::putchar(alloc, first)?)))
        }
        None => Ok(Judged::Fails(Fault {
            kind: FaultKind::ArgumentCount,
            at,
        })),
    }
}

/// `exit` of the first argument.
#[tactic(auto, using(crate::proofs::Library::exit_none, crate::proofs::Library::exit_some))]
fn exit(alloc: Global, at: Span, first: Option<Expression>) -> Result<Judged<Operand>, NoMemory>
    ensures { IfOk result (λ j. (es : TypedArguments) → option_map expression_of first ≡ first_of es
        → IsJudged (library_call at Exit es) j) }
{
    match first {
        Some(first) => {
            let first = Box::new(alloc, first)?;
            Ok(Judged::Fits(plain(Expression::exit(alloc, first)?)))
        }
        None => Ok(Judged::Fails(Fault {
            kind: FaultKind::ArgumentCount,
            at,
        })),
    }
}

/// A call of a function of the library, which is a node of its own.
fn library_call(
    alloc: Global,
    at: Span,
    function: LibraryFunction,
    values: Vec<Expression>,
) -> Result<Judged<Operand>, NoMemory>
    ensures { IfOk result (λ j. (es : TypedArguments) → AreArguments es values
        → IsJudged (library_call at (library_of function) es) j) }
{
    match function {
        LibraryFunction::Getchar => {
            drop(values);
            Ok(Judged::Fits(plain_node(alloc, Expression::Getchar)?))
        }
        LibraryFunction::Putchar => Ok(putchar(alloc, at, first_of(values))?),
        LibraryFunction::Exit => Ok(exit(alloc, at, first_of(values))?),
    }
}

/// The number of a function that is called, which is noted.
fn called_number(
    alloc: Global,
    scopes: &Scopes,
    notes: &mut Notes,
    at: Span,
    entity: &Entity,
) -> Result<u32, NoMemory>
    ensures { IfOk result (λ n. (n ≡ function_number scopes.now (entity_of entity.now))
        × (notes.new ≡ notes.old ++ Uses (entity_of entity.now) at ∷ [])) }
{
    let number = scopes.function_number(entity)?;
    notes.uses(alloc, entity, at)?;
    Ok(number)
}

/// A call of a function of the program, whose arguments fit.
fn program_call(
    alloc: Global,
    scopes: &Scopes,
    notes: &mut Notes,
    at: Span,
    entity: &Entity,
    of: ValueType,
    values: Vec<Expression>,
) -> Result<Operand, NoMemory>
    ensures call { IfOk result (λ o. (es : TypedArguments) → AreArguments es values
        → IsOperandOf (typed.Call of (function_number scopes.now (entity_of entity.now)) es) o) }
    ensures noted { OnOk result (notes.new ≡ notes.old ++ Uses (entity_of entity.now) at ∷ []) }
{
    match called_number(alloc, scopes, notes, at, entity) {
        Ok(number) => plain_node(alloc, call_tree(of, number, values)),
        Err(refusal) => {
            drop(values);
            Err(refusal)
        }
    }
}

/// A call of a function, whose arguments fit.
fn call_of(
    alloc: Global,
    scopes: &Scopes,
    notes: &mut Notes,
    at: Span,
    entity: &Entity,
    of: ValueType,
    values: Vec<Expression>,
) -> Result<Judged<Operand>, NoMemory>
    ensures { IfOk result (λ j. (es : TypedArguments) → AreArguments es values
        → IsSaid IsOperandOf (call_of scopes.now at (entity_of entity.now) of es) j notes.old notes.new) }
{
    match entity {
        Entity::Library(function) => Ok(library_call(alloc, at, *function, values)?),
        Entity::Shared(_) | Entity::OfFile(_, _) | Entity::At(_, _, _) => {
            let call = program_call(alloc, scopes, notes, at, entity, of, values)?;
            Ok(Judged::Fits(call))
        }
    }
}

/// A call of a function, where its arguments fit.
fn called(
    alloc: Global,
    scopes: &Scopes,
    notes: &mut Notes,
    at: Span,
    entity: &Entity,
    of: ValueType,
    values: Judged<Vec<Expression>>,
) -> Result<Judged<Operand>, NoMemory>
    ensures { IfOk result (λ j. (c : Checked TypedArguments) (before : List Note)
        → IsSaid AreArguments c values before notes.old
        → IsSaid IsOperandOf (if_fits c (call_of scopes.now at (entity_of entity.now) of)) j before notes.new) }
{
    match values {
        Judged::Fails(fault) => Ok(Judged::Fails(fault)),
        Judged::Fits(values) => Ok(call_of(alloc, scopes, notes, at, entity, of, values)?),
    }
}

/// A call, with the fault of its number of arguments where there is one.
fn also(wrong: bool, at: Span, call: Judged<Operand>) -> Judged<Operand>
    ensures { (c : Checked Typed) (before after : List Note) → IsSaid IsOperandOf c call before after
        → IsSaid IsOperandOf (also (if wrong then fault kinds.ArgumentCount at ∷ [] else []) c) result before after }
{
    if !wrong {
        return call;
    }
    let fault = Fault {
        kind: FaultKind::ArgumentCount,
        at,
    };
    match call {
        Judged::Fails(other) => Judged::Fails(earlier(fault, other)),
        Judged::Fits(operand) => {
            drop(operand);
            Judged::Fails(fault)
        }
    }
}

/// A call of a function, whose arguments were judged.
pub fn function_call(
    alloc: Global,
    scopes: &Scopes,
    notes: &mut Notes,
    at: Span,
    entity: &Entity,
    signature: &Signature,
    given: Arguments,
    count: usize,
) -> Result<Judged<Operand>, NoMemory>
    ensures { IfOk result (λ j. (gs : List Given) (before : List Note) → given.typed ≡ have_types gs
        → count ≡ length gs
        → IsSaid AreArguments (arguments_for signature.now.parameters.items gs) given.values before notes.old
        → IsSaid IsOperandOf
        (function_call scopes.now at (entity_of entity.now) (signature_of signature.now) gs) j before notes.new) }
{
    let wrong = given.typed && signature.parameters.len() != count;
    let call = called(
        alloc,
        scopes,
        notes,
        at,
        entity,
        signature.result,
        given.values,
    )?;
    Ok(also(wrong, at, call))
}

/// The fault where a called name isn't declared.
pub fn undeclared(at: Span) -> Fault
    ensures { result ≡ fault kinds.Undeclared at }
{
    Fault {
        kind: FaultKind::Undeclared,
        at,
    }
}

/// The fault where a called name means a number.
pub(crate) fn number_called(at: Span) -> Fault
    ensures { result ≡ fault kinds.TypeRule at }
{
    Fault {
        kind: FaultKind::TypeRule,
        at,
    }
}

/// The fault where a called name means an array.
pub(crate) fn array_called(at: Span) -> Fault
    ensures { result ≡ fault kinds.PointerUse at }
{
    Fault {
        kind: FaultKind::PointerUse,
        at,
    }
}

/// The fault where a called name means a local.
pub(crate) fn local_called(at: Span, of: ValueType) -> Fault
    ensures { result ≡ fault (if is_pointer of then kinds.PointerUse else kinds.TypeRule) at }
{
    match of {
        ValueType::Void | ValueType::Integer(_) => number_called(at),
        ValueType::Pointer(_) => array_called(at),
    }
}

/// The fault of a name that is called and means no function, or the least of its arguments'.
pub fn not_called(fault: Fault, values: Judged<Vec<Expression>>) -> Fault
    ensures { (c : Checked TypedArguments) → Stands AreArguments c values
        → least (fault ∷ faults_in c) ≡ Some result }
{
    match values {
        Judged::Fits(values) => {
            drop(values);
            fault
        }
        Judged::Fails(other) => earlier(fault, other),
    }
}
