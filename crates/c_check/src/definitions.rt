//! Definitions of functions (C99 6.9.1).

ghost use Rattle.std.specs.Prelude.{◌≡◌, ◌∷◌, [], List, Some, length, map, true, IfOk, OnOk};
ghost use Rattle.c_syntax.specs.Declarations.{declarator_of, parameter_of, part_of};
ghost use Rattle.c_syntax.specs.Statements.{stmt_of};
ghost use Rattle.c_tree.specs.Erased.{statements_of};
ghost use Rattle.c_tree.specs.Program.{Function as Defined, Statements};
ghost use Rattle.c_typing.specs.Checked.{Checked, Defines, Fits, Note as Saying, fits, if_fits};
ghost use Rattle.c_typing.specs.Files.{
  after_definition,
  at_body,
  body_of,
  bound_function,
  defined,
  function_with,
  in_function,
  parameters_in,
  typed_definition,
};
ghost use Rattle.c_typing.specs.Names.{Scope, left};
ghost use Rattle.c_typing.specs.Statements.{after_statements, typed_statements};
ghost use Rattle.c_typing.specs.Types.{DeclaredFunction};
ghost use Rattle.c_check_names.specs.Views as views;
ghost use Rattle.c_check_expressions.specs.Said.{IsSaid};
ghost use Rattle.c_check_declarations.specs.Views.{specified_of};
ghost use Rattle.c_check_statements.specs.Answers.{AreStatements};
ghost use Rattle.c_check.specs.FileAnswers.{AreFunction, IsFunction};

use crate::copies::{copy_arrays, copy_locals};
use crate::functions::{declare_function, function_signature};
use c_check_declarations::{Specified, parameters};
use c_check_expressions::{Judged, Note, Notes};
use c_check_names::{Declared, Entity, Mark, Scopes, Signature, number};
use c_check_statements::body;
use c_syntax::{Declarator, DeclaratorPart, Identifier, Parameter, Statement as RawStatement};
use c_tree::{Function, Statement, ValueType};
use pcc_base::NoMemory;
use std::alloc::Global;

/// The parameters of a function's declarator.
fn parameters_in(part: &DeclaratorPart) -> &[Parameter]
    ensures { map parameter_of result.now ≡ parameters_in (part_of part.now) }
{
    match part {
        DeclaratorPart::Function(part) => part.parameters.as_slice(),
        DeclaratorPart::Plain | DeclaratorPart::Array(_) => &[],
    }
}

/// Opens the scope of a function's body, in which its parameters are. They were judged before.
fn begin(alloc: Global, scopes: &mut Scopes, list: &[Parameter]) -> Result<Mark, NoMemory>
    ensures { IfOk result (λ m. (scopes.new ≡ at_body (map parameter_of list.now) scopes.old)
        × (m.names ≡ length scopes.old.names) × (m.depth ≡ scopes.old.depth)) }
{
    let others = scopes.take_locals(alloc);
    drop(others);
    let mark = scopes.enter()?;
    let mut unsaid = Notes::new(alloc);
    let types = parameters(alloc, scopes, &mut unsaid, true, list)?;
    drop(types);
    Ok(mark)
}

/// The function with such a body, of which so many locals are parameters.
fn function(
    alloc: Global,
    scopes: &Scopes,
    name: &Identifier,
    signature: &Signature,
    parameters: u32,
    body: Vec<Statement>,
) -> Result<Function, NoMemory>
    ensures { IfOk result (λ f. (first : Scope) → parameters ≡ length first.locals → IsFunction
        (function_with name.now (views.signature_of signature.now) first scopes.now (statements_of body.items)) f) }
{
    let copy = name.name.copy()?;
    let seen = scopes.locals();
    let locals = copy_locals(alloc, seen)?;
    let held = scopes.arrays();
    let arrays = copy_arrays(alloc, held)?;
    Ok(Function {
        name: copy,
        result: signature.result,
        parameters,
        locals,
        arrays,
        body,
    })
}

/// The function of a body that was judged.
fn function_if_fits(
    alloc: Global,
    scopes: &Scopes,
    name: &Identifier,
    signature: &Signature,
    parameters: u32,
    part: Judged<Vec<Statement>>,
) -> Result<Judged<Function>, NoMemory>
    ensures { IfOk result (λ j. (first : Scope) → parameters ≡ length first.locals
        → (c : Checked Statements) (before after : List Saying) → IsSaid AreStatements c part before after
        → IsSaid IsFunction (if_fits c (λ statements. fits
        (function_with name.now (views.signature_of signature.now) first scopes.now statements))) j before after) }
{
    match part {
        Judged::Fails(fault) => Ok(Judged::Fails(fault)),
        Judged::Fits(body) => {
            let whole = function(alloc, scopes, name, signature, parameters, body)?;
            Ok(Judged::Fits(whole))
        }
    }
}

/// The function that a body gives, whose parameters and outermost block are one scope (C99 6.2.1p4).
fn within(
    alloc: Global,
    scopes: &mut Scopes,
    notes: &mut Notes,
    name: &Identifier,
    signature: &Signature,
    list: &[Parameter],
    inside: &RawStatement,
) -> Result<Judged<Function>, NoMemory>
    ensures said { let g = views.signature_of signature.now in
        let first = at_body (map parameter_of list.now) scopes.old in
        let items = body_of (stmt_of inside.now) in
        IfOk result (λ j. IsSaid IsFunction (if_fits (typed_statements (in_function g.result) items first)
        (λ statements. fits (function_with name.now g first (after_statements items first) statements))) j
        notes.old notes.new) }
    ensures scope { OnOk result (scopes.new ≡ left scopes.old
        (after_statements (body_of (stmt_of inside.now)) (at_body (map parameter_of list.now) scopes.old))) }
{
    let mark = begin(alloc, scopes, list)?;
    let locals = scopes.local_count();
    let count = number(locals)?;
    let judged = body(alloc, scopes, notes, signature.result, inside)?;
    let whole = function_if_fits(alloc, scopes, name, signature, count, judged)?;
    scopes.leave(mark);
    Ok(whole)
}

/// Goes past the body of a function whose signature fails: what stands behind it is judged all the same.
fn past_body(
    alloc: Global,
    scopes: &mut Scopes,
    list: &[Parameter],
    inside: &RawStatement,
) -> Result<(), NoMemory>
    ensures { OnOk result (scopes.new ≡ left scopes.old
        (after_statements (body_of (stmt_of inside.now)) (at_body (map parameter_of list.now) scopes.old))) }
{
    let mark = begin(alloc, scopes, list)?;
    let mut unsaid = Notes::new(alloc);
    let judged = body(alloc, scopes, &mut unsaid, ValueType::Void, inside)?;
    drop(judged);
    scopes.leave(mark);
    Ok(())
}

/// A function that was judged is noted as defined.
fn noted(
    notes: &mut Notes,
    entity: Entity,
    signature: Signature,
    part: Judged<Function>,
) -> Result<Judged<Option<Function>>, NoMemory>
    ensures { let g = views.signature_of signature in
        let type = DeclaredFunction (Some g.result) g.parameters in
        IfOk result (λ j. (c : Checked Defined) (before : List Saying) → IsSaid IsFunction c part before notes.old
        → IsSaid AreFunction (if_fits c (λ f. Fits (f ∷ []) (Defines (views.entity_of entity) type ∷ []))) j
        before notes.new) }
{
    match part {
        Judged::Fails(fault) => Ok(Judged::Fails(fault)),
        Judged::Fits(whole) => {
            let declared = Declared::Function(Some(signature.result), signature.parameters);
            notes.push(Note::Defines(entity, declared))?;
            Ok(Judged::Fits(Some(whole)))
        }
    }
}

/// A function with this signature is declared, and then its body is judged.
fn defined(
    alloc: Global,
    scopes: &mut Scopes,
    notes: &mut Notes,
    said: Specified,
    name: &Identifier,
    signature: Signature,
    list: &[Parameter],
    inside: &RawStatement,
) -> Result<Judged<Option<Function>>, NoMemory>
    ensures said { let g = views.signature_of signature in
        let outside = bound_function (specified_of said) name.now true (Some g) scopes.old in
        let first = at_body (map parameter_of list.now) outside in
        let items = body_of (stmt_of inside.now) in
        IfOk result (λ j. IsSaid AreFunction (if_fits (typed_statements (in_function g.result) items first)
        (λ statements. defined (specified_of said) name.now scopes.old g
        (function_with name.now g first (after_statements items first) statements))) j notes.old notes.new) }
    ensures scope { let g = views.signature_of signature in
        let outside = bound_function (specified_of said) name.now true (Some g) scopes.old in
        OnOk result (scopes.new ≡ left outside
        (after_statements (body_of (stmt_of inside.now)) (at_body (map parameter_of list.now) outside))) }
{
    let entity = declare_function(alloc, scopes, said, name, true, &signature)?;
    let part = within(alloc, scopes, notes, name, &signature, list, inside)?;
    noted(notes, entity, signature, part)
}

/// The definition of a function.
pub(crate) fn definition(
    alloc: Global,
    scopes: &mut Scopes,
    notes: &mut Notes,
    said: Specified,
    declarator: &Declarator,
    inside: &RawStatement,
) -> Result<Judged<Option<Function>>, NoMemory>
    ensures said { IfOk result (λ j. IsSaid AreFunction (typed_definition (specified_of said)
        (declarator_of declarator.now) (stmt_of inside.now) scopes.old) j notes.old notes.new) }
    ensures scope { OnOk result (scopes.new ≡ after_definition (specified_of said)
        (declarator_of declarator.now) (stmt_of inside.now) scopes.old) }
{
    let list = parameters_in(&declarator.part);
    match function_signature(alloc, scopes, notes, said, declarator, true, list)? {
        Judged::Fails(fault) => {
            past_body(alloc, scopes, list, inside)?;
            Ok(Judged::Fails(fault))
        }
        Judged::Fits(signature) => {
            let name = &declarator.name;
            defined(alloc, scopes, notes, said, name, signature, list, inside)
        }
    }
}
