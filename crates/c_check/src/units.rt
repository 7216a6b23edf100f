//! Files, one behind the other (C99 6.9).

ghost use Rattle.std.specs.Prelude.{◌≡◌, ◌++◌, List, map, IfOk, OnOk};
ghost use Rattle.c_syntax.specs.Declarations.{declarator_of};
ghost use Rattle.c_syntax.specs.Statements.{FunctionTree, external_of, stmt_of, unit_of};
ghost use Rattle.c_tree.specs.Program.{Function as Defined};
ghost use Rattle.c_typing.specs.Checked.{Checked, Note, both, fits};
ghost use Rattle.c_typing.specs.Files.{
  after_external,
  after_unit,
  typed_external,
  typed_unit,
  typed_units,
};
ghost use Rattle.c_check_expressions.specs.Said.{IsSaid};
ghost use Rattle.c_check.specs.OutsideAnswers.{AreNone};
ghost use Rattle.c_check.specs.FileAnswers.{AreFunction, AreFunctions};

use crate::definitions::definition;
use crate::outside_items::outside_declaration;
use c_check_declarations::{Position, maybe_behind, specifiers_at};
use c_check_expressions::{Judged, Notes};
use c_check_names::Scopes;
use c_syntax::{Declarator, External, RawUnit, Specifier, Statement};
use c_tree::Function;
use pcc_base::NoMemory;
use std::alloc::Global;

/// The definition of a function, with its specifiers.
fn function_external(
    alloc: Global,
    scopes: &mut Scopes,
    notes: &mut Notes,
    specifiers: &[Specifier],
    declarator: &Declarator,
    inside: &Statement,
) -> Result<Judged<Option<Function>>, NoMemory>
    ensures said { IfOk result (λ j. IsSaid AreFunction (typed_external
        (FunctionTree specifiers.now (declarator_of declarator.now) (stmt_of inside.now)) scopes.old) j
        notes.old notes.new) }
    ensures scope { OnOk result (scopes.new ≡ after_external
        (FunctionTree specifiers.now (declarator_of declarator.now) (stmt_of inside.now)) scopes.old) }
{
    match specifiers_at(Position::Outside, specifiers) {
        Judged::Fails(fault) => Ok(Judged::Fails(fault)),
        Judged::Fits(said) => definition(alloc, scopes, notes, said, declarator, inside),
    }
}

/// No function, where a declaration was judged.
fn no_function(part: Judged<()>) -> Judged<Option<Function>>
    ensures { (c : Checked (List Defined)) (before after : List Note) → IsSaid AreNone c part before after
        → IsSaid AreFunction c result before after }
{
    match part {
        Judged::Fails(fault) => Judged::Fails(fault),
        Judged::Fits(()) => Judged::Fits(None),
    }
}

/// The function that an external declaration defines, where it is a definition.
fn external(
    alloc: Global,
    scopes: &mut Scopes,
    notes: &mut Notes,
    external: &External,
) -> Result<Judged<Option<Function>>, NoMemory>
    ensures said { IfOk result (λ j. IsSaid AreFunction (typed_external (external_of external.now) scopes.old) j
        notes.old notes.new) }
    ensures scope { OnOk result (scopes.new ≡ after_external (external_of external.now) scopes.old) }
{
    match external {
        External::Function {
            specifiers,
            declarator,
            body,
        } => function_external(
            alloc,
            scopes,
            notes,
            specifiers.as_slice(),
            declarator,
            body,
        ),
        External::Declaration(declaration) => {
            let part = outside_declaration(alloc, scopes, notes, declaration)?;
            Ok(no_function(part))
        }
    }
}

/// The functions that external declarations define, one behind the other, and all behind others.
fn externals(
    alloc: Global,
    scopes: &mut Scopes,
    notes: &mut Notes,
    list: &[External],
    so_far: Judged<Vec<Function>>,
) -> Result<Judged<Vec<Function>>, NoMemory>
    ensures said { IfOk result (λ j. (front : Checked (List Defined)) (before : List Note)
        → IsSaid AreFunctions front so_far before notes.old → IsSaid AreFunctions
        (both front (typed_unit (map external_of list.now) scopes.old) (λ fs gs. fits (fs ++ gs))) j
        before notes.new) }
    ensures scope { OnOk result (scopes.new ≡ after_unit (map external_of list.now) scopes.old) }
{
    let mut functions = so_far;
    for one in list {
        let part = external(alloc, scopes, notes, one)?;
        functions = maybe_behind(functions, part)?;
    }
    Ok(functions)
}

/// The functions that a file defines, behind those of the files before it.
fn unit(
    alloc: Global,
    scopes: &mut Scopes,
    notes: &mut Notes,
    unit: &RawUnit,
    so_far: Judged<Vec<Function>>,
) -> Result<Judged<Vec<Function>>, NoMemory>
    ensures said { IfOk result (λ j. (front : Checked (List Defined)) (before : List Note)
        → IsSaid AreFunctions front so_far before notes.old → IsSaid AreFunctions
        (both front (typed_unit (unit_of unit.now) scopes.old) (λ fs gs. fits (fs ++ gs))) j before notes.new) }
    ensures scope { OnOk result (scopes.new ≡ after_unit (unit_of unit.now) scopes.old) }
{
    externals(alloc, scopes, notes, unit.externals.as_slice(), so_far)
}

/// The functions that files define, in order.
pub fn units(
    alloc: Global,
    scopes: &mut Scopes,
    notes: &mut Notes,
    units: &[RawUnit],
) -> Result<Judged<Vec<Function>>, NoMemory>
    ensures { IfOk result (λ j. IsSaid AreFunctions (typed_units (map unit_of units.now) scopes.old) j
        notes.old notes.new) }
{
    let mut functions = Judged::Fits(Vec::new(alloc));
    for one in units {
        functions = unit(alloc, scopes, notes, one, functions)?;
        scopes.next_file(alloc)?;
    }
    Ok(functions)
}
