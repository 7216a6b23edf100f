//! Calls, by what the called name means (C99 6.5.2.2).

ghost use Rattle.std.specs.Prelude.{◌≡◌, List, IfOk, length, option_map, slice_get};
ghost use Rattle.c_check_names.specs.Views.{meaning_of};
ghost use Rattle.c_tree.specs.Program.{Arguments as TypedArguments};
ghost use Rattle.c_typing.specs.Checked.{faults_in, Checked, Fails, Note};
ghost use Rattle.c_typing.specs.Expressions.{arguments_for, called, have_types, Given};
ghost use Rattle.c_check_expressions.specs.Judged.{IsOperandOf};
ghost use Rattle.c_check_expressions.specs.Parts.{Stands};
ghost use Rattle.c_check_expressions.specs.Arguments.{AreArguments};
ghost use Rattle.c_check_expressions.specs.Said.{IsSaid};
ghost use Rattle.c_check_expressions.specs.Callees.{parameters_of};

use crate::arguments::Arguments;
use crate::calls::{
    array_called, function_call, local_called, not_called, number_called, undeclared,
};
use crate::judged::{Judged, Operand};
use crate::notes::Notes;
use c_check_names::{Meaning, Scopes};
use c_syntax::Identifier;
use c_tree::ValueType;
use pcc_base::{Fault, NoMemory};
use std::alloc::Global;

/// The parameters of what is called; none where that is no function.
pub(crate) fn parameters_of(meaning: Option<&Meaning>) -> &[ValueType]
    ensures { result.now ≡ parameters_of (option_map (λ m. meaning_of m.now) meaning.entry) }
{
    match meaning {
        Some(Meaning::Function(_, signature)) => signature.parameters.as_slice(),
        _ => &[],
    }
}

/// The parameter at a place, where there is one.
pub(crate) fn parameter_at(parameters: &[ValueType], index: usize) -> Option<ValueType>
    ensures { result ≡ slice_get parameters.now index }
{
    parameters.get(index).copied()
}

/// A name that is called and means no function: the least of its fault and those of the arguments.
fn no_function(fault: Fault, given: Arguments) -> Judged<Operand>
    ensures { (c : Checked TypedArguments) (before after : List Note) → Stands AreArguments c given.values
        → IsSaid IsOperandOf (Fails fault (faults_in c)) result before after }
{
    Judged::Fails(not_called(fault, given.values))
}

/// A call of what a name means, whose arguments were judged.
pub(crate) fn called(
    alloc: Global,
    scopes: &Scopes,
    notes: &mut Notes,
    name: &Identifier,
    meaning: Option<&Meaning>,
    given: Arguments,
    count: usize,
) -> Result<Judged<Operand>, NoMemory>
    ensures { IfOk result (λ j. (gs : List Given) (before : List Note) → given.typed ≡ have_types gs
        → count ≡ length gs
        → IsSaid AreArguments (arguments_for (parameters_of (option_map (λ m. meaning_of m.now) meaning.entry)) gs)
        given.values before notes.old
        → IsSaid IsOperandOf (called scopes.now name.now gs (option_map (λ m. meaning_of m.now) meaning.entry))
        j before notes.new) }
{
    let at = name.at;
    match meaning {
        Some(Meaning::Function(entity, signature)) => {
            function_call(alloc, scopes, notes, at, entity, signature, given, count)
        }
        None => Ok(no_function(undeclared(at), given)),
        Some(Meaning::Local(_, of)) => Ok(no_function(local_called(at, *of), given)),
        Some(Meaning::Object(_, _)) => Ok(no_function(number_called(at), given)),
        Some(Meaning::LocalArray(_, _) | Meaning::ObjectArray(_, _)) => {
            Ok(no_function(array_called(at), given))
        }
    }
}
