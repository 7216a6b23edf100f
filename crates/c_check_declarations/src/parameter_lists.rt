//! The parameters of functions (C99 6.7.5.3).

ghost use Rattle.std.specs.Prelude.{◌≡◌, [], ℕ, List, map, option_map, IfOk, OnOk, if◌then◌else◌};
ghost use Rattle.c_syntax.specs.Declarations.{maybe_array_of, parameter_of};
ghost use Rattle.c_typing.specs.Checked.{Checked, Note, also, faults_in, if_fits};
ghost use Rattle.c_typing.specs.Declarators.{
  has_void_base,
  is_void_parameter,
  parameter_allowed,
  parameter_declared,
  parameter_faults,
  parameter_place,
  parameter_size,
  parameter_with,
  parameters_meant,
  pointer_to,
  typed_each,
  typed_parameter,
  typed_parameters,
  with_named,
  with_parameter,
  with_parameters,
};
ghost use Rattle.c_typing.specs.Names.{entered};
ghost use Rattle.c_check_expressions.specs.Said.{IsSaid};
ghost use Rattle.c_check_declarations.specs.DeclaratorAnswers.{AreSame, IsSame, value_answered};
ghost use Rattle.c_check_declarations.specs.Together.{fault_answered, listed};
ghost use Rattle.c_check_declarations.specs.Views.{specified_of};

use crate::answers::{also, behind, fault_of};
use crate::sizes::size_or;
use crate::specifiers::{Position, Specified, specifiers_at, specifiers_if_any};
use c_check_expressions::type_names::{first_word, pointed};
use c_check_expressions::{Judged, Notes};
use c_check_names::Scopes;
use c_syntax::{ArrayPart, Identifier, Parameter};
use c_tree::ValueType;
use pcc_base::{Fault, FaultKind, NoMemory, Span};
use std::alloc::Global;

/// The place of a parameter: its name, or its first specifier.
fn parameter_place(p: &Parameter) -> Span
    ensures { result ≡ parameter_place (parameter_of p.now) p.now.name }
{
    match &p.name {
        Some(name) => name.at,
        None => first_word(p.specifiers.as_slice()),
    }
}

/// A pointer to elements of a type, which are integers.
fn pointer_to(of: Option<ValueType>) -> Option<ValueType>
    ensures { result ≡ pointer_to of }
{
    match of {
        Some(ValueType::Integer(element)) => Some(ValueType::Pointer(element)),
        _ => None,
    }
}

/// The type of a parameter: an array becomes a pointer to its element (C99 6.7.5.3p7).
fn parameter_declared(of: Option<ValueType>, array: &Option<ArrayPart>) -> Option<ValueType>
    ensures { result ≡ parameter_declared of (maybe_array_of array.now) }
{
    match array {
        Some(_) => pointer_to(of),
        None => of,
    }
}

/// A parameter has a type, which isn't void.
fn parameter_allowed(at: Span, of: Option<ValueType>) -> Judged<ValueType>
    ensures said { (notes : List Note) → IsSaid IsSame (parameter_allowed at of) result notes notes }
    ensures fault { listed (fault_answered result) ≡ faults_in (parameter_allowed at of) }
{
    match of {
        None => Judged::Fails(Fault {
            kind: FaultKind::PointerUse,
            at,
        }),
        Some(ValueType::Void) => Judged::Fails(Fault {
            kind: FaultKind::TypeRule,
            at,
        }),
        Some(of) => Judged::Fits(of),
    }
}

/// The size of a parameter that is an array, where any will do.
fn parameter_size(
    alloc: Global,
    scopes: &Scopes,
    notes: &mut Notes,
    array: &Option<ArrayPart>,
) -> Result<Judged<u32>, NoMemory>
    ensures { IfOk result (λ j. IsSaid IsSame (parameter_size scopes.now (maybe_array_of array.now)) j
        notes.old notes.new) }
{
    match array {
        None => Ok(Judged::Fits(1)),
        Some(part) => size_or(alloc, scopes, notes, part.opening, Some(1), &part.size),
    }
}

/// The fault of a name that stands twice in the list (C99 6.2.1p4), or of a parameter of a definition without a name
/// (C99 6.9.1p5).
fn parameter_fault(scopes: &Scopes, definition: bool, p: &Parameter) -> Option<Fault>
    ensures { listed result ≡ parameter_faults scopes.now definition (parameter_of p.now) p.now.name }
{
    match &p.name {
        Some(name) => {
            if scopes.is_declared_here(&name.name) {
                Some(Fault {
                    kind: FaultKind::Redeclared,
                    at: name.at,
                })
            } else {
                None
            }
        }
        None => {
            if definition {
                Some(Fault {
                    kind: FaultKind::TypeRule,
                    at: first_word(p.specifiers.as_slice()),
                })
            } else {
                None
            }
        }
    }
}

/// The type of a parameter with such a base, which isn't void.
fn parameter_with(base: ValueType, p: &Parameter) -> Judged<ValueType>
    ensures said { (notes : List Note)
        → IsSaid IsSame (parameter_with base (parameter_of p.now)) result notes notes }
    ensures fault { listed (fault_answered result) ≡ faults_in (parameter_with base (parameter_of p.now)) }
{
    let of = parameter_declared(pointed(base, &p.pointer), &p.array);
    parameter_allowed(parameter_place(p), of)
}

/// A parameter of such a type, whose size was judged.
fn sized_parameter(
    scopes: &Scopes,
    definition: bool,
    p: &Parameter,
    size: Judged<u32>,
    of: Judged<ValueType>,
) -> Judged<ValueType>
    ensures { let q = parameter_of p.now in (c : Checked ℕ) (x : Checked ValueType) (before after : List Note)
        → IsSaid IsSame c size before after → ((notes : List Note) → IsSaid IsSame x of notes notes)
        → IsSaid IsSame (if_fits c (λ count. also (parameter_faults scopes.now definition q q.name) x)) result
        before after }
{
    match size {
        Judged::Fails(fault) => Judged::Fails(fault),
        Judged::Fits(_) => also(parameter_fault(scopes, definition, p), of),
    }
}

/// The type of a parameter with such a base. What its base and `*` forbid is a fault whatever its size is.
fn based_parameter(
    alloc: Global,
    scopes: &Scopes,
    notes: &mut Notes,
    definition: bool,
    p: &Parameter,
    base: ValueType,
) -> Result<Judged<ValueType>, NoMemory>
    ensures { let q = parameter_of p.now in IfOk result (λ j. IsSaid IsSame
        (also (faults_in (parameter_with base q)) (if_fits (parameter_size scopes.now q.array) (λ size.
        also (parameter_faults scopes.now definition q q.name) (parameter_with base q)))) j notes.old notes.new) }
{
    let of = parameter_with(base, p);
    let forbidden = fault_of(&of);
    let size = parameter_size(alloc, scopes, notes, &p.array)?;
    let part = sized_parameter(scopes, definition, p, size, of);
    Ok(also(forbidden, part))
}

/// The type of a parameter.
fn typed_parameter(
    alloc: Global,
    scopes: &Scopes,
    notes: &mut Notes,
    definition: bool,
    p: &Parameter,
) -> Result<Judged<ValueType>, NoMemory>
    ensures { IfOk result (λ j. IsSaid IsSame
        (typed_parameter scopes.now definition (parameter_of p.now)) j notes.old notes.new) }
{
    match specifiers_at(Position::InParameters, p.specifiers.as_slice()) {
        Judged::Fails(fault) => Ok(Judged::Fails(fault)),
        Judged::Fits(said) => based_parameter(alloc, scopes, notes, definition, p, said.base),
    }
}

/// A parameter that has a name and a type is a local.
fn declare_named(
    alloc: Global,
    scopes: &mut Scopes,
    name: &Option<Identifier>,
    part: &Judged<ValueType>,
) -> Result<(), NoMemory>
    ensures { OnOk result (scopes.new ≡ with_named scopes.old name.now (value_answered part.now)) }
{
    match (name, part) {
        (Some(name), Judged::Fits(of)) => {
            scopes.declare_local(alloc, &name.name, *of)?;
            Ok(())
        }
        _ => Ok(()),
    }
}

/// The type of a parameter, which is then declared.
fn parameter(
    alloc: Global,
    scopes: &mut Scopes,
    notes: &mut Notes,
    definition: bool,
    p: &Parameter,
) -> Result<Judged<ValueType>, NoMemory>
    ensures said { IfOk result (λ j. IsSaid IsSame
        (typed_parameter scopes.old definition (parameter_of p.now)) j notes.old notes.new) }
    ensures scope { OnOk result (scopes.new ≡ with_parameter scopes.old (parameter_of p.now)) }
{
    let part = typed_parameter(alloc, scopes, notes, definition, p)?;
    declare_named(alloc, scopes, &p.name, &part)?;
    Ok(part)
}

/// The types of parameters, each of which is then declared.
fn each(
    alloc: Global,
    scopes: &mut Scopes,
    notes: &mut Notes,
    definition: bool,
    list: &[Parameter],
) -> Result<Judged<Vec<ValueType>>, NoMemory>
    ensures said { IfOk result (λ j. IsSaid AreSame
        (typed_each scopes.old definition (map parameter_of list.now)) j notes.old notes.new) }
    ensures scope { OnOk result (scopes.new ≡ with_parameters scopes.old (map parameter_of list.now)) }
{
    let mut types = Judged::Fits(Vec::new(alloc));
    for p in list {
        let part = parameter(alloc, scopes, notes, definition, p)?;
        types = behind(types, part)?;
    }
    Ok(types)
}

/// Whether specifiers of a parameter say void.
fn has_void_base(said: Option<Specified>) -> bool
    ensures { result ≡ has_void_base (option_map specified_of said) }
{
    match said {
        Some(
            Specified {
                base: ValueType::Void,
                ..
            },
        ) => true,
        _ => false,
    }
}

/// Whether a parameter is an unnamed `void`, neither a pointer nor an array.
fn is_void_parameter(p: &Parameter) -> bool
    ensures { result ≡ is_void_parameter (parameter_of p.now) }
{
    p.name.is_none()
        && p.pointer.is_none()
        && p.array.is_none()
        && has_void_base(specifiers_if_any(Position::InParameters, p.specifiers.as_slice()))
}

/// Whether a list of parameters means that there are none (C99 6.7.5.3p10).
fn means_none(list: &[Parameter]) -> bool
    ensures { map parameter_of (if result then [] else list.now) ≡ parameters_meant (map parameter_of list.now) }
{
    match list {
        [p] => is_void_parameter(p),
        _ => false,
    }
}

/// The types of parameters, of a definition or of a declaration; each is declared in the scope that is open.
pub fn parameters(
    alloc: Global,
    scopes: &mut Scopes,
    notes: &mut Notes,
    definition: bool,
    list: &[Parameter],
) -> Result<Judged<Vec<ValueType>>, NoMemory>
    ensures said { IfOk result (λ j. IsSaid AreSame
        (typed_parameters scopes.old definition (map parameter_of list.now)) j notes.old notes.new) }
    ensures scope { OnOk result (scopes.new
        ≡ with_parameters scopes.old (parameters_meant (map parameter_of list.now))) }
{
    if means_none(list) {
        return Ok(Judged::Fits(Vec::new(alloc)));
    }
    each(alloc, scopes, notes, definition, list)
}

/// The types of parameters, of a definition or of a declaration, whose names are a scope of their own. Behind them all
/// is as it was.
pub fn parameters_apart(
    alloc: Global,
    scopes: &mut Scopes,
    notes: &mut Notes,
    definition: bool,
    list: &[Parameter],
) -> Result<Judged<Vec<ValueType>>, NoMemory>
    ensures said { IfOk result (λ j. IsSaid AreSame
        (typed_parameters (entered scopes.old) definition (map parameter_of list.now)) j
        notes.old notes.new) }
    ensures scope { OnOk result (scopes.new ≡ scopes.old) }
{
    let locals = scopes.local_count();
    let mark = scopes.enter()?;
    let types = parameters(alloc, scopes, notes, definition, list)?;
    scopes.leave(mark);
    scopes.forget_locals(locals);
    Ok(types)
}
