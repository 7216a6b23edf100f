//! The types that objects have, and objects of static storage (C99 6.7.5 and 6.7.8).

ghost use Rattle.std.specs.Prelude.{◌≡◌, List, OnOk};
ghost use Rattle.c_syntax.specs.Declarations.{declarator_of};
ghost use Rattle.c_typing.specs.Checked.{Note, faults_in};
ghost use Rattle.c_typing.specs.Declarators.{array_object, object_allowed, type_faults, value_object};
ghost use Rattle.c_typing.specs.Statements.{bound_object};
ghost use Rattle.c_check_names.specs.Views.{declared_of, entity_of};
ghost use Rattle.c_check_expressions.specs.Said.{IsSaid};
ghost use Rattle.c_check_declarations.specs.DeclaratorAnswers.{IsObject};
ghost use Rattle.c_check_declarations.specs.Together.{fault_answered, listed};
ghost use Rattle.c_check_declarations.specs.Views.{object_of, specified_of};

use crate::answers::fault_of;
use crate::specifiers::Specified;
use c_check_expressions::Judged;
use c_check_expressions::type_names::pointed;
use c_check_names::{Declared, Entity, Meaning, Scopes};
use c_syntax::{Declarator, DeclaratorPart, Identifier};
use c_tree::{IntegerType, ValueType};
use pcc_base::{Fault, FaultKind, NoMemory, Span};
use std::alloc::Global;

/// The types that objects have: an integer, a pointer by its element, an array by its element and how many there are.
#[derive(Clone, Copy)]
pub enum ObjectType {
    Integer(IntegerType),
    Pointer(IntegerType),
    Array(IntegerType, u32),
}

/// The type of an object that is no array.
fn value_object(is_static: bool, at: Span, of: Option<ValueType>) -> Judged<ObjectType>
    ensures said { (notes : List Note) → IsSaid IsObject (value_object is_static at of) result notes notes }
    ensures fault { listed (fault_answered result) ≡ faults_in (value_object is_static at of) }
{
    match of {
        Some(ValueType::Integer(of)) => Judged::Fits(ObjectType::Integer(of)),
        Some(ValueType::Pointer(element)) if !is_static => {
            Judged::Fits(ObjectType::Pointer(element))
        }
        Some(ValueType::Void) => Judged::Fails(Fault {
            kind: FaultKind::TypeRule,
            at,
        }),
        None | Some(ValueType::Pointer(_)) => Judged::Fails(Fault {
            kind: FaultKind::PointerUse,
            at,
        }),
    }
}

/// The type of an array.
fn array_object(at: Span, count: u32, element: Option<ValueType>) -> Judged<ObjectType>
    ensures said { (notes : List Note) → IsSaid IsObject (array_object at count element) result notes notes }
    ensures fault { listed (fault_answered result) ≡ faults_in (array_object at count element) }
{
    match element {
        Some(ValueType::Integer(element)) => Judged::Fits(ObjectType::Array(element, count)),
        Some(ValueType::Void) => Judged::Fails(Fault {
            kind: FaultKind::TypeRule,
            at,
        }),
        None | Some(ValueType::Pointer(_)) => Judged::Fails(Fault {
            kind: FaultKind::PointerUse,
            at,
        }),
    }
}

/// The type of an object that isn't void and, of static storage, no pointer; an array has integers. A fault stands at
/// the declared name.
pub fn object_allowed(is_static: bool, at: Span, declared: &Declared) -> Judged<ObjectType>
    ensures { (notes : List Note)
        → IsSaid IsObject (object_allowed is_static at (declared_of declared.now)) result notes notes }
{
    match declared {
        Declared::Value(of) => value_object(is_static, at, *of),
        Declared::Array(element, count) => array_object(at, *count, *element),
        Declared::Function(_, _) => Judged::Fails(Fault {
            kind: FaultKind::TypeRule,
            at,
        }),
    }
}

/// The fault of an object that its specifiers and `*` forbid, whatever its size is. It stands at the declared name.
pub fn type_fault(is_static: bool, said: Specified, declarator: &Declarator) -> Option<Fault>
    ensures { listed result ≡ type_faults is_static (specified_of said) (declarator_of declarator.now) }
{
    let at = declarator.name.at;
    let of = pointed(said.base, &declarator.pointer);
    match &declarator.part {
        DeclaratorPart::Plain => fault_of(&value_object(is_static, at, of)),
        DeclaratorPart::Array(_) => fault_of(&array_object(at, 1, of)),
        DeclaratorPart::Function(_) => Some(Fault {
            kind: FaultKind::TypeRule,
            at,
        }),
    }
}

/// Declares the name of an object of static storage.
pub fn bind_object(
    alloc: Global,
    scopes: &mut Scopes,
    name: &Identifier,
    entity: Entity,
    of: ObjectType,
) -> Result<(), NoMemory>
    ensures { OnOk result (scopes.new ≡ bound_object name.now (entity_of entity) (object_of of) scopes.old) }
{
    match of {
        ObjectType::Integer(of) => scopes.bind(alloc, &name.name, Meaning::Object(entity, of)),
        ObjectType::Pointer(_) => Ok(()),
        ObjectType::Array(element, _) => {
            scopes.bind(alloc, &name.name, Meaning::ObjectArray(entity, element))
        }
    }
}
