//! When types and things are the same.

ghost use Rattle.std.specs.Prelude.{◌≡◌};
ghost use Rattle.c_typing.specs.Library.{same_entity};
ghost use Rattle.c_typing.specs.Types.{same_pointed, same_type, same_value, same_values};
ghost use Rattle.c_check_names.specs.Views.{declared_of, entity_of};

use crate::entity::Entity;
use crate::meaning::Declared;
use c_tree::ValueType;

/// Whether two things are the same (C99 6.2.2).
#[tactic(auto, using(crate::proofs::Entities::turned))]
pub fn same_entity(a: &Entity, b: &Entity) -> bool
    ensures { result ≡ same_entity (entity_of b.now) (entity_of a.now) }
{
    a == b
}

/// Whether two types are one.
#[tactic(auto, using(crate::proofs::Sameness::value_tested))]
fn same_value(t: ValueType, u: ValueType) -> bool
    ensures { result ≡ same_value t u }
{
    t == u
}

/// Whether two types that may be pointers to `void` are one.
fn same_pointed(t: Option<ValueType>, u: Option<ValueType>) -> bool
    ensures { result ≡ same_pointed t u }
{
    match (t, u) {
        (None, None) => true,
        (Some(t), Some(u)) => same_value(t, u),
        (None, Some(_)) | (Some(_), None) => false,
    }
}

/// Whether two rows of types are one.
#[tactic(auto, using(crate::proofs::Sameness::values_tested))]
fn same_values(ts: &[ValueType], us: &[ValueType]) -> bool
    ensures { result ≡ same_values ts.now us.now }
{
    ts == us
}

/// Whether two declared types are compatible (C99 6.2.7, 6.7.5.2p6 and 6.7.5.3p15).
pub fn same_type(a: &Declared, b: &Declared) -> bool
    ensures { result ≡ same_type (declared_of a.now) (declared_of b.now) }
{
    match (a, b) {
        (Declared::Value(t), Declared::Value(u)) => same_pointed(*t, *u),
        (Declared::Array(t, m), Declared::Array(u, n)) => same_pointed(*t, *u) && *m == *n,
        (Declared::Function(t, ts), Declared::Function(u, us)) => {
            same_pointed(*t, *u) && same_values(ts.as_slice(), us.as_slice())
        }
        _ => false,
    }
}
