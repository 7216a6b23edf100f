//! What is known of an expression before its lines are: its type, whether it stores nothing, and where it stands.

ghost use Rattle.std.specs.Prelude.{◌≡◌, option_map};
ghost use Rattle.c_tree.specs.Erased.{expression_of, place_of};
ghost use Rattle.lower_lines.specs.Expressions.{part_of};
ghost use Rattle.lower_lines.specs.Variables.{Context};
ghost use Rattle.lower_builder.specs.Sites.{context_of};
ghost use Rattle.lower_builder.specs.Spots.{spot_of};
ghost use Rattle.lower_expressions.specs.Kinds.{is_name, is_simple, name_stands, number_type, place_type, stands_in};
ghost use Rattle.lower_expressions.specs.Kinds.{step_type, type_in};

use crate::leaves::local_stands;
use c_tree::{Expression, IntegerType, Place, ValueType};
use lower_builder::{Site, Spot};

/// The type of a static object that is no array: a number's.
pub(crate) fn number_type(of: ValueType) -> IntegerType
    ensures { result ≡ number_type of }
{
    match of {
        ValueType::Integer(t) => t,
        ValueType::Void => IntegerType::Int,
        ValueType::Pointer(_) => IntegerType::Int,
    }
}

/// The type of a place's value.
fn place_type(of: ValueType, place: &Place) -> ValueType
    ensures { result ≡ place_type of (place_of place.now) }
{
    match place {
        Place::Local(_) => of,
        Place::Static(_) => ValueType::Integer(number_type(of)),
        Place::Target(t, _) => ValueType::Integer(*t),
        Place::Element(t, _, _) => ValueType::Integer(*t),
    }
}

/// The type of what is stepped; a static object's is that of the step.
fn step_type(of: ValueType, place: &Place) -> ValueType
    ensures { result ≡ step_type of (place_of place.now) }
{
    match place {
        Place::Local(_) => of,
        Place::Static(_) => of,
        Place::Target(t, _) => ValueType::Integer(*t),
        Place::Element(t, _, _) => ValueType::Integer(*t),
    }
}

/// The type of an expression's value.
pub fn part_type(e: &Expression) -> ValueType
    ensures { (c : Context) → result ≡ (part_of c (expression_of e.now)).of }
{
    type_in(e)
}

/// The type that the form of an expression gives.
fn type_in(e: &Expression) -> ValueType
    ensures { result ≡ type_in (expression_of e.now) }
{
    match e {
        Expression::Constant(t, _) => ValueType::Integer(*t),
        Expression::Start(t, _) => ValueType::Pointer(*t),
        Expression::Read(of, place) => place_type(*of, place),
        Expression::Address(t, _) => ValueType::Pointer(*t),
        Expression::Unary(of, _, _) => ValueType::Integer(*of),
        Expression::Binary(of, _, _, _) => *of,
        Expression::And(_, _) => ValueType::Integer(IntegerType::Int),
        Expression::Or(_, _) => ValueType::Integer(IntegerType::Int),
        Expression::Conditional(of, _, _, _) => *of,
        Expression::Cast(to, _) => *to,
        Expression::Assign(of, place, _) => place_type(*of, place),
        Expression::Update(of, _, place, _) => place_type(*of, place),
        Expression::Step(of, _, place) => step_type(*of, place),
        Expression::Comma(_, b) => type_in(b),
        Expression::Call(of, _, _) => *of,
        Expression::Putchar(_) => ValueType::Integer(IntegerType::Int),
        Expression::Getchar => ValueType::Integer(IntegerType::Int),
        Expression::Exit(_) => ValueType::Void,
    }
}

/// Whether a place is a name.
fn is_name(place: &Place) -> bool
    ensures { result ≡ is_name (place_of place.now) }
{
    match place {
        Place::Local(_) => true,
        Place::Static(_) => true,
        Place::Target(_, _) => false,
        Place::Element(_, _, _) => false,
    }
}

/// Whether an expression is a name, a number or a string, which stores nothing.
pub fn is_simple(e: &Expression) -> bool
    ensures { (c : Context) → result ≡ (part_of c (expression_of e.now)).simple }
{
    simple_form(e)
}

/// Whether the form of an expression is one of these.
fn simple_form(e: &Expression) -> bool
    ensures { result ≡ is_simple (expression_of e.now) }
{
    match e {
        Expression::Constant(_, _) => true,
        Expression::Start(_, _) => true,
        Expression::Read(_, place) => is_name(place),
        Expression::Address(_, place) => is_name(place),
        Expression::Unary(_, _, _) => false,
        Expression::Binary(_, _, _, _) => false,
        Expression::And(_, _) => false,
        Expression::Or(_, _) => false,
        Expression::Conditional(_, _, _, _) => false,
        Expression::Cast(_, _) => false,
        Expression::Assign(_, _, _) => false,
        Expression::Update(_, _, _, _) => false,
        Expression::Step(_, _, _) => false,
        Expression::Comma(_, _) => false,
        Expression::Call(_, _, _) => false,
        Expression::Putchar(_) => false,
        Expression::Getchar => false,
        Expression::Exit(_) => false,
    }
}

/// The variables of a name that an op may use where they stand.
fn name_stands(site: &Site<'_>, of: ValueType, place: &Place) -> Option<Spot>
    ensures { option_map spot_of result ≡ name_stands (context_of site.now) of (place_of place.now) }
{
    match place {
        Place::Local(v) => local_stands(site, of, *v),
        Place::Static(_) => None,
        Place::Target(_, _) => None,
        Place::Element(_, _, _) => None,
    }
}

/// The variables where an expression's value stands, if it is a local that an op may use as it is.
pub fn stands(site: &Site<'_>, e: &Expression) -> Option<Spot>
    ensures { option_map spot_of result ≡ (part_of (context_of site.now) (expression_of e.now)).stands }
{
    stands_in(site, e)
}

/// The variables where the form of an expression says that it stands.
fn stands_in(site: &Site<'_>, e: &Expression) -> Option<Spot>
    ensures { option_map spot_of result ≡ stands_in (context_of site.now) (expression_of e.now) }
{
    match e {
        Expression::Constant(_, _) => None,
        Expression::Start(_, _) => None,
        Expression::Read(of, place) => name_stands(site, *of, place),
        Expression::Address(t, place) => name_stands(site, ValueType::Pointer(*t), place),
        Expression::Unary(_, _, _) => None,
        Expression::Binary(_, _, _, _) => None,
        Expression::And(_, _) => None,
        Expression::Or(_, _) => None,
        Expression::Conditional(_, _, _, _) => None,
        Expression::Cast(_, _) => None,
        Expression::Assign(_, _, _) => None,
        Expression::Update(_, _, _, _) => None,
        Expression::Step(_, _, _) => None,
        Expression::Comma(_, _) => None,
        Expression::Call(_, _, _) => None,
        Expression::Putchar(_) => None,
        Expression::Getchar => None,
        Expression::Exit(_) => None,
    }
}
