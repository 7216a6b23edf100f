//! The types of expressions, by hand from C99 6.5.

use crate::expected::expect;
use c_tree::{ArrayRef, Expression, IntegerType, Place, ValueType};
use std::alloc::Global;
use std::process::Abort;

/// An expression in a box.
fn boxed(rt: &impl Abort, alloc: Global, expression: Expression) -> Box<Expression> {
    Box::new(alloc, expression).expect(rt, "a box")
}

/// `(c, &a[2])` for a `char` c and a `short` a: a pointer to `short`.
#[test]
fn type_of_a_comma(rt: HostRuntime) {
    let alloc = rt.alloc();
    let char_type = ValueType::Integer(IntegerType::Char);
    let array = Expression::Start(IntegerType::Short, ArrayRef::Frame(0));
    let index = Expression::Constant(IntegerType::Int, 2);
    let place = Place::Element(
        IntegerType::Short,
        boxed(&rt, alloc, array),
        boxed(&rt, alloc, index),
    );
    let left = Expression::Read(char_type, Place::Local(0));
    expect(&rt, &(left.value_type() == char_type), &true, "c");
    let right = Expression::Address(IntegerType::Short, place);
    let (left, right) = (boxed(&rt, alloc, left), boxed(&rt, alloc, right));
    let both = Expression::comma(alloc, left, right).expect(&rt, "a comma");
    let wanted = ValueType::Pointer(IntegerType::Short);
    expect(&rt, &(both.value_type() == wanted), &true, "(c, &a[2])");
}
