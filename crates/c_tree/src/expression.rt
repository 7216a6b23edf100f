//! Expressions and the places that they name (C99 6.5).

ghost use Rattle.std.specs.Prelude.{◌≡◌, IfOk};
ghost use Rattle.c_tree.specs.Erased.{boxed_of, expression_of, place_of};
ghost use Rattle.c_tree.specs.Program as typed;
ghost use Rattle.c_tree.specs.Program.{value_type};

use crate::types::{IntegerType, ValueType};
use pcc_base::NoMemory;
use std::alloc::Global;

/// The operators on one operand (C99 6.5.3.3).
#[derive(Clone, Copy)]
pub enum UnaryOp {
    Plus,
    Minus,
    /// The bitwise complement `~`.
    Complement,
    /// The logical negation `!`.
    Not,
}

/// The operators on two operands that evaluate both (C99 6.5.5 to 6.5.12).
#[derive(Clone, Copy)]
pub enum BinaryOp {
    Multiply,
    Divide,
    Remainder,
    Add,
    Subtract,
    ShiftLeft,
    ShiftRight,
    Less,
    Greater,
    LessOrEqual,
    GreaterOrEqual,
    Equal,
    NotEqual,
    BitAnd,
    BitXor,
    BitOr,
}

/// `++` and `--`, before and after their operand (C99 6.5.2.4 and 6.5.3.1).
#[derive(Clone, Copy)]
pub enum StepOp {
    PreIncrement,
    PreDecrement,
    PostIncrement,
    PostDecrement,
}

/// An array by its number: a static object of the program, or an array of the function.
#[derive(Clone, Copy, PartialEq, Eq)]
pub enum ArrayRef {
    Static(u32),
    Frame(u32),
}

/// An expression. Each has a type: the first part of those whose type isn't settled by their form.
#[cycle(expression)]
#[derive(Drop)]
pub enum Expression {
    /// A constant (C99 6.4.4).
    Constant(IntegerType, i32),
    /// The name of an array or a string literal: a pointer to its first element (C99 6.3.2.1).
    Start(IntegerType, ArrayRef),
    /// The value of a place (C99 6.3.2.1).
    Read(ValueType, Place),
    /// `&` of an element, a pointer (C99 6.5.3.2).
    Address(IntegerType, Place),
    /// An operator on one operand, with the type of its result (C99 6.5.3.3).
    Unary(IntegerType, UnaryOp, Box<Expression>),
    Binary(ValueType, BinaryOp, Box<Expression>, Box<Expression>),
    /// `&&`, an `int` (C99 6.5.13).
    And(Box<Expression>, Box<Expression>),
    /// `||`, an `int` (C99 6.5.14).
    Or(Box<Expression>, Box<Expression>),
    /// `?:` (C99 6.5.15).
    Conditional(ValueType, Box<Expression>, Box<Expression>, Box<Expression>),
    /// A cast (C99 6.5.4).
    Cast(ValueType, Box<Expression>),
    /// `=` (C99 6.5.16.1).
    Assign(ValueType, Place, Box<Expression>),
    /// An assignment with an operator, as `+=` (C99 6.5.16.2).
    Update(ValueType, BinaryOp, Place, Box<Expression>),
    Step(ValueType, StepOp, Place),
    /// `,` (C99 6.5.17), of the type of its right operand.
    Comma(Box<Expression>, Box<Expression>),
    /// A call of a function of the program by its number (C99 6.5.2.2).
    Call(ValueType, u32, Vec<Expression>),
    /// `putchar(e)`, an `int` (C99 7.19.7.9).
    Putchar(Box<Expression>),
    /// `getchar()`, an `int` (C99 7.19.7.6).
    Getchar,
    /// `exit(e)`, without a value (C99 7.20.4.3).
    Exit(Box<Expression>),
}

/// An lvalue: what an expression reads, writes or takes the address of (C99 6.3.2.1).
#[cycle(expression)]
#[derive(Drop)]
pub enum Place {
    /// A local of the function that is no array.
    Local(u32),
    /// A static object that is no array.
    Static(u32),
    /// `*p`.
    Target(IntegerType, Box<Expression>),
    /// `a[i]`.
    Element(IntegerType, Box<Expression>, Box<Expression>),
}

impl Expression {
    /// An operator on one operand, with the type of its result.
    pub fn unary(
        alloc: Global,
        of: IntegerType,
        op: UnaryOp,
        operand: Box<Expression>,
    ) -> Result<Box<Self>, NoMemory>
        ensures { IfOk result (λ e. boxed_of e ≡ typed.Unary of op (boxed_of operand)) }
    {
        Ok(Box::new(alloc, Expression::Unary(of, op, operand))?)
    }

    /// An operator on two operands, with the type of its result.
    pub fn binary(
        alloc: Global,
        of: ValueType,
        op: BinaryOp,
        left: Box<Expression>,
        right: Box<Expression>,
    ) -> Result<Box<Self>, NoMemory>
        ensures { IfOk result (λ e. boxed_of e ≡ typed.Binary of op (boxed_of left) (boxed_of right)) }
    {
        Ok(Box::new(alloc, Expression::Binary(of, op, left, right))?)
    }

    /// `left && right`.
    pub fn and(
        alloc: Global,
        left: Box<Expression>,
        right: Box<Expression>,
    ) -> Result<Box<Self>, NoMemory>
        ensures { IfOk result (λ e. boxed_of e ≡ typed.And (boxed_of left) (boxed_of right)) }
    {
        Ok(Box::new(alloc, Expression::And(left, right))?)
    }

    /// `left || right`.
    pub fn or(
        alloc: Global,
        left: Box<Expression>,
        right: Box<Expression>,
    ) -> Result<Box<Self>, NoMemory>
        ensures { IfOk result (λ e. boxed_of e ≡ typed.Or (boxed_of left) (boxed_of right)) }
    {
        Ok(Box::new(alloc, Expression::Or(left, right))?)
    }

    /// `test ? first : second`, with the type of its value.
    pub fn conditional(
        alloc: Global,
        of: ValueType,
        test: Box<Expression>,
        first: Box<Expression>,
        second: Box<Expression>,
    ) -> Result<Box<Self>, NoMemory>
        ensures { IfOk result (λ e.
            boxed_of e ≡ typed.Conditional of (boxed_of test) (boxed_of first) (boxed_of second)) }
    {
        Ok(Box::new(alloc, Expression::Conditional(of, test, first, second))?)
    }

    /// A cast to a type.
    pub fn cast(
        alloc: Global,
        to: ValueType,
        operand: Box<Expression>,
    ) -> Result<Box<Self>, NoMemory>
        ensures { IfOk result (λ e. boxed_of e ≡ typed.Cast to (boxed_of operand)) }
    {
        Ok(Box::new(alloc, Expression::Cast(to, operand))?)
    }

    /// `place = value`, with the type of the place.
    pub fn assign(
        alloc: Global,
        of: ValueType,
        place: Place,
        value: Box<Expression>,
    ) -> Result<Box<Self>, NoMemory>
        ensures { IfOk result (λ e. boxed_of e ≡ typed.Assign of (place_of place) (boxed_of value)) }
    {
        Ok(Box::new(alloc, Expression::Assign(of, place, value))?)
    }

    /// An assignment with an operator, with the type of the place.
    pub fn update(
        alloc: Global,
        of: ValueType,
        op: BinaryOp,
        place: Place,
        value: Box<Expression>,
    ) -> Result<Box<Self>, NoMemory>
        ensures { IfOk result (λ e. boxed_of e ≡ typed.Update of op (place_of place) (boxed_of value)) }
    {
        Ok(Box::new(alloc, Expression::Update(of, op, place, value))?)
    }

    /// `left, right`.
    pub fn comma(
        alloc: Global,
        left: Box<Expression>,
        right: Box<Expression>,
    ) -> Result<Box<Self>, NoMemory>
        ensures { IfOk result (λ e. boxed_of e ≡ typed.Comma (boxed_of left) (boxed_of right)) }
    {
        Ok(Box::new(alloc, Expression::Comma(left, right))?)
    }

    /// `putchar(operand)`.
    pub fn putchar(alloc: Global, operand: Box<Expression>) -> Result<Box<Self>, NoMemory>
        ensures { IfOk result (λ e. boxed_of e ≡ typed.Putchar (boxed_of operand)) }
    {
        Ok(Box::new(alloc, Expression::Putchar(operand))?)
    }

    /// `exit(operand)`.
    pub fn exit(alloc: Global, operand: Box<Expression>) -> Result<Box<Self>, NoMemory>
        ensures { IfOk result (λ e. boxed_of e ≡ typed.Exit (boxed_of operand)) }
    {
        Ok(Box::new(alloc, Expression::Exit(operand))?)
    }

    /// The type of the expression's value; that of a place that is read is the place's.
    pub fn value_type(&self) -> ValueType
        ensures { result ≡ value_type (expression_of self.now) }
    {
        match self {
            Expression::Read(of, _)
            | Expression::Binary(of, _, _, _)
            | Expression::Conditional(of, _, _, _)
            | Expression::Cast(of, _)
            | Expression::Assign(of, _, _)
            | Expression::Update(of, _, _, _)
            | Expression::Step(of, _, _)
            | Expression::Call(of, _, _) => *of,
            Expression::Start(element, _) | Expression::Address(element, _) => {
                ValueType::Pointer(*element)
            }
            Expression::Constant(of, _) | Expression::Unary(of, _, _) => ValueType::Integer(*of),
            Expression::Comma(_, right) => right.value_type(),
            Expression::Exit(_) => ValueType::Void,
            Expression::And(_, _)
            | Expression::Or(_, _)
            | Expression::Putchar(_)
            | Expression::Getchar => ValueType::Integer(IntegerType::Int),
        }
    }
}
