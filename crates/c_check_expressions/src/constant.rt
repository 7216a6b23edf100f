ghost use Rattle.std.specs.Prelude.{◌≡◌};
ghost use Rattle.c_check_expressions.specs.Constants.{IsConstant};
ghost use Rattle.c_tree.specs.Program as typed;
ghost use Rattle.c_tree.specs.Operators.{working_type};
ghost use Rattle.c_tree.specs.Program.{value_type, Expression};
ghost use Rattle.c_tree.specs.declared.types.ValueType.{ValueType};
ghost use Rattle.c_tree.specs.declared.types.ValueType.TheVariants.{Integer};
ghost use Rattle.c_typing.specs.Constants.{constant_value, has_constant_form, is_null};

use c_operators::{Operator, binary_number, convert, is_true, unary_number};
use c_tree::{IntegerType, UnaryOp};
use pcc_base::Trap;

/// What an expression is as an integer constant expression (C99 6.6).
#[derive(Clone, Copy, PartialEq, Eq)]
pub enum Constant {
    /// It has a part that no constant expression has.
    NotConstant,
    /// Its evaluation traps.
    Traps(Trap),
    /// Its value.
    Value(i32),
}

impl Constant {
    /// A constant of a type (C99 6.4.4).
    pub(crate) fn of_number(of: IntegerType, n: i32) -> Constant
        ensures { IsConstant (typed.Constant of n) result }
    {
        Constant::Value(convert(of, n))
    }

    /// An operator on one operand, which is this, with a result of a type (C99 6.5.3.3).
    pub fn unary(self, of: IntegerType, op: UnaryOp) -> Constant
        ensures { (e : Expression) → IsConstant e self → IsConstant (typed.Unary of op e) result }
    {
        match self {
            Constant::Value(n) => Constant::Value(convert(of, unary_number(op, n))),
            Constant::NotConstant | Constant::Traps(_) => self,
        }
    }

    /// A cast of this to an integer type (C99 6.5.4).
    pub fn cast(self, to: IntegerType) -> Constant
        ensures { (e : Expression) → IsConstant e self → IsConstant (typed.Cast (Integer to) e) result }
    {
        match self {
            Constant::Value(n) => Constant::Value(convert(to, n)),
            Constant::NotConstant | Constant::Traps(_) => self,
        }
    }

    /// An operator on two operands that are both evaluated, this one and then another (C99 6.5.5 to 6.5.12); it works
    /// in the type that it has for them.
    pub fn binary(self, operator: Operator, right: Constant) -> Constant
        ensures { (of : ValueType) (a b : Expression)
            → operator.within ≡ working_type operator.op (value_type a) (value_type b)
            → IsConstant a self → IsConstant b right → IsConstant (typed.Binary of operator.op a b) result }
    {
        match (self, right) {
            (Constant::NotConstant, _) | (_, Constant::NotConstant) => Constant::NotConstant,
            (Constant::Traps(trap), _) | (_, Constant::Traps(trap)) => Constant::Traps(trap),
            (Constant::Value(a), Constant::Value(b)) => match binary_number(operator, a, b) {
                Ok(n) => Constant::Value(n),
                Err(trap) => Constant::Traps(trap),
            },
        }
    }

    /// `self && right` (C99 6.5.13).
    pub fn and(self, right: Constant) -> Constant
        ensures { (a b : Expression) → IsConstant a self → IsConstant b right → IsConstant (typed.And a b) result }
    {
        match (self, right) {
            (Constant::NotConstant, _) | (_, Constant::NotConstant) => Constant::NotConstant,
            (Constant::Traps(trap), _) => Constant::Traps(trap),
            (Constant::Value(0), _) => Constant::Value(0),
            (Constant::Value(_), Constant::Traps(trap)) => Constant::Traps(trap),
            (Constant::Value(_), Constant::Value(b)) => Constant::Value(i32::from(is_true(b))),
        }
    }

    /// `self || right` (C99 6.5.14).
    pub fn or(self, right: Constant) -> Constant
        ensures { (a b : Expression) → IsConstant a self → IsConstant b right → IsConstant (typed.Or a b) result }
    {
        match (self, right) {
            (Constant::NotConstant, _) | (_, Constant::NotConstant) => Constant::NotConstant,
            (Constant::Traps(trap), _) => Constant::Traps(trap),
            (Constant::Value(0), Constant::Traps(trap)) => Constant::Traps(trap),
            (Constant::Value(0), Constant::Value(b)) => Constant::Value(i32::from(is_true(b))),
            (Constant::Value(_), _) => Constant::Value(1),
        }
    }

    /// `self ? first : second`, of an integer type (C99 6.5.15).
    pub fn conditional(self, of: IntegerType, first: Constant, second: Constant) -> Constant
        ensures { (t a b : Expression) → IsConstant t self → IsConstant a first → IsConstant b second
            → IsConstant (typed.Conditional (Integer of) t a b) result }
    {
        if !first.is_constant() || !second.is_constant() {
            return Constant::NotConstant;
        }
        match self {
            Constant::NotConstant | Constant::Traps(_) => self,
            Constant::Value(n) if is_true(n) => first.cast(of),
            Constant::Value(_) => second.cast(of),
        }
    }

    /// Whether it has a constant expression's parts alone.
    pub(crate) fn is_constant(self) -> bool
        ensures { (e : Expression) → IsConstant e self → has_constant_form e ≡ result }
    {
        match self {
            Constant::NotConstant => false,
            Constant::Traps(_) | Constant::Value(_) => true,
        }
    }

    /// The value, where there is one.
    pub fn value(self) -> Option<i32>
        ensures { (e : Expression) → IsConstant e self → constant_value e ≡ result }
    {
        match self {
            Constant::Value(n) => Some(n),
            Constant::NotConstant | Constant::Traps(_) => None,
        }
    }

    /// Whether this is the null constant (C99 6.3.2.3).
    pub fn is_null(self) -> bool
        ensures { (e : Expression) → IsConstant e self → is_null e ≡ result }
    {
        self == Constant::Value(0)
    }
}
