//! Values, the arrays that pointers go to, and places (C99 6.2.5, 6.3.2.3 and 6.5).

ghost use Rattle.std.specs.Prelude.{◌≡◌};
ghost use Rattle.c_eval_state.specs.Values.{held_of};
ghost use Rattle.c_tree.specs.Evaluation.{address_of, low_byte, number_in, target_of, truth_value};
ghost use Rattle.c_tree.specs.Operators.{is_true};
ghost use Rattle.c_tree.specs.Store.{in_type, zero_of};
ghost use Rattle.c_eval_state.specs.Values.{found_of};

use c_operators::{convert, is_true};
use c_tree::ValueType;

/// An array: none, a static object by its number, an array of the active call of a depth, which is 1 for `main`, or
/// what is none of these.
#[derive(Clone, Copy, Debug, PartialEq, Eq)]
pub enum ArrayName {
    Null,
    Static(u32),
    InFrame { array: u32, depth: u32 },
    Unknown,
}

/// A value: a number, or a pointer's array and index. The null pointer has no array and the index 0 (C99 6.3.2.3).
#[derive(Clone, Copy, Debug)]
pub enum Value {
    Number(i32),
    Pointer { array: ArrayName, index: i32 },
}

/// The null pointer.
const NULL: Value = Value::Pointer {
    array: ArrayName::Null,
    index: 0,
};

/// A place that was found (C99 6.3.2.1): a local that is no array, a static object that is none, or the element of an
/// array at an index, which may be outside it.
#[derive(Clone, Copy)]
pub enum Place {
    Local(u32),
    Object(u32),
    Element { array: ArrayName, index: i32 },
}

impl Value {
    /// What a local of the type holds before anything is stored: 0, or null (ours, where C99 6.7.8 leaves it
    /// indeterminate).
    pub fn zero_of(of: ValueType) -> Value
        ensures { held_of result ≡ zero_of of }
    {
        match of {
            ValueType::Void | ValueType::Integer(_) => Value::Number(0),
            ValueType::Pointer(_) => NULL,
        }
    }

    /// The value in a type (C99 6.3.1.3 and 6.3.2.3): a narrower integer type keeps the low bits, and a number becomes
    /// a pointer only where it is the null constant.
    pub fn in_type(self, of: ValueType) -> Value
        ensures { held_of result ≡ in_type of (held_of self) }
    {
        match (of, self) {
            (ValueType::Integer(of), Value::Number(n)) => Value::Number(convert(of, n)),
            (ValueType::Pointer(_), Value::Number(_)) => NULL,
            (ValueType::Pointer(_), Value::Pointer { .. }) => self,
            (ValueType::Void, _) | (ValueType::Integer(_), Value::Pointer { .. }) => Value::Number(
                0,
            ),
        }
    }

    /// The number that is held; of a pointer 0.
    pub fn number(self) -> i32
        ensures { result ≡ number_in (held_of self) }
    {
        match self {
            Value::Number(n) => n,
            Value::Pointer { .. } => 0,
        }
    }

    /// The low byte of the number that is held, which `putchar` writes and `exit` ends with (C99 7.19.7.3, 7.20.4.3).
    pub fn low_byte(self) -> u8
        ensures { result ≡ low_byte (held_of self) }
    {
        (self.number().cast_unsigned() % 256) as u8
    }

    /// What `&&` and `||` give: 1 or 0 (C99 6.5.13 and 6.5.14).
    pub fn truth(holds: bool) -> Value
        ensures { held_of result ≡ truth_value holds }
    {
        Value::Number(i32::from(holds))
    }

    /// Whether the value counts as true: a number that isn't 0, or a pointer that isn't null (C99 6.5.3.3, 6.8.4.1).
    pub fn is_true(self) -> bool
        ensures { result ≡ is_true (held_of self) }
    {
        match self {
            Value::Number(n) => is_true(n),
            Value::Pointer { array, index } => !(array == ArrayName::Null && index == 0),
        }
    }

    /// The place that a pointer goes to (C99 6.5.3.2); nothing but a pointer comes of a typed program.
    pub fn target(self) -> Place
        ensures { found_of result ≡ target_of (held_of self) }
    {
        match self {
            Value::Pointer { array, index } => Place::Element { array, index },
            Value::Number(index) => Place::Element {
                array: ArrayName::Unknown,
                index,
            },
        }
    }
}

impl Place {
    /// A pointer to the place (C99 6.5.3.2), which of a typed program is an element.
    pub fn address(self) -> Value
        ensures { held_of result ≡ address_of (found_of self) }
    {
        match self {
            Place::Element { array, index } => Value::Pointer { array, index },
            Place::Local(_) | Place::Object(_) => Value::Number(0),
        }
    }
}
