//! How many temporaries a declared item takes at once.

ghost use Rattle.std.specs.Prelude.{◌≡◌, map, option_map, IfOk};
ghost use Rattle.c_tree.specs.Erased.{boxed_of, expression_of, item_of};
ghost use Rattle.c_tree.specs.Sizes as sizes;
ghost use Rattle.c_tree.specs.Sizes.{highest, item_height};

use crate::expression_heights::{Height, expression, raised};
use c_tree::{Expression, Initialiser, Item};

/// The height of an expression that may be absent, with so many more where it is there.
fn raised_if_any(by: u64, value: &Option<Box<Expression>>) -> Height
    ensures { IfOk result (λ n. n ≡ sizes.raised by (option_map boxed_of value.now)) }
{
    match value {
        None => Ok(0),
        Some(value) => raised(expression(value)?, by),
    }
}

/// The greatest height of several expressions, with so many more.
fn highest(by: u64, values: &[Expression]) -> Height
    ensures { IfOk result (λ n. n ≡ highest by (map expression_of values.now)) }
{
    let mut height = 0u64;
    let mut left = values.len();
    'values: while left > 0 {
        left -= 1;
        let one = raised(expression(&values[left])?, by)?;
        height = one.max(height);
    }
    Ok(height)
}

/// The height of a declared item: an initialiser counts one more, that of an element two.
pub fn item(of: &Item) -> Height
    ensures { IfOk result (λ n. n ≡ item_height (item_of of.now)) }
{
    match of {
        Item::Scalar(_, _, value) => raised_if_any(1, value),
        Item::Array(_, _, _, Initialiser::List(first)) => highest(2, first.as_slice()),
        Item::Array(_, _, _, Initialiser::Text(_)) => Ok(0),
    }
}
