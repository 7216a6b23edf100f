//! How many temporaries an expression takes at once.

ghost use Rattle.std.specs.Prelude.{◌≡◌, ◌+◌, ℕ, suc, map, max, IfOk};
ghost use Rattle.c_tree.specs.Erased.{expression_of, place_of};
ghost use Rattle.c_tree.specs.Sizes.{arguments_height, height, place_height};
ghost use Rattle.c_check.specs.Lists.{arguments_from};

use c_tree::{Expression, Place};
use pcc_base::NoMemory;

/// A height, where a number can say it.
pub type Height = Result<u64, NoMemory>;

/// A height and so many more.
pub(crate) fn raised(height: u64, by: u64) -> Height
    ensures { IfOk result (λ n. n ≡ height + by) }
{
    // This sum is never refused: a tree's height is at most that of its raw tree, which is 256 at most.
    height.checked_add(by).ok_or(NoMemory)
}

/// A height above one more value.
pub fn on_one(height: Height) -> Height
    ensures { (h : ℕ) → IfOk height (λ n. n ≡ h) → IfOk result (λ n. n ≡ suc h) }
{
    raised(height?, 1)
}

/// The higher of two heights.
pub fn higher(one: Height, other: Height) -> Height
    ensures { (g h : ℕ) → IfOk one (λ n. n ≡ g) → IfOk other (λ n. n ≡ h) → IfOk result (λ n. n ≡ max g h) }
{
    Ok(one?.max(other?))
}

/// The height of two parts in turn: the value of the first stays while the second is evaluated.
fn in_turn(first: Height, second: Height) -> Height
    ensures { (g h : ℕ) → IfOk first (λ n. n ≡ g) → IfOk second (λ n. n ≡ h)
        → IfOk result (λ n. n ≡ max g (suc h)) }
{
    higher(first, on_one(second))
}

/// The height of an expression.
#[cycle(expression)]
pub fn expression(e: &Expression) -> Height
    ensures { IfOk result (λ n. n ≡ height (expression_of e.now)) }
{
    match e {
        Expression::Constant(_, _) | Expression::Start(_, _) | Expression::Getchar => Ok(1),
        Expression::Read(_, of) => place(of),
        Expression::Address(_, of) | Expression::Step(_, _, of) => on_one(place(of)),
        Expression::Unary(_, _, operand) | Expression::Cast(_, operand) => {
            on_one(expression(operand))
        }
        Expression::Binary(_, _, left, right) | Expression::Comma(left, right) => {
            in_turn(expression(left), expression(right))
        }
        Expression::And(left, right) | Expression::Or(left, right) => {
            higher(expression(left), expression(right))
        }
        Expression::Conditional(_, test, first, second) => {
            let chosen = higher(expression(first), expression(second));
            higher(expression(test), chosen)
        }
        Expression::Assign(_, of, value) | Expression::Update(_, _, of, value) => {
            on_one(in_turn(place(of), expression(value)))
        }
        Expression::Call(_, _, values) => higher(Ok(1), arguments(values.as_slice())),
        Expression::Putchar(value) | Expression::Exit(value) => higher(Ok(1), expression(value)),
    }
}

/// The height of a place.
#[cycle(expression)]
fn place(of: &Place) -> Height
    ensures { IfOk result (λ n. n ≡ place_height (place_of of.now)) }
{
    match of {
        Place::Local(_) | Place::Static(_) => Ok(1),
        Place::Target(_, pointer) => on_one(expression(pointer)),
        Place::Element(_, array, index) => { in_turn(expression(array), expression(index)) }
    }
}

/// The height of arguments: each one stands on those before it.
#[cycle(expression)]
fn arguments(values: &[Expression]) -> Height
    ensures { IfOk result (λ n. n ≡ arguments_height (arguments_from (map expression_of values.now)) 0) }
{
    let mut height = values.len() as u64;
    let mut left = values.len();
    'values: while left > 0 {
        left -= 1;
        let one = raised(expression(&values[left])?, left as u64)?;
        height = one.max(height);
    }
    Ok(height)
}
