//! How many temporaries expressions take at once: the heights of trees.

ghost use Rattle.std.specs.Prelude.{◌≡◌, ℕ, suc, max, IfOk, map, option_map};
ghost use Rattle.c_tree.specs.Erased.{boxed_of, expression_of, first_of, item_of, place_of};
ghost use Rattle.c_tree.specs.Erased.{statement_of, statements_of};
ghost use Rattle.c_tree.specs.Sizes as sizes;
ghost use Rattle.lower_builder.specs.Lists.{arguments_list};

use crate::lines::plus;
use c_tree::{Expression, First, Initialiser, Item, Place, Statement};
use pcc_base::NoMemory;

/// A height above one more value.
fn on_one(height: Result<u32, NoMemory>) -> Result<u32, NoMemory>
    ensures { (h : ℕ) → IfOk height (λ n. n ≡ h) → IfOk result (λ n. n ≡ suc h) }
{
    plus(height?, 1)
}

/// The higher of two heights.
fn higher(one: Result<u32, NoMemory>, other: Result<u32, NoMemory>) -> Result<u32, NoMemory>
    ensures { (g h : ℕ) → IfOk one (λ n. n ≡ g) → IfOk other (λ n. n ≡ h) → IfOk result (λ n. n ≡ max g h) }
{
    Ok(one?.max(other?))
}

/// The height of two parts in turn: the value of the first stays while the second is evaluated.
fn in_turn(first: Result<u32, NoMemory>, second: Result<u32, NoMemory>) -> Result<u32, NoMemory>
    ensures { (g h : ℕ) → IfOk first (λ n. n ≡ g) → IfOk second (λ n. n ≡ h)
        → IfOk result (λ n. n ≡ max g (suc h)) }
{
    higher(first, on_one(second))
}

/// The height of an expression.
#[cycle(height)]
pub fn height(e: &Expression) -> Result<u32, NoMemory>
    ensures { IfOk result (λ h. h ≡ sizes.height (expression_of e.now)) }
{
    match e {
        Expression::Constant(_, _) | Expression::Start(_, _) | Expression::Getchar => Ok(1),
        Expression::Read(_, place) => place_height(place),
        Expression::Address(_, place) | Expression::Step(_, _, place) => {
            on_one(place_height(place))
        }
        Expression::Unary(_, _, a) | Expression::Cast(_, a) => on_one(height(a)),
        Expression::Binary(_, _, a, b) | Expression::Comma(a, b) => in_turn(height(a), height(b)),
        Expression::And(a, b) | Expression::Or(a, b) => higher(height(a), height(b)),
        Expression::Conditional(_, t, a, b) => {
            let chosen = higher(height(a), height(b));
            higher(height(t), chosen)
        }
        Expression::Assign(_, place, a) | Expression::Update(_, _, place, a) => {
            on_one(in_turn(place_height(place), height(a)))
        }
        Expression::Call(_, _, arguments) => {
            higher(Ok(1), arguments_height(arguments.as_slice()))
        }
        Expression::Putchar(a) | Expression::Exit(a) => higher(Ok(1), height(a)),
    }
}

/// The height of a place.
#[cycle(height)]
fn place_height(place: &Place) -> Result<u32, NoMemory>
    ensures { IfOk result (λ h. h ≡ sizes.place_height (place_of place.now)) }
{
    match place {
        Place::Local(_) | Place::Static(_) => Ok(1),
        Place::Target(_, e) => on_one(height(e)),
        Place::Element(_, a, i) => in_turn(height(a), height(i)),
    }
}

/// The number of arguments, or the height of one with its place among them.
#[cycle(height)]
fn arguments_height(arguments: &[Expression]) -> Result<u32, NoMemory>
    ensures { IfOk result (λ h. h ≡ sizes.arguments_height (arguments_list arguments.now) 0) }
{
    let mut most = 0;
    let mut place = 0;
    for e in arguments {
        most = plus(height(e)?, place)?.max(most);
        place = plus(place, 1)?;
    }
    Ok(place.max(most))
}

/// The greatest height of the first elements of an array, each of which counts two more.
fn highest(values: &[Expression]) -> Result<u32, NoMemory>
    ensures { IfOk result (λ h. h ≡ sizes.highest 2 (map expression_of values.now)) }
{
    let mut most = 0;
    for e in values {
        most = plus(height(e)?, 2)?.max(most);
    }
    Ok(most)
}

/// The greatest height of declared items.
fn items_height(items: &[Item]) -> Result<u32, NoMemory>
    ensures { IfOk result (λ h. h ≡ sizes.items_height (map item_of items.now)) }
{
    let mut most = 0;
    for item in items {
        most = item_height(item)?.max(most);
    }
    Ok(most)
}

/// The height of an expression, if there is one.
fn option_height(e: &Option<Box<Expression>>) -> Result<u32, NoMemory>
    ensures { IfOk result (λ h. h ≡ sizes.option_height (option_map boxed_of e.now)) }
{
    match e {
        Some(e) => height(e),
        None => Ok(0),
    }
}

/// The height of a declared item.
fn item_height(item: &Item) -> Result<u32, NoMemory>
    ensures { IfOk result (λ h. h ≡ sizes.item_height (item_of item.now)) }
{
    match item {
        Item::Scalar(_, _, None) => Ok(0),
        Item::Scalar(_, _, Some(e)) => plus(height(e)?, 1),
        Item::Array(_, _, _, Initialiser::Text(_)) => Ok(0),
        Item::Array(_, _, _, Initialiser::List(values)) => highest(values.as_slice()),
    }
}

/// The height of the first part of a `for`.
fn first_height(first: &First) -> Result<u32, NoMemory>
    ensures { IfOk result (λ h. h ≡ sizes.first_height (first_of first.now)) }
{
    match first {
        First::Nothing => Ok(0),
        First::Expression(e) => height(e),
        First::Items(items) => items_height(items.as_slice()),
    }
}

/// The greatest height of an expression that a statement evaluates.
#[cycle(statement_height)]
fn statement_height(s: &Statement) -> Result<u32, NoMemory>
    ensures { IfOk result (λ h. h ≡ sizes.statement_height (statement_of s.now)) }
{
    match s {
        Statement::Declare(item) => item_height(item),
        Statement::Empty(_) | Statement::Break(_) | Statement::Continue(_) => Ok(0),
        Statement::Expression(_, e) => height(e),
        Statement::Block(body) => statements_height(body.as_slice()),
        Statement::If(_, e, a, b) => {
            let branches = higher(statement_height(a), statement_height(b));
            higher(height(e), branches)
        }
        Statement::While(_, e, body) => higher(height(e), statement_height(body)),
        Statement::Do(_, body, e) => higher(statement_height(body), height(e)),
        Statement::For(_, first, test, after, body) => {
            let once = higher(first_height(first), statement_height(body));
            higher(once, higher(option_height(test), option_height(after)))
        }
        Statement::Switch(_, e, _, body) => {
            higher(on_one(height(e)), statements_height(body.as_slice()))
        }
        Statement::Return(_, value) => option_height(value),
    }
}

/// The greatest height of an expression of statements.
#[cycle(statement_height)]
pub fn statements_height(body: &[Statement]) -> Result<u32, NoMemory>
    ensures { IfOk result (λ h. h ≡ sizes.statements_height (statements_of body.now)) }
{
    let mut most = 0;
    for s in body {
        most = statement_height(s)?.max(most);
    }
    Ok(most)
}
