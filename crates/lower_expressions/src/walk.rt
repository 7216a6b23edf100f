//! The walk over a typed expression, which puts the lines of each part behind those of the parts before it.

ghost use Rattle.std.specs.Prelude.{◌≡◌, ◌∷◌, ◌++◌, true, IfOk, OnOk, slice_get};
ghost use Rattle.c_tree.specs.declared.types.IntegerType.TheVariants.{Int};
ghost use Rattle.c_tree.specs.Erased.{expression_of, place_of};
ghost use Rattle.lower_builder.specs.Built.{Adds, Built};
ghost use Rattle.lower_lines.specs.Expressions.{address_part, all_passed, assign_part, assigned_local, call_part};
ghost use Rattle.lower_lines.specs.Expressions.{parameters_of, part_of, parts_of, unary_part};
ghost use Rattle.lower_lines.specs.Expressions.{joined, number_part, update_part, Located};
ghost use Rattle.lower_lines.specs.Expressions as parts;
ghost use Rattle.lower_lines.specs.Lines.{Start};
ghost use Rattle.lower_lines.specs.Parts.{in_type, operand, Own};
ghost use Rattle.lower_lines.specs.Variables.{own};
ghost use Rattle.lower_builder.specs.Sites.{context_of};
ghost use Rattle.lower_builder.specs.Spots.{spot_of};
ghost use Rattle.lower_builder.specs.MoveViews.{plain, wanted_of};
ghost use Rattle.lower_builder.specs.Views.{AddsOperand, AddsPart};
ghost use Rattle.lower_expressions.specs.Finding.{Finds};
ghost use Rattle.lower_expressions.specs.Ways.{ways_end};
ghost use Rattle.lower_expressions.specs.Rows.{arguments_list, number_op, passed_as};
ghost use Rattle.lower_expressions.specs.Operating.{operating, operating_blocks};

use crate::arguments::all_simple;
use crate::calls::{call_made, parameter_type};
use crate::found::Found;
use crate::kinds::{is_simple, number_type, part_type, stands};
use crate::leaves::{constant, if_stays, local, local_operand, start};
use crate::names::{set_local, set_object};
use crate::operands::{
    NumberOp, byte_set, exit_with, getchar, load_old, narrow_made, number_made, put, renew, store,
    stored,
};
use crate::places::{element_at, read_found, step_found};
use crate::ways::{Ways, end_ways, join, open_ways, own_blocks, start_joined};
use c_operators::{Operator, working_type};
use c_tree::{ArrayRef, BinaryOp, Expression, IntegerType, Place, UnaryOp, ValueType};
use flow_graph::Words;
use lower_builder::{
    Lines, Site, Spot, Wanted, applied, end_truth, null_pointer, object, passed_type, plus,
    push_words,
};
use pcc_base::NoMemory;

/// The lines of an expression, for what is wanted of it.
#[cycle(emit)]
pub fn emit(
    lines: &mut Lines,
    site: &Site<'_>,
    level: u32,
    wanted: Wanted,
    e: &Expression,
) -> Result<(), NoMemory>
    ensures { OnOk result (AddsPart (part_of (context_of site.now) (expression_of e.now)) level
        (wanted_of wanted) lines.old lines.new) }
{
    match e {
        Expression::Constant(t, n) => constant(lines, site, level, wanted, *t, *n),
        Expression::Start(t, array) => start(lines, site, level, wanted, *t, *array),
        Expression::Read(of, place) => {
            let found = find(lines, site, level, true, place)?;
            read_found(lines, site, level, wanted, *of, found)
        }
        Expression::Address(t, place) => address(lines, site, level, wanted, *t, place),
        Expression::Unary(_, operator, a) => unary(lines, site, level, wanted, *operator, a),
        Expression::Binary(_, operator, a, b) => {
            let a: &Expression = a;
            let b: &Expression = b;
            let x = stood(lines, site, level, is_simple(b), a)?;
            operate(lines, site, level, wanted, *operator, part_type(a), x, b)
        }
        Expression::And(a, b) => {
            let ways = open_ways(lines, wanted)?;
            let first = Wanted::Tests(ways.second, ways.fails);
            emit(lines, site, level, first, a)?;
            second_way(lines, site, level, wanted, ways, b)
        }
        Expression::Or(a, b) => {
            let ways = open_ways(lines, wanted)?;
            let first = Wanted::Tests(ways.holds, ways.second);
            emit(lines, site, level, first, a)?;
            second_way(lines, site, level, wanted, ways, b)
        }
        Expression::Conditional(of, t, a, b) => {
            let first = lines.take_blocks(own_blocks(wanted))?;
            let second = plus(first, 1)?;
            let behind = plus(first, 2)?;
            emit(lines, site, level, Wanted::Tests(first, second), t)?;
            choice(lines, site, level, wanted, *of, first, behind, a)?;
            choice(lines, site, level, wanted, *of, second, behind, b)?;
            start_joined(lines, wanted, behind)?;
            Ok(())
        }
        Expression::Cast(to, a) => typed(lines, site, level, wanted, *to, a),
        Expression::Assign(of, place, a) => {
            let a: &Expression = a;
            let found = find(lines, site, level, is_simple(a), place)?;
            assign(lines, site, level, wanted, *of, found, a)
        }
        Expression::Update(of, operator, place, a) => {
            let a: &Expression = a;
            let found = find(lines, site, level, is_simple(a), place)?;
            update(lines, site, level, wanted, *of, *operator, found, a)
        }
        Expression::Step(of, operator, place) => {
            let found = find(lines, site, level, true, place)?;
            step_found(lines, site, level, wanted, *of, *operator, found)
        }
        Expression::Comma(a, b) => {
            emit(lines, site, level, Wanted::Dropped, a)?;
            emit(lines, site, level, wanted, b)
        }
        Expression::Call(of, f, arguments) => {
            call(lines, site, level, wanted, *of, *f, arguments.as_slice())
        }
        Expression::Putchar(a) => number(lines, site, level, wanted, NumberOp::Put, a),
        Expression::Getchar => getchar(lines, site, level, wanted),
        Expression::Exit(a) => {
            let block = lines.take_blocks(1)?;
            let x = stood(lines, site, level, true, a)?;
            exit_with(lines, block, x.number)
        }
    }
}

/// An operator on a value that stands in variables and a second operand.
#[cycle(emit)]
fn operate(
    lines: &mut Lines,
    site: &Site<'_>,
    level: u32,
    wanted: Wanted,
    operator: BinaryOp,
    of: ValueType,
    x: Spot,
    e: &Expression,
) -> Result<(), NoMemory>
    ensures { OnOk result (Adds lines.old lines.new
        (operating_blocks (context_of site.now) (plain (wanted_of wanted)) operator of
        (part_of (context_of site.now) (expression_of e.now)))
        (operating (context_of site.now) lines.old.next level (wanted_of wanted) operator of (spot_of x)
        (part_of (context_of site.now) (expression_of e.now)))) }
{
    let above = plus(level, 1)?;
    let y = stood(lines, site, above, true, e)?;
    applied(
        lines,
        site,
        level,
        wanted,
        operator,
        (of, part_type(e)),
        x,
        y,
    )
}

/// The second operand of `&&` and `||`, and what stands behind both.
#[cycle(emit)]
fn second_way(
    lines: &mut Lines,
    site: &Site<'_>,
    level: u32,
    wanted: Wanted,
    ways: Ways,
    e: &Expression,
) -> Result<(), NoMemory>
    ensures { OnOk result (Adds lines.old lines.new
        ((part_of (context_of site.now) (expression_of e.now)).blocks (plain (wanted_of ways.last)))
        (Start ways.second
        ∷ ((part_of (context_of site.now) (expression_of e.now)).lines lines.old.next level (wanted_of ways.last)
        ++ ways_end (context_of site.now) ways.first level (wanted_of wanted)))) }
{
    lines.start(ways.second)?;
    emit(lines, site, level, ways.last, e)?;
    end_ways(lines, site, level, wanted, ways.first)
}

/// One way of `?:`: its block, its value in the type of both, and where both lead.
#[cycle(emit)]
fn choice(
    lines: &mut Lines,
    site: &Site<'_>,
    level: u32,
    wanted: Wanted,
    of: ValueType,
    block: u32,
    behind: u32,
    e: &Expression,
) -> Result<(), NoMemory>
    ensures { OnOk result (Adds lines.old lines.new
        ((in_type (context_of site.now) of (part_of (context_of site.now) (expression_of e.now))).blocks
        (plain (wanted_of wanted)))
        (Start block ∷ ((in_type (context_of site.now) of (part_of (context_of site.now) (expression_of e.now))).lines
        lines.old.next level (wanted_of wanted) ++ joined behind (wanted_of wanted)))) }
{
    lines.start(block)?;
    typed(lines, site, level, wanted, of, e)?;
    join(lines, wanted, behind)
}

/// An op on the number that an expression gives.
#[cycle(emit)]
fn number(
    lines: &mut Lines,
    site: &Site<'_>,
    level: u32,
    wanted: Wanted,
    how: NumberOp,
    e: &Expression,
) -> Result<(), NoMemory>
    ensures { OnOk result (AddsPart (number_part (context_of site.now) (number_op how)
        (part_of (context_of site.now) (expression_of e.now))) level (wanted_of wanted) lines.old lines.new) }
{
    let x = stood(lines, site, level, true, e)?;
    number_made(lines, site, level, wanted, how, x.number)
}

/// An expression as an operand. `stays` says that nothing which is evaluated before its use stores anything.
#[cycle(emit)]
pub fn stood(
    lines: &mut Lines,
    site: &Site<'_>,
    level: u32,
    stays: bool,
    e: &Expression,
) -> Result<Spot, NoMemory>
    ensures adds { IfOk result (λ _. AddsOperand
        (operand (context_of site.now) stays (part_of (context_of site.now) (expression_of e.now))) level
        lines.old lines.new) }
    ensures spot { IfOk result (λ spot. spot_of spot
        ≡ (operand (context_of site.now) stays (part_of (context_of site.now) (expression_of e.now))).spot level) }
{
    match if_stays(stays, stands(site, e)) {
        Some(spot) => Ok(spot),
        None => {
            emit(lines, site, level, Wanted::Own, e)?;
            let own = site.own(level)?;
            Ok(own)
        }
    }
}

/// An expression in a type, as an assignment and a cast make it.
#[cycle(emit)]
pub fn typed(
    lines: &mut Lines,
    site: &Site<'_>,
    level: u32,
    wanted: Wanted,
    to: ValueType,
    e: &Expression,
) -> Result<(), NoMemory>
    ensures { OnOk result (AddsPart (in_type (context_of site.now) to
        (part_of (context_of site.now) (expression_of e.now))) level (wanted_of wanted) lines.old lines.new) }
{
    match to {
        ValueType::Void => emit(lines, site, level, Wanted::Dropped, e),
        ValueType::Integer(IntegerType::Int | IntegerType::UnsignedInt) => {
            emit(lines, site, level, wanted, e)
        }
        ValueType::Integer(t) => {
            let x = stood(lines, site, level, true, e)?;
            narrow_made(lines, site, level, wanted, t, x.number)
        }
        ValueType::Pointer(_) => match part_type(e) {
            ValueType::Pointer(_) => emit(lines, site, level, wanted, e),
            ValueType::Void | ValueType::Integer(_) => {
                emit(lines, site, level, Wanted::Dropped, e)?;
                null_pointer(lines, site, level, wanted)
            }
        },
    }
}

/// A value in a type that stands nowhere yet: the temporaries of a level that get it.
#[cycle(emit)]
fn in_own(
    lines: &mut Lines,
    site: &Site<'_>,
    level: u32,
    to: ValueType,
    e: &Expression,
) -> Result<Spot, NoMemory>
    ensures adds { IfOk result (λ _. AddsPart (in_type (context_of site.now) to
        (part_of (context_of site.now) (expression_of e.now))) level Own lines.old lines.new) }
    ensures spot { IfOk result (λ spot. spot_of spot ≡ own (context_of site.now) level) }
{
    typed(lines, site, level, Wanted::Own, to, e)?;
    let own = site.own(level)?;
    Ok(own)
}

/// `+`, `-`, `~` and `!` (C99 6.5.3.3); no line asks for the type of what they give.
#[cycle(emit)]
fn unary(
    lines: &mut Lines,
    site: &Site<'_>,
    level: u32,
    wanted: Wanted,
    operator: UnaryOp,
    e: &Expression,
) -> Result<(), NoMemory>
    ensures { OnOk result (AddsPart (unary_part (context_of site.now) Int operator
        (part_of (context_of site.now) (expression_of e.now))) level (wanted_of wanted) lines.old lines.new) }
{
    match operator {
        UnaryOp::Plus => emit(lines, site, level, wanted, e),
        UnaryOp::Minus => number(lines, site, level, wanted, NumberOp::Negate, e),
        UnaryOp::Complement => number(lines, site, level, wanted, NumberOp::Complement, e),
        UnaryOp::Not => match wanted {
            Wanted::Dropped => emit(lines, site, level, Wanted::Dropped, e),
            Wanted::Tests(holds, fails) => emit(lines, site, level, Wanted::Tests(fails, holds), e),
            Wanted::Own | Wanted::ToLocal(_) => {
                let first = lines.take_blocks(3)?;
                let second = plus(first, 1)?;
                emit(lines, site, level, Wanted::Tests(second, first), e)?;
                end_truth(lines, site, level, wanted, first)
            }
        },
    }
}

/// The address of a place (C99 6.5.3.2).
#[cycle(emit)]
fn address(
    lines: &mut Lines,
    site: &Site<'_>,
    level: u32,
    wanted: Wanted,
    t: IntegerType,
    place: &Place,
) -> Result<(), NoMemory>
    ensures { OnOk result (AddsPart (address_part (context_of site.now) t
        (parts.place_of (context_of site.now) (place_of place.now))) level (wanted_of wanted) lines.old lines.new) }
{
    match place {
        Place::Local(v) => local(lines, site, level, wanted, ValueType::Pointer(t), *v),
        Place::Static(k) => start(lines, site, level, wanted, t, ArrayRef::Static(*k)),
        Place::Target(_, e) => emit(lines, site, level, wanted, e),
        Place::Element(_, a, i) => {
            let a: &Expression = a;
            let i: &Expression = i;
            let x = stood(lines, site, level, is_simple(i), a)?;
            operate(
                lines,
                site,
                level,
                wanted,
                BinaryOp::Add,
                part_type(a),
                x,
                i,
            )
        }
    }
}

/// What a place is, behind the lines that find it.
#[cycle(emit)]
fn find(
    lines: &mut Lines,
    site: &Site<'_>,
    level: u32,
    stays: bool,
    place: &Place,
) -> Result<Found, NoMemory>
    ensures { IfOk result (λ found. Finds (parts.place_of (context_of site.now) (place_of place.now)) stays level
        lines.old lines.new found) }
{
    match place {
        Place::Local(v) => Ok(Found::Local(*v)),
        Place::Static(k) => Ok(Found::Object(*k)),
        Place::Target(t, e) => {
            let at = stood(lines, site, level, stays, e)?;
            Ok(Found::Element(*t, at))
        }
        Place::Element(t, a, i) => {
            let a: &Expression = a;
            let i: &Expression = i;
            let simple = is_simple(i);
            let x = stood(lines, site, level, simple, a)?;
            let above = plus(level, 1)?;
            let y = stood(lines, site, above, true, i)?;
            let kept = if_stays(stays, if_stays(simple, stands(site, a)));
            let at = element_at(lines, site, level, part_type(a), kept, x, y)?;
            Ok(Found::Element(*t, at))
        }
    }
}

/// A place is assigned to (C99 6.5.16.1).
#[cycle(emit)]
fn assign(
    lines: &mut Lines,
    site: &Site<'_>,
    level: u32,
    wanted: Wanted,
    of: ValueType,
    found: Found,
    e: &Expression,
) -> Result<(), NoMemory>
    ensures { OnOk result ((located : Located) (s : Built)
        → Finds located (part_of (context_of site.now) (expression_of e.now)).simple level s lines.old found
        → AddsPart (assign_part (context_of site.now) of located
        (part_of (context_of site.now) (expression_of e.now))) level (wanted_of wanted) s lines.new) }
{
    match found {
        Found::Local(v) => assign_local(lines, site, level, wanted, of, v, e),
        Found::Object(k) => {
            let x = stood(lines, site, level, true, e)?;
            put(lines, site, level, wanted, number_type(of), k, x.number)
        }
        Found::Element(t, at) => {
            let above = plus(level, 1)?;
            let x = stood(lines, site, above, true, e)?;
            store(lines, site, level, wanted, t, at, x.number)
        }
    }
}

/// A local is assigned to: the value goes to it in its last op.
#[cycle(emit)]
pub fn assign_local(
    lines: &mut Lines,
    site: &Site<'_>,
    level: u32,
    wanted: Wanted,
    of: ValueType,
    v: u32,
    e: &Expression,
) -> Result<(), NoMemory>
    ensures { OnOk result (AddsPart (assigned_local (context_of site.now) of v
        (part_of (context_of site.now) (expression_of e.now))) level (wanted_of wanted) lines.old lines.new) }
{
    match of {
        ValueType::Integer(IntegerType::Char) => {
            let x = stood(lines, site, level, true, e)?;
            byte_set(lines, site, level, wanted, v, x.number)
        }
        ValueType::Integer(_) | ValueType::Pointer(_) | ValueType::Void => {
            typed(lines, site, level, Wanted::ToLocal(v), of, e)?;
            stored(lines, site, level, wanted, of, v)
        }
    }
}

/// A place is assigned what an operator gives of its value and another (C99 6.5.16.2).
#[cycle(emit)]
fn update(
    lines: &mut Lines,
    site: &Site<'_>,
    level: u32,
    wanted: Wanted,
    of: ValueType,
    operator: BinaryOp,
    found: Found,
    e: &Expression,
) -> Result<(), NoMemory>
    ensures { OnOk result ((located : Located) (s : Built)
        → Finds located (part_of (context_of site.now) (expression_of e.now)).simple level s lines.old found
        → AddsPart (update_part (context_of site.now) of operator located
        (part_of (context_of site.now) (expression_of e.now))) level (wanted_of wanted) s lines.new) }
{
    let above = plus(level, 1)?;
    match found {
        Found::Local(v) => {
            let x = local_operand(lines, site, level, is_simple(e), of, v)?;
            let y = stood(lines, site, above, true, e)?;
            let types = (of, part_type(e));
            set_local(lines, site, level, wanted, of, v, operator, types, x, y)
        }
        Found::Object(k) => {
            let t = number_type(of);
            object(lines, site, level, Wanted::Own, t, k)?;
            let x = site.own(level)?;
            let y = stood(lines, site, above, true, e)?;
            let types = (ValueType::Integer(t), part_type(e));
            set_object(lines, site, level, wanted, t, k, operator, types, x, y)
        }
        Found::Element(t, at) => {
            load_old(lines, site, level, t, at)?;
            let y = stood(lines, site, above, true, e)?;
            let operator = Operator {
                op: operator,
                within: working_type(operator, ValueType::Integer(t), part_type(e)),
            };
            renew(lines, site, level, wanted, t, operator, at, y.number)
        }
    }
}

/// A call of a function (C99 6.5.2.2).
#[cycle(emit)]
fn call(
    lines: &mut Lines,
    site: &Site<'_>,
    level: u32,
    wanted: Wanted,
    of: ValueType,
    f: u32,
    arguments: &[Expression],
) -> Result<(), NoMemory>
    ensures { OnOk result (AddsPart (call_part (context_of site.now) of f
        (all_passed (context_of site.now) (parameters_of (slice_get (context_of site.now).program.functions f))
        (parts_of (context_of site.now) (arguments_list arguments.now)))) level (wanted_of wanted)
        lines.old lines.new) }
{
    let mut words = Vec::new(site.alloc);
    let mut own_level = level;
    'arguments: for (place, e) in arguments.iter().enumerate() {
        let stays = all_simple(site, f, place + 1, arguments);
        let parameter = parameter_type(site, f, place);
        let spot = argument(lines, site, own_level, stays, parameter, e)?;
        push_words(&mut words, passed_type(parameter, part_type(e)), spot)?;
        own_level = plus(own_level, 1)?;
    }
    let passed = Words::new(words);
    call_made(lines, site, level, wanted, of, f, passed)
}

/// An argument as its parameter takes it, as an operand.
#[cycle(emit)]
fn argument(
    lines: &mut Lines,
    site: &Site<'_>,
    level: u32,
    stays: bool,
    parameter: Option<ValueType>,
    e: &Expression,
) -> Result<Spot, NoMemory>
    ensures adds { IfOk result (λ _. AddsOperand (operand (context_of site.now) stays
        (passed_as (context_of site.now) parameter (part_of (context_of site.now) (expression_of e.now)))) level
        lines.old lines.new) }
    ensures spot { IfOk result (λ spot. spot_of spot ≡ (operand (context_of site.now) stays
        (passed_as (context_of site.now) parameter (part_of (context_of site.now) (expression_of e.now)))).spot
        level) }
{
    match parameter {
        None | Some(ValueType::Void | ValueType::Integer(_)) => stood(lines, site, level, stays, e),
        Some(ValueType::Pointer(t)) => match part_type(e) {
            ValueType::Pointer(_) => stood(lines, site, level, stays, e),
            ValueType::Void | ValueType::Integer(_) => {
                in_own(lines, site, level, ValueType::Pointer(t), e)
            }
        },
    }
}

/// The value that a function returns, in its type, as an operand at level 0: its variable.
pub fn returned(
    lines: &mut Lines,
    site: &Site<'_>,
    to: ValueType,
    e: &Expression,
) -> Result<u32, NoMemory>
    ensures adds { IfOk result (λ _. AddsOperand (operand (context_of site.now) true
        (in_type (context_of site.now) to (part_of (context_of site.now) (expression_of e.now)))) 0
        lines.old lines.new) }
    ensures number { IfOk result (λ x. x ≡ ((operand (context_of site.now) true
        (in_type (context_of site.now) to (part_of (context_of site.now) (expression_of e.now)))).spot 0).number) }
{
    let x = match to {
        ValueType::Integer(IntegerType::Int | IntegerType::UnsignedInt) => {
            stood(lines, site, 0, true, e)
        }
        ValueType::Pointer(_) => argument(lines, site, 0, true, Some(to), e),
        ValueType::Void | ValueType::Integer(_) => in_own(lines, site, 0, to, e),
    }?;
    Ok(x.number)
}
