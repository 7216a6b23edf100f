//! Names that are assigned to, updated and stepped (C99 6.5.16, 6.5.2.4 and 6.5.3.1).

ghost use Rattle.std.specs.Prelude.{◌≡◌, ◌+◌, IfOk, OnOk, suc};
ghost use Rattle.c_tree.specs.declared.types.ValueType.TheVariants.{Integer};
ghost use Rattle.c_tree.specs.Operators.{step_op, step_type};
ghost use Rattle.c_tree.specs.Program.{int};
ghost use Rattle.lower_builder.specs.Built.{Adds};
ghost use Rattle.lower_lines.specs.Expressions.{assigned_local, assigned_object};
ghost use Rattle.lower_lines.specs.Expressions.{one_part, result_type, step_part, stepped_after};
ghost use Rattle.lower_lines.specs.Expressions.{stepped_lines, update_part};
ghost use Rattle.lower_lines.specs.Expressions.{read_part, AtLocal, AtObject};
ghost use Rattle.lower_lines.specs.Parts.{tested_blocks, Dropped, Own};
ghost use Rattle.lower_lines.specs.Variables.{own};
ghost use Rattle.lower_builder.specs.Sites.{context_of};
ghost use Rattle.lower_builder.specs.Spots.{spot_of};
ghost use Rattle.lower_builder.specs.MoveViews.{plain, wanted_of};
ghost use Rattle.lower_builder.specs.Views.{AddsPart};
ghost use Rattle.lower_expressions.specs.Rows.{applied_part};
ghost use Rattle.lower_expressions.specs.Kinds.{value_in};

use crate::kinds::number_type;
use crate::leaves::{constant, local, local_operand};
use crate::operands::{byte_set, narrow_made, put, stored};
use c_operators::{Operator, numbers_type};
use c_tree::{BinaryOp, IntegerType, StepOp, ValueType};
use lower_builder::{Lines, Site, Spot, Wanted, applied, delivered, object, plus};
use pcc_base::NoMemory;

/// Where an operator's value goes that a local of a type gets: to the local, if it is as wide.
fn value_in(of: ValueType, place: u32) -> Wanted
    ensures { wanted_of result ≡ value_in of place }
{
    match of {
        ValueType::Void => Wanted::Dropped,
        ValueType::Integer(IntegerType::Char | IntegerType::Short) => Wanted::Own,
        ValueType::Integer(IntegerType::Int | IntegerType::UnsignedInt) | ValueType::Pointer(_) => {
            Wanted::ToLocal(place)
        }
    }
}

/// A local gets what an operator gives of two values.
pub fn set_local(
    lines: &mut Lines,
    site: &Site<'_>,
    level: u32,
    wanted: Wanted,
    of: ValueType,
    place: u32,
    operator: BinaryOp,
    types: (ValueType, ValueType),
    x: Spot,
    y: Spot,
) -> Result<(), NoMemory>
    ensures { OnOk result (AddsPart (assigned_local (context_of site.now) of place
        (applied_part (context_of site.now) (result_type of) operator types.0 types.1 (spot_of x) (spot_of y)))
        level (wanted_of wanted) lines.old lines.new) }
{
    applied(
        lines,
        site,
        level,
        value_in(of, place),
        operator,
        types,
        x,
        y,
    )?;
    match of {
        ValueType::Integer(IntegerType::Char) => {
            let value = site.number(level)?;
            byte_set(lines, site, level, wanted, place, value)
        }
        ValueType::Integer(IntegerType::Short) => {
            let value = site.number(level)?;
            narrow_made(
                lines,
                site,
                level,
                Wanted::ToLocal(place),
                IntegerType::Short,
                value,
            )?;
            stored(lines, site, level, wanted, of, place)
        }
        ValueType::Integer(IntegerType::Int | IntegerType::UnsignedInt)
        | ValueType::Pointer(_)
        | ValueType::Void => stored(lines, site, level, wanted, of, place),
    }
}

/// A static object gets what an operator gives of two values.
pub(crate) fn set_object(
    lines: &mut Lines,
    site: &Site<'_>,
    level: u32,
    wanted: Wanted,
    t: IntegerType,
    k: u32,
    operator: BinaryOp,
    types: (ValueType, ValueType),
    x: Spot,
    y: Spot,
) -> Result<(), NoMemory>
    ensures { OnOk result (AddsPart (assigned_object (context_of site.now) t k
        (applied_part (context_of site.now) int operator types.0 types.1 (spot_of x) (spot_of y)))
        level (wanted_of wanted) lines.old lines.new) }
{
    applied(lines, site, level, Wanted::Own, operator, types, x, y)?;
    let value = site.number(level)?;
    put(lines, site, level, wanted, t, k, value)
}

/// The number 1, as a second operand.
fn one(lines: &mut Lines, site: &Site<'_>, level: u32) -> Result<Spot, NoMemory>
    ensures adds { IfOk result (λ _. AddsPart (one_part (context_of site.now)) (suc level) Own lines.old lines.new) }
    ensures spot { IfOk result (λ spot. spot_of spot ≡ own (context_of site.now) (suc level)) }
{
    let above = plus(level, 1)?;
    constant(lines, site, above, Wanted::Own, IntegerType::Int, 1)?;
    let spot = site.own(above)?;
    Ok(spot)
}

/// The operator of `++` and `--`.
pub(crate) fn step_op(operator: StepOp) -> BinaryOp
    ensures { result ≡ step_op operator }
{
    match operator {
        StepOp::PreIncrement | StepOp::PostIncrement => BinaryOp::Add,
        StepOp::PreDecrement | StepOp::PostDecrement => BinaryOp::Subtract,
    }
}

/// That operator, in the type that it works in on an element.
pub(crate) fn step_operator(operator: StepOp, t: IntegerType) -> Operator
    ensures op { result.op ≡ step_op operator }
    ensures within { result.within ≡ step_type operator (Integer t) }
{
    let op = step_op(operator);
    Operator {
        op,
        within: numbers_type(op, t, IntegerType::Int),
    }
}

/// A local is assigned itself and 1.
fn add_to_local(
    lines: &mut Lines,
    site: &Site<'_>,
    level: u32,
    wanted: Wanted,
    of: ValueType,
    place: u32,
    operator: BinaryOp,
) -> Result<(), NoMemory>
    ensures { OnOk result (AddsPart (update_part (context_of site.now) of operator (AtLocal place)
        (one_part (context_of site.now))) level (wanted_of wanted) lines.old lines.new) }
{
    let x = local_operand(lines, site, level, true, of, place)?;
    let y = one(lines, site, level)?;
    let types = (of, ValueType::Integer(IntegerType::Int));
    set_local(lines, site, level, wanted, of, place, operator, types, x, y)
}

/// A static object is assigned itself and 1.
fn add_to_object(
    lines: &mut Lines,
    site: &Site<'_>,
    level: u32,
    wanted: Wanted,
    of: ValueType,
    k: u32,
    operator: BinaryOp,
) -> Result<(), NoMemory>
    ensures { OnOk result (AddsPart (update_part (context_of site.now) of operator (AtObject k)
        (one_part (context_of site.now))) level (wanted_of wanted) lines.old lines.new) }
{
    let t = number_type(of);
    object(lines, site, level, Wanted::Own, t, k)?;
    let x = site.own(level)?;
    let y = one(lines, site, level)?;
    let types = (ValueType::Integer(t), ValueType::Integer(IntegerType::Int));
    set_object(lines, site, level, wanted, t, k, operator, types, x, y)
}

/// The old value of a local is kept in its own temporaries, and delivered behind the step.
fn local_after(
    lines: &mut Lines,
    site: &Site<'_>,
    level: u32,
    wanted: Wanted,
    of: ValueType,
    place: u32,
    operator: BinaryOp,
) -> Result<(), NoMemory>
    ensures { OnOk result (Adds lines.old lines.new
        ((update_part (context_of site.now) of operator (AtLocal place) (one_part (context_of site.now))).blocks Dropped
        + tested_blocks (plain (wanted_of wanted)) of)
        (stepped_after (context_of site.now) of (read_part (context_of site.now) of (AtLocal place))
        (update_part (context_of site.now) of operator (AtLocal place) (one_part (context_of site.now)))
        lines.old.next level (wanted_of wanted))) }
{
    let above = plus(level, 1)?;
    local(lines, site, level, Wanted::Own, of, place)?;
    add_to_local(lines, site, above, Wanted::Dropped, of, place, operator)?;
    let own = site.own(level)?;
    delivered(lines, site, level, wanted, of, own)
}

/// A step of a local whose value is the old one.
fn local_then(
    lines: &mut Lines,
    site: &Site<'_>,
    level: u32,
    wanted: Wanted,
    of: ValueType,
    place: u32,
    operator: BinaryOp,
) -> Result<(), NoMemory>
    ensures { OnOk result (Adds lines.old lines.new
        ((update_part (context_of site.now) of operator (AtLocal place) (one_part (context_of site.now))).blocks Dropped
        + tested_blocks (plain (wanted_of wanted)) of)
        (stepped_lines (context_of site.now) of (read_part (context_of site.now) of (AtLocal place))
        (update_part (context_of site.now) of operator (AtLocal place) (one_part (context_of site.now)))
        lines.old.next level (wanted_of wanted))) }
{
    match wanted {
        Wanted::Dropped => add_to_local(lines, site, level, wanted, of, place, operator),
        Wanted::Own | Wanted::ToLocal(_) | Wanted::Tests(_, _) => {
            local_after(lines, site, level, wanted, of, place, operator)
        }
    }
}

/// A step of a local.
pub(crate) fn step_local(
    lines: &mut Lines,
    site: &Site<'_>,
    level: u32,
    wanted: Wanted,
    of: ValueType,
    place: u32,
    operator: StepOp,
) -> Result<(), NoMemory>
    ensures { OnOk result (AddsPart (step_part (context_of site.now) of operator (AtLocal place)) level
        (wanted_of wanted) lines.old lines.new) }
{
    match operator {
        StepOp::PreIncrement | StepOp::PreDecrement => {
            add_to_local(lines, site, level, wanted, of, place, step_op(operator))
        }
        StepOp::PostIncrement | StepOp::PostDecrement => {
            local_then(lines, site, level, wanted, of, place, step_op(operator))
        }
    }
}

/// The old value of a static object is kept in its own temporaries, and delivered behind the step.
fn object_after(
    lines: &mut Lines,
    site: &Site<'_>,
    level: u32,
    wanted: Wanted,
    of: ValueType,
    k: u32,
    operator: BinaryOp,
) -> Result<(), NoMemory>
    ensures { OnOk result (Adds lines.old lines.new
        ((update_part (context_of site.now) of operator (AtObject k) (one_part (context_of site.now))).blocks Dropped
        + tested_blocks (plain (wanted_of wanted)) of)
        (stepped_after (context_of site.now) of (read_part (context_of site.now) of (AtObject k))
        (update_part (context_of site.now) of operator (AtObject k) (one_part (context_of site.now)))
        lines.old.next level (wanted_of wanted))) }
{
    let above = plus(level, 1)?;
    object(lines, site, level, Wanted::Own, number_type(of), k)?;
    add_to_object(lines, site, above, Wanted::Dropped, of, k, operator)?;
    let own = site.own(level)?;
    delivered(lines, site, level, wanted, of, own)
}

/// A step of a static object whose value is the old one.
fn object_then(
    lines: &mut Lines,
    site: &Site<'_>,
    level: u32,
    wanted: Wanted,
    of: ValueType,
    k: u32,
    operator: BinaryOp,
) -> Result<(), NoMemory>
    ensures { OnOk result (Adds lines.old lines.new
        ((update_part (context_of site.now) of operator (AtObject k) (one_part (context_of site.now))).blocks Dropped
        + tested_blocks (plain (wanted_of wanted)) of)
        (stepped_lines (context_of site.now) of (read_part (context_of site.now) of (AtObject k))
        (update_part (context_of site.now) of operator (AtObject k) (one_part (context_of site.now)))
        lines.old.next level (wanted_of wanted))) }
{
    match wanted {
        Wanted::Dropped => add_to_object(lines, site, level, wanted, of, k, operator),
        Wanted::Own | Wanted::ToLocal(_) | Wanted::Tests(_, _) => {
            object_after(lines, site, level, wanted, of, k, operator)
        }
    }
}

/// A step of a static object.
pub(crate) fn step_object(
    lines: &mut Lines,
    site: &Site<'_>,
    level: u32,
    wanted: Wanted,
    of: ValueType,
    k: u32,
    operator: StepOp,
) -> Result<(), NoMemory>
    ensures { OnOk result (AddsPart (step_part (context_of site.now) of operator (AtObject k)) level
        (wanted_of wanted) lines.old lines.new) }
{
    match operator {
        StepOp::PreIncrement | StepOp::PreDecrement => {
            add_to_object(lines, site, level, wanted, of, k, step_op(operator))
        }
        StepOp::PostIncrement | StepOp::PostDecrement => {
            object_then(lines, site, level, wanted, of, k, step_op(operator))
        }
    }
}
