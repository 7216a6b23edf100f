//! Operators on values that stand in variables (C99 6.5.5 to 6.5.12).

ghost use Rattle.std.specs.Prelude.{[], ◌∷◌, OnOk, if◌then◌else◌, option_map};
ghost use Rattle.c_tree.specs.declared.types.IntegerType.TheVariants.{Int};
ghost use Rattle.c_tree.specs.declared.types.ValueType.TheVariants.{Integer, Pointer};
ghost use Rattle.flow_graph.specs.declared.op.Op.TheVariants as op;
ghost use Rattle.lower_lines.specs.Lines.{Emit, Start};
ghost use Rattle.c_tree.specs.Program.{int};
ghost use Rattle.lower_builder.specs.Built.{Adds};
ghost use Rattle.lower_lines.specs.Operators.{applied, applied_blocks, branching, computing};
ghost use Rattle.lower_lines.specs.Operators.{equality_test, moving, on_numbers, on_pointer, on_pointer_blocks};
ghost use Rattle.lower_lines.specs.Operators.{on_pointers, on_pointers_blocks};
ghost use Rattle.lower_lines.specs.Parts.{chosen, chosen_blocks, made, pointer_test, tested, tested_blocks, truth};
ghost use Rattle.lower_builder.specs.Sites.{context_of};
ghost use Rattle.lower_builder.specs.Spots.{spot_of};
ghost use Rattle.lower_builder.specs.MoveViews.{plain, wanted_of};
ghost use Rattle.lower_builder.specs.Computed.{number_test_of};
ghost use Rattle.lower_builder.specs.Views.{truth_end};

use crate::lines::{Lines, plus};
use crate::moves::{copied, number_test, pointer_test, target, tested};
use crate::numbers::{NumberTest, op_of, test_branch, test_of};
use crate::site::Site;
use crate::spot::Spot;
use crate::wanted::Wanted;
use c_operators::{Operator, numbers_type};
use c_tree::{BinaryOp, IntegerType, ValueType};
use flow_graph::{Comparison, Op};
use pcc_base::NoMemory;

/// The result of an operator on two numbers in a variable.
pub fn computing(
    lines: &mut Lines,
    site: &Site<'_>,
    level: u32,
    operator: Operator,
    to: u32,
    x: u32,
    y: u32,
) -> Result<(), NoMemory>
    ensures { OnOk result (Adds lines.old lines.new 0
        (computing (context_of site.now) level operator.within operator.op to x y)) }
{
    match operator.op {
        BinaryOp::Divide | BinaryOp::Remainder => {
            let dividend = site.scratch(level)?;
            lines.emit(Op::Copy(dividend, x))?;
            lines.emit(op_of(operator, to, dividend, y))
        }
        BinaryOp::ShiftLeft | BinaryOp::ShiftRight => {
            let count = site.byte(level)?;
            lines.emit(Op::Low(count, y))?;
            lines.emit(op_of(operator, to, x, count))
        }
        BinaryOp::Multiply
        | BinaryOp::Add
        | BinaryOp::Subtract
        | BinaryOp::Less
        | BinaryOp::Greater
        | BinaryOp::LessOrEqual
        | BinaryOp::GreaterOrEqual
        | BinaryOp::Equal
        | BinaryOp::NotEqual
        | BinaryOp::BitAnd
        | BinaryOp::BitXor
        | BinaryOp::BitOr => lines.emit(op_of(operator, to, x, y)),
    }
}

/// The test of a number in its own temporary, where that is wanted.
pub fn tested_number(
    lines: &mut Lines,
    site: &Site<'_>,
    level: u32,
    wanted: Wanted,
    t: IntegerType,
) -> Result<(), NoMemory>
    ensures { OnOk result (Adds lines.old lines.new 0
        (tested (context_of site.now) lines.old.next level (wanted_of wanted) (Integer t))) }
{
    match wanted {
        Wanted::Tests(holds, fails) => {
            let own = site.number(level)?;
            number_test(lines, site, level, own, holds, fails)
        }
        Wanted::Dropped | Wanted::Own | Wanted::ToLocal(_) => Ok(()),
    }
}

/// The result of an operator on two numbers, for what is wanted of it.
fn computed(
    lines: &mut Lines,
    site: &Site<'_>,
    level: u32,
    wanted: Wanted,
    operator: Operator,
    x: u32,
    y: u32,
) -> Result<(), NoMemory>
    ensures { OnOk result (Adds lines.old lines.new 0
        (made (context_of site.now) lines.old.next level (wanted_of wanted) int
        (λ to. computing (context_of site.now) level operator.within operator.op to.number x y))) }
{
    let to = target(site, level, wanted)?;
    computing(lines, site, level, operator, to.number, x, y)?;
    tested_number(lines, site, level, wanted, IntegerType::Int)
}

/// A comparison where control is wanted is one op; else its result is a number as that of every operator.
fn compared(
    lines: &mut Lines,
    site: &Site<'_>,
    level: u32,
    wanted: Wanted,
    test: Option<NumberTest>,
    operator: Operator,
    x: u32,
    y: u32,
) -> Result<(), NoMemory>
    ensures { OnOk result (Adds lines.old lines.new 0
        (branching (option_map number_test_of test) (wanted_of wanted)
        (made (context_of site.now) lines.old.next level (wanted_of wanted) int
        (λ to. computing (context_of site.now) level operator.within operator.op to.number x y)) x y)) }
{
    match test {
        Some(test) => match wanted {
            Wanted::Tests(holds, fails) => lines.emit(test_branch(test, x, y, holds, fails)),
            Wanted::Dropped | Wanted::Own | Wanted::ToLocal(_) => {
                computed(lines, site, level, wanted, operator, x, y)
            }
        },
        None => computed(lines, site, level, wanted, operator, x, y),
    }
}

/// An operator on two numbers.
pub fn on_numbers(
    lines: &mut Lines,
    site: &Site<'_>,
    level: u32,
    wanted: Wanted,
    operator: Operator,
    x: u32,
    y: u32,
) -> Result<(), NoMemory>
    ensures { OnOk result (Adds lines.old lines.new 0
        (on_numbers (context_of site.now) lines.old.next level (wanted_of wanted) operator.within operator.op x y)) }
{
    compared(
        lines,
        site,
        level,
        wanted,
        test_of(operator),
        operator,
        x,
        y,
    )
}

/// One way to a truth value: its block, its op, and where both ways lead.
fn truth_way(lines: &mut Lines, block: u32, made: Op, behind: u32) -> Result<(), NoMemory>
    ensures { OnOk result (Adds lines.old lines.new 0
        (Start block ∷ Emit made ∷ Emit (op.Jump behind) ∷ [])) }
{
    lines.start(block)?;
    lines.emit(made)?;
    lines.emit(Op::Jump(behind))
}

/// What stands behind a test that gives a truth value.
pub fn end_truth(
    lines: &mut Lines,
    site: &Site<'_>,
    level: u32,
    wanted: Wanted,
    block: u32,
) -> Result<(), NoMemory>
    ensures { OnOk result (Adds lines.old lines.new 0
        (truth_end (context_of site.now) block level (wanted_of wanted))) }
{
    let to = target(site, level, wanted)?;
    let second = plus(block, 1)?;
    let behind = plus(block, 2)?;
    truth_way(lines, block, Op::Const(to.number, 1), behind)?;
    truth_way(lines, second, Op::Const(to.number, 0), behind)?;
    lines.start(behind)
}

/// A pointer whose index moves by a number: forwards, or backwards.
fn moving(lines: &mut Lines, operator: BinaryOp, to: Spot, x: Spot, n: u32) -> Result<(), NoMemory>
    ensures { OnOk result (Adds lines.old lines.new 0 (moving operator (spot_of to) (spot_of x) n)) }
{
    copied(lines, to.array, x.array)?;
    match operator {
        BinaryOp::Subtract => lines.emit(Op::Sub(to.number, x.number, n)),
        BinaryOp::Multiply
        | BinaryOp::Divide
        | BinaryOp::Remainder
        | BinaryOp::Add
        | BinaryOp::ShiftLeft
        | BinaryOp::ShiftRight
        | BinaryOp::Less
        | BinaryOp::Greater
        | BinaryOp::LessOrEqual
        | BinaryOp::GreaterOrEqual
        | BinaryOp::Equal
        | BinaryOp::NotEqual
        | BinaryOp::BitAnd
        | BinaryOp::BitXor
        | BinaryOp::BitOr => lines.emit(Op::Add(to.number, x.number, n)),
    }
}

/// Whether a pointer is null, or isn't.
fn null_branch(
    lines: &mut Lines,
    site: &Site<'_>,
    level: u32,
    equal: bool,
    x: Spot,
    holds: u32,
    fails: u32,
) -> Result<(), NoMemory>
    ensures { OnOk result (Adds lines.old lines.new 1
        (if equal then pointer_test (context_of site.now) lines.old.next level (spot_of x) fails holds
        else pointer_test (context_of site.now) lines.old.next level (spot_of x) holds fails)) }
{
    if equal {
        return pointer_test(lines, site, level, x, fails, holds);
    }
    pointer_test(lines, site, level, x, holds, fails)
}

/// The truth value of that.
fn null_truth(
    lines: &mut Lines,
    site: &Site<'_>,
    level: u32,
    wanted: Wanted,
    equal: bool,
    x: Spot,
) -> Result<(), NoMemory>
    ensures { OnOk result (Adds lines.old lines.new 4
        (truth (context_of site.now) lines.old.next level (wanted_of wanted)
        (λ b holds fails. if equal then pointer_test (context_of site.now) b level (spot_of x) fails holds
        else pointer_test (context_of site.now) b level (spot_of x) holds fails))) }
{
    let first = lines.take_blocks(3)?;
    let second = plus(first, 1)?;
    null_branch(lines, site, level, equal, x, first, second)?;
    end_truth(lines, site, level, wanted, first)
}

/// Whether a pointer is null, or isn't, for what is wanted of that.
fn null_tested(
    lines: &mut Lines,
    site: &Site<'_>,
    level: u32,
    wanted: Wanted,
    equal: bool,
    x: Spot,
) -> Result<(), NoMemory>
    ensures { OnOk result (Adds lines.old lines.new (chosen_blocks (plain (wanted_of wanted)) 1)
        (chosen (context_of site.now) lines.old.next level (wanted_of wanted)
        (λ b holds fails. if equal then pointer_test (context_of site.now) b level (spot_of x) fails holds
        else pointer_test (context_of site.now) b level (spot_of x) holds fails))) }
{
    match wanted {
        Wanted::Dropped => Ok(()),
        Wanted::Tests(holds, fails) => null_branch(lines, site, level, equal, x, holds, fails),
        Wanted::Own | Wanted::ToLocal(_) => null_truth(lines, site, level, wanted, equal, x),
    }
}

/// A pointer that an operator moves, for what is wanted of it.
fn moved_pointer(
    lines: &mut Lines,
    site: &Site<'_>,
    level: u32,
    wanted: Wanted,
    operator: BinaryOp,
    x: Spot,
    n: u32,
) -> Result<(), NoMemory>
    ensures { OnOk result (Adds lines.old lines.new
        (tested_blocks (plain (wanted_of wanted)) (Pointer Int))
        (made (context_of site.now) lines.old.next level (wanted_of wanted) (Pointer Int)
        (λ to. moving operator to (spot_of x) n))) }
{
    let to = target(site, level, wanted)?;
    moving(lines, operator, to, x, n)?;
    tested(
        lines,
        site,
        level,
        wanted,
        ValueType::Pointer(IntegerType::Int),
    )
}

/// A pointer and a number: the index moves, or the number is the null constant.
fn on_pointer(
    lines: &mut Lines,
    site: &Site<'_>,
    level: u32,
    wanted: Wanted,
    operator: BinaryOp,
    x: Spot,
    n: u32,
) -> Result<(), NoMemory>
    ensures { OnOk result (Adds lines.old lines.new (on_pointer_blocks (plain (wanted_of wanted)) operator)
        (on_pointer (context_of site.now) lines.old.next level (wanted_of wanted) operator (spot_of x) n)) }
{
    match operator {
        BinaryOp::Equal => null_tested(lines, site, level, wanted, true, x),
        BinaryOp::NotEqual => null_tested(lines, site, level, wanted, false, x),
        BinaryOp::Multiply
        | BinaryOp::Divide
        | BinaryOp::Remainder
        | BinaryOp::Add
        | BinaryOp::Subtract
        | BinaryOp::ShiftLeft
        | BinaryOp::ShiftRight
        | BinaryOp::Less
        | BinaryOp::Greater
        | BinaryOp::LessOrEqual
        | BinaryOp::GreaterOrEqual
        | BinaryOp::BitAnd
        | BinaryOp::BitXor
        | BinaryOp::BitOr => moved_pointer(lines, site, level, wanted, operator, x, n),
    }
}

/// Whether two pointers are the same; this takes one block.
fn equality_test(
    lines: &mut Lines,
    x: Spot,
    y: Spot,
    holds: u32,
    fails: u32,
) -> Result<(), NoMemory>
    ensures { OnOk result (Adds lines.old lines.new 1
        (equality_test lines.old.next (spot_of x) (spot_of y) holds fails)) }
{
    let block = lines.take_blocks(1)?;
    lines.emit(Op::Branch(Comparison::Ne, x.array, y.array, fails, block))?;
    lines.start(block)?;
    lines.emit(Op::Branch(Comparison::Eq, x.number, y.number, holds, fails))
}

/// Whether two pointers are the same, or differ.
fn equality_branch(
    lines: &mut Lines,
    equal: bool,
    x: Spot,
    y: Spot,
    holds: u32,
    fails: u32,
) -> Result<(), NoMemory>
    ensures { OnOk result (Adds lines.old lines.new 1
        (if equal then equality_test lines.old.next (spot_of x) (spot_of y) holds fails
        else equality_test lines.old.next (spot_of x) (spot_of y) fails holds)) }
{
    if equal {
        return equality_test(lines, x, y, holds, fails);
    }
    equality_test(lines, x, y, fails, holds)
}

/// The truth value of that.
fn equality_truth(
    lines: &mut Lines,
    site: &Site<'_>,
    level: u32,
    wanted: Wanted,
    equal: bool,
    x: Spot,
    y: Spot,
) -> Result<(), NoMemory>
    ensures { OnOk result (Adds lines.old lines.new 4
        (truth (context_of site.now) lines.old.next level (wanted_of wanted)
        (λ b holds fails. if equal then equality_test b (spot_of x) (spot_of y) holds fails
        else equality_test b (spot_of x) (spot_of y) fails holds))) }
{
    let first = lines.take_blocks(3)?;
    let second = plus(first, 1)?;
    equality_branch(lines, equal, x, y, first, second)?;
    end_truth(lines, site, level, wanted, first)
}

/// Whether two pointers are the same, or differ, for what is wanted of that.
fn equality_tested(
    lines: &mut Lines,
    site: &Site<'_>,
    level: u32,
    wanted: Wanted,
    equal: bool,
    x: Spot,
    y: Spot,
) -> Result<(), NoMemory>
    ensures { OnOk result (Adds lines.old lines.new (chosen_blocks (plain (wanted_of wanted)) 1)
        (chosen (context_of site.now) lines.old.next level (wanted_of wanted)
        (λ b holds fails. if equal then equality_test b (spot_of x) (spot_of y) holds fails
        else equality_test b (spot_of x) (spot_of y) fails holds))) }
{
    match wanted {
        Wanted::Dropped => Ok(()),
        Wanted::Tests(holds, fails) => equality_branch(lines, equal, x, y, holds, fails),
        Wanted::Own | Wanted::ToLocal(_) => {
            equality_truth(lines, site, level, wanted, equal, x, y)
        }
    }
}

/// A difference or an ordering of two pointers, which traps unless they have one array.
fn in_one_array(
    lines: &mut Lines,
    site: &Site<'_>,
    level: u32,
    wanted: Wanted,
    operator: BinaryOp,
    x: Spot,
    y: Spot,
) -> Result<(), NoMemory>
    ensures { OnOk result (Adds lines.old lines.new 0 (Emit (op.Same x.array y.array)
        ∷ on_numbers (context_of site.now) lines.old.next level (wanted_of wanted) Int operator x.number y.number)) }
{
    lines.emit(Op::Same(x.array, y.array))?;
    let operator = Operator {
        op: operator,
        within: IntegerType::Int,
    };
    on_numbers(lines, site, level, wanted, operator, x.number, y.number)
}

/// An operator on two pointers.
fn on_pointers(
    lines: &mut Lines,
    site: &Site<'_>,
    level: u32,
    wanted: Wanted,
    operator: BinaryOp,
    x: Spot,
    y: Spot,
) -> Result<(), NoMemory>
    ensures { OnOk result (Adds lines.old lines.new (on_pointers_blocks (plain (wanted_of wanted)) operator)
        (on_pointers (context_of site.now) lines.old.next level (wanted_of wanted) operator (spot_of x)
        (spot_of y))) }
{
    match operator {
        BinaryOp::Equal => equality_tested(lines, site, level, wanted, true, x, y),
        BinaryOp::NotEqual => equality_tested(lines, site, level, wanted, false, x, y),
        BinaryOp::Multiply
        | BinaryOp::Divide
        | BinaryOp::Remainder
        | BinaryOp::Add
        | BinaryOp::Subtract
        | BinaryOp::ShiftLeft
        | BinaryOp::ShiftRight
        | BinaryOp::Less
        | BinaryOp::Greater
        | BinaryOp::LessOrEqual
        | BinaryOp::GreaterOrEqual
        | BinaryOp::BitAnd
        | BinaryOp::BitXor
        | BinaryOp::BitOr => in_one_array(lines, site, level, wanted, operator, x, y),
    }
}

/// An operator on two values, by the types of the operands.
pub fn applied(
    lines: &mut Lines,
    site: &Site<'_>,
    level: u32,
    wanted: Wanted,
    operator: BinaryOp,
    types: (ValueType, ValueType),
    x: Spot,
    y: Spot,
) -> Result<(), NoMemory>
    ensures { OnOk result (Adds lines.old lines.new
        (applied_blocks (plain (wanted_of wanted)) operator types.0 types.1)
        (applied (context_of site.now) lines.old.next level (wanted_of wanted) operator types.0 types.1
        (spot_of x) (spot_of y))) }
{
    match types {
        (ValueType::Integer(t), ValueType::Integer(u)) => {
            let operator = Operator {
                op: operator,
                within: numbers_type(operator, t, u),
            };
            on_numbers(lines, site, level, wanted, operator, x.number, y.number)
        }
        (ValueType::Pointer(_), ValueType::Integer(_)) => {
            on_pointer(lines, site, level, wanted, operator, x, y.number)
        }
        (ValueType::Integer(_), ValueType::Pointer(_)) => {
            on_pointer(lines, site, level, wanted, operator, y, x.number)
        }
        (ValueType::Pointer(_), ValueType::Pointer(_)) => {
            on_pointers(lines, site, level, wanted, operator, x, y)
        }
        (ValueType::Void, _) => Ok(()),
        (ValueType::Integer(_) | ValueType::Pointer(_), ValueType::Void) => Ok(()),
    }
}
