//! What is done with operands that stand in variables.

ghost use Rattle.std.specs.Prelude.{◌≡◌, ◌∷◌, ◌++◌, [], IfOk, OnOk};
ghost use Rattle.c_tree.specs.Program.{int};
ghost use Rattle.c_tree.specs.declared.types.IntegerType.TheVariants.{Char};
ghost use Rattle.c_tree.specs.declared.types.ValueType.TheVariants.{Integer};
ghost use Rattle.flow_graph.specs.declared.op.Op.TheVariants as op;
ghost use Rattle.lower_builder.specs.Built.{Adds};
ghost use Rattle.lower_lines.specs.Expressions.{element_sum, getchar_part, old_value};
ghost use Rattle.lower_lines.specs.Expressions.{new_value, stored_lines};
ghost use Rattle.lower_lines.specs.Lines.{Emit, Start};
ghost use Rattle.lower_lines.specs.Parts.{bits_of, converted_lines, converting, made, tested_blocks};
ghost use Rattle.lower_lines.specs.Operators.{computing};
ghost use Rattle.lower_lines.specs.Variables.{local_spot};
ghost use Rattle.lower_builder.specs.Sites.{context_of};
ghost use Rattle.lower_builder.specs.Spots.{spot_of};
ghost use Rattle.lower_builder.specs.MoveViews.{plain, wanted_of};
ghost use Rattle.lower_builder.specs.Views.{AddsPart};
ghost use Rattle.lower_expressions.specs.Rows.{number_op, renewing};

use crate::leaves::local;
use c_operators::Operator;
use c_tree::{IntegerType, ValueType};
use flow_graph::Op;
use lower_builder::{
    Lines, Site, Spot, Wanted, bits_of, computing, converting, copied, number_test, plus, target,
    tested_number,
};
use pcc_base::NoMemory;

/// An op on one number.
#[derive(Clone, Copy)]
pub enum NumberOp {
    /// The negation.
    Negate,
    /// The complement of each bit.
    Complement,
    /// `putchar`.
    Put,
}

/// An op on a number, for what is wanted of it.
pub(crate) fn number_made(
    lines: &mut Lines,
    site: &Site<'_>,
    level: u32,
    wanted: Wanted,
    how: NumberOp,
    x: u32,
) -> Result<(), NoMemory>
    ensures { OnOk result (Adds lines.old lines.new 0
        (made (context_of site.now) lines.old.next level (wanted_of wanted) int
        (λ to. Emit (number_op how to.number x) ∷ []))) }
{
    let to = target(site, level, wanted)?;
    match how {
        NumberOp::Negate => lines.emit(Op::Neg(to.number, x))?,
        NumberOp::Complement => lines.emit(Op::Not(to.number, x))?,
        NumberOp::Put => lines.emit(Op::Putchar(to.number, x))?,
    }
    tested_number(lines, site, level, wanted, IntegerType::Int)
}

/// A number in a narrower type, for what is wanted of it.
pub(crate) fn narrow_made(
    lines: &mut Lines,
    site: &Site<'_>,
    level: u32,
    wanted: Wanted,
    t: IntegerType,
    x: u32,
) -> Result<(), NoMemory>
    ensures { OnOk result (Adds lines.old lines.new 0
        (made (context_of site.now) lines.old.next level (wanted_of wanted) (Integer t)
        (λ to. converting (context_of site.now) level t to.number x))) }
{
    let to = target(site, level, wanted)?;
    converting(lines, site, level, t, to.number, x)?;
    tested_number(lines, site, level, wanted, t)
}

/// A number that stands in a variable, in an integer type, for what is wanted of it.
pub fn converted(
    lines: &mut Lines,
    site: &Site<'_>,
    level: u32,
    wanted: Wanted,
    t: IntegerType,
    x: u32,
) -> Result<(), NoMemory>
    ensures { OnOk result (Adds lines.old lines.new 0
        (converted_lines (context_of site.now) lines.old.next level (wanted_of wanted) t x)) }
{
    match wanted {
        Wanted::Dropped => Ok(()),
        Wanted::Own => {
            let own = site.own(level)?;
            converting(lines, site, level, t, own.number, x)
        }
        Wanted::ToLocal(local) => {
            let to = site.spot(local);
            converting(lines, site, level, t, to.number, x)
        }
        Wanted::Tests(holds, fails) => {
            let own = site.own(level)?;
            converting(lines, site, level, t, own.number, x)?;
            number_test(lines, site, level, own.number, holds, fails)
        }
    }
}

/// An element's value, for what is wanted of it.
pub fn loaded(
    lines: &mut Lines,
    site: &Site<'_>,
    level: u32,
    wanted: Wanted,
    t: IntegerType,
    at: Spot,
) -> Result<(), NoMemory>
    ensures { OnOk result (Adds lines.old lines.new 0
        (made (context_of site.now) lines.old.next level (wanted_of wanted) (Integer t)
        (λ to. Emit (op.Load (bits_of t) to.number at.array at.number) ∷ []))) }
{
    let to = target(site, level, wanted)?;
    lines.emit(Op::Load(bits_of(t), to.number, at.array, at.number))?;
    tested_number(lines, site, level, wanted, t)
}

/// `getchar()`.
pub fn getchar(
    lines: &mut Lines,
    site: &Site<'_>,
    level: u32,
    wanted: Wanted,
) -> Result<(), NoMemory>
    ensures { OnOk result (AddsPart (getchar_part (context_of site.now)) level (wanted_of wanted)
        lines.old lines.new) }
{
    let to = target(site, level, wanted)?;
    lines.emit(Op::Getchar(to.number))?;
    tested_number(lines, site, level, wanted, IntegerType::Int)
}

/// The program ends, and behind it stands a block that nothing leads to.
pub(crate) fn exit_with(lines: &mut Lines, block: u32, x: u32) -> Result<(), NoMemory>
    ensures { OnOk result (Adds lines.old lines.new 0 (Emit (op.Exit x) ∷ Start block ∷ [])) }
{
    lines.emit(Op::Exit(x))?;
    lines.start(block)
}

/// The number of a local that was assigned to is read again, where it is wanted.
pub fn stored(
    lines: &mut Lines,
    site: &Site<'_>,
    level: u32,
    wanted: Wanted,
    of: ValueType,
    place: u32,
) -> Result<(), NoMemory>
    ensures { OnOk result (Adds lines.old lines.new (tested_blocks (plain (wanted_of wanted)) of)
        (stored_lines (context_of site.now) lines.old.next level (wanted_of wanted) of place)) }
{
    match wanted {
        Wanted::Dropped => Ok(()),
        Wanted::Own => local(lines, site, level, wanted, of, place),
        Wanted::ToLocal(_) => local(lines, site, level, wanted, of, place),
        Wanted::Tests(_, _) => local(lines, site, level, wanted, of, place),
    }
}

/// A number goes to a local of type `char`.
pub(crate) fn byte_set(
    lines: &mut Lines,
    site: &Site<'_>,
    level: u32,
    wanted: Wanted,
    place: u32,
    x: u32,
) -> Result<(), NoMemory>
    ensures { OnOk result (Adds lines.old lines.new 0
        (Emit (op.Low (local_spot (context_of site.now) place).number x)
        ∷ stored_lines (context_of site.now) lines.old.next level (wanted_of wanted) (Integer Char) place)) }
{
    let to = site.spot(place);
    lines.emit(Op::Low(to.number, x))?;
    stored(
        lines,
        site,
        level,
        wanted,
        ValueType::Integer(IntegerType::Char),
        place,
    )
}

/// A number goes to a static object.
pub fn put(
    lines: &mut Lines,
    site: &Site<'_>,
    level: u32,
    wanted: Wanted,
    t: IntegerType,
    k: u32,
    x: u32,
) -> Result<(), NoMemory>
    ensures { OnOk result (Adds lines.old lines.new 0 (Emit (op.Put (bits_of t) k x)
        ∷ converted_lines (context_of site.now) lines.old.next level (wanted_of wanted) t x)) }
{
    lines.emit(Op::Put(bits_of(t), k, x))?;
    converted(lines, site, level, wanted, t, x)
}

/// A number goes to an element.
pub fn store(
    lines: &mut Lines,
    site: &Site<'_>,
    level: u32,
    wanted: Wanted,
    t: IntegerType,
    at: Spot,
    x: u32,
) -> Result<(), NoMemory>
    ensures { OnOk result (Adds lines.old lines.new 0 (Emit (op.Store (bits_of t) at.array at.number x)
        ∷ converted_lines (context_of site.now) lines.old.next level (wanted_of wanted) t x)) }
{
    lines.emit(Op::Store(bits_of(t), at.array, at.number, x))?;
    converted(lines, site, level, wanted, t, x)
}

/// An element's value before it is written.
pub fn load_old(
    lines: &mut Lines,
    site: &Site<'_>,
    level: u32,
    t: IntegerType,
    at: Spot,
) -> Result<(), NoMemory>
    ensures { OnOk result (Adds lines.old lines.new 0
        (Emit (op.Load (bits_of t) (old_value (context_of site.now) level) at.array at.number) ∷ [])) }
{
    let old = site.old(level)?;
    lines.emit(Op::Load(bits_of(t), old, at.array, at.number))
}

/// The value that an element then gets.
pub(crate) fn renewed(
    lines: &mut Lines,
    site: &Site<'_>,
    level: u32,
    t: IntegerType,
    operator: Operator,
    at: Spot,
    y: u32,
) -> Result<u32, NoMemory>
    ensures adds { IfOk result (λ _. Adds lines.old lines.new 0
        (computing (context_of site.now) level operator.within operator.op (new_value (context_of site.now) level)
        (old_value (context_of site.now) level) y
        ++ Emit (op.Store (bits_of t) at.array at.number (new_value (context_of site.now) level)) ∷ [])) }
    ensures new { IfOk result (λ new. new ≡ new_value (context_of site.now) level) }
{
    let above = plus(level, 1)?;
    let new = site.old(above)?;
    let old = site.old(level)?;
    computing(lines, site, level, operator, new, old, y)?;
    lines.emit(Op::Store(bits_of(t), at.array, at.number, new))?;
    Ok(new)
}

/// An element gets what an operator gives of its value and a number.
pub(crate) fn renew(
    lines: &mut Lines,
    site: &Site<'_>,
    level: u32,
    wanted: Wanted,
    t: IntegerType,
    operator: Operator,
    at: Spot,
    y: u32,
) -> Result<(), NoMemory>
    ensures { OnOk result (Adds lines.old lines.new 0
        (renewing (context_of site.now) lines.old.next level (wanted_of wanted) t operator.within operator.op
        (spot_of at) y)) }
{
    let new = renewed(lines, site, level, t, operator, at, y)?;
    converted(lines, site, level, wanted, t, new)
}

/// The address of an element: its array and the sum of the indices.
pub fn element_sum(lines: &mut Lines, to: Spot, x: Spot, y: u32) -> Result<(), NoMemory>
    ensures { OnOk result (Adds lines.old lines.new 0 (element_sum (spot_of to) (spot_of x) y)) }
{
    copied(lines, to.array, x.array)?;
    lines.emit(Op::Add(to.number, x.number, y))
}
