//! Values that stand in variables: copies, tests, and where a value goes that is wanted.

ghost use Rattle.std.specs.Prelude.{◌≡◌, ◌∷◌, [], IfOk, OnOk, pos};
ghost use Rattle.flow_graph.specs.declared.op.Op.TheVariants as op;
ghost use Rattle.lower_builder.specs.Built.{Adds};
ghost use Rattle.lower_lines.specs.Lines.{Emit};
ghost use Rattle.lower_lines.specs.Expressions.{reading};
ghost use Rattle.lower_lines.specs.Parts.{delivered, null_lines, number_test};
ghost use Rattle.lower_lines.specs.Parts.{pointer_test, target, test_blocks, test_lines, tested, tested_blocks};
ghost use Rattle.lower_lines.specs.Variables.{copied, moved};
ghost use Rattle.lower_builder.specs.Sites.{context_of};
ghost use Rattle.lower_builder.specs.Spots.{spot_of};
ghost use Rattle.lower_builder.specs.MoveViews.{plain, wanted_of};

use crate::lines::Lines;
use crate::site::Site;
use crate::spot::Spot;
use crate::wanted::Wanted;
use c_tree::ValueType;
use flow_graph::{Comparison, Op};
use pcc_base::NoMemory;

/// A copy from one variable to another, which takes no op where they are the same.
pub fn copied(lines: &mut Lines, to: u32, from: u32) -> Result<(), NoMemory>
    ensures { OnOk result (Adds lines.old lines.new 0 (copied to from)) }
{
    if to == from {
        return Ok(());
    }
    lines.emit(Op::Copy(to, from))
}

/// A value of a type from one place to another.
pub fn moved(lines: &mut Lines, of: ValueType, to: Spot, from: Spot) -> Result<(), NoMemory>
    ensures { OnOk result (Adds lines.old lines.new 0 (moved of (spot_of to) (spot_of from))) }
{
    match of {
        ValueType::Void => Ok(()),
        ValueType::Integer(_) => copied(lines, to.number, from.number),
        ValueType::Pointer(_) => {
            copied(lines, to.array, from.array)?;
            copied(lines, to.number, from.number)
        }
    }
}

/// A number is true where it isn't 0 (C99 6.5.3.3p5).
pub fn number_test(
    lines: &mut Lines,
    site: &Site<'_>,
    level: u32,
    x: u32,
    holds: u32,
    fails: u32,
) -> Result<(), NoMemory>
    ensures { OnOk result (Adds lines.old lines.new 0 (number_test (context_of site.now) level x holds fails)) }
{
    let zero = site.scratch(level)?;
    lines.emit(Op::Const(zero, 0))?;
    lines.emit(Op::Branch(Comparison::Ne, x, zero, holds, fails))
}

/// A pointer is true where it has an array, or its index isn't 0.
pub fn pointer_test(
    lines: &mut Lines,
    site: &Site<'_>,
    level: u32,
    x: Spot,
    holds: u32,
    fails: u32,
) -> Result<(), NoMemory>
    ensures { OnOk result (Adds lines.old lines.new 1
        (pointer_test (context_of site.now) lines.old.next level (spot_of x) holds fails)) }
{
    let block = lines.take_blocks(1)?;
    let zero = site.scratch(level)?;
    lines.emit(Op::Const(zero, 0))?;
    lines.emit(Op::Branch(Comparison::Ne, x.array, zero, holds, block))?;
    lines.start(block)?;
    lines.emit(Op::Branch(Comparison::Ne, x.number, zero, holds, fails))
}

/// Whether a value of a type is true.
pub(crate) fn test_value(
    lines: &mut Lines,
    site: &Site<'_>,
    level: u32,
    of: ValueType,
    x: Spot,
    holds: u32,
    fails: u32,
) -> Result<(), NoMemory>
    ensures { OnOk result (Adds lines.old lines.new (test_blocks of)
        (test_lines (context_of site.now) lines.old.next level of (spot_of x) holds fails)) }
{
    match of {
        ValueType::Void => Ok(()),
        ValueType::Integer(_) => number_test(lines, site, level, x.number, holds, fails),
        ValueType::Pointer(_) => pointer_test(lines, site, level, x, holds, fails),
    }
}

/// Where ops put the value that is wanted.
pub fn target(site: &Site<'_>, level: u32, wanted: Wanted) -> Result<Spot, NoMemory>
    ensures { IfOk result (λ spot. spot_of spot ≡ target (context_of site.now) level (wanted_of wanted)) }
{
    match wanted {
        Wanted::ToLocal(local) => Ok(site.spot(local)),
        Wanted::Dropped | Wanted::Own | Wanted::Tests(_, _) => site.own(level),
    }
}

/// The test of a value in its own temporaries, where that is wanted.
pub fn tested(
    lines: &mut Lines,
    site: &Site<'_>,
    level: u32,
    wanted: Wanted,
    of: ValueType,
) -> Result<(), NoMemory>
    ensures { OnOk result (Adds lines.old lines.new (tested_blocks (plain (wanted_of wanted)) of)
        (tested (context_of site.now) lines.old.next level (wanted_of wanted) of)) }
{
    match wanted {
        Wanted::Tests(holds, fails) => {
            let own = site.own(level)?;
            test_value(lines, site, level, of, own, holds, fails)
        }
        Wanted::Dropped | Wanted::Own | Wanted::ToLocal(_) => Ok(()),
    }
}

/// A value that stands in a spot, for what is wanted of it.
pub fn delivered(
    lines: &mut Lines,
    site: &Site<'_>,
    level: u32,
    wanted: Wanted,
    of: ValueType,
    from: Spot,
) -> Result<(), NoMemory>
    ensures { OnOk result (Adds lines.old lines.new (tested_blocks (plain (wanted_of wanted)) of)
        (delivered (context_of site.now) lines.old.next level (wanted_of wanted) of (spot_of from))) }
{
    match wanted {
        Wanted::Dropped => Ok(()),
        Wanted::Own => {
            let own = site.own(level)?;
            moved(lines, of, own, from)
        }
        Wanted::ToLocal(local) => moved(lines, of, site.spot(local), from),
        Wanted::Tests(holds, fails) => test_value(lines, site, level, of, from, holds, fails),
    }
}

/// The reading of a local, which is an op that uses its variable also where the value is dropped.
pub fn reading(
    lines: &mut Lines,
    site: &Site<'_>,
    level: u32,
    wanted: Wanted,
    of: ValueType,
    from: Spot,
) -> Result<(), NoMemory>
    ensures { OnOk result (Adds lines.old lines.new (tested_blocks (plain (wanted_of wanted)) of)
        (reading (context_of site.now) lines.old.next level (wanted_of wanted) of (spot_of from))) }
{
    match wanted {
        Wanted::Dropped => {
            let own = site.own(level)?;
            moved(lines, of, own, from)
        }
        Wanted::Own | Wanted::ToLocal(_) | Wanted::Tests(_, _) => {
            delivered(lines, site, level, wanted, of, from)
        }
    }
}

/// The null pointer in a spot.
fn null_in(lines: &mut Lines, to: Spot) -> Result<(), NoMemory>
    ensures { OnOk result (Adds lines.old lines.new 0
        (Emit (op.Const to.array (pos 0)) ∷ Emit (op.Const to.number (pos 0)) ∷ [])) }
{
    lines.emit(Op::Const(to.array, 0))?;
    lines.emit(Op::Const(to.number, 0))
}

/// The null pointer, for what is wanted of it.
pub fn null_pointer(
    lines: &mut Lines,
    site: &Site<'_>,
    level: u32,
    wanted: Wanted,
) -> Result<(), NoMemory>
    ensures { OnOk result (Adds lines.old lines.new 0 (null_lines (context_of site.now) level (wanted_of wanted))) }
{
    match wanted {
        Wanted::Dropped => Ok(()),
        Wanted::Own => {
            let own = site.own(level)?;
            null_in(lines, own)
        }
        Wanted::ToLocal(local) => null_in(lines, site.spot(local)),
        Wanted::Tests(_, fails) => lines.emit(Op::Jump(fails)),
    }
}
