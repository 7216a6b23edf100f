//! Where control goes in `&&`, `||`, `!` and `?:` (C99 6.5.13 to 6.5.15).

ghost use Rattle.std.specs.Prelude.{◌≡◌, ◌+◌, [], ◌∷◌, IfOk, OnOk};
ghost use Rattle.flow_graph.specs.declared.op.Op.TheVariants as op;
ghost use Rattle.lower_builder.specs.Built.{Adds};
ghost use Rattle.lower_lines.specs.Lines.{Emit, Start};
ghost use Rattle.lower_lines.specs.Expressions.{joined, joins, own_blocks};
ghost use Rattle.lower_builder.specs.Sites.{context_of};
ghost use Rattle.lower_builder.specs.MoveViews.{wanted_of};
ghost use Rattle.lower_expressions.specs.Ways.{truth_ways, way_blocks, ways_at, ways_end, ways_of};

use flow_graph::Op;
use lower_builder::{Lines, Site, Wanted, end_truth, plus};
use pcc_base::NoMemory;

/// Where control goes in `a && b` and `a || b`: the block of `b`, those of a value that is true and one that is false,
/// and what is wanted of `b`.
#[derive(Clone, Copy)]
pub struct Ways {
    /// The first block that was taken.
    pub first: u32,
    pub second: u32,
    pub holds: u32,
    pub fails: u32,
    pub last: Wanted,
}

/// The blocks of a condition that gives a truth value are taken.
fn truth_ways(lines: &mut Lines) -> Result<Ways, NoMemory>
    ensures lines { IfOk result (λ _. lines.new.lines ≡ lines.old.lines) }
    ensures next { IfOk result (λ _. lines.new.next ≡ lines.old.next + 4) }
    ensures ways { IfOk result (λ ways. ways_of ways ≡ truth_ways lines.old.next) }
{
    let first = lines.take_blocks(4)?;
    let fails = plus(first, 1)?;
    let second = plus(first, 3)?;
    Ok(Ways {
        first,
        second,
        holds: first,
        fails,
        last: Wanted::Tests(first, fails),
    })
}

/// The blocks of a condition with two operands are taken.
pub(crate) fn open_ways(lines: &mut Lines, wanted: Wanted) -> Result<Ways, NoMemory>
    ensures lines { IfOk result (λ _. lines.new.lines ≡ lines.old.lines) }
    ensures next { IfOk result (λ _. lines.new.next ≡ lines.old.next + way_blocks (wanted_of wanted)) }
    ensures ways { IfOk result (λ ways. ways_of ways ≡ ways_at lines.old.next (wanted_of wanted)) }
{
    match wanted {
        Wanted::Dropped => {
            let first = lines.take_blocks(2)?;
            let behind = plus(first, 1)?;
            Ok(Ways {
                first,
                second: first,
                holds: behind,
                fails: behind,
                last: Wanted::Dropped,
            })
        }
        Wanted::Own | Wanted::ToLocal(_) => truth_ways(lines),
        Wanted::Tests(holds, fails) => {
            let first = lines.take_blocks(1)?;
            Ok(Ways {
                first,
                second: first,
                holds,
                fails,
                last: Wanted::Tests(holds, fails),
            })
        }
    }
}

/// A jump to a block, which starts behind it.
fn go_on(lines: &mut Lines, block: u32) -> Result<(), NoMemory>
    ensures { OnOk result (Adds lines.old lines.new 0 (Emit (op.Jump block) ∷ Start block ∷ [])) }
{
    lines.emit(Op::Jump(block))?;
    lines.start(block)
}

/// What stands behind both operands.
pub(crate) fn end_ways(
    lines: &mut Lines,
    site: &Site<'_>,
    level: u32,
    wanted: Wanted,
    first: u32,
) -> Result<(), NoMemory>
    ensures { OnOk result (Adds lines.old lines.new 0
        (ways_end (context_of site.now) first level (wanted_of wanted))) }
{
    match wanted {
        Wanted::Dropped => {
            let behind = plus(first, 1)?;
            go_on(lines, behind)
        }
        Wanted::Own | Wanted::ToLocal(_) => end_truth(lines, site, level, wanted, first),
        Wanted::Tests(_, _) => Ok(()),
    }
}

/// How many blocks `?:` has of its own.
pub fn own_blocks(wanted: Wanted) -> u32
    ensures { result ≡ own_blocks (wanted_of wanted) }
{
    match wanted {
        Wanted::Tests(_, _) => 2,
        Wanted::Dropped | Wanted::Own | Wanted::ToLocal(_) => 3,
    }
}

/// Behind one way of `?:`.
pub fn join(lines: &mut Lines, wanted: Wanted, behind: u32) -> Result<(), NoMemory>
    ensures { OnOk result (Adds lines.old lines.new 0 (joined behind (wanted_of wanted))) }
{
    match wanted {
        Wanted::Tests(_, _) => Ok(()),
        Wanted::Dropped | Wanted::Own | Wanted::ToLocal(_) => lines.emit(Op::Jump(behind)),
    }
}

/// Behind both ways of `?:`.
pub(crate) fn start_joined(lines: &mut Lines, wanted: Wanted, behind: u32) -> Result<(), NoMemory>
    ensures { OnOk result (Adds lines.old lines.new 0 (joins behind (wanted_of wanted))) }
{
    match wanted {
        Wanted::Tests(_, _) => Ok(()),
        Wanted::Dropped | Wanted::Own | Wanted::ToLocal(_) => lines.start(behind),
    }
}
