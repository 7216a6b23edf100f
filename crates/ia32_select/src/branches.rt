//! Jumps, and branches on two variables, with the moves on their ways.

ghost use Rattle.std.specs.Prelude.{◌≡◌, ◌<◌, ◌^◌, ◌++◌, OnOk};
ghost use Rattle.ia32_rows.specs.Rows.{branching, jumping, loop_label, moves_into};
ghost use Rattle.ia32_select.specs.Sites.{HasPoint, before_at, flow_of, placement_of};

use crate::site::{Site, before, loop_label, moves_into};
use ia32_emit::{emit_branch, emit_jump};
use ia32_insn::{Cond, Item};
use pcc_base::NoMemory;

/// From a point to a block.
pub fn jump(out: &mut Vec<Item>, site: &Site<'_>, point: u32, block: u32) -> Result<(), NoMemory>
    ensures { OnOk result (out.new.items ≡ out.old.items
        ++ jumping (moves_into (flow_of site.now) (placement_of site.now) point block) block) }
{
    emit_jump(out, moves_into(site, point, block), block)
}

/// From a point to one block where two variables compare so that the flags meet a condition, to the other where they
/// don't.
pub fn branch(
    out: &mut Vec<Item>,
    site: &Site<'_>,
    point: u32,
    condition: Cond,
    first: &u32,
    second: &u32,
    taken: u32,
    other: u32,
) -> Result<(), NoMemory>
    requires point { HasPoint site.now point }
    requires label { loop_label (flow_of site.now) point < 2 ^ 32 }
    ensures { OnOk result (out.new.items ≡ out.old.items
        ++ branching condition (loop_label (flow_of site.now) point) (before_at site.now point first.now)
        (before_at site.now point second.now)
        (moves_into (flow_of site.now) (placement_of site.now) point taken)
        (moves_into (flow_of site.now) (placement_of site.now) point other) taken other) }
{
    emit_branch(
        out,
        condition,
        loop_label(site, point),
        before(site, point, first),
        before(site, point, second),
        moves_into(site, point, taken),
        moves_into(site, point, other),
        taken,
        other,
    )
}
