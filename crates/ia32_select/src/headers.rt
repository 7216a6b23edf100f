//! The numbers of elements before frame arrays, over a map.

ghost use Rattle.std.specs.Prelude.{◌≡◌, ◌<◌, ◌≤◌, ◌^◌, ◌+◌, ◌-◌, ◌++◌, ◌∷◌, [], OnOk, pos};
ghost use Rattle.ia32_insn.specs.Items.{plain};
ghost use Rattle.ia32_insn.specs.declared.insn.Insn.TheVariants as insn;
ghost use Rattle.ia32_insn.specs.declared.operand.Rm32.TheVariants as rm;
ghost use Rattle.ia32_rows.specs.Placements.{below};
ghost use Rattle.ia32_rows.specs.Rows.{headers};
ghost use Rattle.ia32_laws.specs.Supports.{AreArraysIn};
ghost use Rattle.ia32_emit.specs.Locations.{distance};
ghost use Rattle.ia32_select.specs.Sites.{flow_of, placement_of};

use crate::site::{Site, array_at, array_of};
use ia32_emit::{at_offset, emit};
use ia32_insn::{Insn, Item, Rm32};
use pcc_base::NoMemory;

/// The number of an array's elements into the four bytes before them.
fn emit_header(out: &mut Vec<Item>, offset: i32, count: u32) -> Result<(), NoMemory>
    requires near { distance offset < 2 ^ 31 - 4 }
    requires few { count < 2 ^ 31 }
    ensures { OnOk result (out.new.items
        ≡ out.old.items ++ plain (insn.MovImm (rm.Mem (below (distance offset + 4))) (pos count)) ∷ []) }
{
    let header = if offset < 0 { offset - 4 } else { -4 };
    emit(
        out,
        Insn::MovImm(Rm32::Mem(at_offset(header)), count as i32),
    )
}

/// The number of each array's elements into the four bytes before them.
pub(crate) fn emit_headers(out: &mut Vec<Item>, site: &Site<'_>) -> Result<(), NoMemory>
    requires inside { AreArraysIn (flow_of site.now).arrays (placement_of site.now).frame
        (placement_of site.now).arrays }
    requires small { (placement_of site.now).frame ≤ 16384 }
    ensures { OnOk result (out.new.items
        ≡ out.old.items ++ headers (flow_of site.now).arrays (placement_of site.now).arrays) }
{
    site.graph.is_flow();
    for array in 0..site.graph.arrays() {
        let (_, count) = array_of(site, array);
        emit_header(out, array_at(site, array), count)?;
    }
    Ok(())
}
