//! What a call counts, and the rows of returns: the last items of a function.

ghost use Rattle.std.specs.Prelude.{◌≡◌, ◌++◌, OnOk};
ghost use Rattle.ia32_rows.specs.Rows.{deepen, undeepen, leave, return_row};
ghost use Rattle.ia32_emit.specs.Locations.{place_of};

use crate::instructions::emit_all;
use crate::locations::{Location, at_offset, at_register};
use crate::moves::emit_read;
use ia32_insn::{AluOp, Cond, Insn, Item, Reg32, Rm32};
use pcc_base::NoMemory;

/// The caller's registers as they were, and to the return address.
pub fn emit_leave(out: &mut Vec<Item>) -> Result<(), NoMemory>
    ensures { OnOk result (out.new.items ≡ out.old.items ++ leave) }
{
    emit_all(
        out,
        &[
            Item::Plain(Insn::MovLoad(Reg32::Ebx, at_offset(-4))),
            Item::Plain(Insn::MovLoad(Reg32::Esi, at_offset(-8))),
            Item::Plain(Insn::MovLoad(Reg32::Edi, at_offset(-12))),
            Item::Plain(Insn::Leave),
            Item::Plain(Insn::Ret),
        ],
    )
}

/// Returns with a word.
pub fn emit_return(out: &mut Vec<Item>, from: Location) -> Result<(), NoMemory>
    ensures { OnOk result (out.new.items ≡ out.old.items ++ return_row (place_of from)) }
{
    emit_read(out, Reg32::Eax, from)?;
    emit_leave(out)
}

/// One call more is active, unless 4,096 are.
pub(crate) fn emit_deepen(out: &mut Vec<Item>) -> Result<(), NoMemory>
    ensures { OnOk result (out.new.items ≡ out.old.items ++ deepen) }
{
    let depth = Rm32::Mem(at_register(Reg32::Esi));
    emit_all(
        out,
        &[
            Item::AddressOf(Reg32::Esi, 0xffff_ffff),
            Item::Plain(Insn::AluImm(AluOp::Cmp, depth, 4096)),
            Item::JumpTrap(Some(Cond::Ae)),
            Item::Plain(Insn::AluImm(AluOp::Add, depth, 1)),
        ],
    )
}

/// One call less is active.
pub(crate) fn emit_undeepen(out: &mut Vec<Item>) -> Result<(), NoMemory>
    ensures { OnOk result (out.new.items ≡ out.old.items ++ undeepen) }
{
    let depth = Rm32::Mem(at_register(Reg32::Esi));
    emit_all(
        out,
        &[
            Item::AddressOf(Reg32::Esi, 0xffff_ffff),
            Item::Plain(Insn::AluImm(AluOp::Sub, depth, 1)),
        ],
    )
}
