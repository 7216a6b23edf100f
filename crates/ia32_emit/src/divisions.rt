//! What stands before a division, and where its divisor is then.

ghost use Rattle.std.specs.Prelude.{◌≡◌, ◌==◌, ◌||◌, ◌++◌, OnOk};
ghost use Rattle.ia32_insn.specs.Registers.{number32};
ghost use Rattle.ia32_insn.specs.declared.register_names.Reg32.TheVariants.{Eax, Edx};
ghost use Rattle.ia32_rows.specs.Rows.{clear_divisor, divisor_of, before_division};
ghost use Rattle.ia32_emit.specs.Locations.{place_of};
ghost use Rattle.ia32_emit.specs.declared.locations.Location.TheVariants as location;

use crate::instructions::emit;
use crate::locations::{Location, at_offset, is_same};
use crate::moves::emit_read;
use ia32_insn::{Insn, Item, Reg32, Rm32};
use pcc_base::NoMemory;

/// Whether the register is one that a division takes: EAX or EDX.
fn is_taken(register: Reg32) -> bool
    ensures { result ≡ (number32 register == number32 Eax || number32 register == number32 Edx) }
{
    is_same(register, Reg32::Eax) || is_same(register, Reg32::Edx)
}

/// A divisor's register to ESI, where a division takes it.
fn emit_clear_register(out: &mut Vec<Item>, divisor: Reg32) -> Result<(), NoMemory>
    ensures { OnOk result (out.new.items ≡ out.old.items ++ clear_divisor (place_of (location.Word divisor))) }
{
    if is_taken(divisor) {
        emit_read(out, Reg32::Esi, Location::Word(divisor))
    } else {
        Ok(())
    }
}

/// The divisor's word to ESI, where a division takes its register.
fn emit_clear_divisor(out: &mut Vec<Item>, divisor: Location) -> Result<(), NoMemory>
    ensures { OnOk result (out.new.items ≡ out.old.items ++ clear_divisor (place_of divisor)) }
{
    match divisor {
        Location::Word(r) => emit_clear_register(out, r),
        Location::Byte(r) => emit_read(out, Reg32::Esi, Location::Byte(r)),
        Location::Slot(_) => Ok(()),
    }
}

/// Where the divisor is then.
pub fn divisor_of(divisor: Location) -> Rm32
    ensures { result ≡ divisor_of (place_of divisor) }
{
    match divisor {
        Location::Word(r) => {
            if is_taken(r) {
                Rm32::Reg(Reg32::Esi)
            } else {
                Rm32::Reg(r)
            }
        }
        Location::Byte(_) => Rm32::Reg(Reg32::Esi),
        Location::Slot(offset) => Rm32::Mem(at_offset(offset)),
    }
}

/// What stands before a division: the divisor out of the way, the first operand to EAX, and the upper word of the
/// dividend to EDX, by an instruction.
pub(crate) fn emit_before_division(
    out: &mut Vec<Item>,
    upper: Insn,
    first: Location,
    second: Location,
) -> Result<(), NoMemory>
    ensures { OnOk result (out.new.items
        ≡ out.old.items ++ before_division upper (place_of first) (place_of second)) }
{
    emit_clear_divisor(out, second)?;
    emit_read(out, Reg32::Eax, first)?;
    emit(out, upper)
}
