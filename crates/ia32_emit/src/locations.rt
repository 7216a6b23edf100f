//! Where variables stand.

ghost use Rattle.std.specs.Prelude.{◌≡◌, ◌==◌, ◌&&◌, ◌%◌};
ghost use Rattle.ia32_insn.specs.Items.{near};
ghost use Rattle.ia32_insn.specs.Registers.{number32, number8};
ghost use Rattle.ia32_rows.specs.Placements.{below};
ghost use Rattle.ia32_rows.specs.Rows.{is_at, is_in, working, target_of, has_operand, low_byte};
ghost use Rattle.ia32_emit.specs.Locations.{distance, place_of};

use ia32_insn::{Mem, Reg8, Reg32};

/// Where a variable stands: in a register, in a byte of one, or in a slot at an offset from EBP, in bytes. An offset
/// that isn't below EBP counts as 0.
#[derive(Clone, Copy)]
pub enum Location {
    Word(Reg32),
    Byte(Reg8),
    Slot(i32),
}

/// The number of a register, below 8.
pub fn number_of(r: Reg32) -> u32
    ensures { result ≡ number32 r }
{
    r as u32
}

/// The number of a byte register, below 8.
pub fn number_of_byte(r: Reg8) -> u32
    ensures { result ≡ number8 r }
{
    r as u32
}

/// The memory at an offset from EBP.
pub fn at_offset(offset: i32) -> Mem
    ensures { result ≡ below (distance offset) }
{
    let disp = if offset < 0 { offset } else { 0 };
    Mem {
        base: Some(Reg32::Ebp),
        index: None,
        disp,
    }
}

/// The memory at the address in a register.
pub fn at_register(register: Reg32) -> Mem
    ensures { result ≡ near register 0 }
{
    Mem {
        base: Some(register),
        index: None,
        disp: 0,
    }
}

/// Whether two registers are one.
pub fn is_same(first: Reg32, second: Reg32) -> bool
    ensures { result ≡ (number32 first == number32 second) }
{
    number_of(first) == number_of(second)
}

/// Whether a location is the register, or a byte of it.
pub fn is_in(register: Reg32, location: Location) -> bool
    ensures { result ≡ is_in register (place_of location) }
{
    match location {
        Location::Word(r) => is_same(r, register),
        Location::Byte(r) => number_of_byte(r) % 4 == number_of(register),
        Location::Slot(_) => false,
    }
}

/// How far below EBP an offset is: 0 for one that isn't below.
fn distance_of(offset: i32) -> u32
    ensures { result ≡ distance offset }
{
    if offset < 0 { offset.unsigned_abs() } else { 0 }
}

/// Whether a location is the slot at an offset.
pub fn is_at(offset: i32, location: Location) -> bool
    ensures { result ≡ is_at (distance offset) (place_of location) }
{
    match location {
        Location::Slot(other) => distance_of(other) == distance_of(offset),
        Location::Word(_) | Location::Byte(_) => false,
    }
}

/// The register that an operation works in.
pub fn working(result_location: Location, first: Location, second: Location) -> Reg32
    ensures { result ≡ working (place_of result_location) (place_of first) (place_of second) }
{
    match result_location {
        Location::Word(r) => {
            if is_in(r, second) && !is_in(r, first) {
                Reg32::Esi
            } else {
                r
            }
        }
        Location::Byte(_) | Location::Slot(_) => Reg32::Esi,
    }
}

/// The register that a row of one operand works in.
pub fn target_of(result_location: Location) -> Reg32
    ensures { result ≡ target_of (place_of result_location) }
{
    match result_location {
        Location::Word(r) => r,
        Location::Byte(_) | Location::Slot(_) => Reg32::Esi,
    }
}

/// Whether the operand stands where the result will.
pub fn has_operand(result_location: Location, operand: Location) -> bool
    ensures { result ≡ has_operand (place_of result_location) (place_of operand) }
{
    match result_location {
        Location::Word(r) => is_in(r, operand),
        Location::Byte(_) => false,
        Location::Slot(offset) => is_at(offset, operand),
    }
}

/// The lowest byte of a register for variables; of another, AL.
pub fn low_byte(register: Reg32) -> Reg8
    ensures { result ≡ low_byte register }
{
    match register {
        Reg32::Ecx => Reg8::Cl,
        Reg32::Edx => Reg8::Dl,
        Reg32::Ebx => Reg8::Bl,
        Reg32::Eax | Reg32::Esp | Reg32::Ebp | Reg32::Esi | Reg32::Edi => Reg8::Al,
    }
}
