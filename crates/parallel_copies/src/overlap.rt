//! Which places have a byte in common (Intel manual, volume 1, section 3.4.1).

ghost use Rattle.std.specs.Prelude.{◌≡◌, ◌≤◌, ◌^◌};
ghost use Rattle.ia32_insn.specs.Registers.{number32, number8};
ghost use Rattle.ia32_emit.specs.Locations.{distance, place_of};
ghost use Rattle.parallel_copies.specs.Overlap.{is_general, is_same, overlap, slots_overlap};

use ia32_emit::Location;
use ia32_insn::{Reg8, Reg32};

/// The number of a register, below 8.
fn number_of(r: Reg32) -> u32
    ensures { result ≡ number32 r }
{
    r as u32
}

/// The number of a byte register, below 8.
fn number_of_byte(r: Reg8) -> u32
    ensures { result ≡ number8 r }
{
    r as u32
}

/// How many bytes below EBP an offset is; 0 for one that isn't below.
pub fn distance_of(offset: i32) -> u32
    ensures value { result ≡ distance offset }
    ensures below { result ≤ 2 ^ 31 }
{
    if offset < 0 { offset.unsigned_abs() } else { 0 }
}

/// Whether two slots of four bytes each have a byte in common.
pub(crate) fn slots_overlap(first: i32, second: i32) -> bool
    ensures { result ≡ slots_overlap (distance first) (distance second) }
{
    let (first, second) = (distance_of(first), distance_of(second));
    first < second + 4 && second < first + 4
}

/// Whether two places have a byte in common.
pub fn overlap(first: Location, second: Location) -> bool
    ensures { result ≡ overlap (place_of first) (place_of second) }
{
    match (first, second) {
        (Location::Word(r), Location::Word(q)) => number_of(r) == number_of(q),
        (Location::Word(r), Location::Byte(q)) => number_of_byte(q) % 4 == number_of(r),
        (Location::Byte(r), Location::Word(q)) => number_of_byte(r) % 4 == number_of(q),
        (Location::Byte(r), Location::Byte(q)) => number_of_byte(r) == number_of_byte(q),
        (Location::Slot(k), Location::Slot(j)) => slots_overlap(k, j),
        (Location::Word(_) | Location::Byte(_), Location::Slot(_)) => false,
        (Location::Slot(_), Location::Word(_) | Location::Byte(_)) => false,
    }
}

/// Whether two places are one register, or one byte of a register.
pub fn is_same(first: Location, second: Location) -> bool
    ensures { result ≡ is_same (place_of first) (place_of second) }
{
    match (first, second) {
        (Location::Word(r), Location::Word(q)) => number_of(r) == number_of(q),
        (Location::Byte(r), Location::Byte(q)) => number_of_byte(r) == number_of_byte(q),
        (Location::Word(_), Location::Byte(_) | Location::Slot(_)) => false,
        (Location::Byte(_), Location::Word(_) | Location::Slot(_)) => false,
        (Location::Slot(_), _) => false,
    }
}

/// Whether a place is the word of a register for variables.
pub(crate) fn is_general(place: Location) -> bool
    ensures { result ≡ is_general (place_of place) }
{
    matches!(
        place,
        Location::Word(Reg32::Eax | Reg32::Ecx | Reg32::Edx | Reg32::Ebx)
    )
}
