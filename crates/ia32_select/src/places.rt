//! Places of a map as the code has them.

ghost use Rattle.std.specs.Prelude.{◌≡◌, option_map, unwrap_or};
ghost use Rattle.ia32_insn.specs.Places.{InSlot};
ghost use Rattle.puzzle_board.specs.declared.piece.Columns.TheVariants.{All, High, Low};
ghost use Rattle.ia32_placements.specs.Standings.{register_at, standing_if_any, standing_of};
ghost use Rattle.ia32_emit.specs.Locations.{place_of};

use ia32_emit::Location;
use ia32_insn::{Reg8, Reg32};
use puzzle_board::{Columns, Place, Spot};

/// The register of an area, if it has one.
fn word_of(area: u32) -> Option<Location>
    ensures { option_map place_of result ≡ register_at area All }
{
    match area {
        0 => Some(Location::Word(Reg32::Eax)),
        1 => Some(Location::Word(Reg32::Ebx)),
        2 => Some(Location::Word(Reg32::Ecx)),
        3 => Some(Location::Word(Reg32::Edx)),
        _ => None,
    }
}

/// The lowest byte of that register.
fn low_byte_of(area: u32) -> Option<Location>
    ensures { option_map place_of result ≡ register_at area Low }
{
    match area {
        0 => Some(Location::Byte(Reg8::Al)),
        1 => Some(Location::Byte(Reg8::Bl)),
        2 => Some(Location::Byte(Reg8::Cl)),
        3 => Some(Location::Byte(Reg8::Dl)),
        _ => None,
    }
}

/// The second byte of that register.
fn high_byte_of(area: u32) -> Option<Location>
    ensures { option_map place_of result ≡ register_at area High }
{
    match area {
        0 => Some(Location::Byte(Reg8::Ah)),
        1 => Some(Location::Byte(Reg8::Bh)),
        2 => Some(Location::Byte(Reg8::Ch)),
        3 => Some(Location::Byte(Reg8::Dh)),
        _ => None,
    }
}

/// The register that columns of an area are, or the byte of it.
fn register_of(spot: Spot) -> Option<Location>
    ensures { option_map place_of result ≡ register_at spot.area spot.columns }
{
    match spot.columns {
        Columns::Low => low_byte_of(spot.area),
        Columns::High => high_byte_of(spot.area),
        Columns::All => word_of(spot.area),
    }
}

/// Where that place is: there are four areas, and slots are below EBP.
pub(crate) fn location_of(place: Place) -> Option<Location>
    ensures { option_map place_of result ≡ standing_of place }
{
    match place {
        Place::Cells(spot) => register_of(spot),
        Place::Slot(offset) => {
            if offset < 0 {
                Some(Location::Slot(offset))
            } else {
                None
            }
        }
    }
}

/// Where a place is, if there is one.
pub(crate) fn location_if_any(place: Option<Place>) -> Option<Location>
    ensures { option_map place_of result ≡ standing_if_any place }
{
    match place {
        Some(place) => location_of(place),
        None => None,
    }
}

/// Where a place is, or EBP where it is nowhere.
pub(crate) fn location_or_ebp(place: Option<Place>) -> Location
    ensures { place_of result ≡ unwrap_or (standing_if_any place) (InSlot 0) }
{
    match location_if_any(place) {
        Some(location) => location,
        None => Location::Slot(0),
    }
}
