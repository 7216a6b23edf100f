//! Laws of the map of a program: each function's contract is one, and the function does nothing.

ghost use Rattle.map_lines.specs.MapLaws.{MapBelongs, MapBySameAddresses, MapKeepsRules};
ghost use Rattle.map_lines.specs.MapLaws.{MapListsLocals, MapShowsVisits};

use ia32_laws::{points_are_apart, points_stand};

/// The map of the program over homes of its variables belongs to the program and to its code: a NOP stands at the address
/// of each mark.
pub fn map_belongs()
    ensures { MapBelongs }
{
    points_are_apart();
}

/// Where the functions and their locals have names, it keeps the rules of a map.
pub fn map_keeps_rules()
    ensures { MapKeepsRules }
{
    points_stand();
}

/// What any map of a typed program lists are locals of the program.
pub fn map_lists_locals()
    ensures { MapListsLocals }
{}

/// The map is the same where the points have the same addresses.
pub fn map_by_same_addresses()
    ensures { MapBySameAddresses }
{}

/// At a mark a map of a typed program shows the statement and the values of the parts of locals that it lists, and
/// nothing elsewhere.
pub fn map_shows_visits()
    ensures { MapShowsVisits }
{}
