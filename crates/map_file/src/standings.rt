//! Where variables may stand before and after a point.

ghost use Rattle.std.specs.Prelude.{◌<◌, ℕ, All, map};
ghost use Rattle.std.specs.Bool.{Decides};
ghost use Rattle.ia32_insn.specs.Places.{IsPlace};
ghost use Rattle.flow_graph.specs.Lives.{IsAscending};
ghost use Rattle.map_text.specs.Entries.{cells_place, place_of, standing_of, standings_of};
ghost use Rattle.map_text.specs.Maps.{AreStandings, IsStanding, TakesWidth};
ghost use Rattle.map_file.specs.Views.{function_of};

use crate::file::MapFunction;
use crate::needs::width;
use pcc_base::Width;
use puzzle_board::{Columns, Place};

/// Whether columns of an area that there is are as wide as a variable.
fn are_as_wide(columns: Columns, width: Width) -> bool
    ensures { (area : ℕ) → area < 4
        → Decides result (TakesWidth width (cells_place area columns) × IsPlace (cells_place area columns)) }
{
    match (columns, width) {
        (Columns::All, Width::Two) => true,
        (Columns::Low | Columns::High, Width::One) => true,
        (Columns::All, Width::One) => false,
        (Columns::Low | Columns::High, Width::Two) => false,
    }
}

/// Whether a place is one that takes a variable of a width: in one of four areas, or a slot below EBP.
fn takes(width: Width, place: Place) -> bool
    ensures { Decides result (TakesWidth width (place_of place) × IsPlace (place_of place)) }
{
    match place {
        Place::Cells(spot) => spot.area < 4 && are_as_wide(spot.columns, width),
        Place::Slot(offset) => offset < 0,
    }
}

/// Whether a variable of the function stands in a place of its width.
fn is_standing(function: &MapFunction, entry: (u32, Place)) -> bool
    ensures { Decides result (IsStanding (function_of function.now).variables (standing_of entry)) }
{
    match width(function, entry.0) {
        Some(width) => takes(width, entry.1),
        None => false,
    }
}

/// Whether each of these variables of the function stands in a place of its width.
fn stand(function: &MapFunction, entries: &[(u32, Place)]) -> bool
    ensures { Decides result (All (IsStanding (function_of function.now).variables) (standings_of entries.now)) }
{
    entries.iter().all(|entry| is_standing(function, *entry))
}

/// Whether each variable is greater than those before it.
fn ascend(entries: &[(u32, Place)]) -> bool
    ensures { Decides result (IsAscending (map (λ s. s.variable) (standings_of entries.now))) }
{
    let mut least: u64 = 0;
    for (variable, _) in entries {
        if (*variable as u64) < least {
            return false;
        }
        least = *variable as u64 + 1;
    }
    true
}

/// Whether variables of the function stand in places of their widths, in ascending order.
pub(crate) fn are_standings(function: &MapFunction, entries: &[(u32, Place)]) -> bool
    ensures { Decides result (AreStandings (function_of function.now).variables (standings_of entries.now)) }
{
    ascend(entries) && stand(function, entries)
}
