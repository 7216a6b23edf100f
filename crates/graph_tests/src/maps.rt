//! A map of points after a row of calls.

ghost use Rattle.std.specs.Prelude.{◌≡◌, length};

use crate::expected::expect;
use puzzle_board::{Columns, Place, PointMap, Spot};
use std::alloc::Global;
use std::process::Abort;

/// A place in a column.
const CELLS: Place = Place::Cells(Spot {
    area: 2,
    columns: Columns::Low,
});

/// Three points and two variables: variable 1 in a slot, variable 0 in a column, and both elsewhere after the point.
fn filled(rt: &impl Abort, alloc: Global) -> PointMap
    ensures points { length result.before ≡ 3 }
    ensures variables { length result.slots ≡ 2 }
{
    let mut map = PointMap::new(alloc, 3, 2, 16).expect(rt, "a map");
    map.set_before(1, 1, Place::Slot(-20)).expect(rt, "a place");
    map.set_before(1, 0, CELLS).expect(rt, "a place");
    map.set_after(1, 0, Place::Slot(-24)).expect(rt, "a place");
    map.set_after(1, 0, CELLS).expect(rt, "a place");
    map.add_spilled(1, 1).expect(rt, "a variable");
    map.set_slot(1, -20);
    map.set_frame(20);
    map
}

/// What was set is read, and nothing else.
#[test]
fn map_of_points(rt: HostRuntime) {
    let map = filled(&rt, rt.alloc());
    let before = [map.before(1, 0), map.before(1, 1), map.before(0, 1)];
    let slot = Some(Place::Slot(-20));
    expect(&rt, &before, &[Some(CELLS), slot, None], "before");
    let after = [map.after(1, 0), map.after(1, 1)];
    expect(&rt, &after, &[Some(CELLS), None], "after");
    let others = (map.spilled(1), map.slot(1), map.slot(0), map.frame());
    let spilled: &[u32] = &[1];
    expect(
        &rt,
        &others,
        &(spilled, Some(-20), None, 20),
        "spilled, slots and frame",
    );
}
