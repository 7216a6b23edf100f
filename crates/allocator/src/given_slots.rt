//! Slots of spilled variables.

ghost use Rattle.std.specs.Prelude.{◌≡◌, ◌<◌, ◌∷◌, [], length, OnOk};
ghost use Rattle.std.specs.List.{AllByRecursion};
ghost use Rattle.allocator.specs.Slots.{AreGiven, AreSlots, AreSpilled, slots_given};

use crate::slot_offsets::offset_of;
use pcc_base::NoMemory;
use puzzle_board::PointMap;

/// Gives a variable a slot, if it has none. So many were given.
fn give_slot(map: &mut PointMap, var: u32, given: &mut u32)
    requires var { var < length map.old.slots }
    requires few { length map.old.slots < 536870908 }
    requires slots { AreSlots map.old.slots }
    requires count { given.old ≡ slots_given map.old.slots }
    ensures rest { map.new ≡ record map.old { slots = map.new.slots } }
    ensures given { AreGiven (var ∷ []) map.old.slots map.new.slots }
    ensures count { given.new ≡ slots_given map.new.slots }
{
    if map.slot(var).is_none() {
        map.set_slot(var, offset_of(*given));
        *given += 1;
    }
}

/// Spills variables at a point: each has a slot then.
pub(crate) fn spill_all(
    map: &mut PointMap,
    point: u32,
    spilled: &[u32],
    given: &mut u32,
) -> Result<(), NoMemory>
    requires point { point < length map.old.before }
    requires within { AllByRecursion (λ v. v < length map.old.slots) spilled.now }
    requires few { length map.old.slots < 536870908 }
    requires slots { AreSlots map.old.slots }
    requires count { given.old ≡ slots_given map.old.slots }
    ensures spilled { OnOk result (AreSpilled point spilled.now map.old map.new) }
    ensures given { OnOk result (AreGiven spilled.now map.old.slots map.new.slots) }
    ensures count { OnOk result (given.new ≡ slots_given map.new.slots) }
{
    map.is_place_map();
    for i in 0..spilled.len() {
        give_slot(map, spilled[i], given);
        map.add_spilled(point, spilled[i])?;
    }
    Ok(())
}
