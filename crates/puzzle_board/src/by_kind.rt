//! Areas filed by kind, in step with the cells that are free.

ghost use Rattle.std.specs.Prelude.{◌≡◌, ◌<◌, ◌≤◌, ◌+◌, length, slice_set};
ghost use Rattle.index_lists.specs.Lists.{empty_lists};
ghost use Rattle.puzzle_board.specs.Classes.{IsFiled};
ghost use Rattle.puzzle_board.specs.Stored.{area_classes};

use crate::area::Area;
use crate::filing::{file, unfile};
use index_lists::IndexLists;
use pcc_base::Steps;
use std::sync::ledger::{Blank, Ledger};

/// Files the areas of a new board.
pub(crate) fn file_areas<L: Ledger>(by_kind: &mut IndexLists, areas: &[Area], blank: Blank)
    requires name { blank.name ≡ L.name }
    requires parts { blank.parts ≡ L.parts }
    requires one { L.parts ≡ 1 }
    requires empty { by_kind.old ≡ empty_lists (length areas.now) 10 }
    requires few { length areas.now ≤ 4294967295 }
    ensures { IsFiled by_kind.new 10 (area_classes areas.now) }
{
    let mut steps = Steps::<L>::new(blank);
    for i in 0..areas.len() {
        file(by_kind, areas[i].kind().list(), i as u32, &mut steps);
    }
}

/// Makes other cells of an area free, and files it under its new kind.
pub(crate) fn set_area<L: Ledger>(
    free: &mut [Area],
    by_kind: &mut IndexLists,
    number: u32,
    area: Area,
    steps: &mut Steps<L>,
)
    requires within { number < length free.old }
    requires filed { IsFiled by_kind.old 10 (area_classes free.old) }
    ensures free { free.new ≡ slice_set free.old number area }
    ensures filed { IsFiled by_kind.new 10 (area_classes free.new) }
    ensures steps { steps.new ≡ steps.old + 2 }
{
    unfile(by_kind, number, steps);
    free[number as usize] = area;
    file(by_kind, area.kind().list(), number, steps);
}

/// Makes all given cells free again.
pub(crate) fn free_areas<L: Ledger>(
    free: &mut [Area],
    areas: &[Area],
    by_kind: &mut IndexLists,
    blank: Blank,
)
    requires name { blank.name ≡ L.name }
    requires parts { blank.parts ≡ L.parts }
    requires one { L.parts ≡ 1 }
    requires same { length free.old ≡ length areas.now }
    requires few { length areas.now ≤ 4294967295 }
    requires filed { IsFiled by_kind.old 10 (area_classes free.old) }
    ensures free { free.new ≡ areas.now }
    ensures filed { IsFiled by_kind.new 10 (area_classes free.new) }
{
    let mut steps = Steps::<L>::new(blank);
    for i in 0..areas.len() {
        set_area(free, by_kind, i as u32, areas[i], &mut steps);
    }
}
