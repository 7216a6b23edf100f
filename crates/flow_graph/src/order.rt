//! Calls on the lists of points, each on a counter of its own: how many steps they take is nobody's concern here.

ghost use Rattle.std.specs.Prelude.{ℕ, List, ◌≡◌, ◌<◌, [], ◌∷◌, ◌++◌, length, slice_get, IfOk};
ghost use Rattle.index_lists.specs.Lists.{IsListed, StandsIn, nodes_of, with_list};

use index_lists::IndexLists;
use pcc_base::{NoMemory, Steps};
use std::alloc::Global;
use std::sync::ledger::{Blank, Ledger};

/// Puts a new point last into a block.
pub fn push_back<L: Ledger>(order: &mut IndexLists, block: u32, point: u32, blank: Blank)
    requires name { blank.name ≡ L.name }
    requires parts { blank.parts ≡ L.parts }
    requires one { L.parts ≡ 1 }
    requires block { block < length order.old.lists }
    requires point { point < order.old.nodes }
    requires in_none { ¬ IsListed order.old point }
    ensures { order.new ≡ with_list order.old block (nodes_of order.old block ++ point ∷ []) }
{
    order.push_back(block, point, &mut Steps::<L>::new(blank));
}

/// Puts a new point right after another.
pub fn push_after<L: Ledger>(order: &mut IndexLists, point: u32, new: u32, blank: Blank)
    requires name { blank.name ≡ L.name }
    requires parts { blank.parts ≡ L.parts }
    requires one { L.parts ≡ 1 }
    requires at { IsListed order.old point }
    requires point { new < order.old.nodes }
    requires in_none { ¬ IsListed order.old new }
    ensures { (block : ℕ) (before after : List ℕ) → StandsIn order.old block before point after
        → order.new ≡ with_list order.old block (before ++ point ∷ new ∷ after) }
{
    order.push_after(point, new, &mut Steps::<L>::new(blank));
}

/// Takes a point out of its block.
pub fn unlink<L: Ledger>(order: &mut IndexLists, point: u32, blank: Blank)
    requires name { blank.name ≡ L.name }
    requires parts { blank.parts ≡ L.parts }
    requires one { L.parts ≡ 1 }
    requires at { IsListed order.old point }
    ensures { (block : ℕ) (before after : List ℕ) → StandsIn order.old block before point after
        → order.new ≡ with_list order.old block (before ++ after) }
{
    order.unlink(point, &mut Steps::<L>::new(blank));
}

/// The first point of a block, if it has any.
pub fn first<L: Ledger>(order: &IndexLists, block: u32, blank: Blank) -> Option<u32>
    requires name { blank.name ≡ L.name }
    requires parts { blank.parts ≡ L.parts }
    requires one { L.parts ≡ 1 }
    requires block { block < length order.now.lists }
    ensures { result ≡ slice_get (nodes_of order.now block) 0 }
{
    order.first(block, &mut Steps::<L>::new(blank))
}

/// The point right after a point of a block, if that isn't the last.
pub fn next<L: Ledger>(order: &IndexLists, point: u32, blank: Blank) -> Option<u32>
    requires name { blank.name ≡ L.name }
    requires parts { blank.parts ≡ L.parts }
    requires one { L.parts ≡ 1 }
    requires at { IsListed order.now point }
    ensures { (block : ℕ) (before after : List ℕ) → StandsIn order.now block before point after
        → result ≡ slice_get after 0 }
{
    order.next(point, &mut Steps::<L>::new(blank))
}

/// The points of a block, in order.
pub fn points_in<L: Ledger>(
    order: &IndexLists,
    alloc: Global,
    block: u32,
    blank: Blank,
) -> Result<Vec<u32>, NoMemory>
    requires name { blank.name ≡ L.name }
    requires parts { blank.parts ≡ L.parts }
    requires one { L.parts ≡ 1 }
    requires block { block < length order.now.lists }
    ensures { IfOk result (λ points. points.items ≡ nodes_of order.now block) }
{
    order.nodes_in(alloc, block, &mut Steps::<L>::new(blank))
}
