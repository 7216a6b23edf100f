//! Index lists after a row of calls: which nodes stand in which list, by hand.

ghost use Rattle.std.specs.Prelude.{◌≡◌, ◌+◌, [], ◌∷◌, length, IfOk, OnOk};
ghost use Rattle.index_lists.specs.Lists.{nodes_of};

use crate::expected::expect;
use index_lists::IndexLists;
use pcc_base::{NoMemory, Steps};
use std::alloc::Global;
use std::marker::Brand;
use std::process::Abort;
use std::sync::ledger::{Blank, Ledger};

/// Four nodes and two lists; two nodes at the end of a list, one between these, the last out again, and two more nodes.
fn edited<L: Ledger>(alloc: Global, steps: &mut Steps<L>) -> Result<IndexLists, NoMemory>
    ensures first { IfOk result (λ lists. nodes_of lists 0 ≡ 2 ∷ 3 ∷ []) }
    ensures second { IfOk result (λ lists. nodes_of lists 1 ≡ []) }
    ensures nodes { IfOk result (λ lists. lists.nodes ≡ 6) }
    ensures lists { IfOk result (λ lists. length lists.lists ≡ 2) }
    ensures steps { OnOk result (steps.new ≡ steps.old + 4) }
{
    let mut lists = IndexLists::new(alloc, 4, 2)?;
    lists.push_back(0, 2, steps);
    lists.push_back(0, 0, steps);
    lists.push_after(2, 3, steps);
    lists.unlink(0, steps);
    lists.grow(6)?;
    Ok(lists)
}

/// What stands in each list after the row.
fn expect_row<L: Ledger>(rt: &impl Abort, alloc: Global, blank: Blank)
    requires name { blank.name ≡ L.name }
    requires parts { blank.parts ≡ L.parts }
    requires one { L.parts ≡ 1 }
{
    let mut steps = Steps::<L>::new(blank);
    let lists = edited(alloc, &mut steps).expect(rt, "lists");
    let first = lists.nodes_in(alloc, 0, &mut steps).expect(rt, "nodes");
    let second = lists.nodes_in(alloc, 1, &mut steps).expect(rt, "nodes");
    let wanted: (&[u32], &[u32]) = (&[2, 3], &[]);
    expect(
        rt,
        &(first.as_slice(), second.as_slice()),
        &wanted,
        "the lists",
    );
}

#[test]
fn index_lists(rt: HostRuntime) {
    expect_row::<Brand>(&rt, rt.alloc(), Blank::new(1));
}
