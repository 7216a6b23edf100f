//! A table of the instructions between points.

ghost use Rattle.std.specs.Prelude.{◌≡◌, ◌<◌, ◌++◌, length, slice_get, slice_range, slice_set, Some, IfOk, MatchResult, OnOk};
ghost use Rattle.ia32_select.specs.MoveTables.{AreWithin, IsWithin, between_in, is_to, on_way, ways_in};

use crate::stretch::Stretch;
use ia32_insn::Insn;
use pcc_base::NoMemory;
use std::alloc::Global;
use std::marker::Model;

/// For each point two points that may follow it, each with the instructions on the way there. A contract sees a list of
/// `Ways`.
#[derive(Drop)]
pub struct MoveTable {
    insns: Vec<Insn>,
    ways: Vec<(Stretch, Stretch)>,
}

impl Model for MoveTable {
    ghost use Rattle.std.specs.Prelude.{List, map};
    ghost use Rattle.std.specs.List.{AllByRecursion};
    ghost use Rattle.ia32_select.specs.MoveTables.{AreWithin, Ways, ways_in};

    ghost Value = { List Ways };

    ghost view = { λ t. map (ways_in t.insns.items) t.ways.items };

    ghost invariant = { λ t. AllByRecursion (AreWithin t.insns.items) t.ways.items };
}

/// No way.
const NOWHERE: Stretch = Stretch {
    to: None,
    start: 0,
    end: 0,
};

/// Puts instructions last, as a stretch of all.
fn add_stretch(insns: &mut Vec<Insn>, to: Option<u32>, more: &[Insn]) -> Result<Stretch, NoMemory>
    ensures { MatchResult result
        (λ stretch. (insns.new.items ≡ insns.old.items ++ more.now) × (stretch.to ≡ to)
        × (stretch.start ≡ length insns.old.items) × (stretch.end ≡ length insns.new.items))
        (λ _. insns.new.items ≡ insns.old.items) }
{
    let start = insns.len();
    insns.extend_from_slice(more)?;
    let end = insns.len();
    Ok(Stretch { to, start, end })
}

/// The instructions of a stretch.
fn part(insns: &[Insn], stretch: Stretch) -> &[Insn]
    requires { IsWithin insns.now stretch }
    ensures { result.now ≡ slice_range insns.now stretch.start stretch.end }
{
    &insns[stretch.start..stretch.end]
}

/// Whether that is the point.
fn is_to(to: Option<u32>, next: u32) -> bool
    ensures { result ≡ is_to to next }
{
    match to {
        Some(point) => point == next,
        None => false,
    }
}

/// The instructions of the first of two ways that leads to a point.
fn on_way(insns: &[Insn], ways: (Stretch, Stretch), next: u32) -> &[Insn]
    requires { AreWithin insns.now ways }
    ensures { result.now ≡ on_way (Some (ways_in insns.now ways)) next }
{
    let (first, second) = ways;
    if is_to(first.to, next) {
        part(insns, first)
    } else if is_to(second.to, next) {
        part(insns, second)
    } else {
        &[]
    }
}

/// The ways of a point, if it is there.
fn ways_at(ways: &[(Stretch, Stretch)], point: u32) -> Option<(Stretch, Stretch)>
    ensures { result ≡ slice_get ways.now point }
{
    ways.get(point as usize).copied()
}

impl MoveTable {
    /// A table of so many points, with nothing between them.
    pub fn new(alloc: Global, points: u32) -> Result<MoveTable, NoMemory>
        ensures { IfOk result (λ table. length table ≡ points) }
    {
        let mut ways = Vec::new(alloc);
        ways.resize(points as usize, (NOWHERE, NOWHERE))?;
        Ok(MoveTable {
            insns: Vec::new(alloc),
            ways,
        })
    }

    /// From a point these instructions lead to one point, and those to another.
    pub fn set(
        &mut self,
        point: u32,
        first: Option<u32>,
        to_first: &[Insn],
        second: Option<u32>,
        to_second: &[Insn],
    ) -> Result<(), NoMemory>
        requires { point < length self.old }
        ensures { OnOk result
            (self.new ≡ slice_set self.old point ((first, to_first.now), (second, to_second.now))) }
    {
        let one = add_stretch(&mut self.insns, first, to_first)?;
        let two = add_stretch(&mut self.insns, second, to_second)?;
        self.ways[point as usize] = (one, two);
        Ok(())
    }

    /// The instructions between two points; none where the one doesn't lead to the other.
    pub fn between(&self, point: u32, next: u32) -> &[Insn]
        ensures { result.now ≡ between_in self.now point next }
    {
        match ways_at(self.ways.as_slice(), point) {
            Some(ways) => on_way(self.insns.as_slice(), ways, next),
            None => &[],
        }
    }
}
