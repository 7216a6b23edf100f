//! Where variables stood: near there their next pieces are wanted, so that few have to be moved.

ghost use Rattle.std.specs.Prelude.{◌≡◌, ◌<◌, length};
ghost use Rattle.flow_graph.specs.Graphs.{IsPlaced};

use crate::elementary::Elementary;
use flow_graph::{Graph, Op};
use pcc_base::{NoMemory, Width};
use puzzle_board::{Columns, Kind, Piece, Place, PointMap, Spot};
use std::alloc::Global;

/// Where the variables of a graph stood at the points that were allocated. It is asked for hints alone: which spots a
/// point's board gives is proved whatever they are.
#[derive(Drop)]
pub(crate) struct Stood {
    /// The spot at which each variable stood last.
    last: Vec<Option<Spot>>,
    /// For each point the first one that was allocated of those that lead there.
    leads: Vec<Option<u32>>,
    /// The point that was allocated last.
    point: Option<u32>,
}

/// The operands whose register a result takes over without a copy, the one that is asked about first in front.
fn taken_over(op: &Op) -> (Option<u32>, Option<u32>) {
    match *op {
        Op::Add(_, a, b) | Op::Mul(_, a, b) => (Some(a), Some(b)),
        Op::And(_, a, b) | Op::Or(_, a, b) | Op::Xor(_, a, b) => (Some(a), Some(b)),
        Op::Load(_, _, array, index) => (Some(index), Some(array)),
        _ => (op.use_at(0), None),
    }
}

/// Whether a variable is used here for the last time, or written over.
fn ends(pieces: &[Piece], var: Option<u32>) -> bool {
    for i in 0..pieces.len() {
        if let Kind::X = pieces[i].kind {
            if Some(pieces[i].var) == var {
                return true;
            }
        }
    }
    false
}

/// The operand in whose place the result may stand.
fn operand_that_ends(op: &Op, pieces: &[Piece]) -> Option<u32> {
    let (first, other) = taken_over(op);
    if ends(pieces, first) {
        first
    } else if ends(pieces, other) {
        other
    } else {
        None
    }
}

/// The spot with the columns that a piece of this width takes.
fn of_width(spot: Spot, width: Width) -> Spot {
    let columns = match (width, spot.columns) {
        (Width::One, Columns::Low | Columns::All) => Columns::Low,
        (Width::One, Columns::High) => Columns::High,
        (Width::Two, _) => Columns::All,
    };
    Spot {
        area: spot.area,
        columns,
    }
}

impl Stood {
    /// At the beginning nothing stood anywhere.
    pub(crate) fn new(alloc: Global, graph: &Graph) -> Result<Stood, NoMemory> {
        let mut last = Vec::new(alloc);
        last.resize(graph.vars() as usize, None)?;
        let mut leads = Vec::new(alloc);
        leads.resize(graph.points() as usize, None)?;
        Ok(Stood {
            last,
            leads,
            point: None,
        })
    }

    /// Goes to a point that is allocated next. Where the point that leads there isn't the one that was allocated last,
    /// its variables stand where they stand behind that one.
    pub(crate) fn go_to(&mut self, form: &Elementary, map: &PointMap, point: u32)
        requires points { length map.now.before ≡ length form.now.graph.ops }
        requires placed { IsPlaced form.now.graph point }
    {
        form.is_form();
        form.graph().is_flow();
        if let Some(from) = self.leads.get(point as usize).copied().flatten() {
            if self.point != Some(from) && from < form.graph().points() {
                self.stand_behind(map, from, form.live().before(point));
            }
        }
        self.point = Some(point);
        self.lead_on(form.graph(), point);
    }

    /// These variables stand where they do behind a point.
    fn stand_behind(&mut self, map: &PointMap, point: u32, vars: &[u32])
        requires { point < length map.now.before }
    {
        for i in 0..vars.len() {
            if let Some(Place::Cells(spot)) = map.after(point, vars[i]) {
                self.stand(vars[i], spot);
            }
        }
    }

    /// A point leads to the next one of its block, or to the first ones of the blocks that its op names.
    fn lead_on(&mut self, graph: &Graph, point: u32)
        requires { IsPlaced graph.now point }
    {
        if let Some(next) = graph.next(point) {
            self.lead(Some(next), point);
        }
        match *graph.op(point) {
            Op::Jump(block) => self.lead(first_of(graph, block), point),
            Op::Branch(_, _, _, block, other) | Op::Branchu(_, _, _, block, other) => {
                self.lead(first_of(graph, block), point);
                self.lead(first_of(graph, other), point);
            }
            _ => {}
        }
    }

    /// A point leads to another, if none did before.
    fn lead(&mut self, to: Option<u32>, point: u32) {
        if let Some(to) = to {
            let to = to as usize;
            if to < self.leads.len() && self.leads[to].is_none() {
                self.leads[to] = Some(point);
            }
        }
    }

    /// A variable stands here.
    fn stand(&mut self, var: u32, spot: Spot) {
        if (var as usize) < self.last.len() {
            self.last[var as usize] = Some(spot);
        }
    }

    /// Where a variable stood last.
    fn spot(&self, var: u32) -> Option<Spot> {
        self.last.get(var as usize).copied().flatten()
    }

    /// Where a piece is wanted: one that is live before the op where its variable stood last, a result in the place of an
    /// operand that ends here, or else where it stood last itself.
    fn hint(&self, op: &Op, pieces: &[Piece], piece: Piece) -> Option<Spot> {
        let mut wanted = self.spot(piece.var);
        if let Kind::Z = piece.kind {
            if let Some(operand) = operand_that_ends(op, pieces) {
                wanted = self.spot(operand);
            }
        }
        match wanted {
            Some(spot) => Some(of_width(spot, piece.width)),
            None => None,
        }
    }

    /// Where the pieces of a point are wanted.
    pub(crate) fn hints(
        &self,
        alloc: Global,
        op: &Op,
        pieces: &[Piece],
    ) -> Result<Vec<Option<Spot>>, NoMemory> {
        let mut hints = Vec::new(alloc);
        for i in 0..pieces.len() {
            hints.push(self.hint(op, pieces, pieces[i]))?;
        }
        Ok(hints)
    }

    /// These pieces stand at these spots, and a fixed result in its register.
    pub(crate) fn remember(
        &mut self,
        pieces: &[Piece],
        spots: &[Option<Spot>],
        fixed: Option<(u32, Spot)>,
    ) {
        for i in 0..pieces.len().min(spots.len()) {
            if let Some(spot) = spots[i] {
                self.stand(pieces[i].var, spot);
            }
        }
        if let Some((var, spot)) = fixed {
            self.stand(var, spot);
        }
    }
}

/// The first point of a block, if there is one.
fn first_of(graph: &Graph, block: u32) -> Option<u32> {
    if block < graph.blocks() {
        graph.first(block)
    } else {
        None
    }
}
