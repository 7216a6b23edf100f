//! The variables of a point that may be spilled.

ghost use Rattle.std.specs.Prelude.{◌<◌, ◌+◌, IfOk, OnOk, length, take};
ghost use Rattle.allocator.specs.Order.{AreInOrder};
ghost use Rattle.allocator.specs.Spills.{AreListed, IsNewAt};

use flow_liveness::Distances;
use pcc_base::NoMemory;
use puzzle_board::Piece;
use puzzle_solver::Candidate;
use std::alloc::Global;

/// Whether the piece is of another variable than the one before it.
fn is_new(pieces: &[Piece], place: usize) -> bool
    requires { place < length pieces.now }
    ensures { IsNewAt pieces.now place result }
{
    if place == 0 {
        return true;
    }
    pieces[place - 1].var != pieces[place].var
}

/// Puts the variable of a piece last, if it is another than the one before it.
fn push_new(
    candidates: &mut Vec<Candidate>,
    distances: &Distances,
    point: u32,
    pieces: &[Piece],
    place: usize,
) -> Result<(), NoMemory>
    requires within { place < length pieces.now }
    requires order { AreInOrder pieces.now }
    requires listed { AreListed distances.now point (take place pieces.now) candidates.old.items }
    ensures { OnOk result (AreListed distances.now point (take (place + 1) pieces.now) candidates.new.items) }
{
    if is_new(pieces, place) {
        let variable = pieces[place].var;
        let distance = distances.at(point, variable);
        candidates.push(Candidate { variable, distance })?;
    }
    Ok(())
}

/// The variables of pieces, each once, with their distances at a point.
pub(crate) fn candidates_of(
    alloc: Global,
    distances: &Distances,
    point: u32,
    pieces: &[Piece],
) -> Result<Vec<Candidate>, NoMemory>
    requires { AreInOrder pieces.now }
    ensures { IfOk result (λ candidates. AreListed distances.now point pieces.now candidates.items) }
{
    let mut candidates = Vec::new(alloc);
    for i in 0..pieces.len() {
        push_new(&mut candidates, distances, point, pieces, i)?;
    }
    Ok(candidates)
}
