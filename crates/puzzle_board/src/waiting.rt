//! Unplaced pieces filed by kind and width, in step with what becomes of each piece.

ghost use Rattle.std.specs.Prelude.{◌≡◌, ◌<◌, ◌≤◌, ◌+◌, ◌++◌, ◌∷◌, [], IsTrue, List, false, length, map, slice_get};
ghost use Rattle.std.specs.Prelude.{slice_set, Some};
ghost use Rattle.index_lists.specs.Lists.{IsListed};
ghost use Rattle.puzzle_board.specs.declared.piece.Piece.{Piece};
ghost use Rattle.puzzle_board.specs.declared.piece.State.{State};
ghost use Rattle.puzzle_board.specs.declared.piece.State.TheVariants.{Removed, Unplaced};
ghost use Rattle.puzzle_board.specs.Boards.{is_unplaced, lifted, removed_in};
ghost use Rattle.puzzle_board.specs.Classes.{IsFiled};
ghost use Rattle.puzzle_board.specs.Stored.{IsAscending, IsSpan, piece_classes, place_of_piece};

use crate::filing::{file, unfile};
use crate::piece::{Kind, Piece, State};
use index_lists::IndexLists;
use pcc_base::{Steps, Width};
use std::sync::ledger::{Blank, Ledger};

/// The list of the unplaced pieces of a kind and a width.
pub(crate) fn list_of(kind: Kind, width: Width) -> u32
    ensures value { result ≡ place_of_piece kind width }
    ensures few { result < 6 }
{
    match (kind, width) {
        (Kind::X, Width::One) => 0,
        (Kind::X, Width::Two) => 1,
        (Kind::Y, Width::One) => 2,
        (Kind::Y, Width::Two) => 3,
        (Kind::Z, Width::One) => 4,
        (Kind::Z, Width::Two) => 5,
    }
}

/// Files a new piece.
pub(crate) fn file_piece<L: Ledger>(
    waiting: &mut IndexLists,
    piece: Piece,
    number: u32,
    blank: Blank,
)
    requires name { blank.name ≡ L.name }
    requires parts { blank.parts ≡ L.parts }
    requires one { L.parts ≡ 1 }
    requires lists { length waiting.old.lists ≡ 6 }
    requires number { number < waiting.old.nodes }
    requires in_none { ¬ IsListed waiting.old number }
    ensures filed { (pieces : List Piece) (states : List State) → number ≡ length pieces
        → length states ≡ length pieces → IsFiled waiting.old 6 (piece_classes pieces states)
        → IsFiled waiting.new 6 (piece_classes (pieces ++ piece ∷ []) (states ++ Unplaced ∷ [])) }
    ensures nodes { waiting.new.nodes ≡ waiting.old.nodes }
{
    file(
        waiting,
        list_of(piece.kind, piece.width),
        number,
        &mut Steps::<L>::new(blank),
    );
}

/// Says what becomes of an unplaced piece, which doesn't wait any more.
pub(crate) fn settle<L: Ledger>(
    states: &mut [State],
    waiting: &mut IndexLists,
    number: u32,
    state: State,
    steps: &mut Steps<L>,
)
    requires within { number < length states.old }
    requires settled { is_unplaced state ≡ false }
    requires listed { IsListed waiting.old number }
    ensures states { states.new ≡ slice_set states.old number state }
    ensures filed { (pieces : List Piece) (p : Piece) → slice_get pieces number ≡ Some p
        → IsFiled waiting.old 6 (piece_classes pieces states.old)
        → IsFiled waiting.new 6 (piece_classes pieces states.new) }
    ensures steps { steps.new ≡ steps.old + 1 }
    ensures nodes { waiting.new.nodes ≡ waiting.old.nodes }
{
    unfile(waiting, number, steps);
    states[number as usize] = state;
}

/// Removes a piece.
fn remove_piece<L: Ledger>(
    states: &mut [State],
    waiting: &mut IndexLists,
    number: u32,
    steps: &mut Steps<L>,
)
    requires within { number < length states.old }
    requires listed { slice_get states.old number ≡ Some Unplaced → IsListed waiting.old number }
    ensures states { states.new ≡ slice_set states.old number Removed }
    ensures filed { (pieces : List Piece) (p : Piece) → slice_get pieces number ≡ Some p
        → IsFiled waiting.old 6 (piece_classes pieces states.old)
        → IsFiled waiting.new 6 (piece_classes pieces states.new) }
    ensures nodes { waiting.new.nodes ≡ waiting.old.nodes }
{
    match states[number as usize] {
        State::Unplaced => settle(states, waiting, number, State::Removed, steps),
        State::At(_) | State::Removed => states[number as usize] = State::Removed,
    }
}

/// Removes the variable's pieces, all of which are in the span.
pub(crate) fn remove_pieces<L: Ledger>(
    pieces: &[Piece],
    states: &mut [State],
    waiting: &mut IndexLists,
    var: u32,
    span: (usize, usize),
    blank: Blank,
)
    requires name { blank.name ≡ L.name }
    requires parts { blank.parts ≡ L.parts }
    requires one { L.parts ≡ 1 }
    requires same { length states.old ≡ length pieces.now }
    requires few { length pieces.now ≤ 4294967295 }
    requires span { IsSpan pieces.now var span.0 span.1 }
    requires filed { IsFiled waiting.old 6 (piece_classes pieces.now states.old) }
    ensures states { states.new ≡ removed_in pieces.now states.old var }
    ensures filed { IsFiled waiting.new 6 (piece_classes pieces.now states.new) }
    ensures nodes { waiting.new.nodes ≡ waiting.old.nodes }
{
    let mut steps = Steps::<L>::new(blank);
    let (from, to) = span;
    for i in from..to {
        if pieces[i].var == var {
            remove_piece(states, waiting, i as u32, &mut steps);
        }
    }
}

/// Makes a piece unplaced that isn't removed.
fn lift_piece<L: Ledger>(
    piece: Piece,
    states: &mut [State],
    waiting: &mut IndexLists,
    number: u32,
    steps: &mut Steps<L>,
)
    requires within { number < length states.old }
    requires lists { length waiting.old.lists ≡ 6 }
    requires node { number < waiting.old.nodes }
    requires in_none { (slice_get states.old number ≡ Some Unplaced → ⊥) → ¬ IsListed waiting.old number }
    ensures states { (s : State) → slice_get states.old number ≡ Some s
        → states.new ≡ slice_set states.old number (lifted s) }
    ensures filed { (pieces : List Piece) → slice_get pieces number ≡ Some piece
        → IsFiled waiting.old 6 (piece_classes pieces states.old)
        → IsFiled waiting.new 6 (piece_classes pieces states.new) }
    ensures nodes { waiting.new.nodes ≡ waiting.old.nodes }
{
    match states[number as usize] {
        State::At(_) => {
            states[number as usize] = State::Unplaced;
            file(waiting, list_of(piece.kind, piece.width), number, steps);
        }
        State::Unplaced | State::Removed => {}
    }
}

/// Makes every piece unplaced that isn't removed.
pub(crate) fn lift_pieces<L: Ledger>(
    pieces: &[Piece],
    states: &mut [State],
    waiting: &mut IndexLists,
    blank: Blank,
)
    requires name { blank.name ≡ L.name }
    requires parts { blank.parts ≡ L.parts }
    requires one { L.parts ≡ 1 }
    requires same { length states.old ≡ length pieces.now }
    requires few { length pieces.now ≤ 4294967295 }
    requires filed { IsFiled waiting.old 6 (piece_classes pieces.now states.old) }
    ensures states { states.new ≡ map lifted states.old }
    ensures filed { IsFiled waiting.new 6 (piece_classes pieces.now states.new) }
    ensures nodes { waiting.new.nodes ≡ waiting.old.nodes }
{
    let mut steps = Steps::<L>::new(blank);
    for i in 0..pieces.len() {
        lift_piece(pieces[i], states, waiting, i as u32, &mut steps);
    }
}

/// Whether the variables still never fall with this piece last.
pub(crate) fn stays_ascending(pieces: &[Piece], ascending: bool, piece: Piece) -> bool
    requires { IsTrue ascending → IsAscending pieces.now }
    ensures { IsTrue result → IsAscending (pieces.now ++ piece ∷ []) }
{
    if pieces.is_empty() {
        return true;
    }
    if !ascending {
        return false;
    }
    pieces[pieces.len() - 1].var <= piece.var
}

/// The span of a variable's pieces: where variables ascend, by binary search.
pub(crate) fn span_of(pieces: &[Piece], ascending: bool, var: u32) -> (usize, usize)
    requires { IsTrue ascending → IsAscending pieces.now }
    ensures { IsSpan pieces.now var result.0 result.1 }
{
    if !ascending {
        return (0, pieces.len());
    }
    let from = pieces.partition_point(|piece| piece.var < var);
    let to = pieces.partition_point(|piece| piece.var <= var);
    (from, to)
}
