ghost use Rattle.std.specs.Prelude.{◌≡◌, ◌≢◌, ◌<◌, ◌≤◌, ◌+◌, length, slice_get, Some, MatchOption, MatchResult, ⊤};
ghost use Rattle.std.specs.Prelude.{[]};
ghost use Rattle.std.specs.List.{AllByRecursion};
ghost use Rattle.puzzle_board.specs.declared.piece.Piece.{Piece};
ghost use Rattle.puzzle_board.specs.Boards.{IsAreaOf, IsBoard, IsPlaceable, IsUnplaced, IsUnplacedOf, area_count, board_of};
ghost use Rattle.puzzle_board.specs.Boards.{free_areas, piece_count, spot_of, standing, with_none_placed};
ghost use Rattle.puzzle_board.specs.Boards.{with_piece, with_spot, without_variable};

use crate::area::{Area, AreaKind};
use crate::by_kind::{file_areas, free_areas, set_area};
use crate::piece::{Kind, Piece, Spot, State};
use crate::waiting::{
    file_piece, lift_pieces, list_of, remove_pieces, settle, span_of, stays_ascending,
};
use index_lists::IndexLists;
use pcc_base::{NoMemory, Steps, Width};
use std::alloc::Global;
use std::marker::{Brand, Model, PhantomData};
use std::sync::ledger::{Blank, Ledger};

/// A board: areas, the cells of them that are free, and pieces, each of which is unplaced, placed or removed. A
/// contract sees a `Puzzle`. The areas stand in lists by kind, and the unplaced pieces in lists by kind and width
/// (`specs/Stored.antt`). The board names the ledger `L` of its counter: each call that reads the board or places a
/// piece counts its steps there, and there is no second counter of a ledger.
#[derive(Drop)]
pub struct Board<L: Ledger> {
    areas: Vec<Area>,
    free: Vec<Area>,
    pieces: Vec<Piece>,
    states: Vec<State>,
    by_kind: IndexLists,
    waiting: IndexLists,
    ascending: bool,
    counted: PhantomData<L>,
}

impl<L: Ledger> Model for Board<L> {
    ghost use Rattle.puzzle_board.specs.Boards.{Puzzle};
    ghost use Rattle.puzzle_board.specs.Stored.{IsStored};

    ghost Value = { Puzzle };

    ghost view = { λ b. record { areas = b.areas.items; pieces = b.pieces.items; states = b.states.items } };

    ghost invariant = { λ b. IsStored
        (record { areas = b.areas.items; pieces = b.pieces.items; states = b.states.items })
        b.free.items b.by_kind b.waiting b.ascending };
}

/// How many lists there are of areas, one for each kind.
const KINDS: u32 = 10;

/// How many lists there are of unplaced pieces, one for each kind and width.
const SORTS: u32 = 6;

impl<L: Ledger> Board<L> {
    /// A board with these areas and no pieces.
    pub fn new(alloc: Global, areas: &[Area]) -> Result<Board<L>, NoMemory>
        requires { length areas.now ≤ 4294967295 }
        ensures { MatchResult result (λ board. board ≡ board_of areas.now) (λ _. ⊤) }
    {
        let mut by_kind = IndexLists::new(alloc, areas.len() as u32, KINDS)?;
        file_areas::<Brand>(&mut by_kind, areas, Blank::new(1));
        Ok(Board {
            areas: areas.to_vec(alloc)?,
            free: areas.to_vec(alloc)?,
            pieces: Vec::new(alloc),
            states: Vec::new(alloc),
            by_kind,
            waiting: IndexLists::new(alloc, 0, SORTS)?,
            ascending: true,
            counted: PhantomData,
        })
    }

    /// Adds a piece, which is unplaced, and answers its number.
    pub fn add_piece(&mut self, piece: Piece) -> Result<u32, NoMemory>
        requires { length self.old.pieces < 4294967295 }
        ensures added { MatchResult result
            (λ number. (number ≡ length self.old.pieces) × (self.new ≡ with_piece self.old piece))
            (λ _. self.new ≡ self.old) }
        ensures stands { standing self.new ≡ standing self.old }
    {
        self.pieces.reserve(1)?;
        self.states.reserve(1)?;
        let number = self.pieces.len() as u32;
        self.waiting.grow(number + 1)?;
        file_piece::<Brand>(&mut self.waiting, piece, number, Blank::new(1));
        self.ascending = stays_ascending(&self.pieces, self.ascending, piece);
        self.pieces.push_reserved(piece);
        self.states.push_reserved(State::Unplaced);
        Ok(number)
    }

    /// Removes the variable's pieces from the puzzle. The numbers of the others stay.
    pub fn remove_var(&mut self, var: u32)
        requires { AllByRecursion (λ s. s.piece.var ≢ var) (standing self.old) }
        ensures removed { self.new ≡ without_variable self.old var }
        ensures stands { standing self.new ≡ standing self.old }
    {
        let span = span_of(&self.pieces, self.ascending, var);
        remove_pieces::<Brand>(
            &self.pieces,
            &mut self.states,
            &mut self.waiting,
            var,
            span,
            Blank::new(1),
        );
    }

    /// Makes every piece unplaced that isn't removed.
    pub fn reset(&mut self)
        ensures lifted { self.new ≡ with_none_placed self.old }
        ensures stands { standing self.new ≡ [] }
    {
        lift_pieces::<Brand>(
            &self.pieces,
            &mut self.states,
            &mut self.waiting,
            Blank::new(1),
        );
        free_areas::<Brand>(
            &mut self.free,
            &self.areas,
            &mut self.by_kind,
            Blank::new(1),
        );
    }

    /// Where a piece stands. None where it is unplaced or removed.
    pub fn spot(&self, piece: u32, steps: &mut Steps<L>) -> Option<Spot>
        requires { piece < length self.now.pieces }
        ensures value { result ≡ spot_of self.now piece }
        ensures ticks { steps.new ≡ steps.old + 1 }
    {
        steps.tick();
        match self.states[piece as usize] {
            State::At(spot) => Some(spot),
            State::Unplaced | State::Removed => None,
        }
    }

    /// The cells of an area that are free now.
    pub fn class(&self, area: u32, steps: &mut Steps<L>) -> Area
        requires { area < length self.now.areas }
        ensures value { slice_get (free_areas self.now) area ≡ Some result }
        ensures ticks { steps.new ≡ steps.old + 1 }
    {
        steps.tick();
        self.free[area as usize]
    }

    /// The number of areas.
    pub fn areas(&self, steps: &mut Steps<L>) -> u32
        ensures value { result ≡ length self.now.areas }
        ensures ticks { steps.new ≡ steps.old + 1 }
    {
        steps.tick();
        self.areas.len() as u32
    }

    /// The number of pieces, with the removed ones.
    pub fn pieces(&self, steps: &mut Steps<L>) -> u32
        ensures value { result ≡ length self.now.pieces }
        ensures ticks { steps.new ≡ steps.old + 1 }
    {
        steps.tick();
        self.pieces.len() as u32
    }

    /// A piece by its number.
    pub fn piece(&self, piece: u32, steps: &mut Steps<L>) -> Piece
        requires { piece < length self.now.pieces }
        ensures value { slice_get self.now.pieces piece ≡ Some result }
        ensures ticks { steps.new ≡ steps.old + 1 }
    {
        steps.tick();
        self.pieces[piece as usize]
    }

    /// A piece by its number, as long as it is neither placed nor removed.
    pub fn waiting(&self, piece: u32, steps: &mut Steps<L>) -> Option<Piece>
        requires { piece < length self.now.pieces }
        ensures found { MatchOption result
            ((p : Piece) → ¬ IsUnplaced self.now piece p)
            (λ p. IsUnplaced self.now piece p) }
        ensures ticks { steps.new ≡ steps.old + 1 }
    {
        steps.tick();
        match self.states[piece as usize] {
            State::Unplaced => Some(self.pieces[piece as usize]),
            State::At(_) | State::Removed => None,
        }
    }

    /// Puts an unplaced piece on free cells.
    pub fn place(&mut self, piece: u32, spot: Spot, steps: &mut Steps<L>)
        requires { IsPlaceable self.old piece spot }
        ensures placed { self.new ≡ with_spot self.old piece spot }
        ensures ticks { steps.old + 1 ≤ steps.new }
        ensures few { steps.new ≤ steps.old + 4 }
    {
        steps.tick();
        let kind = self.pieces[piece as usize].kind;
        let free = self.free[spot.area as usize];
        let area = free.cleared(kind, spot.columns);
        set_area(&mut self.free, &mut self.by_kind, spot.area, area, steps);
        let state = State::At(spot);
        settle(&mut self.states, &mut self.waiting, piece, state, steps);
    }

    /// An area of this kind. None exactly where there is none.
    pub fn first_area(&self, kind: AreaKind, steps: &mut Steps<L>) -> Option<u32>
        ensures found { MatchOption result (area_count self.now kind ≡ 0) (λ area. IsAreaOf self.now kind area) }
        ensures ticks { steps.new ≡ steps.old + 1 }
    {
        self.by_kind.first(kind.list(), steps)
    }

    /// The number of areas of this kind.
    pub fn count_areas(&self, kind: AreaKind, steps: &mut Steps<L>) -> u32
        ensures value { result ≡ area_count self.now kind }
        ensures ticks { steps.new ≡ steps.old + 1 }
    {
        self.by_kind.len(kind.list(), steps)
    }

    /// A piece of this kind and width that is neither placed nor removed. None exactly where there is none.
    pub fn first_piece(&self, kind: Kind, width: Width, steps: &mut Steps<L>) -> Option<u32>
        ensures found { MatchOption result
            (piece_count self.now kind width ≡ 0)
            (λ piece. IsUnplacedOf self.now kind width piece) }
        ensures ticks { steps.new ≡ steps.old + 1 }
    {
        self.waiting.first(list_of(kind, width), steps)
    }

    /// The number of pieces of this kind and width that are neither placed nor removed.
    pub fn count_pieces(&self, kind: Kind, width: Width, steps: &mut Steps<L>) -> u32
        ensures value { result ≡ piece_count self.now kind width }
        ensures ticks { steps.new ≡ steps.old + 1 }
    {
        self.waiting.len(list_of(kind, width), steps)
    }

    /// Every board keeps: its placed pieces stand legally.
    pub fn is_board(&self)
        ensures { IsBoard self.now }
    {
        let _ = &self.free;
    }
}
