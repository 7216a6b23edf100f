ghost use Rattle.std.specs.Prelude.{◌≡◌, ◌<◌};
ghost use Rattle.puzzle_board.specs.Areas.{cleared, cleared_column, kind_of, place_of_kind};

use crate::piece::{Columns, Kind};

/// Which rows of a column are free. The upper row is before the instruction, the lower row after it.
#[derive(Clone, Copy)]
pub enum Column {
    Both,
    Upper,
    Lower,
    Neither,
}

impl Column {
    /// The column with what a piece of this kind takes no longer free.
    fn cleared(self, kind: Kind) -> Column
        ensures { result ≡ cleared_column kind self }
    {
        match (kind, self) {
            (Kind::X, Column::Both) => Column::Lower,
            (Kind::X, Column::Upper) => Column::Neither,
            (Kind::X, Column::Lower) => Column::Lower,
            (Kind::X, Column::Neither) => Column::Neither,
            (Kind::Z, Column::Both) => Column::Upper,
            (Kind::Z, Column::Upper) => Column::Upper,
            (Kind::Z, Column::Lower) => Column::Neither,
            (Kind::Z, Column::Neither) => Column::Neither,
            (Kind::Y, _) => Column::Neither,
        }
    }
}

/// An area of a board: a register of two columns, each of two rows, and which of these cells are free.
#[derive(Clone, Copy)]
pub struct Area {
    pub low: Column,
    pub high: Column,
}

/// Areas by their two columns, whose order doesn't matter.
#[derive(Clone, Copy)]
pub enum AreaKind {
    /// Both and both.
    E,
    /// Both and upper.
    U1,
    /// Both and lower.
    L1,
    /// Both and neither.
    C,
    /// Upper and upper.
    U0,
    /// Lower and lower.
    L0,
    UpperLower,
    UpperNone,
    LowerNone,
    /// Neither and neither.
    Full,
}

impl AreaKind {
    /// The list of the areas of this kind.
    pub(crate) fn list(self) -> u32
        ensures value { result ≡ place_of_kind self }
        ensures few { result < 10 }
    {
        match self {
            AreaKind::E => 0,
            AreaKind::U1 => 1,
            AreaKind::L1 => 2,
            AreaKind::C => 3,
            AreaKind::U0 => 4,
            AreaKind::L0 => 5,
            AreaKind::UpperLower => 6,
            AreaKind::UpperNone => 7,
            AreaKind::LowerNone => 8,
            AreaKind::Full => 9,
        }
    }
}

impl Area {
    /// The kind of the area.
    pub fn kind(self) -> AreaKind
        ensures { result ≡ kind_of self }
    {
        match (self.low, self.high) {
            (Column::Both, Column::Both) => AreaKind::E,
            (Column::Both, Column::Upper) | (Column::Upper, Column::Both) => AreaKind::U1,
            (Column::Both, Column::Lower) | (Column::Lower, Column::Both) => AreaKind::L1,
            (Column::Both, Column::Neither) | (Column::Neither, Column::Both) => AreaKind::C,
            (Column::Upper, Column::Upper) => AreaKind::U0,
            (Column::Lower, Column::Lower) => AreaKind::L0,
            (Column::Upper, Column::Lower) | (Column::Lower, Column::Upper) => AreaKind::UpperLower,
            (Column::Upper, Column::Neither) | (Column::Neither, Column::Upper) =>
                AreaKind::UpperNone,
            (Column::Lower, Column::Neither) | (Column::Neither, Column::Lower) =>
                AreaKind::LowerNone,
            (Column::Neither, Column::Neither) => AreaKind::Full,
        }
    }

    /// The area with what a piece of this kind takes in these columns no longer free.
    pub fn cleared(self, kind: Kind, columns: Columns) -> Area
        ensures { result ≡ cleared self kind columns }
    {
        match columns {
            Columns::Low => Area {
                low: self.low.cleared(kind),
                high: self.high,
            },
            Columns::High => Area {
                low: self.low,
                high: self.high.cleared(kind),
            },
            Columns::All => Area {
                low: self.low.cleared(kind),
                high: self.high.cleared(kind),
            },
        }
    }
}
