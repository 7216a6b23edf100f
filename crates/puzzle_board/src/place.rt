use crate::piece::Spot;

/// Where a variable is right before or right after a point.
#[derive(Clone, Copy, Debug, PartialEq, Eq)]
pub enum Place {
    /// In columns of a register.
    Cells(Spot),
    /// In the frame, at this offset from EBP.
    Slot(i32),
}
