/// The variables that hold a value: that of a number, or those of a pointer's array and index.
#[derive(Clone, Copy)]
pub struct Spot {
    pub array: u32,
    pub number: u32,
}
