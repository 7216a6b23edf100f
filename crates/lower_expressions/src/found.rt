use c_tree::IntegerType;
use lower_builder::Spot;

/// What is found of a place.
#[derive(Clone, Copy)]
pub enum Found {
    /// A local that is no array.
    Local(u32),
    /// A static object that is no array.
    Object(u32),
    /// An element, whose array and index stand in variables.
    Element(IntegerType, Spot),
}
