/// A static object: the bytes of an element, 1, 2 or 4, and its elements.
#[derive(Drop)]
pub struct DataObject {
    pub width: u8,
    pub elements: Vec<i32>,
}
