use elf_image::Image;

/// A program whose sections and static objects have addresses.
#[derive(Drop)]
pub struct Linked {
    pub image: Image,
    /// For each function the addresses of its points by their number.
    pub points: Vec<Vec<u32>>,
    /// The address of element 0 of each static object.
    pub objects: Vec<u32>,
}
