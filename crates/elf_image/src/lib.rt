//! Images: static i386 ELF files, as this compiler writes them, and the segments that any file's bytes load.
//!
//! In go the text, the data and the entry, out come the bytes of the file (`write_image`); in go any bytes, out come
//! the segments and the entry exactly where the bytes are those of a program for the Intel 80386 that may be loaded
//! (`read_image`). `specs/Layout.antt` says which bytes a written image has, `specs/Fields.antt` what a file's headers
//! say, and `specs/Segments.antt` what a file loads, and which segments a machine may be loaded with
//! (`Loaded::is_loadable`): no two have an address in common (`are_distinct`, `specs/Pieces.antt`).
#![tactic(auto)]

mod distinct;
mod extent;
mod file;
mod image;
mod laws;
mod loadable;
mod loaded;
mod program_header;
mod reading;
mod writing;

pub use distinct::{Extent, are_distinct};
pub use file::read_image;
pub use image::{Image, STACK_BYTES, TEXT_ADDRESS};
pub use laws::{image_length, image_loads, image_parts_lie_in_file, one_image, worked_segments};
pub use loaded::{ImageRefusal, Loaded, Segment};
pub use program_header::{ProgramHeader, read_word};
pub use reading::segments;
pub use writing::write_image;
