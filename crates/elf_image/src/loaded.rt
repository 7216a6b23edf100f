ghost use Rattle.std.specs.Prelude.{◌≡◌};
ghost use Rattle.elf_image.specs.declared.loaded.ImageRefusal.TheVariants.{NoMemory as OutOfMemory};

use pcc_base::NoMemory;
use std::alloc::{AllocError, AllocFailed};
use thiserror::Error;

/// A piece of memory that an image asks for (ELF, "Program Header").
#[derive(Drop)]
pub struct Segment {
    /// The address of its first byte.
    pub addr: u32,
    /// Its first bytes; the others are 0.
    pub bytes: Vec<u8>,
    /// How many bytes it has.
    pub size: u32,
    /// Its bytes may be read.
    pub read: bool,
    /// Its bytes may be written.
    pub write: bool,
    /// Instructions may be fetched from it.
    pub exec: bool,
}

/// What the bytes of an image load.
#[derive(Drop)]
pub struct Loaded {
    /// The address of the first instruction.
    pub entry: u32,
    pub segments: Vec<Segment>,
}

/// Why bytes load nothing.
#[derive(Debug, Drop, Error)]
pub enum ImageRefusal {
    #[error("not an image")]
    NotImage,
    #[error("no memory")]
    NoMemory,
}

impl From<AllocError> for ImageRefusal {
    ghost from_gives = { λ _ e. e ≡ OutOfMemory };

    fn from(_e: AllocError) -> ImageRefusal {
        ImageRefusal::NoMemory
    }
}

impl<T: Drop> From<AllocFailed<T>> for ImageRefusal {
    ghost from_gives = { λ _ e. e ≡ OutOfMemory };

    fn from(_e: AllocFailed<T>) -> ImageRefusal {
        ImageRefusal::NoMemory
    }
}

impl From<NoMemory> for ImageRefusal {
    ghost from_gives = { λ _ e. e ≡ OutOfMemory };

    fn from(_e: NoMemory) -> ImageRefusal {
        ImageRefusal::NoMemory
    }
}
