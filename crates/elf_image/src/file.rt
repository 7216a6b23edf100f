//! What the bytes of a file load, from its parts.

ghost use Rattle.std.specs.Prelude.{◌≡◌, IfOk, IsErrOf};
ghost use Rattle.elf_image.specs.Segments.{IsLoadable, Loads, Segments, segments_of};

use crate::reading::{are_few, are_sound, has_headers, is_executable, load_headers};
use crate::{ImageRefusal, Loaded, read_word, segments};
use std::alloc::Global;

/// Where the field `e_entry` of the ELF header stands.
const ENTRY: usize = 24;

/// What the bytes of a file load. They are refused as no image exactly where they load nothing.
///
/// Nothing is copied before it is known that the segments have no more memory than a machine has.
pub fn read_image(alloc: Global, bytes: &[u8]) -> Result<Loaded, ImageRefusal>
    ensures found { IfOk result (λ loaded. Loads bytes.now (segments_of loaded)) }
    ensures loadable { IfOk result (λ loaded. IsLoadable (segments_of loaded)) }
    ensures not_image { IsErrOf result ImageRefusal.NotImage → (segments : Segments) → Loads bytes.now segments → ⊥ }
{
    if !is_executable(bytes) || !has_headers(bytes) {
        return Err(ImageRefusal::NotImage);
    }
    let headers = load_headers(alloc, bytes)?;
    if !are_sound(bytes, &headers) || !are_few(&headers) {
        return Err(ImageRefusal::NotImage);
    }
    let loaded = Loaded {
        entry: read_word(bytes, ENTRY),
        segments: segments(alloc, bytes, &headers)?,
    };
    if loaded.is_loadable(alloc)? {
        Ok(loaded)
    } else {
        Err(ImageRefusal::NotImage)
    }
}
