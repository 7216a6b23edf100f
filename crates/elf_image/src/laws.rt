//! Laws of the definitions: each function's contract is one, and the function does nothing.

ghost use Rattle.std.specs.Prelude.{◌≡◌, ◌+◌, ◌≤◌, ℕ, List, [], ◌∷◌, length};
ghost use Rattle.elf_image.specs.Layout.{Fits, Parts, image_bytes, text_span};
ghost use Rattle.elf_image.specs.Segments.{IsFilePart, IsLoadable, Loads, Segments, image_segments};
ghost use Rattle.elf_image.specs.Worked.{blank, only};

/// Bytes load one list of segments at most.
pub fn one_image()
    ensures { (bytes : List ℕ) (a b : Segments) → Loads bytes a → Loads bytes b → a ≡ b }
{}

/// A written image loads its text and its data.
pub fn image_loads()
    ensures { (parts : Parts) → Fits parts → Loads (image_bytes parts) (image_segments parts) }
{}

/// An image has a page of headers, its text in whole pages, and its data.
pub fn image_length()
    ensures { (parts : Parts) → Fits parts → length (image_bytes parts)
        ≡ 4096 + text_span parts + length parts.data_bytes }
{}

/// The text and the data lie in the file of their image, also where they have no bytes.
pub fn image_parts_lie_in_file()
    ensures text_part { (parts : Parts) → Fits parts → IsFilePart (image_bytes parts) 4096 (length parts.text) }
    ensures data_part { (parts : Parts) → Fits parts
        → IsFilePart (image_bytes parts) (4096 + text_span parts) (length parts.data_bytes) }
{}

/// What the definition of loadable segments says of small ones: a segment of size 0 may lie inside another, at its
/// beginning and at its end, and one of a byte may lie behind it, but not inside.
pub fn worked_segments()
    ensures none_inside { IsLoadable (only (blank 4096 8 ∷ blank 4099 0 ∷ [])) }
    ensures around_none { IsLoadable (only (blank 4099 0 ∷ blank 4096 8 ∷ [])) }
    ensures none_at_the_ends { IsLoadable (only (blank 4096 8 ∷ blank 4096 0 ∷ blank 4104 0 ∷ [])) }
    ensures one_behind { IsLoadable (only (blank 4096 8 ∷ blank 4104 1 ∷ [])) }
    ensures one_inside { IsLoadable (only (blank 4096 8 ∷ blank 4103 1 ∷ [])) → ⊥ }
{}
