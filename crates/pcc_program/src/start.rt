//! Laws of the first state of an image: each function's contract is one, and the function does nothing.

ghost use Rattle.pcc_program.specs.Begins.{EntryIsStart, SegmentsAreMemory, TextBegins};

/// The segments of the image of a text and its static objects are the memory of the text's first state, and the
/// entry is where that state begins.
pub fn image_loads_text()
    ensures memory { SegmentsAreMemory }
    ensures entry { EntryIsStart }
{}

/// The bytes of the image of a text and its static objects have the text's state as their first.
pub fn text_begins()
    ensures { TextBegins }
{}
