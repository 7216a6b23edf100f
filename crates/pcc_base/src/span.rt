/// A place in a source.
#[derive(Clone, Copy, Debug)]
pub struct Span {
    /// The position of the file among the files given, from 0.
    pub file: u32,
    /// The line, from 1.
    pub line: u32,
    /// The column, from 1, in bytes.
    pub col: u32,
}
