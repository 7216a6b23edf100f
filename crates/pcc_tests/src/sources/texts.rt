//! Texts that grow: in them the tables of `tokens` and `trees` say what they expect.

use pcc_base::Name;
use std::alloc::Global;
use std::fmt::Debug;
use std::process::Abort;

/// A text that grows. It isn't whole where there was no memory for a part of it.
#[derive(Drop)]
pub struct Text {
    text: String,
    is_whole: bool,
}

impl Text {
    pub fn new(alloc: Global) -> Text {
        Text {
            text: String::new(alloc),
            is_whole: true,
        }
    }

    pub fn push(&mut self, text: &str) {
        if self.text.push_str(text).is_err() {
            self.is_whole = false;
        }
    }

    /// The bytes of a name or a string literal.
    pub fn push_name(&mut self, name: &Name) {
        self.push(std::str::from_utf8(name.as_bytes()).unwrap_or("?"));
    }

    /// A number in digits, or a variant by its name.
    pub(crate) fn push_shown<T: Debug>(&mut self, value: &T) {
        if write!(self.text, "{value:?}").is_err() {
            self.is_whole = false;
        }
    }

    /// The text of a source, which is whole.
    pub fn whole(self, rt: &impl Abort, source: &str) -> String {
        assert!(rt; self.is_whole, "{source}: no memory");
        self.text
    }
}
