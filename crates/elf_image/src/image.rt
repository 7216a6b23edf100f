ghost use Rattle.std.specs.Prelude.{◌≡◌, ◌+◌, ◌≤◌, vec_len};
ghost use Rattle.elf_image.specs.Layout.{data_memory, text_span};
ghost use Rattle.elf_image.specs.Segments.{parts_of};

/// The address of the first segment, where the text begins.
pub const TEXT_ADDRESS: u32 = 0x0804_8000;

/// The bytes of the second segment's memory beyond its data, for the stack.
pub const STACK_BYTES: u32 = 67_112_960;

/// The bytes of a page, in the file and in memory (`p_align`). The text begins at this offset.
pub(crate) const PAGE: usize = 4096;

/// What an image is made of.
#[derive(Drop)]
pub struct Image {
    /// The address of the first instruction (`e_entry`).
    pub entry: u32,
    /// The bytes of the first segment, which is read and run.
    pub text: Vec<u8>,
    /// The first bytes of the second segment, which is read and written.
    pub data_bytes: Vec<u8>,
}

impl Image {
    /// From the first segment to the second, in the file and in memory: the bytes of the text, in
    /// whole pages.
    pub(crate) fn text_span(&self) -> usize
        requires { vec_len self.now.text ≤ 1200000000 }
        ensures { result ≡ text_span (parts_of self.now) }
    {
        self.text.len().next_multiple_of(PAGE)
    }

    /// The bytes of the second segment's memory (`p_memsz`): its data in whole words, and the stack.
    pub(crate) fn data_memory(&self) -> u32
        requires { vec_len self.now.data_bytes ≤ 1200000000 }
        ensures { result ≡ data_memory (parts_of self.now) }
    {
        self.data_bytes.len().next_multiple_of(4) as u32 + STACK_BYTES
    }
}
