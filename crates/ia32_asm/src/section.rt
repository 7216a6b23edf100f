use ia32_insn::Stub;

/// The code of one function, before it has an address and while it does not know those of others.
#[derive(Drop)]
pub struct Section {
    /// The instructions. The four bytes that a relocation names are 0.
    pub bytes: Vec<u8>,
    /// The one symbol of the function.
    pub symbols: Vec<Symbol>,
    /// What awaits addresses, in the order of the items.
    pub relocations: Vec<Relocation>,
    /// For each point number the offset of the point in `bytes`, or 0 where there is no such point.
    pub points: Vec<u32>,
}

/// Where a function begins.
#[derive(Clone, Copy, Debug, PartialEq, Eq)]
pub struct Symbol {
    /// The number of the function in the program.
    pub function: u32,
    /// Its offset in the section, in bytes.
    pub offset: u32,
}

/// What has an address outside of a section.
#[derive(Clone, Copy, Debug, PartialEq, Eq)]
pub enum Target {
    /// The function of that number in the program.
    Function(u32),
    /// Element 0 of the static object of that number.
    Object(u32),
    /// A routine that the program calls.
    Stub(Stub),
    /// The trap of a failed check.
    Check,
    /// The word that counts the calls that are active.
    Depth,
}

/// Four bytes of a section that await the address of a target (ELF, "Relocation"; System V ABI, Intel386
/// supplement, `R_386_32` and `R_386_PC32`).
#[derive(Clone, Copy, Debug, PartialEq, Eq)]
pub struct Relocation {
    /// The offset of the four bytes in the section.
    pub at: u32,
    /// They hold the distance to the target from the end of the four bytes, as in calls and jumps, and
    /// else the target's address.
    pub relative: bool,
    pub target: Target,
}
