//! A law of typed programs of files: the function's contract is the law, and the function does nothing.

ghost use Rattle.pcc_program.specs.MemoryLaws.{SourcesAreInMemory};

/// The typed program of files that is above no limit, and whose files have at most 65,536 tokens together, is one in
/// memory: each of its parts has a token of its own, and its constants are signed numbers of 32 bits.
pub fn sources_are_in_memory()
    ensures { SourcesAreInMemory }
{}
