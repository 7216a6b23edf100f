//! Tests of the public calls of the crates `ia32_..`: what registers, memory and arithmetic do (`registers`,
//! `memory`, `arithmetic`), the bytes of instructions there and back (`spellings`, `decoding`), the sections of items
//! (`items`), the items of a function (`functions`) and of single ops (`short_rows`), and runs of images (`machine`); of `parallel_copies`, whose
//! instructions the machine runs (`copies`); and of `elf_image` (`images`), `elf_link` (`linking`) and `map_text`
//! (`maps`, `map_lines`).
//!
//! They stand in a crate of their own since a crate with tests is proved a second time; this one needs only
//! what those crates promise.
#![tactic(auto)]

#[cfg(test)]
mod arithmetic;
#[cfg(test)]
mod copies;
#[cfg(test)]
mod decoding;
#[cfg(test)]
mod expected;
#[cfg(test)]
mod functions;
#[cfg(test)]
mod images;
#[cfg(test)]
mod items;
#[cfg(test)]
mod linking;
#[cfg(test)]
mod machine;
#[cfg(test)]
mod map_lines;
#[cfg(test)]
mod maps;
#[cfg(test)]
mod memory;
#[cfg(test)]
mod registers;
#[cfg(test)]
mod rows;
#[cfg(test)]
mod short_rows;
#[cfg(test)]
mod spellings;
