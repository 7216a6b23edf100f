//! Linking: the sections of a program in, its image out.
//!
//! In: the sections of all functions, and the static objects. Out: the image of the program, with the addresses of
//! points and objects. The promise: the text is that of the functions' items with the start and the routines, and the
//! data are those of the objects (`specs/Linking.antt`, `IsLinked`); where each stands is said by `specs/Placed.antt`,
//! and the word that a relocation awaits by `specs/Symbols.antt`. The only refusal is want of memory.
//!
//! `addresses` and `function_addresses` have where everything stands, `start` and `routines` the items of the start and
//! of `putchar`, `getchar` and `exit`, `text` and `data` the bytes, and `points` the addresses of points.
//! `specs/Laid.antt` has inner words only.
#![tactic(auto)]

mod addresses;
mod data;
mod function_addresses;
mod linked;
mod linking;
mod points;
mod routines;
mod start;
mod text;

pub use linked::Linked;
pub use linking::link;
