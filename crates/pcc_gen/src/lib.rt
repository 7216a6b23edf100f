//! Generated programs: a number in, the text of a C program out, of about 23 kB. It is the text of the definition
//! (`specs/Generated.antt`): an array, 40 functions of drawn lines, and a `main` that calls each of them and prints what
//! comes of it as eight hexadecimal digits. The same number always gives the same text.
#![tactic(auto)]

mod draws;
mod functions;
mod laws;
mod program;
mod statements;

pub use laws::{texts_are_short, worked_program};
pub use program::{gen_program, gen_text};
