//! Definitions: the one typed program of files, or the least fault, or the limit that it is above.
//!
//! `specs/Typed.antt` has `Typed`, `fault_of` and `limit_of`; the files that it cites judge each construct by its
//! parts.
//! `worked_faults`, `worked_declarators`, `worked_programs`, `worked_rows` and `worked_trees` read them on small files.
#![tactic(auto)]

mod laws;

pub use laws::{
    least_fault, numbers_change_nothing, one_typed_program, statements_count_up,
    worked_declarators, worked_faults, worked_programs, worked_rows, worked_trees,
};
