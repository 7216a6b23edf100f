//! Reading the grammar: how the raw trees of a list of tokens are found, and where the fault of tokens stands that are
//! no program. The grammar itself, by `Tree`, is in `c_syntax`.
//!
//! The readings, in `specs/`, say what each rule takes from the front of a list of tokens, by what its parts take, or
//! before which token it fails, and whether for want of height alone. They are the words of the parsers' contracts. What
//! they find is proved to be exactly the trees of `Tree` (`read_trees`), and they fail where the fault of the tokens
//! stands (`faults_stand_there`): `FaultAt` of `Faults.antt` rests on `Tree` alone, and a list of tokens has one such
//! fault at most, and none where it is a program of that height (`one_fault_place`).
#![tactic(auto)]

mod laws;

pub use laws::{
    faults_begin_programs, faults_of_height_move_on, faults_stand_there, one_fault_place,
    one_raw_tree, read_trees, readings_look_one_ahead, worked_faults,
};
