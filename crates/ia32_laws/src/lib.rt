//! That the code of a program is right: of any number of functions, with recursion, arrays and static objects, over any
//! placements that support its graphs (`specs/Supports.antt`). No code.
//!
//! In goes nothing, and out come laws (`programs_are_right`): from every state that shows one of the program the
//! machine follows the program's step, and selected code has its program's outcomes. `keeps` has what stays shown,
//! `cores`, `comparisons`, `accesses`, `clears` and `routines_laws` the ops by their kinds, `activations` and `entries`
//! calls, `standing_laws` where items stand, and `starts` the start.
#![tactic(auto)]

mod accesses;
mod activations;
mod clears;
mod comparisons;
mod cores;
mod entries;
mod keeps;
mod laws;
mod routines_laws;
mod standing_laws;
mod starts;

pub use accesses::{
    accesses_are_followed, addresses_are_followed, objects_are_followed, rows_move_elements,
};
pub use activations::{calls_are_made, calls_return, depth_counts_calls};
pub use clears::{clears_are_followed, rows_clear};
pub use comparisons::{addresses_tell, comparisons_are_followed};
pub use cores::{
    rows_compare_words, rows_divide_words, rows_follow_steps, rows_of_words, rows_pass_words,
    words_are_numbers, worked_rows,
};
pub use entries::{functions_are_called, functions_begin, functions_return};
pub use keeps::{
    a_move_is_supported, changed_array_is_shown, kept_stays_shown, moves_are_shown,
    protected_is_apart, rows_follow,
};
pub use laws::programs_are_right;
pub use routines_laws::{checks_trap, outside_is_followed};
pub use standing_laws::{
    calls_lead_back, functions_stand, points_are_apart, points_stand, steps_are_followed,
};
pub use starts::{data_begin, main_is_called};
