//! The lines of a function, which lowering makes of its typed tree, and the graph that they are; and the laws that
//! all others stand on. No code.
//!
//! In: a typed program (`specs/Program.antt` of `c_tree`). Out: the graphs of its functions. `specs/Lines.antt` has
//! lines and their graph, `specs/Expressions.antt` and `specs/Statements.antt` the lines of each construct, and
//! `specs/Laws.antt` what lowering has to keep. `steps_laws` has the laws of lines and their graph, `relation` those of
//! the relation between states of a source program and of its graphs (`specs/RelationLaws.antt`), and `bounds`
//! those on blocks, levels, variables, points and marks (`specs/BoundsLaws.antt`).
#![tactic(auto)]

mod bounds;
mod laws;
mod relation;
mod steps_laws;

pub use bounds::{
    all_lines_close, graphs_are_laid_out, graphs_are_small, marks_hold, names_are_there,
    objects_hold, points_are_few, shapes_hold,
};
pub use laws::worked_examples;
pub use relation::{
    arrays_are_reached, arrays_are_set, arrays_are_there, arrays_fit, bytes_are_taken,
    bytes_are_written, kept_below, kept_by_arrays, kept_by_change, kept_twice, locals_are_held,
    numbers_are_set, pointers_are_set, temporaries_are_free, turns_are_free,
};
pub use steps_laws::{next_stands, ops_stand, starts_stand};
