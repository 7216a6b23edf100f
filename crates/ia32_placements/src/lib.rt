//! Legal maps of graphs as placements of their code. No code.
//!
//! In goes nothing, and out come laws (`specs/Laws.antt`): the columns of a board are registers
//! (`specs/Standings.antt`), and at each point a legal map, whoever made it, has what the code of the point's op asks
//! of a placement.
#![tactic(auto)]

mod laws;

pub use laws::{legal_maps_are_supported, moves_are_few, places_are_registers, worked_example};
