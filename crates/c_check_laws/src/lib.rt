//! What is known of typed programs. No code.
//!
//! Typed programs of files are well typed (`TypedIsWellTyped` of `c_typing`, over `Typed` of that crate and
//! `WellTyped` of `c_tree`); the raw trees of texts are what typing asks for (`specs/Laws.antt`); an item of
//! its own declares each array, and its definition names each function (`specs/DeclaresLaws.antt`); and the names
//! are identifiers (`specs/IdentifiersLaws.antt`).
#![tactic(auto)]

mod declares;
mod identifiers;
mod laws;
mod sources_laws;

pub use declares::{arrays_are_declared, functions_are_named};
pub use identifiers::{identifiers_have_names, programs_have_names};
pub use laws::typed_is_well_typed;
pub use sources_laws::texts_are_sources;
