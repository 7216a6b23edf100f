//! Tests of `map_reader`: texts of maps that are read, and texts that are those of no map.
//!
//! They stand in a crate of their own since a crate with tests is proved a second time; this one needs only what
//! `map_reader` promises.
#![tactic(auto)]

#[cfg(test)]
mod reading;
