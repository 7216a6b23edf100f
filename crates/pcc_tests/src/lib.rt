//! Tests of the top call of `pcc_driver`, which is the program but for its words and streams: commands over files in
//! memory and over files of the system. `sources` are tests of the calls below it that take sources, up to graphs.
//!
//! They stand in a crate of their own, since a crate with tests is proved a second time, and in one, since each crate
//! of tests links all that its tests reach. Each table is one text (`tables`), since the proof of a test writes out
//! what a table of tuples holds.
#![tactic(auto)]

#[cfg(test)]
mod commands;
#[cfg(test)]
mod evaluations;
#[cfg(test)]
mod expected;
#[cfg(test)]
mod faults;
#[cfg(test)]
mod generated;
#[cfg(test)]
mod maps;
#[cfg(test)]
mod programs;
#[cfg(test)]
mod refusals;
#[cfg(test)]
mod removals;
#[cfg(test)]
mod runs;
#[cfg(test)]
mod sources;
#[cfg(test)]
mod tables;
