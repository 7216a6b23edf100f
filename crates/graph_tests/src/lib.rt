//! Tests of the public calls of `pcc_base` (`numbers`, `faults`), `pcc_outside` (`memory`, `host`) and
//! `index_lists` (`list_rows`); of `flow_graph` (`graphs`), `flow_liveness` (`live_points`), `allocator` (`forms`)
//! and `allocator` (`allocation`), whose graphs are built by the steps in `building`; and of `puzzle_board`,
//! `puzzle_solver` and `puzzle_solver`: rows worked by hand (`rows`), every small board compared with a plain search
//! (`search`), with hints (`hints`), boards and placements as texts (`texts`), and a map of points (`maps`); of
//! `least_spill` (`fewest`); and of `pcc_gen` (`generated`).
//!
//! They stand in a crate of their own since a crate with tests is proved a second time; this one needs only what
//! those crates promise.
#![tactic(auto)]

#[cfg(test)]
mod allocation;
#[cfg(test)]
mod building;
#[cfg(test)]
mod expected;
#[cfg(test)]
mod faults;
#[cfg(test)]
mod fewest;
#[cfg(test)]
mod forms;
#[cfg(test)]
mod generated;
#[cfg(test)]
mod graphs;
#[cfg(test)]
mod hints;
#[cfg(test)]
mod host;
#[cfg(test)]
mod list_rows;
#[cfg(test)]
mod live_points;
#[cfg(test)]
mod maps;
#[cfg(test)]
mod memory;
#[cfg(test)]
mod numbers;
#[cfg(test)]
mod rows;
#[cfg(test)]
mod search;
#[cfg(test)]
mod solving;
#[cfg(test)]
mod texts;
