//! What the words of the command line ask for, read with one command of `clap`.
//!
//! In: the words behind the program's name. Out: the command that they mean, or what is to be told where they mean
//! none.
//! What they mean is the definition `command_of` of `specs/Asked.antt`: the matches of `app` of `specs/App.antt`.
#![tactic(auto)]

mod app;
mod asked;
mod command;
mod laws;

pub use asked::command_of;
pub use command::Command;
pub use laws::few_sources;
