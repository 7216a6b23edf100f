//! The top call: what the words of the command line ask for is done, and the exit status is answered.
//!
//! In: the words, the files, the input, the output and standard error, which are lent. Out: the exit status, behind the
//! report's line on standard error. The promise: a compiled image does exactly what its sources do
//! (`specs/Headline.antt`), and each status has its cause and its line (`specs/Answers.antt`, `specs/Promises.antt`).
//!
//! `pcc` in `src/top.rt` carries the promises, and `compile`, `run`, `evaluated`, `solve`, `generate`, `selftest` and
//! `least` carry out the commands; `answered` puts an answer on the output. `selftest_run` and `selftest_lines` run the
//! image and make the two lines of `selftest`. `reading` and `typed_sources` have the sources that a command
//! names and their typed program; `report`, `report_lines` and `finished` how a command went, with its line and status.
#![tactic(auto)]

mod answered;
mod board;
mod compile;
mod evaluated;
mod finished;
mod generate;
mod least;
mod reading;
mod report;
mod report_lines;
mod run;
mod selftest;
mod selftest_lines;
mod selftest_run;
mod solve;
mod stops;
mod top;
mod typed_sources;

pub use evaluated::eval;
pub use reading::Unread;
pub use stops::images_never_stop;
pub use top::pcc;
