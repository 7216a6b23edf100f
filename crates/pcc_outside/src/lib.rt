//! The world outside the compiler: where files are kept, where a program's input comes from, and where
//! bytes go. The top call is lent one object of each trait; the machine and the evaluator are lent a
//! source and a sink.
//!
//! An object has counts of its faults and refusals, which never fall: an answer that refuses comes only
//! where its count rose in that call, but for want of memory of a store, which has no count. An object may
//! also tell what it holds, has left or took.
#![tactic(auto)]

mod calls;
mod file_store;
mod host;
mod mem_files;
mod mem_sink;
mod mem_source;
mod sink;
mod source;
mod sure;

pub use file_store::{FileStore, ReadRefusal};
pub use host::{HostFiles, HostInput, HostOutput};
pub use mem_files::MemFiles;
pub use mem_sink::MemSink;
pub use mem_source::MemSource;
pub use sink::{Sink, WriteRefusal};
pub use source::{Failed, Source};
pub use sure::{SureSink, SureSource};
