//! Thin adapters over the system's files and streams. They count, and tell nothing of content.
ghost use Rattle.std.specs.Prelude.{◌≡◌, ◌≤◌, ◌∷◌, [], Some, None, Err, IfOk, IfSome, MatchResult, OnErr, OnOk};
ghost use Rattle.std.specs.Prelude.{vec_len};
ghost use Rattle.std.specs.IoError.{error_kind};
ghost use Rattle.std.specs.Io.KnownBytes.{Appends, Keeps};
ghost use Rattle.pcc_outside.specs.Calls.{PutRaises, ReadRaises, WriteRaises, faults_after};
ghost use Rattle.pcc_outside.specs.Files.{CountsRead, CountsWrite, ReadTold};
ghost use Rattle.pcc_outside.specs.Host.{AppendsPrefix, NextRead, host_counts, input_faults, input_remaining};
ghost use Rattle.pcc_outside.specs.Host.{open_refusal_of, output_contents, output_counts, read_refusal_of};
ghost use Rattle.pcc_outside.specs.Memory.{no_answers, no_puts};
ghost use Rattle.pcc_outside.specs.Streams.{CountsNext, CountsPut};

use crate::calls::raise;
use crate::file_store::{FileStore, ReadRefusal};
use crate::sink::{Sink, WriteRefusal};
use crate::source::{Failed, Source};
use std::alloc::Global;
use std::io::{ErrorKind, Read, Write};
use std::rt::Files;
use std::{fs, io};

/// The files of the system, by their paths.
#[derive(Drop)]
pub struct HostFiles<R> {
    files: R,
    read_faults: u64,
    write_faults: u64,
    missing: u64,
    too_long: u64,
}

impl<R: Files> HostFiles<R> {
    /// The files that the runtime reaches, with no answer counted yet.
    pub fn new(files: R) -> HostFiles<R>
        ensures { host_counts result ≡ no_answers }
    {
        HostFiles {
            files,
            read_faults: 0,
            write_faults: 0,
            missing: 0,
            too_long: 0,
        }
    }
}

impl<R: Files> FileStore for HostFiles<R> {
    ghost use Rattle.std.specs.Prelude.{None};

    ghost counts = { host_counts };

    ghost tells = { λ _. ⊥ };

    ghost content = { λ _ _. None };

    /// The bytes of the file at the path. `Missing` comes only where the system says that there is no
    /// such file, and `TooLong` only where more than `most` bytes were received.
    fn read(&mut self, alloc: Global, name: &str, most: usize) -> Result<Vec<u8>, ReadRefusal>
        ensures counted { CountsRead (host_counts self.old) (host_counts self.new) result }
        ensures size { IfOk result (λ bytes. vec_len bytes ≤ most) }
        ensures raises { ReadRaises (host_counts self.old) (host_counts self.new) result }
    {
        match fetch(&self.files, alloc, name, most) {
            Ok(bytes) => Ok(bytes),
            Err(ReadRefusal::Missing) => {
                self.missing = raise(self.missing);
                Err(ReadRefusal::Missing)
            }
            Err(ReadRefusal::TooLong) => {
                self.too_long = raise(self.too_long);
                Err(ReadRefusal::TooLong)
            }
            Err(ReadRefusal::Failed) => {
                self.read_faults = raise(self.read_faults);
                Err(ReadRefusal::Failed)
            }
            Err(ReadRefusal::NoMemory) => Err(ReadRefusal::NoMemory),
        }
    }

    /// Creates the file at the path, or empties it, and writes all bytes. A write that takes no byte of
    /// a piece that isn't empty is a failure.
    fn write(&mut self, name: &str, bytes: &[u8]) -> Result<(), WriteRefusal>
        ensures counted { CountsWrite (host_counts self.old) (host_counts self.new) result }
        ensures raises { WriteRaises (host_counts self.old) (host_counts self.new) result }
    {
        match store(&self.files, name, bytes) {
            Ok(()) => Ok(()),
            Err(Failed) => {
                self.write_faults = raise(self.write_faults);
                Err(WriteRefusal::Failed)
            }
        }
    }
}

/// The bytes of the file at the path.
fn fetch<R: Files>(
    files: &R,
    alloc: Global,
    name: &str,
    most: usize,
) -> Result<Vec<u8>, ReadRefusal>
    ensures { IfOk result (λ bytes. vec_len bytes ≤ most) }
{
    bytes_of(fs::open(files, name), alloc, most)
}

/// The bytes of a file, or why it wasn't opened.
fn bytes_of<R: Read + Drop>(
    opened: io::Result<R>,
    alloc: Global,
    most: usize,
) -> Result<Vec<u8>, ReadRefusal>
    ensures size { IfOk result (λ bytes. vec_len bytes ≤ most) }
    ensures told { MatchResult opened
        (λ file. IfSome (R.remaining file) (λ left. ReadTold (Some left) most result))
        (λ e. result ≡ Err (open_refusal_of (error_kind e))) }
{
    match opened {
        Ok(file) => read_to_most(file, alloc, most),
        Err(e) => Err(open_refusal(&e)),
    }
}

/// Why a file wasn't opened.
fn open_refusal(e: &io::Error) -> ReadRefusal
    ensures { result ≡ open_refusal_of (error_kind e.now) }
{
    match e.kind() {
        ErrorKind::NotFound => ReadRefusal::Missing,
        ErrorKind::OutOfMemory => ReadRefusal::NoMemory,
        _ => ReadRefusal::Failed,
    }
}

/// Why an open file wasn't read.
fn read_refusal(e: &io::Error) -> ReadRefusal
    ensures { result ≡ read_refusal_of (error_kind e.now) }
{
    match e.kind() {
        ErrorKind::OutOfMemory => ReadRefusal::NoMemory,
        _ => ReadRefusal::Failed,
    }
}

/// All bytes that the reader has left, where they are at most `most`. One byte more is asked for, and
/// `TooLong` is answered where it comes.
fn read_to_most<R: Read + Drop>(
    reader: R,
    alloc: Global,
    most: usize,
) -> Result<Vec<u8>, ReadRefusal>
    ensures size { IfOk result (λ bytes. vec_len bytes ≤ most) }
    ensures told { IfSome (R.remaining reader) (λ left. ReadTold (Some left) most result) }
{
    let mut bytes = Vec::new(alloc);
    let mut limited = reader.take((most as u64).saturating_add(1));
    match limited.read_to_end(&mut bytes) {
        Ok(_) => {
            if bytes.len() > most {
                Err(ReadRefusal::TooLong)
            } else {
                Ok(bytes)
            }
        }
        Err(e) => Err(read_refusal(&e)),
    }
}

/// Puts all bytes into the file at the path, and nothing else.
fn store<R: Files>(files: &R, name: &str, bytes: &[u8]) -> Result<(), Failed> {
    match fs::create(files, name) {
        Ok(mut file) => write_whole(&mut file, bytes),
        Err(_) => Err(Failed),
    }
}

/// Writes all bytes. A call that a signal interrupts is made again, and one that takes no byte of a
/// piece that isn't empty is a failure.
fn write_whole<W: Write>(writer: &mut W, bytes: &[u8]) -> Result<(), Failed>
    ensures whole { OnOk result (Appends (W.contents writer.old) (W.contents writer.new) bytes.now) }
    ensures part { AppendsPrefix (W.contents writer.old) (W.contents writer.new) bytes.now }
{
    let mut done = 0;
    for _ in 0..u64::MAX {
        if done >= bytes.len() {
            return flush(writer);
        }
        match writer.write(&bytes[done..]) {
            Ok(0) => return Err(Failed),
            Ok(n) => done += n,
            Err(e) => {
                if e.kind() != ErrorKind::Interrupted {
                    return Err(Failed);
                }
            }
        }
    }
    Err(Failed)
}

/// Sees that what was written has reached the system.
fn flush<W: Write>(writer: &mut W) -> Result<(), Failed>
    ensures { Keeps (W.contents writer.old) (W.contents writer.new) }
{
    match writer.flush() {
        Ok(()) => Ok(()),
        Err(_) => Err(Failed),
    }
}

/// An input of the system. Over a `BufReader` it is fast.
#[derive(Drop)]
pub struct HostInput<R> {
    reader: R,
    faults: u64,
}

impl<R: Read> HostInput<R> {
    /// The input that the reader gives, with no fault counted yet.
    pub fn new(reader: R) -> HostInput<R>
        ensures faults { input_faults result ≡ 0 }
        ensures bytes { input_remaining R.remaining result ≡ R.remaining reader }
    {
        HostInput { reader, faults: 0 }
    }
}

impl<R: Read> Source for HostInput<R> {
    ghost use Rattle.std.specs.Prelude.{[]};

    ghost faults = { input_faults };

    ghost tells = { λ _. ⊥ };

    ghost left = { λ _. [] };

    /// The next byte, or None at the end.
    fn next_byte(&mut self) -> Result<Option<u8>, Failed>
        ensures counted { CountsNext (input_faults self.old) (input_faults self.new) result }
        ensures raises { input_faults self.new ≡ faults_after (input_faults self.old) result }
        ensures bytes { NextRead (input_remaining R.remaining self.old) (input_remaining R.remaining self.new) result }
    {
        match read_one(&mut self.reader) {
            Ok(byte) => Ok(byte),
            Err(Failed) => {
                self.faults = raise(self.faults);
                Err(Failed)
            }
        }
    }
}

/// The reader's next byte, or None at the end. A call that a signal interrupts is made again.
fn read_one<R: Read>(reader: &mut R) -> Result<Option<u8>, Failed>
    ensures { NextRead (R.remaining reader.old) (R.remaining reader.new) result }
{
    let mut byte = [0u8; 1];
    for _ in 0..u64::MAX {
        match reader.read(&mut byte) {
            Ok(0) => return Ok(None),
            Ok(_) => return Ok(Some(byte[0])),
            Err(e) => {
                if e.kind() != ErrorKind::Interrupted {
                    return Err(Failed);
                }
            }
        }
    }
    Err(Failed)
}

/// An output of the system, as the standard output or the standard error.
#[derive(Drop)]
pub struct HostOutput<W> {
    writer: W,
    faults: u64,
}

impl<W: Write> HostOutput<W> {
    /// The output that the writer leads to, with no fault counted yet.
    pub fn new(writer: W) -> HostOutput<W>
        ensures counts { output_counts result ≡ no_puts }
        ensures bytes { output_contents W.contents result ≡ W.contents writer }
    {
        HostOutput { writer, faults: 0 }
    }
}

impl<W: Write> Sink for HostOutput<W> {
    ghost use Rattle.std.specs.Prelude.{[]};

    ghost counts = { output_counts };

    ghost tells = { λ _. ⊥ };

    ghost taken = { λ _. [] };

    /// Writes all bytes before it returns. A write that takes no byte of a piece that isn't empty is a
    /// failure. This never answers `NoMemory`.
    fn put_all(&mut self, bytes: &[u8]) -> Result<(), WriteRefusal>
        ensures counted { CountsPut (output_counts self.old) (output_counts self.new) result }
        ensures raises { PutRaises (output_counts self.old) (output_counts self.new) result }
        ensures whole { OnOk result (Appends (output_contents W.contents self.old) (output_contents W.contents self.new)
            bytes.now) }
        ensures part { AppendsPrefix (output_contents W.contents self.old) (output_contents W.contents self.new)
            bytes.now }
    {
        match write_whole(&mut self.writer, bytes) {
            Ok(()) => Ok(()),
            Err(Failed) => {
                self.faults = raise(self.faults);
                Err(WriteRefusal::Failed)
            }
        }
    }
}
