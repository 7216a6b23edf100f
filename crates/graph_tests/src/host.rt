//! Files, input and output of the host: real ones, and ones that stall.

ghost use Rattle.std.specs.Prelude.{◌≡◌, IfOk};

use crate::expected::expect;
use pcc_outside::{
    Failed, FileStore, HostFiles, HostInput, HostOutput, ReadRefusal, Sink, Source, WriteRefusal,
};
use std::alloc::Global;
use std::fs::OpenOptions;
use std::io::{ErrorKind, Read, Write};
use std::process::Abort;
use std::{fs, io};

// A reader and a writer that a signal interrupts at first, and that then take or give nothing.
#[derive(Drop)]
struct Stalled {
    interruptions: u8,
}

impl Stalled {
    fn call(&mut self) -> io::Result<usize>
        ensures { IfOk result (λ n. n ≡ 0) }
    {
        if self.interruptions == 0 {
            return Ok(0);
        }
        self.interruptions -= 1;
        Err(io::Error::from(ErrorKind::Interrupted))
    }
}

impl Read for Stalled {
    fn read(&mut self, _buf: &mut [u8]) -> io::Result<usize> {
        self.call()
    }
}

impl Write for Stalled {
    fn write(&mut self, _buf: &[u8]) -> io::Result<usize> {
        self.call()
    }

    fn flush(&mut self) -> io::Result<()> {
        Ok(())
    }
}

/// Names and the most bytes that are read of each, and why that is refused. The file has 70,000 bytes.
static REFUSALS: [(&str, usize, ReadRefusal); 6] = [
    ("host_files.tmp", 69999, ReadRefusal::TooLong),
    ("host_files.tmp", 0, ReadRefusal::TooLong),
    ("host_missing.tmp", 10, ReadRefusal::Missing),
    ("host_missing.tmp/below", 10, ReadRefusal::Missing),
    // a file where a folder would have to be
    ("host_files.tmp/below", 10, ReadRefusal::Failed),
    (".", 10, ReadRefusal::Failed),
];

/// The bytes are written, and read again where just as many are wanted and where more are.
fn expect_kept(
    rt: &impl Abort,
    alloc: Global,
    files: &mut impl FileStore,
    name: &str,
    bytes: &[u8],
) {
    expect(rt, &files.write(name, bytes), &Ok(()), bytes.len());
    for most in [bytes.len(), 100_000] {
        let read = files.read(alloc, name, most).expect(rt, "the whole file");
        expect(rt, &read.as_slice(), &bytes, most);
    }
}

/// What the rows name is refused, and so is a text for a folder.
fn expect_refusals(rt: &impl Abort, alloc: Global, files: &mut impl FileStore) {
    for (name, most, refusal) in REFUSALS.iter() {
        let found = files.read(alloc, name, *most).err();
        expect(rt, &found, &Some(*refusal), *name);
    }
    let refused = Err(WriteRefusal::Failed);
    expect(rt, &files.write(".", b"text"), &refused, "a folder");
}

// 70,000 bytes take several reads. The folder and the missing names are real.
#[test]
fn files(rt: HostRuntime) {
    let alloc = rt.alloc();
    let name = "host_files.tmp";
    let long: Vec<u8> = vec![in alloc; 5; 70000].expect(&rt, "memory");
    let mut files = HostFiles::new(&rt);
    let longer = b"longer than what comes next".as_slice();
    for bytes in [longer, b"", b"text", long.as_slice()] {
        expect_kept(&rt, alloc, &mut files, name, bytes);
    }
    expect_refusals(&rt, alloc, &mut files);
    fs::remove_file(&rt, name).expect(&rt, name);
}

/// The input gives these, one after the other.
fn expect_bytes(
    rt: &impl Abort,
    input: &mut impl Source,
    wanted: &[Result<Option<u8>, Failed>],
    of: &str,
) {
    for answer in wanted {
        expect(rt, &input.next_byte(), answer, of);
    }
}

#[test]
fn input(rt: HostRuntime) {
    let name = "host_input.tmp";
    fs::write(&rt, name, "ab").expect(&rt, name);
    let mut file = HostInput::new(fs::open(&rt, name).expect(&rt, name));
    let bytes = [Ok(Some(b'a')), Ok(Some(b'b')), Ok(None), Ok(None)];
    expect_bytes(&rt, &mut file, &bytes, "two bytes and the end");
    fs::remove_file(&rt, name).expect(&rt, name);
    let mut folder = HostInput::new(fs::open(&rt, ".").expect(&rt, "."));
    expect_bytes(&rt, &mut folder, &[Err(Failed)], "a folder");
    let mut stalled = HostInput::new(Stalled { interruptions: 3 });
    expect_bytes(&rt, &mut stalled, &[Ok(None)], "a reader that stalls");
}

/// The output takes the bytes, or refuses them.
fn expect_put(
    rt: &impl Abort,
    output: &mut impl Sink,
    bytes: &[u8],
    wanted: Result<(), WriteRefusal>,
) {
    expect(rt, &output.put_all(bytes), &wanted, bytes.len());
}

// `/dev/full` refuses each byte.
#[test]
fn output(rt: HostRuntime) {
    let name = "host_output.tmp";
    let mut file = HostOutput::new(fs::create(&rt, name).expect(&rt, name));
    for (bytes, all) in [("one", "one"), ("two", "onetwo")] {
        expect_put(&rt, &mut file, bytes.as_bytes(), Ok(()));
        let written = fs::read(&rt, name).expect(&rt, name);
        expect(&rt, &written.as_slice(), &all.as_bytes(), all);
    }
    fs::remove_file(&rt, name).expect(&rt, name);
    let full = OpenOptions::new().write(true).open(&rt, "/dev/full");
    let mut full = HostOutput::new(full.expect(&rt, "/dev/full"));
    let mut stalled = HostOutput::new(Stalled { interruptions: 3 });
    let failed = Err(WriteRefusal::Failed);
    expect_put(&rt, &mut full, b"one", failed);
    expect_put(&rt, &mut stalled, b"one", failed);
    expect_put(&rt, &mut stalled, b"", Ok(()));
    expect_put(&rt, &mut HostOutput::new(rt.stdout()), b"", Ok(()));
    expect_put(&rt, &mut HostOutput::new(rt.stderr()), b"", Ok(()));
}
