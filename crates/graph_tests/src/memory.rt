//! The stores, sources and sinks in memory: which of their calls fail, in order.

use crate::expected::expect;
use pcc_outside::{
    Failed, FileStore, MemFiles, MemSink, MemSource, ReadRefusal, Sink, Source, SureSink,
    SureSource, WriteRefusal,
};

// The second call fails and takes nothing.
#[test]
fn sink_calls(rt: HostRuntime) {
    let alloc = rt.alloc();
    let mut sink = MemSink::new(alloc, [2].to_vec(alloc).expect(&rt, "a number"));
    let answers = [
        sink.put_all(b"one"),
        sink.put_all(b"two"),
        sink.put_all(b"three"),
    ];
    let wanted = [Ok(()), Err(WriteRefusal::Failed), Ok(())];
    expect(&rt, &answers, &wanted, "the calls");
    expect(&rt, &sink.taken(), &b"onethree".as_slice(), "what is taken");
}

// Calls 2 and 5 fail; what is placed or looked at is no call.
#[test]
fn file_calls(rt: HostRuntime) {
    let alloc = rt.alloc();
    let calls = [2, 5].to_vec(alloc).expect(&rt, "numbers");
    let mut files = MemFiles::new(alloc, calls);
    expect(&rt, &files.place("a", ONE), &Ok(()), "a");
    let read = files.read(alloc, "a", 3).expect(&rt, "call 1");
    expect(&rt, &read.as_slice(), &ONE, "call 1");
    let refusals = [
        files.read(alloc, "a", 3).err(),
        files.read(alloc, "b", 3).err(),
        files.read(alloc, "a", 2).err(),
    ];
    let wanted = [
        Some(ReadRefusal::Failed),
        Some(ReadRefusal::Missing),
        Some(ReadRefusal::TooLong),
    ];
    expect(&rt, &refusals, &wanted, "calls 2 to 4");
    for (text, answer, left) in WRITES.iter() {
        let written = files.write("b", text);
        expect(
            &rt,
            &(written, files.content("b")),
            &(*answer, *left),
            "a write",
        );
    }
    expect(&rt, &files.content("a"), &Some(ONE), "a");
}

const ONE: &[u8] = b"one";

/// Texts that are written one after the other, what each write answers, and what the file holds after it.
const WRITES: [(&[u8], Result<(), WriteRefusal>, Option<&[u8]>); 3] = [
    (b"two", Err(WriteRefusal::Failed), None),
    (b"two", Ok(()), Some(b"two")),
    (b"three", Ok(()), Some(b"three")),
];

// The second call fails and takes nothing.
#[test]
fn source_calls(rt: HostRuntime) {
    let alloc = rt.alloc();
    let bytes = [7, 8].to_vec(alloc).expect(&rt, "bytes");
    let calls = [2].to_vec(alloc).expect(&rt, "a number");
    let mut source = MemSource::new(bytes, calls);
    let answers = [
        source.next_byte(),
        source.next_byte(),
        source.next_byte(),
        source.next_byte(),
        source.next_byte(),
    ];
    let wanted = [Ok(Some(7)), Err(Failed), Ok(Some(8)), Ok(None), Ok(None)];
    expect(&rt, &answers, &wanted, "the calls");
}

#[test]
fn never_refuse(rt: HostRuntime) {
    let mut source = SureSource::new([7].to_vec(rt.alloc()).expect(&rt, "a byte"));
    let answers = [source.next_byte(), source.next_byte(), source.next_byte()];
    expect(
        &rt,
        &answers,
        &[Ok(Some(7)), Ok(None), Ok(None)],
        "a byte and the end",
    );
    expect(&rt, &SureSink::new().put_all(ONE), &Ok(()), "a sink");
}
