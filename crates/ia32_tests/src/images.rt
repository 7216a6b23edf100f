//! The file of a small image, byte by byte, and what is read of it and of other bytes.

use crate::expected::expect;
use elf_image::{Image, ImageRefusal, read_image, write_image};
use std::alloc::Global;
use std::process::Abort;

/// The headers of the image below, field by field (ELF, "ELF Header" and "Program Header").
const HEADERS: [u8; 116] = [
    0x7f, 0x45, 0x4c, 0x46, 0x01, 0x01, 0x01, 0x00, 0x00, 0x00, 0x00, 0x00, 0x00, 0x00, 0x00, 0x00,
    0x02, 0x00, 0x03, 0x00, 0x01, 0x00, 0x00, 0x00, 0x00, 0x80, 0x04, 0x08, 0x34, 0x00, 0x00, 0x00,
    0x00, 0x00, 0x00, 0x00, 0x00, 0x00, 0x00, 0x00, 0x34, 0x00, 0x20, 0x00, 0x02, 0x00, 0x00, 0x00,
    0x00, 0x00, 0x00, 0x00,
    // the text: offset 0x1000, at 0x8048000, 1 byte in the file and in memory, read and run
    0x01, 0x00, 0x00, 0x00, 0x00, 0x10, 0x00, 0x00, 0x00, 0x80, 0x04, 0x08, 0x00, 0x80, 0x04, 0x08,
    0x01, 0x00, 0x00, 0x00, 0x01, 0x00, 0x00, 0x00, 0x05, 0x00, 0x00, 0x00, 0x00, 0x10, 0x00, 0x00,
    // the data: offset 0x2000, at 0x8049000, 4 bytes in the file, 0x4001004 in memory, read and written
    0x01, 0x00, 0x00, 0x00, 0x00, 0x20, 0x00, 0x00, 0x00, 0x90, 0x04, 0x08, 0x00, 0x90, 0x04, 0x08,
    0x04, 0x00, 0x00, 0x00, 0x04, 0x10, 0x00, 0x04, 0x06, 0x00, 0x00, 0x00, 0x00, 0x10, 0x00, 0x00,
];

/// The file of the instruction `hlt` and four bytes of data.
fn halting(rt: &impl Abort, alloc: Global) -> Vec<u8> {
    let image = Image {
        entry: 0x0804_8000,
        text: [0xf4u8].to_vec(alloc).expect(rt, "a text"),
        data_bytes: [0u8; 4].to_vec(alloc).expect(rt, "data"),
    };
    write_image(alloc, &image).expect(rt, "the file")
}

#[test]
fn writes_the_headers_and_pads(rt: HostRuntime) {
    let file = halting(&rt, rt.alloc());
    expect(&rt, &file.len(), &(4096 + 4096 + 4), "the length");
    expect(&rt, &file.starts_with(&HEADERS), &true, "the headers");
    expect(&rt, &file.get(4096), &Some(&0xf4), "the text");
}

/// Where the segments of the image stand, how many bytes they have, and whether these are read, written and run.
const SEGMENTS: [(u32, u32, (bool, bool, bool)); 2] = [
    (0x0804_8000, 1, (true, false, true)),
    (0x0804_9000, 4 + 67_112_960, (true, true, false)),
];

#[test]
fn reads_what_is_written(rt: HostRuntime) {
    let file = halting(&rt, rt.alloc());
    let loaded = read_image(rt.alloc(), &file).expect(&rt, "an image");
    expect(&rt, &loaded.entry, &0x0804_8000, "the entry");
    expect(&rt, &loaded.segments.len(), &SEGMENTS.len(), "how many");
    for (segment, wanted) in loaded.segments.iter().zip(SEGMENTS.iter()) {
        let rights = (segment.read, segment.write, segment.exec);
        let found = (segment.addr, segment.size, rights);
        expect(&rt, &found, wanted, "a segment");
    }
}

/// The bytes, which this length or place is of, are no image.
fn expect_refused(rt: &impl Abort, alloc: Global, bytes: &[u8], of: usize) {
    let refused = matches!(read_image(alloc, bytes), Err(ImageRefusal::NotImage));
    expect(rt, &refused, &true, of);
}

/// Refused are fronts of the file of these lengths, and the file where one of these bytes is 9.
#[test]
fn refuses_what_loads_nothing(rt: HostRuntime) {
    let alloc = rt.alloc();
    for length in [0, 51, 115, 8195] {
        let mut file = halting(&rt, alloc);
        file.truncate(length);
        expect_refused(&rt, alloc, &file, length);
    }
    for place in [4, 16, 45, 63, 70] {
        let mut file = halting(&rt, alloc);
        if let Some(byte) = file.get_mut(place) {
            *byte = 9;
        }
        expect_refused(&rt, alloc, &file, place);
    }
}
