//! The parts of reading a file: its header, the program headers that load segments, and these segments.

ghost use Rattle.std.specs.Prelude.{◌≡◌, ◌+◌, ◌*◌, ◌≤◌, IfOk, All, length, map, sum_by};
ghost use Rattle.std.specs.Bool.{Decides};
ghost use Rattle.elf_image.specs.Fields.{IsExecutable, header_count, headers_offset, loads_in};
ghost use Rattle.elf_image.specs.Segments.{IsFilePart, IsInFile, IsPiece, piece_at, piece_of};
ghost use Rattle.elf_image.specs.Headers.{header_of};

use crate::loadable::MEMORY_LIMIT;
use crate::loaded::Segment;
use crate::program_header::{PROGRAM_HEADER, ProgramHeader, read_half, read_word};
use pcc_base::NoMemory;
use std::alloc::Global;

/// The bytes of the ELF header (`e_ehsize`).
const ELF_HEADER: usize = 52;

/// The first bytes of `e_ident`: the magic bytes, 32 bits, the lowest byte first, version 1.
const IDENTITY: [u8; 7] = [0x7f, b'E', b'L', b'F', 1, 1, 1];

/// Where the fields of the ELF header stand: `e_type`, `e_machine`, `e_version`, `e_phoff`, `e_phentsize` and
/// `e_phnum`.
const TYPE: usize = 16;

const MACHINE: usize = 18;

const VERSION: usize = 20;

const HEADERS_OFFSET: usize = 28;

const HEADER_SIZE: usize = 42;

const HEADER_COUNT: usize = 44;

/// `e_type` of a program that is not relocated.
const ET_EXEC: u16 = 2;

/// `e_machine` of the Intel 80386.
const EM_386: u16 = 3;

/// The ELF header is that of a program for the Intel 80386, and at least one program header follows.
pub(crate) fn is_executable(bytes: &[u8]) -> bool
    ensures { Decides result (IsExecutable bytes.now) }
{
    if bytes.len() < ELF_HEADER {
        return false;
    }
    bytes.starts_with(&IDENTITY)
        && read_half(bytes, TYPE) == ET_EXEC
        && read_half(bytes, MACHINE) == EM_386
        && read_word(bytes, VERSION) == 1
        && read_half(bytes, HEADER_SIZE) as usize == PROGRAM_HEADER
        && read_half(bytes, HEADER_COUNT) >= 1
}

/// All program headers lie in the file.
pub(crate) fn has_headers(bytes: &[u8]) -> bool
    requires { 52 ≤ length bytes.now }
    ensures { Decides result (IsFilePart bytes.now (headers_offset bytes.now) (32 * header_count bytes.now)) }
{
    let start = read_word(bytes, HEADERS_OFFSET) as usize;
    let count = read_half(bytes, HEADER_COUNT) as usize;
    start + PROGRAM_HEADER * count <= bytes.len()
}

/// The program headers whose segments are loaded, in order.
pub(crate) fn load_headers(alloc: Global, bytes: &[u8]) -> Result<Vec<ProgramHeader>, NoMemory>
    requires long { 52 ≤ length bytes.now }
    requires in_file { IsFilePart bytes.now (headers_offset bytes.now) (32 * header_count bytes.now) }
    ensures { IfOk result (λ headers. map header_of headers.items ≡ loads_in (header_count bytes.now) bytes.now) }
{
    let start = read_word(bytes, HEADERS_OFFSET) as usize;
    let count = read_half(bytes, HEADER_COUNT) as usize;
    let mut headers = Vec::new(alloc);
    for k in 0..count {
        if let Some(header) = ProgramHeader::read(bytes, start + PROGRAM_HEADER * k) {
            headers.push(header)?;
        }
    }
    Ok(headers)
}

/// Each segment's bytes lie in the file, fit into its memory, and this ends within the address space.
pub(crate) fn are_sound(bytes: &[u8], headers: &[ProgramHeader]) -> bool
    ensures { Decides result (All (λ h. IsInFile bytes.now h × IsPiece (piece_at bytes.now h))
        (map header_of headers.now)) }
{
    headers.iter().all(|header| header.is_sound(bytes))
}

/// The segments have no more memory together than a machine has.
pub(crate) fn are_few(headers: &[ProgramHeader]) -> bool
    ensures { Decides result (sum_by (λ h. h.memory_size) (map header_of headers.now) ≤ 1342177280) }
{
    let mut free = MEMORY_LIMIT;
    for header in headers {
        match free.checked_sub(header.memory_size) {
            None => return false,
            Some(left) => free = left,
        }
    }
    true
}

/// The segments of program headers.
pub fn segments(
    alloc: Global,
    bytes: &[u8],
    headers: &[ProgramHeader],
) -> Result<Vec<Segment>, NoMemory>
    requires { All (IsInFile bytes.now) (map header_of headers.now) }
    ensures { IfOk result (λ segments. map piece_of segments.items
        ≡ map (piece_at bytes.now) (map header_of headers.now)) }
{
    let mut segments = Vec::with_capacity(alloc, headers.len())?;
    for header in headers {
        segments.push(header.segment(alloc, bytes)?)?;
    }
    Ok(segments)
}
