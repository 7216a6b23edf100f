ghost use Rattle.std.specs.Prelude.{◌≡◌, ◌+◌, ◌≤◌, ◌++◌, length, OnOk, IfOk, vec_len};
ghost use Rattle.pcc_base.specs.Bytes.{zeros};
ghost use Rattle.elf_image.specs.Layout.{elf_header, image_bytes, program_header};
ghost use Rattle.elf_image.specs.Segments.{parts_of};

use crate::image::{Image, PAGE, TEXT_ADDRESS};
use crate::program_header::{PF_R, PF_W, PF_X, PROGRAM_HEADER, PT_LOAD, ProgramHeader};
use byteorder::{ByteOrder, LittleEndian};
use pcc_base::NoMemory;
use std::alloc::Global;

/// The bytes of the ELF header and of the two program headers.
const HEADERS: usize = 52 + 2 * 32;

/// Puts bytes that are 0 at the end, a page of them at most.
fn push_zeros(out: &mut Vec<u8>, count: usize) -> Result<(), NoMemory>
    requires { count ≤ 4096 }
    ensures { OnOk result (out.new.items ≡ out.old.items ++ zeros count) }
{
    out.resize(out.len() + count, 0)?;
    Ok(())
}

/// Puts the ELF header at the end (ELF, "ELF Header").
fn push_elf_header(out: &mut Vec<u8>, entry: u32) -> Result<(), NoMemory>
    ensures { OnOk result (out.new.items ≡ out.old.items ++ elf_header entry) }
{
    // `e_ident`: the four magic bytes, 32 bits, the lowest byte first, version 1. Then `e_type` ET_EXEC and
    // `e_machine` EM_386.
    out.extend_from_slice(&[
        0x7f, b'E', b'L', b'F', 1, 1, 1, 0, 0, 0, 0, 0, 0, 0, 0, 0, 2, 0, 3, 0,
    ])?;
    // `e_version`, `e_entry`, `e_phoff`, `e_shoff`, `e_flags`
    let mut bytes = [0u8; 20];
    LittleEndian::write_u32_into(&[1, entry, 52, 0, 0], &mut bytes);
    out.extend_from_slice(&bytes)?;
    // `e_ehsize`, `e_phentsize`, `e_phnum`, and no sections
    out.extend_from_slice(&[52, 0, 32, 0, 2, 0, 0, 0, 0, 0, 0, 0])?;
    Ok(())
}

/// Puts a program header of type `PT_LOAD` at the end (ELF, "Program Header").
fn push_program_header(out: &mut Vec<u8>, header: ProgramHeader) -> Result<(), NoMemory>
    ensures { OnOk result (out.new.items ≡ out.old.items
        ++ program_header header.offset header.address header.file_size header.memory_size header.flags) }
{
    let fields = [
        PT_LOAD,
        header.offset,
        header.address,
        header.address,
        header.file_size,
        header.memory_size,
        header.flags,
        PAGE as u32,
    ];
    let mut bytes = [0u8; PROGRAM_HEADER];
    LittleEndian::write_u32_into(&fields, &mut bytes);
    out.extend_from_slice(&bytes)?;
    Ok(())
}

/// The bytes of an image file: the headers, the text from the first page on, and the data from the
/// next whole page on. The only refusal is want of memory.
pub fn write_image(alloc: Global, image: &Image) -> Result<Vec<u8>, NoMemory>
    requires { vec_len image.now.text + vec_len image.now.data_bytes ≤ 1200000000 }
    ensures { IfOk result (λ file. file.items ≡ image_bytes (parts_of image.now)) }
{
    let text_len = image.text.len();
    let data_len = image.data_bytes.len();
    let text_span = image.text_span();
    let text_header = ProgramHeader {
        offset: PAGE as u32,
        address: TEXT_ADDRESS,
        file_size: text_len as u32,
        memory_size: text_len as u32,
        flags: PF_R | PF_X,
    };
    let data_header = ProgramHeader {
        offset: (PAGE + text_span) as u32,
        address: TEXT_ADDRESS + text_span as u32,
        file_size: data_len as u32,
        memory_size: image.data_memory(),
        flags: PF_R | PF_W,
    };
    let mut out = Vec::with_capacity(alloc, PAGE + text_span + data_len)?;
    push_elf_header(&mut out, image.entry)?;
    push_program_header(&mut out, text_header)?;
    push_program_header(&mut out, data_header)?;
    push_zeros(&mut out, PAGE - HEADERS)?;
    out.extend_from_slice(&image.text)?;
    push_zeros(&mut out, text_span - text_len)?;
    out.extend_from_slice(&image.data_bytes)?;
    Ok(out)
}
