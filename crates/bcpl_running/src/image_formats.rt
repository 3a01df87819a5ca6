//! The formats in which `asm` prints an image. docs/formats.md describes them.

use bc_machine_defs::Image;
use bc_word::Word;
use bcpl_cli::{AssembleOrder, ImageFormat};
use itoa::Buffer;
use std::alloc::Global;
use std::io;
use std::io::{BufWriter, Write};

/// The number of words in a line or record.
const IN_A_LINE: usize = 8;

/// The number of bytes in a record.
const IN_A_RECORD: u32 = 16;

/// The address of the first segment. The byte address is a multiple of `IN_A_RECORD`.
const SEGMENTS: usize = 520;

/// Writes a byte of a record in hexadecimal, and returns the sum of the record's bytes with it, modulo 256.
fn write_byte<W: Write>(out: &mut W, sum: u8, byte: u8) -> io::Result<u8> {
    write!(out, "{byte:02X}")?;
    Ok(sum.wrapping_add(byte))
}

/// Writes these bytes of a record like `write_byte`.
fn write_bytes<W: Write>(out: &mut W, sum: u8, bytes: &[u8]) -> io::Result<u8> {
    let mut sum = sum;
    for byte in bytes {
        sum = write_byte(out, sum, *byte)?;
    }
    Ok(sum)
}

/// Writes the words of a record like `write_byte`, each by its two bytes.
fn write_words<W: Write>(
    out: &mut W,
    sum: u8,
    words: &[Word],
    is_high_first: bool,
) -> io::Result<u8> {
    let mut sum = sum;
    for word in words {
        let bytes = if is_high_first {
            word.get().to_be_bytes()
        } else {
            word.get().to_le_bytes()
        };
        sum = write_bytes(out, sum, &bytes)?;
    }
    Ok(sum)
}

/// Writes the words in decimal, one per line.
fn write_decimal<W: Write>(out: &mut W, words: &[Word]) -> io::Result<()> {
    for word in words {
        let mut digits = Buffer::new();
        out.write_all(digits.format(word.get()).as_bytes())?;
        out.write_all(b"\n")?;
    }
    Ok(())
}

/// Writes a word by its two bytes.
fn write_binary<W: Write>(out: &mut W, word: u16, is_high_first: bool) -> io::Result<()> {
    let bytes = if is_high_first {
        word.to_be_bytes()
    } else {
        word.to_le_bytes()
    };
    out.write_all(&bytes)
}

/// Writes the base of the stack and the words, two bytes each.
fn write_all_binary<W: Write>(
    out: &mut W,
    base: u16,
    words: &[Word],
    is_high_first: bool,
) -> io::Result<()> {
    write_binary(out, base, is_high_first)?;
    for word in words {
        write_binary(out, word.get(), is_high_first)?;
    }
    Ok(())
}

/// Writes the base of the stack and the words, four hexadecimal digits per line.
fn write_hex<W: Write>(out: &mut W, base: u16, words: &[Word]) -> io::Result<()> {
    writeln!(out, "{base:04X}")?;
    for word in words {
        let word = word.get();
        writeln!(out, "{word:04X}")?;
    }
    Ok(())
}

/// Writes a C constant for the base of the stack and an array for the words.
fn write_c<W: Write>(out: &mut W, base: u16, words: &[Word]) -> io::Result<()> {
    let count = words.len();
    writeln!(
        out,
        "/* An INTCODE image, made by bcpl asm. The stack begins at stack_base. */"
    )?;
    writeln!(out, "const unsigned short stack_base = {base};")?;
    writeln!(out, "const unsigned short image[{count}] = {{")?;
    for line in words.chunks(IN_A_LINE) {
        for word in line {
            let word = word.get();
            write!(out, " {word},")?;
        }
        out.write_all(b"\n")?;
    }
    out.write_all(b"};\n")
}

/// The number of bytes of these words, which are at most `IN_A_LINE`.
fn bytes_of(words: &[Word]) -> u8 {
    (words.len().min(IN_A_LINE) * 2) as u8
}

/// Writes the record that sets the upper half of the addresses of the following Intel HEX records.
fn write_upper_half<W: Write>(out: &mut W, high: [u8; 2]) -> io::Result<()> {
    out.write_all(b":")?;
    let sum = write_bytes(out, 0, &[2, 0, 0, 4, high[0], high[1]])?;
    let check = sum.wrapping_neg();
    writeln!(out, "{check:02X}")
}

/// Writes an Intel HEX record of data.
fn write_intel_record<W: Write>(out: &mut W, low: [u8; 2], words: &[Word]) -> io::Result<()> {
    out.write_all(b":")?;
    let sum = write_bytes(out, 0, &[bytes_of(words), low[0], low[1], 0])?;
    let check = write_words(out, sum, words, false)?.wrapping_neg();
    writeln!(out, "{check:02X}")
}

/// Writes the words as Intel HEX, beginning at this address of bytes.
fn write_intel<W: Write>(out: &mut W, start: u32, words: &[Word]) -> io::Result<()> {
    let mut address = start;
    for line in words.chunks(IN_A_LINE) {
        let [top, upper, high, low] = address.to_be_bytes();
        if high == 0 && low == 0 && upper > 0 {
            write_upper_half(out, [top, upper])?;
        }
        write_intel_record(out, [high, low], line)?;
        address = address.wrapping_add(IN_A_RECORD);
    }
    out.write_all(b":00000001FF\n")
}

/// Writes the S-record of this type with these bytes and words, after the number of what follows.
fn write_s_record<W: Write>(out: &mut W, kind: u8, bytes: &[u8], words: &[Word]) -> io::Result<()> {
    let count = (bytes.len().min(IN_A_LINE) as u8)
        .wrapping_add(bytes_of(words))
        .wrapping_add(1);
    write!(out, "S{kind}")?;
    let sum = write_byte(out, 0, count)?;
    let sum = write_bytes(out, sum, bytes)?;
    let check = !write_words(out, sum, words, true)?;
    writeln!(out, "{check:02X}")
}

/// Writes the base of the stack, in the first record, and the words as Motorola S-records, beginning at this address of
/// bytes.
fn write_motorola<W: Write>(out: &mut W, base: u16, start: u32, words: &[Word]) -> io::Result<()> {
    let [high, low] = base.to_be_bytes();
    write_s_record(out, 0, &[0, 0, high, low], &[])?;
    let mut address = start;
    for line in words.chunks(IN_A_LINE) {
        let [_, upper, high, low] = address.to_be_bytes();
        write_s_record(out, 2, &[upper, high, low], line)?;
        address = address.wrapping_add(IN_A_RECORD);
    }
    write_s_record(out, 8, &[0, 0, 0], &[])
}

/// Writes the image up to the base of the stack as ordered.
fn write_image<W: Write>(out: &mut W, image: &Image, order: &AssembleOrder<'_>) -> io::Result<()> {
    let base = image.stack_base.get();
    let words = &image.words.as_slice()[..usize::from(base)];
    let first = if order.only_segments { SEGMENTS } else { 0 };
    let words = words.get(first..).unwrap_or(&[]);
    let start = (first * 2) as u32;
    match order.format {
        ImageFormat::Words => write_decimal(out, words),
        ImageFormat::Hex => write_hex(out, base, words),
        ImageFormat::LittleEndian => write_all_binary(out, base, words, false),
        ImageFormat::BigEndian => write_all_binary(out, base, words, true),
        ImageFormat::IntelHex => write_intel(out, start, words),
        ImageFormat::CSource => write_c(out, base, words),
        ImageFormat::Srec => write_motorola(out, base, start, words),
    }
}

/// Prints the image up to the base of the stack as ordered.
pub fn print_image<O: Write + Drop>(
    alloc: Global,
    image: &Image,
    order: &AssembleOrder<'_>,
    out: &mut O,
) -> io::Result<()> {
    let mut out = BufWriter::new(alloc, out)?;
    write_image(&mut out, image, order)?;
    out.flush()
}
