// Further cases beside the marked table of document 01, run through the compiled functions: varints and signed varints
// written and read, floats converted, and the whole case measured, read into stores, and refused.
#![tactic(auto)]

use container::sections::Stopped;
use encoding::{EncodingWriter, FloatType, Written};
use reading::{Reader, Refused};
use std::io;

// The bytes of the data below a place, each in hexadecimal behind a space, and a line's end.
fn show_bytes(rt: &impl Print, data: &[u8], upto: usize) -> io::Result<()> {
    for b in data.iter().take(upto) {
        print!(rt; " {b:02x}")?;
    }
    println!(rt; "")
}

fn show_refused(rt: &impl Print, x: Refused) -> io::Result<()> {
    let no = x.refusal.number();
    let at = x.at;
    println!(rt; " refused {no} at {at}")
}

fn show_stopped(rt: &impl Print, x: Stopped) -> io::Result<()> {
    let no = x.refusal.number();
    let stage = x.stage.number();
    println!(rt; "refused {no} in stage {stage}")
}

// What a writer left in the output: the bytes before its place, or the refusal's number.
fn show_written(rt: &impl Print, out: &[u8], r: Written) -> io::Result<()> {
    match r {
        Ok(w) => show_bytes(rt, out, w.tell()),
        Err(refusal) => {
            let no = refusal.number();
            println!(rt; " refused {no}")
        }
    }
}

fn write_varint(rt: &impl Print, value: u64) -> io::Result<()> {
    let mut out = [0u8; 10];
    print!(rt; "{value} writes")?;
    let r = EncodingWriter::new().write_varint(&mut out, value);
    show_written(rt, &out, r)
}

// Room for two bytes alone.
fn write_varint_short(rt: &impl Print, value: u64) -> io::Result<()> {
    let mut out = [0u8; 2];
    print!(rt; "{value} into two bytes writes")?;
    let r = EncodingWriter::new().write_varint(&mut out, value);
    show_written(rt, &out, r)
}

// A signed number, shown as its 64 bits.
fn write_signed(rt: &impl Print, value: i64) -> io::Result<()> {
    let mut out = [0u8; 10];
    let bits = encoding::bits_of_i64(value);
    print!(rt; "{bits:016x} writes")?;
    let r = EncodingWriter::new().write_signed_varint(&mut out, value);
    show_written(rt, &out, r)
}

fn read_varint(rt: &impl Print, data: &[u8]) -> io::Result<()> {
    match Reader::new().read_varint(data) {
        Ok((v, r)) => {
            let next = r.pos;
            println!(rt; "reads {v} up to {next}")
        }
        Err(x) => {
            print!(rt; "reads")?;
            show_refused(rt, x)
        }
    }
}

fn read_signed(rt: &impl Print, data: &[u8]) -> io::Result<()> {
    match Reader::new().read_signed_varint(data) {
        Ok((v, r)) => {
            let bits = encoding::bits_of_i64(v);
            let next = r.pos;
            println!(rt; "reads {bits:016x} up to {next}")
        }
        Err(x) => {
            print!(rt; "reads")?;
            show_refused(rt, x)
        }
    }
}

// The bits of an f64, its two codes, and how it is written as it is.
fn convert(rt: &impl Print, bits: u64) -> io::Result<()> {
    let e4m3fn = float8::f64_to_f8e4m3fn(bits);
    let e5m2 = float8::f64_to_f8e5m2(bits);
    print!(rt; "{bits:016x} is {e4m3fn:02x} and {e5m2:02x}, as f64")?;
    let mut out = [0u8; 10];
    let r = EncodingWriter::new().write_ap_float(&mut out, bits, FloatType::F64);
    show_written(rt, &out, r)
}

// How large the stores of a file have to be, and then what it leaves in stores of 22 words and 4 bytes.
fn read_file(rt: &impl Print, file: &[u8]) -> io::Result<()> {
    match decoder::measure(file) {
        Ok(need) => {
            let words = need.words;
            let bytes = need.bytes;
            println!(rt; "{words} words and {bytes} bytes")?;
        }
        Err(x) => show_stopped(rt, x)?,
    }
    let mut sheet = [0xEEu8; 176];
    let mut pool = [0xEEu8; 4];
    match decoder::read(file, &mut sheet, &mut pool) {
        Ok(_) => {
            show_bytes(rt, &sheet, 176)?;
            show_bytes(rt, &pool, 4)
        }
        Err(x) => show_stopped(rt, x),
    }
}

// A store of one word too few is refused, and stays as it was.
fn read_short(rt: &impl Print, file: &[u8]) -> io::Result<()> {
    let mut sheet = [0xEEu8; 160];
    let mut pool = [0xEEu8; 4];
    match decoder::read(file, &mut sheet, &mut pool) {
        Ok(_) => println!(rt; "read"),
        Err(x) => {
            show_stopped(rt, x)?;
            show_bytes(rt, &sheet, 8)?;
            show_bytes(rt, &pool, 4)
        }
    }
}

fn numbers(rt: &impl Print) -> io::Result<()> {
    for value in [0, 127, 128, 16383, 16384, 1 << 63, u64::MAX] {
        write_varint(rt, value)?;
    }
    for value in [16383, 16384] {
        write_varint_short(rt, value)?;
    }
    for value in [0, -1, 1, -64, 64, i64::MAX, i64::MIN] {
        write_signed(rt, value)?;
    }
    Ok(())
}

fn reads(rt: &impl Print) -> io::Result<()> {
    read_varint(rt, b"\x7F\x00")?;
    read_varint(rt, b"\xFF\x7F")?;
    read_varint(rt, b"\x80\x80\x80\x00")?;
    read_varint(rt, b"\x80")?;
    read_varint(rt, b"\x80\x80\x80\x80\x80\x80\x80\x80\x80\x02")?;
    read_varint(rt, b"\x80\x80\x80\x80\x80\x80\x80\x80\x80\x80\x00")?;
    read_signed(rt, b"\x7F")?;
    read_signed(rt, b"\x80\x01")?;
    read_signed(rt, b"\xFF\xFF\xFF\xFF\xFF\xFF\xFF\xFF\xFF\x01")?;
    read_signed(rt, b"\xFF")
}

fn floats(rt: &impl Print) -> io::Result<()> {
    let bits: [u64; 10] = [
        0x0000_0000_0000_0000,
        0x8000_0000_0000_0000,
        0x0000_0000_0000_0001,
        0x3FF0_0000_0000_0000,
        0xBFF8_0000_0000_0000,
        0x407C_0000_0000_0000,
        0x407D_0000_0000_0000,
        0xFFF0_0000_0000_0000,
        0x7FF8_0000_0000_0000,
        0xFFF8_0000_0000_0000,
    ];
    for b in bits {
        convert(rt, b)?;
    }
    Ok(())
}

fn files(rt: &impl Print) -> io::Result<()> {
    let whole =
        b"\x7FTileIR\x00\x0D\x01\x00\x00\x81\x0F\x04\xCB\x02\xCB\xCB\xCB\x00\x00\x00\x00\x01\x00\x00\x00abc\x00";
    read_file(rt, whole)?;
    read_short(rt, whole)?;
    let unpadded =
        b"\x7FTileIR\x00\x0D\x01\x00\x00\x81\x0F\x04\x00\x02\xCB\xCB\xCB\x00\x00\x00\x00\x01\x00\x00\x00abc\x00";
    read_file(rt, unpadded)?;
    let outside =
        b"\x7FTileIR\x00\x0D\x01\x00\x00\x81\x0F\x04\xCB\x02\xCB\xCB\xCB\x00\x00\x00\x00\x09\x00\x00\x00abc\x00";
    read_file(rt, outside)?;
    read_file(rt, b"\x7FTileIS\x00\x0D\x01\x00\x00\x00")?;
    read_file(rt, b"\x7FTileIR\x00\x0D\x01\x00\x00")
}

fn main(rt: HostRuntime) -> io::Result<()> {
    numbers(&rt)?;
    reads(&rt)?;
    floats(&rt)?;
    files(&rt)
}
