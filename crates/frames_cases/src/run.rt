// Runs one case through the reader, the writer or both, and prints a line.
use crate::show::{Hex, Shown};
use frames::Frame;
use frames::reader::read;
use frames::round_trips::{read_and_written, written_and_read};
use frames::writer::write;
use std::io;
use std::io::Write;

// One byte more than the longest string that a case reads or writes.
const ROOM: usize = 44;

// The key that is given to the writer.
const GIVEN: [u8; 16] = [
    0xF0, 0xF1, 0xF2, 0xF3, 0xF4, 0xF5, 0xF6, 0xF7, 0xF8, 0xF9, 0xFA, 0xFB, 0xFC, 0xFD, 0xFE, 0xFF,
];

// Byte 0, and then bytes that all differ, so that a byte in the wrong place shows.
const BYTES: [u8; ROOM] = [
    0x00, 0x0A, 0x0B, 0x0C, 0x0D, 0x0E, 0x0F, 0x10, 0x11, 0x12, 0x13, 0x14, 0x15, 0x16, 0x17, 0x18,
    0x19, 0x1A, 0x1B, 0x1C, 0x1D, 0x1E, 0x1F, 0x20, 0x21, 0x22, 0x23, 0x24, 0x25, 0x26, 0x27, 0x28,
    0x29, 0x2A, 0x2B, 0x2C, 0x2D, 0x2E, 0x2F, 0x30, 0x31, 0x32, 0x33, 0x34,
];

// The bytes that a case reads the first of.
#[derive(Clone, Copy)]
pub(crate) struct Sample([u8; ROOM]);

impl Sample {
    // The bytes above with the kind, and with one byte of the case's own.
    pub(crate) fn new(kind: u8, at: usize, value: u8) -> Sample {
        let mut bytes = BYTES;
        bytes[0] = kind;
        if let Some(byte) = bytes.get_mut(at) {
            *byte = value;
        }
        Sample(bytes)
    }

    // Reads so many of them.
    pub(crate) fn read<W: Write>(&self, out: &mut W, size: usize) -> io::Result<()> {
        if let Some(bytes) = self.0.get(..size) {
            writeln!(out, "read {}: {}", Hex(bytes), Shown(read(bytes)))?;
        }
        Ok(())
    }

    // Reads so many of them, and writes what was read into some bytes EE.
    pub(crate) fn copy<W: Write>(&self, out: &mut W, size: usize, room: usize) -> io::Result<()> {
        let mut buffer = [0xEE; ROOM];
        if let (Some(bytes), Some(buffer)) = (self.0.get(..size), buffer.get_mut(..room)) {
            let answer = read_and_written(bytes, buffer);
            writeln!(
                out,
                "copy {} into {room}: {}, buffer {}",
                Hex(bytes),
                Shown(answer),
                Hex(buffer)
            )?;
        }
        Ok(())
    }
}

// Writes into so many bytes EE.
fn write_case<W: Write>(out: &mut W, frame: Frame, room: usize) -> io::Result<()> {
    let mut buffer = [0xEE; ROOM];
    if let Some(buffer) = buffer.get_mut(..room) {
        let answer = write(frame, GIVEN, buffer);
        writeln!(
            out,
            "write {} into {room}: {}, buffer {}",
            Shown(frame),
            Shown(answer),
            Hex(buffer)
        )?;
    }
    Ok(())
}

// Into no byte, one too few, just enough and one more.
pub(crate) fn write_cases<W: Write>(out: &mut W, frame: Frame, short: u8) -> io::Result<()> {
    let short = usize::from(short);
    for room in [0, short, short + 1, short + 2] {
        write_case(out, frame, room)?;
    }
    Ok(())
}

// Writes and reads back.
pub(crate) fn back_case<W: Write>(out: &mut W, frame: Frame) -> io::Result<()> {
    let answer = written_and_read(frame, GIVEN);
    writeln!(out, "back {}: {}", Shown(frame), Shown(answer))
}
