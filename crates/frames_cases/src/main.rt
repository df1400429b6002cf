// Runs cases through the frame reader and writer and prints what they answer: 01, Frames. The expected output was worked out from the paper.
#![tactic(auto)]

mod run;
mod show;

use figures::loads::{Flags, Load, Message};
use figures::names::{Interval, KeyDomain, KeyId, RightName, Timestamp, Tokens};
use frames::Frame;
use run::{Sample, back_case, write_cases};
use std::io;
use std::io::{BufWriter, Write};

const ID: KeyId = KeyId {
    domain: KeyDomain(0xA1, 0xA2, 0xA3),
    group: 0xB1B2,
    number: 0xC1C2,
};

const NAME: RightName = RightName {
    id: ID,
    interval: Interval {
        low: Timestamp(0xD1D2D3D4),
        high: Timestamp(0xE1E2E3E4),
    },
    spe: 0x0C,
};

// A kind that is none, at each length of the table.
fn no_kind<W: Write>(out: &mut W, kind: u8) -> io::Result<()> {
    Sample::new(kind, 0, kind).read(out, 1)?;
    Sample::new(kind, 12, 1).read(out, 13)?;
    Sample::new(kind, 0, kind).read(out, 17)?;
    Sample::new(kind, 17, 0).read(out, 26)?;
    Sample::new(kind, 17, 2).read(out, 42)
}

// A load of one byte, and one short of, just at and one past each length.
fn load_lengths<W: Write>(out: &mut W, flags: u8) -> io::Result<()> {
    let load = Sample::new(1, 17, flags);
    for size in [1, 25, 26, 27, 41, 42, 43] {
        load.read(out, size)?;
    }
    Ok(())
}

fn each_flag<W: Write>(out: &mut W) -> io::Result<()> {
    for flags in [0x00, 0x01, 0x02, 0x04, 0x08, 0x10, 0x20, 0x40, 0x80, 0x03] {
        let load = Sample::new(1, 17, flags);
        load.read(out, 26)?;
        load.read(out, 42)?;
    }
    Ok(())
}

fn message_lengths<W: Write>(out: &mut W) -> io::Result<()> {
    let good = Sample::new(2, 12, 1);
    for size in [1, 12, 13, 14] {
        good.read(out, size)?;
    }
    Ok(())
}

fn each_mark<W: Write>(out: &mut W) -> io::Result<()> {
    for mark in [0x00, 0x01, 0x02, 0xFF] {
        Sample::new(2, 12, mark).read(out, 13)?;
    }
    Ok(())
}

fn rights<W: Write>(out: &mut W, kind: u8) -> io::Result<()> {
    let right = Sample::new(kind, 0, kind);
    for size in [1, 16, 17, 18] {
        right.read(out, size)?;
    }
    Ok(())
}

fn reader_cases<W: Write>(out: &mut W) -> io::Result<()> {
    Sample::new(0, 0, 0).read(out, 0)?;
    no_kind(out, 0x00)?;
    no_kind(out, 0x05)?;
    no_kind(out, 0xFF)?;
    load_lengths(out, 0)?;
    load_lengths(out, 2)?;
    each_flag(out)?;
    message_lengths(out)?;
    each_mark(out)?;
    rights(out, 3)?;
    rights(out, 4)
}

fn load(add: bool, key: bool) -> Frame {
    Frame::Load(Load {
        name: NAME,
        flags: Flags { add, key },
        amount: 0x51525354,
        cost: Tokens(0x61626364),
    })
}

fn message(good: bool) -> Frame {
    Frame::Message(Message {
        id: ID,
        ts: Timestamp(0xD1D2D3D4),
        good,
    })
}

// Frames of every kind, each with one byte less than it has.
fn each_frame() -> [(Frame, u8); 8] {
    [
        (load(false, false), 25),
        (load(true, false), 25),
        (load(false, true), 41),
        (load(true, true), 41),
        (message(true), 12),
        (message(false), 12),
        (Frame::Report(NAME), 16),
        (Frame::Delete(NAME), 16),
    ]
}

fn writer_cases<W: Write>(out: &mut W) -> io::Result<()> {
    for (frame, short) in each_frame() {
        write_cases(out, frame, short)?;
    }
    Ok(())
}

fn back_cases<W: Write>(out: &mut W) -> io::Result<()> {
    for (frame, _) in each_frame() {
        back_case(out, frame)?;
    }
    Ok(())
}

fn copy_cases<W: Write>(out: &mut W) -> io::Result<()> {
    Sample::new(1, 17, 1).copy(out, 26, 27)?;
    Sample::new(1, 17, 3).copy(out, 42, 42)?;
    Sample::new(2, 12, 1).copy(out, 13, 13)?;
    Sample::new(3, 0, 3).copy(out, 17, 18)?;
    Sample::new(4, 0, 4).copy(out, 17, 16)?;
    Sample::new(1, 17, 4).copy(out, 26, 26)
}

fn main(rt: HostRuntime) -> io::Result<()> {
    let mut out = BufWriter::new(rt.alloc(), rt.stdout())?;
    reader_cases(&mut out)?;
    writer_cases(&mut out)?;
    back_cases(&mut out)?;
    copy_cases(&mut out)?;
    out.flush()
}
