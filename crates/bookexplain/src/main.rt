// Reads reply lines, and prints beside each what it says in words.
#![tactic(auto)]

mod replies;

use anyhow::{Context, Result};
use lines::hex::REPLY_LINE;
use replies::Reply;
use std::io;
use std::io::{BufReader, BufWriter, Read, Write};

// The digits of a line, and what they say.
fn say_line<W: Write>(out: &mut W, digits: &[u8]) -> io::Result<()> {
    out.write_all(digits)?;
    match Reply::spelt(digits) {
        Some(reply) => writeln!(out, "  {reply}"),
        None => writeln!(out, "  no reply"),
    }
}

// One line, and whether to go on. What is said of it is out before the next is read.
fn explain<R: Read, W: Write>(input: &mut R, out: &mut W, line: &mut Vec<u8>) -> Result<bool> {
    line.clear();
    input
        .take(REPLY_LINE as u64)
        .read_to_end(line)
        .context("bookrun: the replies")?;
    let whole = line.len() == REPLY_LINE;
    match line.as_slice() {
        [digits @ .., _] if whole => say_line(out, digits),
        part => out.write_all(part),
    }
    .context("bookrun: standard output")?;
    out.flush().context("bookrun: standard output")?;
    Ok(whole)
}

// The turns are more than any input needs. A read wants room even where no more is to come, so the line has one byte more.
fn main(rt: HostRuntime) -> Result<()> {
    let alloc = rt.alloc();
    let mut input = BufReader::new(alloc, rt.stdin())?;
    let mut out = BufWriter::new(alloc, rt.stdout())?;
    let mut line = Vec::with_capacity(alloc, REPLY_LINE + 1)?;
    for _ in 0..u64::MAX {
        if !explain(&mut input, &mut out, &mut line)? {
            break;
        }
    }
    Ok(())
}
