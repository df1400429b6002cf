// Runs the cases of standard input through the book and prints what it answers. The expected output was worked out from the paper.
#![tactic(auto)]

mod hex;

use book::Book;
use book::replies::reply_bytes;
use hex::{Hex, ROOM, bytes_after};
use std::io;
use std::io::{BufWriter, Read, Write};

// The longest standard input: what stands after it isn't read.
const LONGEST: u64 = 131072;

// The buffer that a line lends if it names none.
const USUAL: [u8; 34] = *b"; EEEEEEEEEEEEEEEEEEEEEEEEEEEEEEEE";

// One call, printed after its label.
fn call<W: Write>(out: &mut W, book: Book, frame: &[u8], key: &mut [u8]) -> io::Result<Book> {
    let called = book.call(frame, key);
    let reply = reply_bytes(called.reply);
    write!(
        out,
        ": {} answers {}, buffer {}",
        Hex(frame),
        Hex(&reply),
        Hex(key)
    )?;
    Ok(called.book)
}

// A line without a colon is a heading, after which the book is empty. Any other is a case: `label: FRAME`, or `label: FRAME; BUFFER`.
fn line<W: Write>(out: &mut W, book: Book, line: &[u8]) -> io::Result<Book> {
    let Some(colon) = line.iter().position(|c| *c == b':') else {
        out.write_all(line)?;
        return Ok(Book::empty());
    };
    let buffer = match line.iter().position(|c| *c == b';') {
        Some(semicolon) => &line[semicolon..],
        None => &USUAL,
    };
    let mut bytes = [0; ROOM];
    let mut key = [0; ROOM];
    out.write_all(&line[..colon])?;
    call(
        out,
        book,
        bytes_after(&line[colon..], &mut bytes),
        bytes_after(buffer, &mut key),
    )
}

// Each line in turn: `split_inclusive` gives none for no text, and none after a last line feed.
fn run<W: Write>(out: &mut W, text: &[u8]) -> io::Result<()> {
    let mut book = Book::empty();
    for part in text.split_inclusive(|c| *c == b'\n') {
        book = line(out, book, part.strip_suffix(b"\n").unwrap_or(part))?;
        out.write_all(b"\n")?;
    }
    Ok(())
}

fn main(rt: HostRuntime) -> io::Result<()> {
    let alloc = rt.alloc();
    let mut text = Vec::new(alloc);
    rt.stdin().take(LONGEST).read_to_end(&mut text)?;
    let mut out = BufWriter::new(alloc, rt.stdout())?;
    run(&mut out, &text)?;
    out.flush()
}
