// The key book over lines: frames from standard input, replies to standard output, from an empty book.
#![tactic(auto)]

ghost use Rattle.std.specs.Prelude.{◌≡◌, [], OnOk};
ghost use Rattle.std.specs.Io.{ReadsAtMost};
ghost use Rattle.std.specs.Io.KnownBytes.{ReadConsumes};
ghost use Rattle.lines.specs.Feeding.{seen, started};
ghost use Rattle.bookrun.specs.Prints.{Answers, Ends, Runs};

use anyhow::{Context, Result};
use lines::{Fed, State};
use std::io;
use std::io::{ErrorKind, Read, Write};

// The bytes of a buffer: 64 KiB.
const ROOM: usize = 65536;

// One read: how many bytes came, 0 at the end. An interrupted read is made again.
fn read<R: Read>(input: &mut R, buf: &mut [u8]) -> io::Result<usize>
    ensures bound { ReadsAtMost result buf.new }
    ensures bytes { ReadConsumes (R.Read.remaining input.old) (R.Read.remaining input.new) result buf.new }
{
    for _ in 0..u64::MAX {
        match input.read(buf) {
            Err(e) if e.kind() == ErrorKind::Interrupted => {}
            come => return come,
        }
    }
    input.read(buf)
}

// The lines so far, and the way of their replies to the output.
#[derive(Drop)]
struct Replies<W> {
    state: State,
    room: [u8; ROOM],
    output: W,
}

impl<W: Write> Replies<W> {
    fn new(output: W) -> Replies<W>
        ensures state { seen result.state ≡ started }
        ensures output { result.output ≡ output }
    {
        Replies {
            state: lines::start(),
            room: [0; ROOM],
            output,
        }
    }

    // Answers all of a chunk. There is a write whenever the replies fill the buffer, and one at the end.
    fn answer(&mut self, chunk: &[u8]) -> io::Result<()>
        ensures { OnOk result (Answers (seen self.old.state) chunk.now (seen self.new.state)
            (W.Write.contents self.old.output) (W.Write.contents self.new.output)) }
    {
        let mut rest = chunk;
        while !rest.is_empty() {
            let Fed { state, used, made } = lines::feed(self.state, rest, &mut self.room);
            self.state = state;
            self.output.write_all(&self.room[..made])?;
            (_, rest) = rest.split_at(used);
        }
        Ok(())
    }

    // Answers a last line without line feed.
    fn finish(&mut self) -> io::Result<()>
        ensures { OnOk result (Ends (seen self.old.state) []
            (W.Write.contents self.old.output) (W.Write.contents self.new.output)) }
    {
        let Fed { state, made, .. } = lines::finish(self.state, &mut self.room);
        self.state = state;
        self.output.write_all(&self.room[..made])?;
        // Standard output holds nothing back, and another writer may.
        self.output.flush()
    }
}

// Answers all lines. A proved loop has to end, and nothing says that the input does: it counts to a number that no run reaches.
fn run<R: Read, W: Write>(input: &mut R, replies: &mut Replies<W>) -> Result<()>
    ensures { OnOk result (Runs (seen replies.old.state)
        (R.Read.remaining input.old) (R.Read.remaining input.new)
        (W.Write.contents replies.old.output) (W.Write.contents replies.new.output)) }
{
    let mut chunk = [0; ROOM];
    for _ in 0..u64::MAX {
        let n = read(input, &mut chunk).context("bookrun: standard input")?;
        if n == 0 {
            break;
        }
        replies
            .answer(&chunk[..n])
            .context("bookrun: standard output")?;
    }
    replies.finish().context("bookrun: standard output")
}

fn main(rt: HostRuntime) -> Result<()> {
    run(&mut rt.stdin(), &mut Replies::new(rt.stdout()))
}
