// The line program on slices: characters come in chunks of any size, and each line is answered by the book.
#![tactic(auto)]

pub mod hex;
pub mod rows;

ghost use Rattle.std.specs.Prelude.{◌≡◌};
ghost use Rattle.book.specs.Pages.{pages};
ghost use Rattle.lines.specs.Answers.{answer, Gives};
ghost use Rattle.lines.specs.Feeding.{answered, ended, seen, left, started, feeding, finishing};

use book::Book;
use figures::limits::{KEY_BYTES, LINE_DIGITS};
use figures::replies::{Refusal, Reply};
use hex::{LINE_FEED, REPLY_LINE};
use memchr::memchr;
use rows::Row;

// One more than the longest line: a line with so many characters is damaged whatever follows.
pub const KEPT: usize = LINE_DIGITS + 1;

// Between two chunks: the book, and the line so far. Its size is fixed.
#[derive(Clone, Copy)]
pub struct State {
    book: Book,
    line: Row<KEPT>,
}

// How many characters were taken, and how many printed: these stand at the front of the lent buffer, as the promise of `feed` (`left`) has it.
#[derive(Clone, Copy)]
pub struct Fed {
    pub state: State,
    pub used: usize,
    pub made: usize,
}

// The book's answer to a line, lending it a key buffer; a damaged line does not reach the book.
fn reply_to(book: &mut Book, line: &[u8]) -> Reply
    ensures { Gives book.new result (answer (pages book.old) line.now) }
{
    let Some(frame) = hex::decode(line) else {
        return Reply::Refused(Refusal::Unreadable);
    };
    let mut key = [0u8; KEY_BYTES];
    book.serve(frame.as_slice(), &mut key)
}

impl State {
    // Answers the line so far; the next line begins.
    fn end_line(&mut self) -> Reply
        ensures state { seen self.new ≡ ended (seen self.old) }
        ensures reply { result ≡ (answered (seen self.old)).reply }
    {
        let reply = reply_to(&mut self.book, self.line.as_slice());
        self.line.clear();
        reply
    }
}

// An empty book, and nothing of a line.
pub fn start() -> State
    ensures { seen result ≡ started }
{
    let book = Book::empty();
    let line = Row::new();
    State { book, line }
}

// Takes characters until none is left or a reply has no room, and prints the replies at the front of `out`.
pub fn feed(mut state: State, input: &[u8], out: &mut [u8]) -> Fed
    ensures { left result out.new ≡ feeding (seen state) input.now out.old }
{
    let mut made = 0;
    let mut used = 0;
    while let Some(ahead) = memchr(LINE_FEED, &input[used..]) {
        let end = used + ahead;
        state.line.push_all(&input[used..end]);
        if out.len() - made < REPLY_LINE {
            return Fed {
                state,
                used: end,
                made,
            };
        }
        let line = hex::reply_line(state.end_line());
        out[made..made + REPLY_LINE].copy_from_slice(&line);
        made += REPLY_LINE;
        used = end + 1;
    }
    state.line.push_all(&input[used..]);
    let used = input.len();
    Fed { state, used, made }
}

// At the end of the input: a last line without line feed counts if it isn't empty.
#[tactic(auto, unfolding(crate::specs::Feeding::finishing))]
pub fn finish(state: State, out: &mut [u8]) -> Fed
    ensures { left result out.new ≡ finishing (seen state) out.old }
{
    if state.line.is_empty() {
        return Fed {
            state,
            used: 0,
            made: 0,
        };
    }
    feed(state, &[LINE_FEED], out)
}
