// The key book: keys, rights and one user purse, by value. A book comes only from the empty one, by calls.
#![tactic(auto)]

mod deletions;
mod loads;
mod lookups;
mod messages;
pub mod replies;

ghost use Rattle.std.specs.Prelude.{◌≡◌};
ghost use Rattle.frames.specs.Reading.{key_beside};
ghost use Rattle.rules.specs.Pages.{empty_book};
ghost use Rattle.rules.specs.Rules.{act, call};
ghost use Rattle.book.specs.Types.{Refused};
ghost use Rattle.book.specs.Pages.{pages, ends, after};

use figures::keys::{FREE_KEY, Key};
use figures::limits::{KEY_BYTES, KEY_PLACES, RIGHT_PLACES};
use figures::names::Tokens;
use figures::replies::{Refusal, Reply};
use figures::rights::{FREE_RIGHT, Right};
use frames::Frame;
use frames::reader::{read, seen};

#[derive(Clone, Copy)]
pub struct Book {
    keys: [Key; KEY_PLACES],
    rights: [Right; RIGHT_PLACES],
    purse: Tokens,
}

// What a call leaves.
#[derive(Clone, Copy)]
pub struct Called {
    pub book: Book,
    pub reply: Reply,
}

impl Book {
    #[tactic(auto, unfolding(rules::specs::Pages::blank, figures::specs::Keys::free_key, figures::specs::Rights::free_right, figures::specs::Names::no_id))]
    pub fn empty() -> Book
        ensures { pages result ≡ empty_book }
    {
        Book {
            keys: [FREE_KEY; KEY_PLACES],
            rights: [FREE_RIGHT; RIGHT_PLACES],
            purse: Tokens(0),
        }
    }

    // A reply that leaves the book as it is.
    fn unchanged(self, reply: Reply) -> Called
        ensures { result ≡ record { book = self; reply = reply } }
    {
        Called { book: self, reply }
    }

    fn refused(self, why: Refusal) -> Called
        ensures { result ≡ record { book = self; reply = Refused why } }
    {
        self.unchanged(Reply::Refused(why))
    }

    // What a frame of each kind does.
    #[tactic(auto, unfolding(rules::specs::Rules::act))]
    fn act(self, frame: Frame, bytes: [u8; KEY_BYTES], key: &mut [u8; KEY_BYTES]) -> Called
        ensures { after result key.new ≡ act (pages self) key.old frame bytes }
    {
        match frame {
            Frame::Load(load) => self.load(load, bytes),
            Frame::Message(message) => self.message(message, key),
            Frame::Report(name) => self.report(name),
            Frame::Delete(name) => self.delete(name),
        }
    }

    // A byte string and the lent key buffer. By value: 01, The shape of each place.
    #[tactic(auto, unfolding(rules::specs::Rules::call, rules::specs::Rules::buffer_refusals, rules::specs::Rules::taken, rules::specs::Calls::unless))]
    pub fn call(self, frame: &[u8], key: &mut [u8]) -> Called
        ensures { after result key.new ≡ call (pages self) frame.now key.old }
    {
        let Some(key) = key.as_mut_array::<KEY_BYTES>() else {
            return self.refused(Refusal::BufferLength);
        };
        let read = read(frame);
        match read.frame {
            Ok(frame) => self.act(frame, read.key, key),
            Err(why) => self.refused(why),
        }
    }

    // What a frame of each kind does to a book where it lies; the key bytes beside it are still in the byte string.
    #[tactic(auto, unfolding(rules::specs::Rules::act))]
    fn serve_frame(&mut self, frame: Frame, string: &[u8], key: &mut [u8; KEY_BYTES]) -> Reply
        ensures { ends self.new result key.new ≡ act (pages self.old) key.old frame (key_beside string.now) }
    {
        match frame {
            Frame::Load(load) => self.serve_load(load, string),
            Frame::Message(message) => self.serve_message(message, key),
            Frame::Report(name) => self.reported(name),
            Frame::Delete(name) => self.serve_delete(name),
        }
    }

    // `call` on a book where it lies, so that none is copied: for lines, and for cards, which are short of stack.
    #[tactic(auto, unfolding(rules::specs::Rules::call, rules::specs::Rules::buffer_refusals, rules::specs::Rules::taken, rules::specs::Calls::unless))]
    pub fn serve(&mut self, frame: &[u8], key: &mut [u8]) -> Reply
        ensures { ends self.new result key.new ≡ call (pages self.old) frame.now key.old }
    {
        let Some(lent) = key.as_mut_array::<KEY_BYTES>() else {
            return Reply::Refused(Refusal::BufferLength);
        };
        match seen(frame) {
            Ok(found) => self.serve_frame(found, frame, lent),
            Err(why) => Reply::Refused(why),
        }
    }
}
