// Short term messages: 01, What a short term message does.
ghost use Rattle.std.specs.Prelude.{◌≡◌, ◌<◌, List, ℕ, length, not, IfOk};
ghost use Rattle.places.specs.Words.{failed, first};
ghost use Rattle.figures.specs.Rights.{fits};
ghost use Rattle.rules.specs.Messages.{grant, message};
ghost use Rattle.book.specs.Types.{Some};
ghost use Rattle.book.specs.Pages.{pages, ends, after, Held};
ghost use Rattle.book.specs.Choices.{pays, payer_from, earned};

use crate::lookups::{Places, place_of, shown_of};
use crate::{Book, Called};
use figures::limits::KEY_BYTES;
use figures::loads::Message;
use figures::names::{Timestamp, Tokens};
use figures::replies::{Refusal, Reply};
use figures::rights::Right;
use places::Verdict;

// The integrity mark, as a check.
fn integrity(good: bool) -> Verdict
    ensures { failed result ≡ not good }
{
    Verdict::unless(!good)
}

// The lowest place of a right that fits, by this replay counter. The definition `fits`, which each clause here cites, takes the two one by one.
fn fitting(rights: &[Right], message: Message, replay: Timestamp) -> Option<usize>
    ensures { result ≡ first (λ r. fits message replay r) rights.now }
{
    rights.iter().position(|right| right.fits(message, replay))
}

// The lowest place of a right that fits and can pay from this purse. Two tests, each one call of `position`: one function would take a closure
// and be that call.
fn paying(rights: &[Right], message: Message, replay: Timestamp, purse: Tokens) -> Option<usize>
    ensures { result ≡ first (λ r. pays message replay purse r) rights.now }
{
    rights.iter().position(|right| right.fits(message, replay) && right.account.can_pay(purse))
}

impl Book {
    // Who is charged, where the lowest right that fits is in place `from`: it is asked first, and the walk goes on behind it.
    fn payer(&self, from: usize, message: Message, replay: Timestamp) -> Option<usize>
        requires inside { from < length self.now.rights }
        requires lowest { first (λ r. fits message replay r) self.now.rights ≡ Some from }
        ensures { result ≡ payer_from from message replay self.now.purse self.now.rights }
    {
        if self.rights[from].account.can_pay(self.purse) {
            return Some(from);
        }
        let next = from + 1;
        let later = paying(&self.rights[next..], message, replay, self.purse)?;
        let place = next + later;
        Some(place)
    }

    // Looks for the key that a message asks for and the right that pays, in the order of 01, Replies.
    #[tactic(auto, unfolding(rules::specs::Messages::message, rules::specs::Messages::message_refusals, rules::specs::Pages::key_at, rules::specs::Calls::unless))]
    fn earner(&self, frame: Message) -> Result<Places, Refusal>
        ensures ends { (u : List ℕ) → message (pages self.now) u frame ≡ earned (pages self.now) u frame result }
        ensures places { IfOk result (λ p. Held self.now p) }
    {
        let Verdict::Passed = integrity(frame.good) else {
            return Err(Refusal::Integrity);
        };
        let Some(key) = place_of(&self.keys, frame.id) else {
            return Err(Refusal::UnknownId);
        };
        let replay = self.keys[key].replay;
        let Some(from) = fitting(&self.rights, frame, replay) else {
            return Err(Refusal::NoFit);
        };
        let Some(right) = self.payer(from, frame, replay) else {
            return Err(Refusal::NoFunds);
        };
        Ok(Places { key, right })
    }

    // The key in its place is handed out, and the right in its place is charged.
    fn pay(&mut self, places: Places, ts: Timestamp, key: &mut [u8; KEY_BYTES]) -> Reply
        requires { Held self.old places }
        ensures { ends self.new result key.new ≡ grant (pages self.old) (Some places.key) (Some places.right) ts }
    {
        let held = self.keys[places.key];
        let right = self.rights[places.right];
        let next = held.granted(ts);
        let charged = right.charged();
        let purse = right.account.spend(self.purse);
        self.keys[places.key].replay = next.replay;
        self.rights[places.right].account = charged.account;
        self.purse = purse;
        let bytes = held.bytes;
        *key = bytes;
        let shown = shown_of(places.right, charged, next, purse);
        Reply::Granted(shown)
    }

    // By value: 01, The shape of each place.
    fn grant(self, places: Places, ts: Timestamp, key: &mut [u8; KEY_BYTES]) -> Called
        requires { Held self places }
        ensures { after result key.new ≡ grant (pages self) (Some places.key) (Some places.right) ts }
    {
        let mut book = self;
        let reply = book.pay(places, ts, key);
        Called { book, reply }
    }

    pub(crate) fn message(self, frame: Message, key: &mut [u8; KEY_BYTES]) -> Called
        ensures { after result key.new ≡ message (pages self) key.old frame }
    {
        match self.earner(frame) {
            Ok(places) => self.grant(places, frame.ts, key),
            Err(why) => self.refused(why),
        }
    }

    // On a book where it lies.
    pub(crate) fn serve_message(&mut self, frame: Message, key: &mut [u8; KEY_BYTES]) -> Reply
        ensures { ends self.new result key.new ≡ message (pages self.old) key.old frame }
    {
        match self.earner(frame) {
            Ok(places) => self.pay(places, frame.ts, key),
            Err(why) => Reply::Refused(why),
        }
    }
}
