// Loads: 01, What a load does.
ghost use Rattle.std.specs.Prelude.{◌≡◌, not, ◌&&◌, List, ℕ, IfOk};
ghost use Rattle.places.specs.Words.{missing, failed};
ghost use Rattle.frames.specs.Reading.{key_beside};
ghost use Rattle.rules.specs.Loads.{store};
ghost use Rattle.rules.specs.Rules.{load};
ghost use Rattle.book.specs.Pages.{pages, ends, after, Held};
ghost use Rattle.book.specs.Stored.{stored, settles, over};

use crate::lookups::{Places, held_in, place_of, room_for, shown_of};
use crate::{Book, Called};
use figures::limits::KEY_BYTES;
use figures::loads::{Load, Settled};
use figures::policies::{is_deletion, policy};
use figures::replies::{Refusal, Reply};
use frames::reader::key_beside;
use places::Verdict;

// Fails where the ID is not held and no key is carried.
fn known(held: Option<usize>, carried: bool) -> Verdict
    ensures { failed result ≡ (missing held && not carried) }
{
    Verdict::unless(held.is_none() && !carried)
}

// Where a load goes, and what it leaves of the account and the purse.
#[derive(Clone, Copy)]
pub struct Storing {
    pub held: Option<usize>,
    pub places: Places,
    pub settled: Settled,
}

impl Book {
    // 17: as held where the right is held.
    #[tactic(auto, unfolding(rules::specs::Pages::user_purse))]
    fn over(&self, key: Option<usize>, right: Option<usize>) -> Reply
        ensures { result ≡ over (pages self.now) key right }
    {
        match right {
            Some(place) => Reply::OverHeld(self.as_held(key, place)),
            None => Reply::OverNew(self.purse),
        }
    }

    // Looks for the places of a load other than 0A, in the order of 01, Replies.
    #[tactic(auto, unfolding(rules::specs::Loads::store, rules::specs::Loads::load_refusals, rules::specs::Loads::loadable, rules::specs::Pages::key_at, rules::specs::Pages::right_at, rules::specs::Pages::free_key_at, rules::specs::Pages::free_right_at, rules::specs::Pages::key_room, rules::specs::Pages::right_room, rules::specs::Pages::right_in, rules::specs::Pages::purse_of, rules::specs::Loads::account_before, rules::specs::Loads::over_limit, rules::specs::Loads::over_reply, rules::specs::Calls::unless))]
    fn storing(&self, load: Load) -> Result<Storing, Reply>
        ensures ends { (u bytes : List ℕ) → store (pages self.now) u load bytes ≡ settles self.now u load bytes result }
        ensures places { IfOk result (λ s. Held self.now s.places) }
    {
        let name = load.name;
        let Verdict::Passed = policy(name.spe) else {
            return Err(Reply::Refused(Refusal::Policy));
        };
        let Verdict::Passed = load.free_of_cost() else {
            return Err(Reply::Refused(Refusal::Fields));
        };
        let Verdict::Passed = name.interval.proper() else {
            return Err(Reply::Refused(Refusal::EmptyInterval));
        };
        let held = place_of(&self.keys, name.id);
        let Verdict::Passed = known(held, load.flags.key) else {
            return Err(Reply::Refused(Refusal::UnknownId));
        };
        let Some(key) = room_for(&self.keys, held) else {
            return Err(Reply::Refused(Refusal::Full));
        };
        let named = place_of(&self.rights, name);
        let Some(right) = room_for(&self.rights, named) else {
            return Err(Reply::Refused(Refusal::Full));
        };
        let account = self.account_in(named);
        let Some(settled) = load.settled(account, self.purse) else {
            return Err(self.over(held, named));
        };
        Ok(Storing {
            held,
            places: Places { key, right },
            settled,
        })
    }

    // The load's key and right go to their places. The key is the one held before, or a free one.
    #[tactic(auto, unfolding(places::specs::Words::put, figures::specs::Keys::free_key, figures::specs::Names::no_id))]
    fn keep(&mut self, load: Load, bytes: [u8; KEY_BYTES], storing: Storing) -> Reply
        requires { Held self.old storing.places }
        ensures { record { book = self.new; reply = result } ≡ stored self.old load bytes storing }
    {
        let Places { key, right } = storing.places;
        let before = held_in(&self.keys, storing.held);
        let next = before.loaded(load.name.id, load.flags.key, bytes);
        let made = load.right(storing.settled.account);
        let purse = storing.settled.purse;
        self.keys[key] = next;
        self.rights[right] = made;
        self.purse = purse;
        let shown = shown_of(right, made, next, purse);
        Reply::Loaded(shown)
    }

    // By value: 01, The shape of each place.
    fn store(self, load: Load, bytes: [u8; KEY_BYTES]) -> Called
        ensures { (u : List ℕ) → after result u ≡ store (pages self) u load bytes }
    {
        match self.storing(load) {
            Ok(storing) => {
                let mut book = self;
                let reply = book.keep(load, bytes, storing);
                Called { book, reply }
            }
            Err(reply) => self.unchanged(reply),
        }
    }

    #[tactic(auto, unfolding(rules::specs::Rules::load))]
    pub(crate) fn load(self, frame: Load, bytes: [u8; KEY_BYTES]) -> Called
        ensures { (u : List ℕ) → after result u ≡ load (pages self) u frame bytes }
    {
        if is_deletion(frame.name.spe) {
            self.erase(frame)
        } else {
            self.store(frame, bytes)
        }
    }

    // On a book where it lies. The key bytes beside the frame are read only where they are stored.
    #[tactic(auto, unfolding(rules::specs::Rules::load))]
    pub(crate) fn serve_load(&mut self, frame: Load, string: &[u8]) -> Reply
        ensures { (u : List ℕ) → ends self.new result u ≡ load (pages self.old) u frame (key_beside string.now) }
    {
        if is_deletion(frame.name.spe) {
            return self.serve_erase(frame);
        }
        match self.storing(frame) {
            Ok(storing) => self.keep(frame, key_beside(string), storing),
            Err(reply) => reply,
        }
    }
}
