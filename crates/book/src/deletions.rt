// Reports, and deletion of one right or of a key with all its rights: 01, Rights, What a load does, and Replies.
ghost use Rattle.std.specs.Prelude.{◌≡◌, List, ℕ};
ghost use Rattle.places.specs.Words.{put_all};
ghost use Rattle.figures.specs.Rights.{free_right, is_of};
ghost use Rattle.rules.specs.Deletions.{left, report, delete, erase};
ghost use Rattle.rules.specs.Calls.{unchanged};
ghost use Rattle.book.specs.Pages.{pages, ends, after};

use crate::lookups::place_of;
use crate::{Book, Called};
use figures::keys::FREE_KEY;
use figures::loads::Load;
use figures::names::{KeyId, RightName};
use figures::policies::policy;
use figures::replies::{Refusal, Reply};
use figures::rights::FREE_RIGHT;
use places::Verdict;

impl Book {
    // Without the rights of an ID, for every interval.
    fn drop_rights(&mut self, id: KeyId)
        ensures book { self.new ≡ record { keys = self.old.keys; rights = put_all (λ x. is_of id x) free_right self.old.rights; purse = self.old.purse } }
    {
        for right in self.rights.iter_mut() {
            right.free_if_of(id);
        }
    }

    // After a right of an ID has gone: when it was the last, the key goes too.
    #[tactic(auto, unfolding(rules::specs::Deletions::left, rules::specs::Pages::key_at, places::specs::Words::put, figures::specs::Keys::free_key, figures::specs::Names::no_id))]
    fn leave(&mut self, id: KeyId)
        ensures { pages self.new ≡ left (pages self.old) id self.old.rights }
    {
        if self.rights.iter().any(|right| right.is_of(id)) {
            return;
        }
        if let Some(place) = place_of(&self.keys, id) {
            self.keys[place] = FREE_KEY;
        }
    }

    // A report alters nothing, so that looking at the book answers it.
    #[tactic(auto, unfolding(rules::specs::Deletions::report, rules::specs::Deletions::report_refusals, rules::specs::Deletions::reportable, rules::specs::Pages::key_at, rules::specs::Pages::right_at, rules::specs::Calls::unless))]
    pub(crate) fn reported(&self, name: RightName) -> Reply
        ensures { (u : List ℕ) → unchanged (pages self.now) u result ≡ report (pages self.now) u name }
    {
        let Verdict::Passed = policy(name.spe) else {
            return Reply::Refused(Refusal::Policy);
        };
        let Some(place) = place_of(&self.rights, name) else {
            return Reply::Refused(Refusal::NotHeld);
        };
        let key = place_of(&self.keys, name.id);
        Reply::Reported(self.as_held(key, place))
    }

    // By value: 01, The shape of each place.
    pub(crate) fn report(self, name: RightName) -> Called
        ensures { (u : List ℕ) → after result u ≡ report (pages self) u name }
    {
        self.unchanged(self.reported(name))
    }

    // On a book where it lies.
    #[tactic(auto, unfolding(rules::specs::Deletions::delete, rules::specs::Deletions::delete_refusals, rules::specs::Deletions::report_refusals, rules::specs::Deletions::reportable, rules::specs::Deletions::dropped, rules::specs::Deletions::left, rules::specs::Pages::key_at, rules::specs::Pages::right_at, rules::specs::Pages::user_purse, rules::specs::Calls::unless, places::specs::Words::put, figures::specs::Rights::free_right, figures::specs::Names::no_id))]
    pub(crate) fn serve_delete(&mut self, name: RightName) -> Reply
        ensures { (u : List ℕ) → ends self.new result u ≡ delete (pages self.old) u name }
    {
        let Verdict::Passed = policy(name.spe) else {
            return Reply::Refused(Refusal::Policy);
        };
        let Some(place) = place_of(&self.rights, name) else {
            return Reply::Refused(Refusal::NotHeld);
        };
        self.rights[place] = FREE_RIGHT;
        self.leave(name.id);
        Reply::Deleted(self.purse)
    }

    // By value: 01, The shape of each place.
    pub(crate) fn delete(self, name: RightName) -> Called
        ensures { (u : List ℕ) → after result u ≡ delete (pages self) u name }
    {
        let mut book = self;
        let reply = book.serve_delete(name);
        Called { book, reply }
    }

    // A load with SPE 0A, on a book where it lies.
    #[tactic(auto, unfolding(rules::specs::Deletions::erase, rules::specs::Deletions::erase_refusals, rules::specs::Pages::key_at, rules::specs::Calls::unless))]
    pub(crate) fn serve_erase(&mut self, load: Load) -> Reply
        ensures { (u : List ℕ) → ends self.new result u ≡ erase (pages self.old) u load }
    {
        let Verdict::Passed = load.bare() else {
            return Reply::Refused(Refusal::Fields);
        };
        let id = load.name.id;
        let Some(place) = place_of(&self.keys, id) else {
            return Reply::Refused(Refusal::NotHeld);
        };
        self.drop_rights(id);
        self.keys[place] = FREE_KEY;
        Reply::Deleted(self.purse)
    }

    // By value: 01, The shape of each place.
    pub(crate) fn erase(self, load: Load) -> Called
        ensures { (u : List ℕ) → after result u ≡ erase (pages self) u load }
    {
        let mut book = self;
        let reply = book.serve_erase(load);
        Called { book, reply }
    }
}
