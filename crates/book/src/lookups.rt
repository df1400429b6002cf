// Looking up keys and rights: 01, Rights.
ghost use Rattle.std.specs.Prelude.{◌≡◌, not};
ghost use Rattle.places.specs.Words.{first, at, or_else};
ghost use Rattle.figures.specs.Rights.{free_right};
ghost use Rattle.rules.specs.Pages.{as_held};
ghost use Rattle.book.specs.Types.{Some};
ghost use Rattle.book.specs.Pages.{pages, shown};

use crate::Book;
use figures::accounts::Account;
use figures::held::Held;
use figures::keys::Key;
use figures::names::Tokens;
use figures::replies::Shown;
use figures::rights::{FREE_RIGHT, Right};

// The place of a key, and that of a right.
#[derive(Clone, Copy)]
pub struct Places {
    pub key: usize,
    pub right: usize,
}

// The lowest place whose content is held under a name.
pub(crate) fn place_of<P: Held>(places: &[P], name: P::Name) -> Option<usize>
    ensures { result ≡ first (λ p. P.named name p) places.now }
{
    places.iter().position(|place| place.is_named(name))
}

// The lowest free place.
fn free_place<P: Held>(places: &[P]) -> Option<usize>
    ensures { result ≡ first (λ p. not (P.taken p)) places.now }
{
    places.iter().position(|place| !place.is_held())
}

// Where a key or right goes: the place it is held in, or else the lowest free one.
pub(crate) fn room_for<P: Held>(places: &[P], held: Option<usize>) -> Option<usize>
    ensures { result ≡ or_else held (first (λ p. not (P.taken p)) places.now) }
{
    held.or_else(|| free_place(places))
}

// What a place holds; a free one where there is no such place.
#[tactic(auto, unfolding(places::specs::Words::at))]
pub(crate) fn held_in<P: Held>(places: &[P], place: Option<usize>) -> P
    ensures { result ≡ at P.blank place places.now }
{
    place
        .and_then(|i| places.get(i))
        .copied()
        .unwrap_or(P::free())
}

// What a reply shows of a right in its place and of its key.
pub(crate) fn shown_of(place: usize, right: Right, key: Key, purse: Tokens) -> Shown
    ensures { result ≡ shown place right key purse }
{
    Shown {
        place,
        account: right.account,
        purse,
        replay: key.replay,
    }
}

impl Book {
    // The account of the right in a place, alone, so that no other field is read; a free right's where there is no such place.
    #[tactic(auto, unfolding(places::specs::Words::at, figures::specs::Rights::free_right, figures::specs::Names::no_id))]
    pub(crate) fn account_in(&self, place: Option<usize>) -> Account
        ensures { result ≡ (at free_right place self.now.rights).account }
    {
        match place.and_then(|i| self.rights.get(i)) {
            Some(right) => right.account,
            None => FREE_RIGHT.account,
        }
    }

    // The right in a place, with the replay counter of the key in a place, as held.
    #[tactic(auto, unfolding(rules::specs::Pages::as_held, rules::specs::Pages::key_in, rules::specs::Pages::right_in, rules::specs::Pages::purse_of, figures::specs::Keys::free_key, figures::specs::Rights::free_right, figures::specs::Names::no_id))]
    pub(crate) fn as_held(&self, key: Option<usize>, place: usize) -> Shown
        ensures { result ≡ as_held (pages self.now) key (Some place) }
    {
        let right = held_in(&self.rights, Some(place));
        let held = held_in(&self.keys, key);
        shown_of(place, right, held, self.purse)
    }
}
