// One right: what it holds, whose it is, which message it fits, and what a grant or a deletion leaves of it.
ghost use Rattle.std.specs.Prelude.{◌≡◌};
ghost use Rattle.figures.specs.Rights.{free_right, is_right, is_of, fits, charged_right, unless_of};

use crate::accounts::Account;
use crate::held::Held;
use crate::limits::NO_SPE;
use crate::loads::Message;
use crate::names::{Interval, KeyId, NO_ID, RightName, Timestamp, TrafficKeys};
use crate::policies::is_live;

// No `Option<Right>`, as for a key: an array of right structs, and what a free place holds (`free_right`).
#[derive(Clone, Copy)]
pub struct Right {
    pub held: bool,
    pub name: RightName,
    pub account: Account,
}

pub const FREE_RIGHT: Right = Right {
    held: false,
    name: RightName {
        id: NO_ID,
        interval: Interval {
            low: Timestamp(0),
            high: Timestamp(0),
        },
        spe: NO_SPE,
    },
    account: Account::Counted(TrafficKeys(0)),
};

impl Held for Right {
    type Name = RightName;

    ghost named = { λ n r. is_right n r };

    ghost taken = { λ r. r.held };

    ghost blank = { free_right };

    #[tactic(auto, unfolding(crate::specs::Names::same_id, crate::specs::Names::same_name))]
    fn is_named(self, name: RightName) -> bool {
        self.is_of(name.id) && self.name == name
    }

    fn is_held(self) -> bool {
        self.held
    }

    #[tactic(auto, unfolding(crate::specs::Rights::free_right, crate::specs::Names::no_id))]
    fn free() -> Right {
        FREE_RIGHT
    }
}

impl Right {
    // A right of an ID.
    #[tactic(auto, unfolding(crate::specs::Names::same_id))]
    pub fn is_of(self, id: KeyId) -> bool
        ensures { result ≡ is_of id self }
    {
        self.name.id == id && self.held
    }

    // Whether the right fits a message, by the replay counter of its key.
    #[tactic(auto, unfolding(crate::specs::Rights::fits))]
    pub fn fits(self, message: Message, replay: Timestamp) -> bool
        ensures { result ≡ fits message replay self }
    {
        self.is_of(message.id)
            && self.name.interval.covers(message.ts)
            && is_live(self.name.spe) == message.ts.live(replay)
    }

    // The right after a grant that it pays for.
    #[tactic(auto, unfolding(crate::specs::Rights::charged_right))]
    pub fn charged(self) -> Right
        ensures { result ≡ charged_right self }
    {
        Right {
            account: self.account.charged(),
            ..self
        }
    }

    // A free place where the right is of the ID. In place, so that the other rights are not written.
    #[tactic(auto, unfolding(crate::specs::Rights::unless_of, crate::specs::Rights::free_right, crate::specs::Names::no_id))]
    pub fn free_if_of(&mut self, id: KeyId)
        ensures { self.new ≡ unless_of id self.old }
    {
        if self.is_of(id) {
            *self = FREE_RIGHT;
        }
    }

    // The same by value. No call uses it; its promise stays.
    pub fn unless_of(self, id: KeyId) -> Right
        ensures { result ≡ unless_of id self }
    {
        let mut right = self;
        right.free_if_of(id);
        right
    }
}
