// What a load and a short term message say, and what a load makes of an account and a purse.
ghost use Rattle.std.specs.Prelude.{◌≡◌};
ghost use Rattle.places.specs.Words.{failed};
ghost use Rattle.figures.specs.Loads.{raised, total_of, settled, loaded_right, costly, laden};

use crate::accounts::{Account, Credit};
use crate::names::{KeyId, RightName, Timestamp, Tokens, TrafficKeys};
use crate::policies::{count_limit, is_counted, purse_limit};
use crate::rights::Right;
use places::Verdict;

// Flag bit 0: add, and not set. Flag bit 1: the key is present. Bools beside the amount and the key bytes: 01, The shape of each place.
#[derive(Clone, Copy)]
pub struct Flags {
    pub add: bool,
    pub key: bool,
}

#[derive(Clone, Copy)]
pub struct Load {
    pub name: RightName,
    pub flags: Flags,
    pub amount: u32,
    pub cost: Tokens,
}

#[derive(Clone, Copy)]
pub struct Message {
    pub id: KeyId,
    pub ts: Timestamp,
    pub good: bool,
}

// What a load leaves of the right's account and of the purse.
#[derive(Clone, Copy)]
pub struct Settled {
    pub account: Account,
    pub purse: Tokens,
}

// Set to the amount or raised by it, where that is within the limit: tested before anything is stored.
#[tactic(auto, unfolding(crate::specs::Loads::total_of, crate::specs::Loads::raised))]
fn summed(limit: u32, add: bool, before: u32, amount: u32) -> Option<u32>
    ensures { result ≡ total_of limit (raised add before amount) }
{
    let sum = if add {
        before.checked_add(amount)?
    } else {
        amount
    };
    if sum <= limit { Some(sum) } else { None }
}

impl Load {
    // The account of the right and the purse after this load, where no limit is passed. Inline, so that no load is laid out in memory for it.
    #[tactic(auto, unfolding(crate::specs::Loads::settled, crate::specs::Loads::total_of))]
    #[inline(always)]
    pub fn settled(self, held: Account, purse: Tokens) -> Option<Settled>
        ensures { result ≡ settled self held purse }
    {
        let spe = self.name.spe;
        let add = self.flags.add;
        match Credit::of(spe, self.amount) {
            Credit::ToCounter(keys) => {
                let limit = count_limit(spe);
                let before = held.counter();
                let sum = summed(limit.0, add, before.0, keys.0)?;
                let account = Account::Counted(TrafficKeys(sum));
                Some(Settled { account, purse })
            }
            Credit::ToPurse(tokens) => {
                let limit = purse_limit(spe);
                let sum = summed(limit.0, add, purse.0, tokens.0)?;
                let account = Account::Purse(self.cost);
                let purse = Tokens(sum);
                Some(Settled { account, purse })
            }
        }
    }

    // The right that this load leaves, with the account settled. No `From`: it takes two arguments.
    #[tactic(auto, unfolding(crate::specs::Loads::loaded_right))]
    pub fn right(self, account: Account) -> Right
        ensures { result ≡ loaded_right self account }
    {
        Right {
            held: true,
            name: self.name,
            account,
        }
    }

    // Fails where a counted right has a cost.
    #[tactic(auto, unfolding(crate::specs::Loads::costly))]
    pub fn free_of_cost(self) -> Verdict
        ensures { failed result ≡ costly self }
    {
        Verdict::unless(is_counted(self.name.spe) && self.cost.0 != 0)
    }

    // Fails where a deletion has a flag, an amount or a cost.
    #[tactic(auto, unfolding(crate::specs::Loads::laden))]
    pub fn bare(self) -> Verdict
        ensures { failed result ≡ laden self }
    {
        Verdict::unless(self.flags.add || self.flags.key || self.amount != 0 || self.cost.0 != 0)
    }
}
