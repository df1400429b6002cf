// What a right pays from, and what a load's amount is once its SPE is known.
ghost use Rattle.std.specs.Prelude.{◌≡◌};
ghost use Rattle.figures.specs.Accounts.{can_pay, charged, spent, counter, credit_of};

use crate::names::{Tokens, TrafficKeys};
use crate::policies::is_counted;

// Either a count of traffic keys left, or a cost in tokens.
#[derive(Clone, Copy)]
pub enum Account {
    Counted(TrafficKeys),
    Purse(Tokens),
}

// What a load brings: traffic keys to the right's counter, or tokens to the purse. No account: nothing can pay from it.
#[derive(Clone, Copy)]
pub enum Credit {
    ToCounter(TrafficKeys),
    ToPurse(Tokens),
}

impl Credit {
    // The one place where an amount becomes traffic keys or tokens. No `From`: it takes two arguments.
    #[tactic(auto, unfolding(crate::specs::Accounts::credit_of))]
    pub fn of(spe: u8, amount: u32) -> Credit
        ensures { result ≡ credit_of spe amount }
    {
        if is_counted(spe) {
            Credit::ToCounter(TrafficKeys(amount))
        } else {
            Credit::ToPurse(Tokens(amount))
        }
    }
}

impl Account {
    pub fn can_pay(self, purse: Tokens) -> bool
        ensures { result ≡ can_pay purse self }
    {
        match self {
            Account::Counted(left) => 1 <= left.0,
            Account::Purse(cost) => cost <= purse,
        }
    }

    // The account after a grant that it pays for.
    pub fn charged(self) -> Account
        ensures { result ≡ charged self }
    {
        match self {
            Account::Counted(left) => Account::Counted(TrafficKeys(left.0.saturating_sub(1))),
            Account::Purse(_) => self,
        }
    }

    // The purse after a grant that this account pays for.
    pub fn spend(self, purse: Tokens) -> Tokens
        ensures { result ≡ spent self purse }
    {
        match self {
            Account::Counted(_) => purse,
            Account::Purse(cost) => Tokens(purse.0.saturating_sub(cost.0)),
        }
    }

    // The traffic keys left; a right that pays from the purse has none.
    pub fn counter(self) -> TrafficKeys
        ensures { result ≡ counter self }
    {
        match self {
            Account::Counted(left) => left,
            Account::Purse(_) => TrafficKeys(0),
        }
    }
}
