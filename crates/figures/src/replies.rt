// What the book answers: 01, Replies.
ghost use Rattle.std.specs.Prelude.{◌≡◌};
ghost use Rattle.figures.specs.Replies.{refusal_code};

use crate::accounts::Account;
use crate::names::{Timestamp, Tokens};

// The refusals that show nothing beside their code.
#[derive(Clone, Copy, Debug, PartialEq, Eq)]
pub enum Refusal {
    BufferLength,
    Unreadable,
    Policy,
    Fields,
    EmptyInterval,
    UnknownId,
    Full,
    Integrity,
    NoFit,
    NoFunds,
    NotHeld,
}

// A right as held: its place and account, with the purse and the replay counter of its key.
#[derive(Clone, Copy)]
pub struct Shown {
    pub place: usize,
    pub account: Account,
    pub purse: Tokens,
    pub replay: Timestamp,
}

#[derive(Clone, Copy)]
pub enum Reply {
    Loaded(Shown),
    Deleted(Tokens),
    Granted(Shown),
    Reported(Shown),
    OverHeld(Shown),
    OverNew(Tokens),
    Refused(Refusal),
}

// The paper's number.
impl From<Refusal> for u8 {
    ghost from_gives = { λ why code. code ≡ refusal_code why };

    fn from(why: Refusal) -> u8 {
        match why {
            Refusal::BufferLength => 0x10,
            Refusal::Unreadable => 0x11,
            Refusal::Policy => 0x12,
            Refusal::Fields => 0x13,
            Refusal::EmptyInterval => 0x14,
            Refusal::UnknownId => 0x15,
            Refusal::Full => 0x16,
            Refusal::Integrity => 0x18,
            Refusal::NoFit => 0x19,
            Refusal::NoFunds => 0x1A,
            Refusal::NotHeld => 0x1B,
        }
    }
}
