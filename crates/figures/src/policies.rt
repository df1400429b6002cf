// The table of 01, Rights: which SPE is for what, pays from what, and how far its counter goes.
ghost use Rattle.std.specs.Prelude.{◌≡◌, not};
ghost use Rattle.places.specs.Words.{failed};
ghost use Rattle.figures.specs.Policies.{is_live, is_counted, is_purse, holds_right, is_deletion, count_limit, purse_limit_of};

use crate::limits::{
    DELETION, LIVE_COUNTED, LIVE_LIMIT, LIVE_PURSE, PLAYBACK_COUNTED, PLAYBACK_LIMIT,
    PLAYBACK_PURSE, PURSE_LIMIT,
};
use crate::names::{Tokens, TrafficKeys};
use places::Verdict;

// An SPE stays a byte: 01, The shape of each place, has numbers in a frame's fields, and a frame may bring any byte. Each test below promises a
// definition that the reader signs, so they are not one.
#[tactic(auto, unfolding(crate::specs::Policies::is_live))]
pub fn is_live(spe: u8) -> bool
    ensures { result ≡ is_live spe }
{
    matches!(spe, LIVE_PURSE | LIVE_COUNTED)
}

#[tactic(auto, unfolding(crate::specs::Policies::is_counted))]
pub fn is_counted(spe: u8) -> bool
    ensures { result ≡ is_counted spe }
{
    matches!(spe, LIVE_COUNTED | PLAYBACK_COUNTED)
}

#[tactic(auto, unfolding(crate::specs::Policies::is_purse))]
pub fn is_purse(spe: u8) -> bool
    ensures { result ≡ is_purse spe }
{
    matches!(spe, LIVE_PURSE | PLAYBACK_PURSE)
}

#[tactic(auto, unfolding(crate::specs::Policies::is_deletion))]
pub fn is_deletion(spe: u8) -> bool
    ensures { result ≡ is_deletion spe }
{
    spe == DELETION
}

// Fails where no right can have the SPE.
#[tactic(auto, unfolding(crate::specs::Policies::holds_right))]
pub fn policy(spe: u8) -> Verdict
    ensures { failed result ≡ not (holds_right spe) }
{
    Verdict::unless(!(is_purse(spe) || is_counted(spe)))
}

// The limit of a counter; SPE 0C has one of its own.
#[tactic(auto, unfolding(crate::specs::Policies::count_limit))]
pub fn count_limit(spe: u8) -> TrafficKeys
    ensures { result ≡ count_limit spe }
{
    if spe == LIVE_COUNTED {
        TrafficKeys(LIVE_LIMIT)
    } else {
        TrafficKeys(PLAYBACK_LIMIT)
    }
}

// The limit of the purse that a right of the SPE pays from: all pay from the user purse.
#[tactic(auto, unfolding(crate::specs::Policies::purse_limit_of))]
pub fn purse_limit(spe: u8) -> Tokens
    ensures { result ≡ purse_limit_of spe }
{
    Tokens(PURSE_LIMIT)
}
