// The bytes of a reply: 01, Replies.
ghost use Rattle.std.specs.Prelude.{◌≡◌, [], ◌∷◌};
ghost use Rattle.figures.specs.Limits.{reply_widths};
ghost use Rattle.frames.specs.Numbers.{join};
ghost use Rattle.rules.specs.Replies.{value_of, held, none, reply_bytes};

use figures::accounts::Account;
use figures::limits::{NO_PLACE, REPLY_BYTES};
use figures::names::Tokens;
use figures::replies::{Reply, Shown};

// The right's counter, or its cost.
fn value_of(account: Account) -> u32
    ensures { result ≡ value_of account }
{
    match account {
        Account::Counted(left) => left.0,
        Account::Purse(cost) => cost.0,
    }
}

// The fields one after the other.
fn joined(code: u8, place: usize, value: u32, purse: u32, replay: u32) -> [u8; REPLY_BYTES]
    ensures { result ≡ join reply_widths (code ∷ place ∷ value ∷ purse ∷ replay ∷ []) }
{
    let mut bytes = [0; REPLY_BYTES];
    bytes[0] = code;
    bytes[1] = (place % 256) as u8;
    bytes[2..6].copy_from_slice(&value.to_be_bytes());
    bytes[6..10].copy_from_slice(&purse.to_be_bytes());
    bytes[10..].copy_from_slice(&replay.to_be_bytes());
    bytes
}

// A code, with the right as held.
fn held(code: u8, shown: Shown) -> [u8; REPLY_BYTES]
    ensures { result ≡ join reply_widths (held code shown) }
{
    let value = value_of(shown.account);
    joined(code, shown.place, value, shown.purse.0, shown.replay.0)
}

// A code, with no right to show.
fn none(code: u8, purse: u32) -> [u8; REPLY_BYTES]
    ensures { result ≡ join reply_widths (none code purse) }
{
    joined(code, NO_PLACE, 0, purse, 0)
}

// 01, Replies: the codes as they are on the wire; the enum is `Reply`.
#[tactic(auto, unfolding(rules::specs::Replies::reply_bytes, rules::specs::Replies::reply_fields))]
pub fn reply_bytes(reply: Reply) -> [u8; REPLY_BYTES]
    ensures { result ≡ reply_bytes reply }
{
    match reply {
        Reply::Loaded(shown) => held(0x00, shown),
        Reply::Deleted(purse) => none(0x00, purse.0),
        Reply::Granted(shown) => held(0x01, shown),
        Reply::Reported(shown) => held(0x02, shown),
        Reply::OverHeld(shown) => held(0x17, shown),
        Reply::OverNew(purse) => none(0x17, purse.0),
        Reply::Refused(why) => none(u8::from(why), 0),
    }
}
