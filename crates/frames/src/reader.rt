// The frame reader: 01, Frames. Each field is taken straight from the lent bytes.
ghost use Rattle.std.specs.Prelude.{◌≡◌, ◌+◌, ◌≤◌, length, take, drop};
ghost use Rattle.frames.specs.Numbers.{field, split, total};
ghost use Rattle.frames.specs.Layouts.{id_widths, message_widths, right_widths, load_widths};
ghost use Rattle.frames.specs.Reading.{id_from, name_from, flags_from, load_from, message_from, is_kind, is_load, is_message, is_right, seen, key_present, key_beside, reading};

use crate::layouts::{
    AMOUNT_AT, COST_AT, DELETE, DOMAIN_AT, FLAGS_AT, GROUP_AT, HIGH_AT, KEY_AT, KIND_AT, LOAD,
    LOW_AT, MARK_AT, MESSAGE, MESSAGE_BYTES, NUMBER_AT, REPORT, RIGHT_BYTES, SPE_AT, load_length,
};
use crate::{Frame, ReadFrame};
use figures::limits::KEY_BYTES;
use figures::loads::{Flags, Load, Message};
use figures::names::{Interval, KeyDomain, KeyId, RightName, Timestamp, Tokens};
use figures::replies::Refusal;

// The byte at a place; 0 past the end, which is no kind.
fn byte_at(bytes: &[u8], at: usize) -> u8
    ensures { result ≡ field bytes.now at 1 }
{
    bytes.get(at).copied().unwrap_or(0)
}

// The N bytes from a place on.
fn bytes_at<const N: usize>(bytes: &[u8], at: usize) -> [u8; N]
    requires { at + N ≤ length bytes.now }
    ensures { result ≡ take N (drop at bytes.now) }
{
    let mut found = [0; N];
    found.copy_from_slice(&bytes[at..at + N]);
    found
}

// Each part below asks for as many bytes as its own widths take; as arrays, each would first be cut out of the one above by an `Option` that never fails.
fn id_in(bytes: &[u8]) -> KeyId
    requires { total id_widths ≤ length bytes.now }
    ensures { result ≡ id_from (split id_widths 0 bytes.now) }
{
    let [high, middle, low] = bytes_at::<3>(bytes, DOMAIN_AT);
    KeyId {
        domain: KeyDomain(high, middle, low),
        group: u16::from_be_bytes(bytes_at(bytes, GROUP_AT)),
        number: u16::from_be_bytes(bytes_at(bytes, NUMBER_AT)),
    }
}

fn name_in(bytes: &[u8]) -> RightName
    requires { total right_widths ≤ length bytes.now }
    ensures { result ≡ name_from (split right_widths 0 bytes.now) }
{
    RightName {
        id: id_in(bytes),
        interval: Interval {
            low: Timestamp(u32::from_be_bytes(bytes_at(bytes, LOW_AT))),
            high: Timestamp(u32::from_be_bytes(bytes_at(bytes, HIGH_AT))),
        },
        spe: byte_at(bytes, SPE_AT),
    }
}

// Bit 0 is add, bit 1 that the key is present. No `From`: it would drop the other bits, and where the bits lie is for frames to say.
fn flags_from(b: u8) -> Flags
    ensures { result ≡ flags_from b }
{
    Flags {
        add: b & 1 == 1,
        key: b >> 1 & 1 == 1,
    }
}

fn load_in(bytes: &[u8]) -> Load
    requires { total load_widths ≤ length bytes.now }
    ensures { result ≡ load_from (split load_widths 0 bytes.now) }
{
    Load {
        name: name_in(bytes),
        flags: flags_from(byte_at(bytes, FLAGS_AT)),
        amount: u32::from_be_bytes(bytes_at(bytes, AMOUNT_AT)),
        cost: Tokens(u32::from_be_bytes(bytes_at(bytes, COST_AT))),
    }
}

fn message_in(bytes: &[u8]) -> Message
    requires { total message_widths ≤ length bytes.now }
    ensures { result ≡ message_from (split message_widths 0 bytes.now) }
{
    Message {
        id: id_in(bytes),
        ts: Timestamp(u32::from_be_bytes(bytes_at(bytes, LOW_AT))),
        good: byte_at(bytes, MARK_AT) == 1,
    }
}

fn is_kind(bytes: &[u8], kind: u8) -> bool
    ensures { result ≡ is_kind kind bytes.now }
{
    byte_at(bytes, KIND_AT) == kind
}

#[tactic(auto, unfolding(crate::specs::Reading::is_load))]
fn is_load(bytes: &[u8]) -> bool
    ensures { result ≡ is_load bytes.now }
{
    let flags = byte_at(bytes, FLAGS_AT);
    is_kind(bytes, LOAD) && flags < 4 && bytes.len() == load_length(flags_from(flags).key)
}

#[tactic(auto, unfolding(crate::specs::Reading::is_message))]
fn is_message(bytes: &[u8]) -> bool
    ensures { result ≡ is_message bytes.now }
{
    is_kind(bytes, MESSAGE) && bytes.len() == MESSAGE_BYTES && byte_at(bytes, MARK_AT) < 2
}

#[tactic(auto, unfolding(crate::specs::Reading::is_right))]
fn is_right(bytes: &[u8], kind: u8) -> bool
    ensures { result ≡ is_right kind bytes.now }
{
    is_kind(bytes, kind) && bytes.len() == RIGHT_BYTES
}

// The row of the table whose tests pass; 11 where none does. By its kind first, so that only that row is tested.
#[tactic(auto, unfolding(crate::specs::Reading::seen))]
pub fn seen(bytes: &[u8]) -> Result<Frame, Refusal>
    ensures { result ≡ seen bytes.now }
{
    match byte_at(bytes, KIND_AT) {
        LOAD if is_load(bytes) => Ok(Frame::Load(load_in(bytes))),
        MESSAGE if is_message(bytes) => Ok(Frame::Message(message_in(bytes))),
        REPORT if is_right(bytes, REPORT) => Ok(Frame::Report(name_in(bytes))),
        DELETE if is_right(bytes, DELETE) => Ok(Frame::Delete(name_in(bytes))),
        _ => Err(Refusal::Unreadable),
    }
}

fn key_present(bytes: &[u8]) -> bool
    ensures { result ≡ key_present bytes.now }
{
    is_load(bytes) && flags_from(byte_at(bytes, FLAGS_AT)).key
}

// Zeros where no key is present, or the frame is refused.
#[tactic(auto, using(crate::proofs::Tests::keyed_long), unfolding(crate::specs::Reading::key_beside))]
pub fn key_beside(bytes: &[u8]) -> [u8; KEY_BYTES]
    ensures { result ≡ key_beside bytes.now }
{
    if key_present(bytes) {
        bytes_at(bytes, KEY_AT)
    } else {
        [0; KEY_BYTES]
    }
}

// 01, Frames: the reader tests kind, length, flag bits, length against flag bit 1 and mark, and nothing else.
pub fn read(bytes: &[u8]) -> ReadFrame
    ensures { result ≡ reading bytes.now }
{
    ReadFrame {
        frame: seen(bytes),
        key: key_beside(bytes),
    }
}
