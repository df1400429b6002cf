// The frame writer: 01, Frames.
ghost use Rattle.std.specs.Prelude.{◌≡◌, ◌+◌, ◌≤◌, length};
ghost use Rattle.std.proofs.lemmas.List.Edits.{sets};
ghost use Rattle.frames.specs.Types.{LoadFrame};
ghost use Rattle.frames.specs.Numbers.{join, total};
ghost use Rattle.frames.specs.Layouts.{id_widths, message_widths, right_widths, load_widths, length_with, whole_length};
ghost use Rattle.frames.specs.Writing.{id_numbers, message_numbers, name_numbers, flags_byte, load_numbers, written_as, outcome, writing};

use crate::Frame;
use crate::layouts::{
    AMOUNT_AT, COST_AT, DELETE, DOMAIN_AT, FLAGS_AT, GROUP_AT, HIGH_AT, KEY_AT, KIND_AT, LOAD,
    LOW_AT, MARK_AT, MESSAGE, MESSAGE_BYTES, NUMBER_AT, REPORT, RIGHT_BYTES, SPE_AT, load_length,
};
use figures::limits::KEY_BYTES;
use figures::loads::{Flags, Load, Message};
use figures::names::{KeyDomain, KeyId, RightName};
use figures::replies::Refusal;

// These bytes from a place on.
fn put<const N: usize>(buffer: &mut [u8], at: usize, spelt: [u8; N])
    requires { at + N ≤ length buffer.old }
    ensures { buffer.new ≡ sets buffer.old at spelt.entry }
{
    buffer[at..at + N].copy_from_slice(&spelt);
}

// Here too each part asks for its own widths, and arrays would be cut first.
fn put_id(buffer: &mut [u8], kind: u8, id: KeyId)
    requires { total id_widths ≤ length buffer.old }
    ensures { buffer.new ≡ sets buffer.old 0 (join id_widths (id_numbers kind id)) }
{
    let KeyDomain(high, middle, low) = id.domain;
    put(buffer, KIND_AT, [kind]);
    put(buffer, DOMAIN_AT, [high, middle, low]);
    put(buffer, GROUP_AT, id.group.to_be_bytes());
    put(buffer, NUMBER_AT, id.number.to_be_bytes());
}

fn put_message(buffer: &mut [u8], message: Message)
    requires { total message_widths ≤ length buffer.old }
    ensures { buffer.new ≡ sets buffer.old 0 (join message_widths (message_numbers message)) }
{
    put_id(buffer, MESSAGE, message.id);
    put(buffer, LOW_AT, message.ts.0.to_be_bytes());
    put(buffer, MARK_AT, [u8::from(message.good)]);
}

fn put_right(buffer: &mut [u8], kind: u8, name: RightName)
    requires { total right_widths ≤ length buffer.old }
    ensures { buffer.new ≡ sets buffer.old 0 (join right_widths (name_numbers kind name)) }
{
    put_id(buffer, kind, name.id);
    put(buffer, LOW_AT, name.interval.low.0.to_be_bytes());
    put(buffer, HIGH_AT, name.interval.high.0.to_be_bytes());
    put(buffer, SPE_AT, [name.spe]);
}

// As for the reader, no `From`.
fn flags_byte(flags: Flags) -> u8
    ensures { result ≡ flags_byte flags }
{
    u8::from(flags.add) + 2 * u8::from(flags.key)
}

fn put_fields(buffer: &mut [u8], load: Load)
    requires { total load_widths ≤ length buffer.old }
    ensures { buffer.new ≡ sets buffer.old 0 (join load_widths (load_numbers load)) }
{
    put_right(buffer, LOAD, load.name);
    put(buffer, FLAGS_AT, [flags_byte(load.flags)]);
    put(buffer, AMOUNT_AT, load.amount.to_be_bytes());
    put(buffer, COST_AT, load.cost.0.to_be_bytes());
}

// The key follows its load only where it is present.
#[tactic(auto, unfolding(crate::specs::Writing::written_as))]
fn put_load(buffer: &mut [u8], load: Load, key: [u8; KEY_BYTES])
    requires { length_with load_widths load.flags.key ≤ length buffer.old }
    ensures { buffer.new ≡ sets buffer.old 0 (written_as (LoadFrame load) key) }
{
    put_fields(buffer, load);
    if load.flags.key {
        put(buffer, KEY_AT, key);
    }
}

fn put_frame(buffer: &mut [u8], frame: Frame, key: [u8; KEY_BYTES])
    requires { whole_length frame ≤ length buffer.old }
    ensures { buffer.new ≡ sets buffer.old 0 (written_as frame key) }
{
    match frame {
        Frame::Load(load) => put_load(buffer, load, key),
        Frame::Message(message) => put_message(buffer, message),
        Frame::Report(name) => put_right(buffer, REPORT, name),
        Frame::Delete(name) => put_right(buffer, DELETE, name),
    }
}

fn frame_length(frame: Frame) -> usize
    ensures { result ≡ whole_length frame }
{
    match frame {
        Frame::Load(load) => load_length(load.flags.key),
        Frame::Message(_) => MESSAGE_BYTES,
        Frame::Report(_) | Frame::Delete(_) => RIGHT_BYTES,
    }
}

// 01, Frames: the frame at the front, later bytes as found; 10 and nothing altered where the buffer is shorter than the frame.
// The count stands beside the lent buffer, as the promise (`outcome`) has it.
pub fn write(frame: Frame, key: [u8; KEY_BYTES], buffer: &mut [u8]) -> Result<usize, Refusal>
    ensures { outcome result buffer.new ≡ writing frame key buffer.old }
{
    let count = frame_length(frame);
    if buffer.len() < count {
        return Err(Refusal::BufferLength);
    }
    put_frame(buffer, frame, key);
    Ok(count)
}
