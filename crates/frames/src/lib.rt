// Frames: what the reader makes of a byte string, and what the writer makes of a frame.
#![tactic(auto)]

pub mod layouts;
pub mod reader;
pub mod round_trips;
pub mod writer;

use figures::limits::KEY_BYTES;
use figures::loads::{Load, Message};
use figures::names::RightName;
use figures::replies::Refusal;

// 01, Frames: one of four kinds, each with its own fields.
#[derive(Clone, Copy)]
pub enum Frame {
    Load(Load),
    Message(Message),
    Report(RightName),
    Delete(RightName),
}

// What a byte string reads as. The sixteen key bytes stand beside the frame (01, The shape of each place), zeros where none is present.
#[derive(Clone, Copy)]
pub struct ReadFrame {
    pub frame: Result<Frame, Refusal>,
    pub key: [u8; KEY_BYTES],
}
