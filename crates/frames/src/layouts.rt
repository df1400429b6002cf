// The table of 01, Frames, as code needs it. The widths that these numbers follow from stand in specs/Layouts.antt, and proofs tie the two.
ghost use Rattle.std.specs.Prelude.{◌≡◌};
ghost use Rattle.frames.specs.Layouts.{load_widths, length_with};

use figures::limits::KEY_BYTES;

// Byte 0 of each kind, as it is on the wire; the enum of the kinds is `Frame`.
pub const LOAD: u8 = 0x01;

pub const MESSAGE: u8 = 0x02;

pub const REPORT: u8 = 0x03;

pub const DELETE: u8 = 0x04;

// Where each field starts; LOW is also a message's TS.
pub const KIND_AT: usize = 0;

pub const DOMAIN_AT: usize = 1;

pub const GROUP_AT: usize = 4;

pub const NUMBER_AT: usize = 6;

pub const LOW_AT: usize = 8;

pub const HIGH_AT: usize = 12;

pub const MARK_AT: usize = 12;

pub const SPE_AT: usize = 16;

pub const FLAGS_AT: usize = 17;

pub const AMOUNT_AT: usize = 18;

pub const COST_AT: usize = 22;

pub const KEY_AT: usize = 26;

// Whole lengths; a load is longer by its key where it carries one.
pub const LOAD_BYTES: usize = 26;

pub const KEYED_BYTES: usize = LOAD_BYTES + KEY_BYTES;

pub const MESSAGE_BYTES: usize = 13;

pub const RIGHT_BYTES: usize = 17;

// The whole length that flag bit 1 asks for.
pub fn load_length(keyed: bool) -> usize
    ensures { result ≡ length_with load_widths keyed }
{
    if keyed { KEYED_BYTES } else { LOAD_BYTES }
}
