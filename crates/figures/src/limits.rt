// Every number of the paper that code needs, once. Those of the definitions stand in specs/Limits.antt, and proofs tie the two.

// 01, Rights: key places and right places.
pub const KEY_PLACES: usize = 16;

pub const RIGHT_PLACES: usize = 32;

// 01, Rights: a key's sixteen bytes, and so the key buffer's.
pub const KEY_BYTES: usize = 16;

// 01, Rights, the table's SPE column.
pub const LIVE_PURSE: u8 = 0x02;

pub const PLAYBACK_PURSE: u8 = 0x03;

pub const DELETION: u8 = 0x0A;

pub const LIVE_COUNTED: u8 = 0x0C;

pub const PLAYBACK_COUNTED: u8 = 0x0D;

// The SPE of a free place: no SPE of the paper. It is what the definition `free_right` has there.
pub const NO_SPE: u8 = 0xFF;

// 01, Rights, the table's limits.
pub const PURSE_LIMIT: u32 = 0x7FFFFFF;

pub const LIVE_LIMIT: u32 = 0x3FFFFF;

pub const PLAYBACK_LIMIT: u32 = 0x7FFFFF;

// 01, Replies: the bytes of a reply, and the place that stands for none.
pub const REPLY_BYTES: usize = 14;

pub const NO_PLACE: usize = 0xFF;

// 01, Frames: the longest frame, in bytes.
pub const FRAME_BYTES: usize = 42;

// 01, The line program: the longest line, in digits.
pub const LINE_DIGITS: usize = 84;
