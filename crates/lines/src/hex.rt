// Upper-case hexadecimal, two digits a byte: 01, The line program. The kit's `hex` reads lower case too, and allocates.
ghost use Rattle.std.specs.Prelude.{◌≡◌, ◌<◌, [], ◌∷◌, ◌++◌};
ghost use Rattle.lines.specs.Hex.{digit_value, decoding, glyph, hexadecimal, line_feed, printed};

use crate::rows::Row;
use book::replies::reply_bytes;
use figures::limits::{FRAME_BYTES, LINE_DIGITS, REPLY_BYTES};
use figures::replies::Reply;

pub const LINE_FEED: u8 = b'\n';

// Two digits a byte, and a line feed.
pub const REPLY_LINE: usize = 2 * REPLY_BYTES + 1;

// The value of each character as a digit; 16 stands for one that is none.
static DIGITS: [u8; 256] = [
    16, 16, 16, 16, 16, 16, 16, 16, 16, 16, 16, 16, 16, 16, 16, 16, 16, 16, 16, 16, 16, 16, 16, 16,
    16, 16, 16, 16, 16, 16, 16, 16, 16, 16, 16, 16, 16, 16, 16, 16, 16, 16, 16, 16, 16, 16, 16, 16, // before 0
    0, 1, 2, 3, 4, 5, 6, 7, 8, 9, // 0 to 9
    16, 16, 16, 16, 16, 16, 16, // between
    10, 11, 12, 13, 14, 15, // A to F
    16, 16, 16, 16, 16, 16, 16, 16, 16, 16, 16, 16, 16, 16, 16, 16, 16, 16, 16, 16, 16, 16, 16, 16,
    16, 16, // before a
    16, 16, 16, 16, 16, 16, // a to f
    16, 16, 16, 16, 16, 16, 16, 16, 16, 16, 16, 16, 16, 16, 16, 16, 16, 16, 16, 16, 16, 16, 16, 16,
    16, 16, 16, 16, 16, 16, 16, 16, 16, 16, 16, 16, 16, 16, 16, 16, 16, 16, 16, 16, 16, 16, 16, 16,
    16, 16, 16, 16, 16, 16, 16, 16, 16, 16, 16, 16, 16, 16, 16, 16, 16, 16, 16, 16, 16, 16, 16, 16,
    16, 16, 16, 16, 16, 16, 16, 16, 16, 16, 16, 16, 16, 16, 16, 16, 16, 16, 16, 16, 16, 16, 16, 16,
    16, 16, 16, 16, 16, 16, 16, 16, 16, 16, 16, 16, 16, 16, 16, 16, 16, 16, 16, 16, 16, 16, 16, 16,
    16, 16, 16, 16, 16, 16, 16, 16, 16, 16, 16, 16, 16, 16, 16, 16, 16, 16, 16, 16, 16, 16, 16, 16,
    16, 16, 16, 16, 16, 16, 16, 16, 16,
];

fn digit(c: u8) -> u8
    ensures { result ≡ digit_value c }
{
    DIGITS[c as usize]
}

// The bytes that a line spells, with zeros after them; a damaged line spells none.
pub fn decode(line: &[u8]) -> Option<Row<FRAME_BYTES>>
    ensures { result ≡ decoding line.now }
{
    if line.is_empty() || line.len() % 2 == 1 || line.len() > LINE_DIGITS {
        return None;
    }
    let mut bytes = [0; FRAME_BYTES];
    // Over 15 once a character was no digit. Tested at the end: a test at each pair is slower.
    let mut worst = 0;
    let (pairs, _) = line.as_chunks::<2>();
    for (i, pair) in pairs.iter().enumerate() {
        let [first, second] = *pair;
        let high = digit(first);
        let low = digit(second);
        worst |= high | low;
        bytes[i] = high.wrapping_mul(16).wrapping_add(low);
    }
    if worst > 15 {
        return None;
    }
    Some(Row::holding(bytes, pairs.len()))
}

// The digit of a value below 16.
fn glyph(value: u8) -> u8
    requires { value < 16 }
    ensures { result ≡ glyph value }
{
    if value < 10 {
        value + b'0'
    } else {
        value - 10 + b'A'
    }
}

// The digits of bytes, and a line feed. Out of line: where LLVM has the bytes in registers it takes them apart one by one.
#[inline(never)]
fn line_of(bytes: &[u8; REPLY_BYTES]) -> [u8; REPLY_LINE]
    ensures { result ≡ hexadecimal bytes.now ++ (line_feed ∷ []) }
{
    let mut line = [LINE_FEED; REPLY_LINE];
    for (i, byte) in bytes.iter().enumerate() {
        line[2 * i] = glyph(byte / 16);
        line[2 * i + 1] = glyph(byte % 16);
    }
    line
}

// A reply's digits and a line feed.
#[tactic(auto, unfolding(crate::specs::Hex::printed))]
pub fn reply_line(reply: Reply) -> [u8; REPLY_LINE]
    ensures { result ≡ printed reply }
{
    line_of(&reply_bytes(reply))
}
