// Upper-case hexadecimal, two digits a byte.
ghost use Rattle.std.specs.Prelude.{◌<◌, IfSome};

use std::fmt;

// One byte more than the longest string of a case has.
pub(crate) const ROOM: usize = 44;

// A byte string in digits. frames_cases has its own: it prints lower case, and no crate lies under both for it.
#[derive(Clone, Copy)]
pub(crate) struct Hex<'a>(pub(crate) &'a [u8]);

impl fmt::Display for Hex<'_> {
    fn fmt<W: fmt::Write>(&self, f: &mut fmt::Formatter<W>) -> fmt::Result {
        for byte in self.0 {
            write!(f, "{byte:02X}")?;
        }
        Ok(())
    }
}

// The value of a digit, told apart from `lines`: this program tries the book alone, and is no check of it by its own reader.
fn digit(c: u8) -> Option<u8>
    ensures { IfSome result (λ d. d < 16) }
{
    match c {
        b'0'..=b'9' => Some(c - b'0'),
        b'A'..=b'F' => Some(c - b'A' + 10),
        _ => None,
    }
}

// The byte that two digits spell.
fn byte([high, low]: [u8; 2]) -> Option<u8> {
    Some(digit(high)? * 16 + digit(low)?)
}

// The bytes after a mark and a space, up to a character that is no digit: no more than there is room for.
pub(crate) fn bytes_after<'a>(text: &[u8], room: &'a mut [u8; ROOM]) -> &'a mut [u8] {
    let (pairs, _) = text.get(2..).unwrap_or(&[]).as_chunks::<2>();
    for (n, pair) in pairs.iter().take(ROOM).enumerate() {
        let Some(byte) = byte(*pair) else {
            return &mut room[..n];
        };
        room[n] = byte;
    }
    &mut room[..pairs.len().min(ROOM)]
}
