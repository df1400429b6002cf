// What a reply line says, in words: 01, Replies.
use figures::limits::NO_PLACE;
use figures::replies::Refusal;
use lines::hex::decode;
use std::fmt;

// Every refusal, to be found by its number.
const REFUSALS: [Refusal; 11] = [
    Refusal::BufferLength,
    Refusal::Unreadable,
    Refusal::Policy,
    Refusal::Fields,
    Refusal::EmptyInterval,
    Refusal::UnknownId,
    Refusal::Full,
    Refusal::Integrity,
    Refusal::NoFit,
    Refusal::NoFunds,
    Refusal::NotHeld,
];

// What a code says.
#[derive(Clone, Copy)]
pub(crate) enum Code {
    Done,
    Granted,
    Held,
    OverLimit,
    Refused(Refusal),
}

// A number that is no code of the book.
#[derive(Clone, Copy, Debug, PartialEq, Eq)]
pub(crate) struct NoCode;

impl TryFrom<u8> for Code {
    type Error = NoCode;

    fn try_from(number: u8) -> Result<Code, NoCode> {
        match number {
            0x00 => Ok(Code::Done),
            0x01 => Ok(Code::Granted),
            0x02 => Ok(Code::Held),
            0x17 => Ok(Code::OverLimit),
            _ => REFUSALS
                .iter()
                .copied()
                .find(|why| u8::from(*why) == number)
                .map(Code::Refused)
                .ok_or(NoCode),
        }
    }
}

impl fmt::Display for Code {
    fn fmt<W: fmt::Write>(&self, f: &mut fmt::Formatter<W>) -> fmt::Result {
        f.write_str(match self {
            Code::Done => "done",
            Code::Granted => "granted",
            Code::Held => "held",
            Code::OverLimit => "a limit would be passed",
            Code::Refused(Refusal::BufferLength) => "the key buffer is not 16 bytes long",
            Code::Refused(Refusal::Unreadable) => "not a frame",
            Code::Refused(Refusal::Policy) => "no such SPE here",
            Code::Refused(Refusal::Fields) => "a field must be zero",
            Code::Refused(Refusal::EmptyInterval) => "TS low is not below TS high",
            Code::Refused(Refusal::UnknownId) => "the ID is not held",
            Code::Refused(Refusal::Full) => "no place is free",
            Code::Refused(Refusal::Integrity) => "the integrity mark is bad",
            Code::Refused(Refusal::NoFit) => "no right fits",
            Code::Refused(Refusal::NoFunds) => "some right fits, none can pay",
            Code::Refused(Refusal::NotHeld) => "the right or ID is not held",
        })
    }
}

impl fmt::Display for NoCode {
    fn fmt<W: fmt::Write>(&self, f: &mut fmt::Formatter<W>) -> fmt::Result {
        f.write_str("no code of the book")
    }
}

// A reply's fields, with the place of a right if it has one.
#[derive(Clone, Copy)]
pub(crate) struct Reply {
    code: Result<Code, NoCode>,
    place: Option<u8>,
    value: u32,
    purse: u32,
    replay: u32,
}

impl Reply {
    // The reply that a line's digits spell.
    pub(crate) fn spelt(digits: &[u8]) -> Option<Reply> {
        let b = decode(digits)?.whole();
        Some(Reply {
            code: Code::try_from(b[0]),
            place: (usize::from(b[1]) != NO_PLACE).then_some(b[1]),
            value: u32::from_be_bytes([b[2], b[3], b[4], b[5]]),
            purse: u32::from_be_bytes([b[6], b[7], b[8], b[9]]),
            replay: u32::from_be_bytes([b[10], b[11], b[12], b[13]]),
        })
    }
}

// A right as held, where the reply has its place; else the purse, where a code shows it.
impl fmt::Display for Reply {
    fn fmt<W: fmt::Write>(&self, f: &mut fmt::Formatter<W>) -> fmt::Result {
        let Reply {
            code,
            place,
            value,
            purse,
            replay,
        } = self;
        match code {
            Ok(code) => write!(f, "{code}")?,
            Err(none) => write!(f, "{none}")?,
        }
        match (place, code) {
            (Some(place), _) => write!(
                f,
                ": place {place}, counter or cost {value}, purse {purse}, replay counter {replay}"
            ),
            (None, Ok(Code::Done | Code::OverLimit)) => write!(f, ": purse {purse}"),
            (None, _) => Ok(()),
        }
    }
}
