// Frames and byte strings as text: numbers in hexadecimal, as wide as their fields.
use figures::loads::{Load, Message};
use figures::names::{Interval, KeyDomain, KeyId, RightName};
use figures::replies::Refusal;
use frames::{Frame, ReadFrame};
use std::fmt;

// A byte string, two digits a byte.
#[derive(Clone, Copy)]
pub(crate) struct Hex<'a>(pub(crate) &'a [u8]);

// What the crates below give no text of their own.
#[derive(Clone, Copy)]
pub(crate) struct Shown<T>(pub(crate) T);

impl fmt::Display for Hex<'_> {
    fn fmt<W: fmt::Write>(&self, f: &mut fmt::Formatter<W>) -> fmt::Result {
        for byte in self.0 {
            write!(f, "{byte:02x}")?;
        }
        Ok(())
    }
}

impl fmt::Display for Shown<KeyId> {
    fn fmt<W: fmt::Write>(&self, f: &mut fmt::Formatter<W>) -> fmt::Result {
        let KeyId {
            domain,
            group,
            number,
        } = self.0;
        let KeyDomain(first, second, third) = domain;
        write!(
            f,
            "{first:02x}{second:02x}{third:02x} {group:04x} {number:04x}"
        )
    }
}

impl fmt::Display for Shown<RightName> {
    fn fmt<W: fmt::Write>(&self, f: &mut fmt::Formatter<W>) -> fmt::Result {
        let RightName { id, interval, spe } = self.0;
        let Interval { low, high } = interval;
        write!(f, "{} {:08x} {:08x} {spe:02x}", Shown(id), low.0, high.0)
    }
}

impl fmt::Display for Shown<Load> {
    fn fmt<W: fmt::Write>(&self, f: &mut fmt::Formatter<W>) -> fmt::Result {
        let Load {
            name,
            flags,
            amount,
            cost,
        } = self.0;
        let mode = if flags.add { "add" } else { "set" };
        let key = if flags.key { "key" } else { "no key" };
        write!(
            f,
            "load {} {mode} {key} amount {amount:08x} cost {:08x}",
            Shown(name),
            cost.0
        )
    }
}

impl fmt::Display for Shown<Message> {
    fn fmt<W: fmt::Write>(&self, f: &mut fmt::Formatter<W>) -> fmt::Result {
        let Message { id, ts, good } = self.0;
        let mark = if good { "good" } else { "bad" };
        write!(f, "message {} {:08x} {mark}", Shown(id), ts.0)
    }
}

impl fmt::Display for Shown<Frame> {
    fn fmt<W: fmt::Write>(&self, f: &mut fmt::Formatter<W>) -> fmt::Result {
        match self.0 {
            Frame::Load(load) => write!(f, "{}", Shown(load)),
            Frame::Message(message) => write!(f, "{}", Shown(message)),
            Frame::Report(right) => write!(f, "report {}", Shown(right)),
            Frame::Delete(right) => write!(f, "delete {}", Shown(right)),
        }
    }
}

// By the paper's number.
impl fmt::Display for Shown<Refusal> {
    fn fmt<W: fmt::Write>(&self, f: &mut fmt::Formatter<W>) -> fmt::Result {
        write!(f, "refused {:02x}", u8::from(self.0))
    }
}

impl fmt::Display for Shown<ReadFrame> {
    fn fmt<W: fmt::Write>(&self, f: &mut fmt::Formatter<W>) -> fmt::Result {
        match self.0.frame {
            Ok(frame) => write!(f, "{}", Shown(frame))?,
            Err(refusal) => write!(f, "{}", Shown(refusal))?,
        }
        write!(f, ", key {}", Hex(self.0.key.as_slice()))
    }
}

impl fmt::Display for Shown<Result<usize, Refusal>> {
    fn fmt<W: fmt::Write>(&self, f: &mut fmt::Formatter<W>) -> fmt::Result {
        match self.0 {
            Ok(count) => write!(f, "count {count}"),
            Err(refusal) => write!(f, "{}", Shown(refusal)),
        }
    }
}
