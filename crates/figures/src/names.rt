// The three figures, kept apart, and what names a key or a right.
ghost use Rattle.std.specs.Prelude.{◌≡◌};
ghost use Rattle.places.specs.Words.{failed};
ghost use Rattle.figures.specs.Names.{covers, empty, live};

use places::Verdict;

#[derive(Clone, Copy, PartialEq, Eq, PartialOrd, Ord)]
pub struct Tokens(pub u32);

#[derive(Clone, Copy, PartialEq, Eq, PartialOrd, Ord)]
pub struct TrafficKeys(pub u32);

#[derive(Clone, Copy, PartialEq, Eq, PartialOrd, Ord)]
pub struct Timestamp(pub u32);

#[derive(Clone, Copy, PartialEq, Eq)]
pub struct KeyDomain(pub u8, pub u8, pub u8);

// The number before the group: a derived `==` asks in this order, and the number tells IDs apart first.
#[derive(Clone, Copy, PartialEq, Eq)]
pub struct KeyId {
    pub domain: KeyDomain,
    pub number: u16,
    pub group: u16,
}

// From TS low, which is outside, to TS high, which is inside.
#[derive(Clone, Copy, PartialEq, Eq)]
pub struct Interval {
    pub low: Timestamp,
    pub high: Timestamp,
}

#[derive(Clone, Copy, PartialEq, Eq)]
pub struct RightName {
    pub id: KeyId,
    pub interval: Interval,
    pub spe: u8,
}

// The ID of a free place, as the definition `no_id` has it.
pub const NO_ID: KeyId = KeyId {
    domain: KeyDomain(0, 0, 0),
    group: 0,
    number: 0,
};

impl Interval {
    #[tactic(auto, unfolding(crate::specs::Names::covers))]
    pub fn covers(self, ts: Timestamp) -> bool
        ensures { result ≡ covers self ts }
    {
        self.low < ts && ts <= self.high
    }

    // Fails where no TS can lie inside.
    #[tactic(auto, unfolding(crate::specs::Names::empty))]
    pub fn proper(self) -> Verdict
        ensures { failed result ≡ empty self }
    {
        Verdict::unless(self.high <= self.low)
    }
}

impl Timestamp {
    // Whether a message with this TS is live after a replay counter.
    #[tactic(auto, unfolding(crate::specs::Names::live))]
    pub fn live(self, replay: Timestamp) -> bool
        ensures { result ≡ live replay self }
    {
        replay < self
    }
}
