// Why a call was refused.
ghost use Rattle.std.specs.Prelude.{◌≡◌};
ghost use Rattle.model.specs.Checks.{demand, unless};
ghost use Rattle.model.specs.Faults.{layer_of, number_of, place_of};

// The part of the register that refuses.
#[derive(Clone, Copy, Debug, PartialEq, Eq)]
pub enum Layer {
    SetUp,
    Door,
    Prepare,
    Accept,
    Deliver,
    Reader,
    Store,
    Value,
    Rule,
}

// A refusal. Where it has a place it holds it: a byte of a frame, or a place of a store.
#[derive(Clone, Copy, Debug, PartialEq, Eq)]
pub enum Fault {
    // n, cells, rows, rule or store do not fit each other.
    Unfit,
    // No such participant or cell, or rows of another length.
    Nowhere,
    // The participant is down.
    IsDown,
    // No ballot, or another participant's.
    NotItsBallot,
    // The ballot is not above the own promise.
    PromisedAlready,
    // The round's ballot is not the participant's, or not its promise.
    NotPromised,
    // The own vote is that ballot already.
    VotedAlready,
    // Those known to have promised the ballot do not suffice.
    TooFew,
    // No such item waits.
    NoItem,
    // The frame is ill formed, at this byte.
    IllFormed(usize),
    // The frame is not for this register or participant, at this byte.
    NotForUs(usize),
    // A save failed, at this place.
    SaveFailed(usize),
    // A value out of range.
    OutOfRange,
    // n, weights or thresholds make no rule.
    NoRule,
}

impl Fault {
    // The layer that refuses.
    pub fn layer(&self) -> Layer
        ensures { result ≡ layer_of self.now }
    {
        match self {
            Fault::Unfit => Layer::SetUp,
            Fault::Nowhere | Fault::IsDown => Layer::Door,
            Fault::NotItsBallot | Fault::PromisedAlready => Layer::Prepare,
            Fault::NotPromised | Fault::VotedAlready | Fault::TooFew => Layer::Accept,
            Fault::NoItem => Layer::Deliver,
            Fault::IllFormed(_) | Fault::NotForUs(_) => Layer::Reader,
            Fault::SaveFailed(_) => Layer::Store,
            Fault::OutOfRange => Layer::Value,
            Fault::NoRule => Layer::Rule,
        }
    }

    // The refusal's number.
    pub fn number(&self) -> u8
        ensures { result ≡ number_of self.now }
    {
        match self {
            Fault::Unfit => 1,
            Fault::Nowhere => 2,
            Fault::IsDown => 3,
            Fault::NotItsBallot => 4,
            Fault::PromisedAlready => 5,
            Fault::NotPromised => 6,
            Fault::VotedAlready => 7,
            Fault::TooFew => 8,
            Fault::NoItem => 9,
            Fault::IllFormed(_) => 10,
            Fault::NotForUs(_) => 11,
            Fault::SaveFailed(_) => 12,
            Fault::OutOfRange => 13,
            Fault::NoRule => 14,
        }
    }

    // The byte or the place that the refusal is about, else 0.
    pub fn place(&self) -> usize
        ensures { result ≡ place_of self.now }
    {
        match self {
            Fault::IllFormed(place) | Fault::NotForUs(place) | Fault::SaveFailed(place) => *place,
            _ => 0,
        }
    }
}

// A check that has to pass.
pub fn check<E: Drop>(passes: bool, fault: E) -> Result<(), E>
    ensures { result ≡ unless (demand passes fault) tt }
{
    passes.then_some(()).ok_or(fault)
}
