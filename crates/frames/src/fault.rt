// Why a frame is refused.
ghost use Rattle.std.specs.Prelude.{◌≡◌};
ghost use Rattle.frames.specs.Faults.{passed_up};

use model::faults::Fault;

// The reader's refusal, with the byte where the field at fault begins, or the length where that is wrong.
#[derive(Clone, Copy, Debug, PartialEq, Eq)]
pub enum ReaderFault {
    IllFormed(usize),
    NotForUs(usize),
}

impl From<ReaderFault> for Fault {
    ghost from_gives = { λ f r. r ≡ passed_up f };

    fn from(fault: ReaderFault) -> Fault {
        match fault {
            ReaderFault::IllFormed(place) => Fault::IllFormed(place),
            ReaderFault::NotForUs(place) => Fault::NotForUs(place),
        }
    }
}
