// What a frame is sent for.
ghost use Rattle.std.specs.Prelude.{◌≡◌};
ghost use Rattle.std.specs.Option.{ok_or};
ghost use Rattle.frames.specs.Sorts.{sort_number, sort_of, well_addressed};

use model::sets::{all_but, count};

// A prepare asks for promises, an accept for votes, an ack answers either.
#[derive(Clone, Copy, Debug, PartialEq, Eq)]
pub enum Sort {
    Prepare,
    Accept,
    Ack,
}

// A number that is no sort's.
#[derive(Clone, Copy, Debug, PartialEq, Eq)]
pub struct UnknownSort(pub u8);

// The sort's number in a header.
impl From<Sort> for u8 {
    ghost from_gives = { λ sort number. number ≡ sort_number sort };

    fn from(sort: Sort) -> u8 {
        match sort {
            Sort::Prepare => 0,
            Sort::Accept => 1,
            Sort::Ack => 2,
        }
    }
}

impl TryFrom<u8> for Sort {
    type Error = UnknownSort;

    ghost try_from_gives = { λ number sort. sort ≡ ok_or (sort_of number) (record { 0 = number }) };

    fn try_from(number: u8) -> Result<Sort, UnknownSort> {
        match number {
            0 => Ok(Sort::Prepare),
            1 => Ok(Sort::Accept),
            2 => Ok(Sort::Ack),
            _ => Err(UnknownSort(number)),
        }
    }
}

impl Sort {
    // Whether a frame of this sort may go to these addressees: a prepare and an accept to all but the sender, an ack to one other.
    pub fn may_go_to(&self, n: usize, sender: usize, to: u8) -> bool
        ensures { result ≡ well_addressed self.now n sender to }
    {
        let others = all_but(n, sender);
        match self {
            Sort::Prepare | Sort::Accept => to == others,
            Sort::Ack => to & others == to && count(to) == 1,
        }
    }
}
