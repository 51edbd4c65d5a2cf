// Rounds in the hands of a caller: each has to be ended.
ghost use Rattle.std.specs.Prelude.{◌≡◌};
ghost use Rattle.std.specs.Result.{result_err};

use model::faults::Fault;
use register::round::Round;

// Why a prepare was refused, if it was; a round that it gave is ended.
pub fn refusal(r: Result<(Round, usize), Fault>) -> Option<Fault>
    ensures { result ≡ result_err r }
{
    match r {
        Ok((round, _)) => {
            round.abandon();
            None
        }
        Err(fault) => Some(fault),
    }
}
