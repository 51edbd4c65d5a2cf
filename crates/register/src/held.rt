// The rounds that are held between the lines of a script.
ghost use Rattle.std.specs.Prelude.{◌≡◌, ◌*◌, vec_len};

use crate::size::Size;

mod methods;

// A round is held by its ballot: that of participant p in cell c at the place of p's row of c.
#[derive(Drop)]
pub(crate) struct Held {
    size: Size,
    ballots: Vec<Option<i32>>,
    ghost all: { vec_len ballots ≡ size.n * size.cells },
}
