// A running session: a register, and the rounds held between lines.
ghost use Rattle.std.specs.Prelude.{◌≡◌};

use crate::bench::Bench;
use crate::held::Held;

mod methods;

// What is held fits the register. The buffer is the one that frames are delivered into.
#[derive(Drop)]
pub struct Desk {
    bench: Bench,
    held: Held,
    buffer: [u8; 88],
    ghost same_n: { held.size.n ≡ bench.register.size.n },
    ghost same_cells: { held.size.cells ≡ bench.register.size.cells },
}
