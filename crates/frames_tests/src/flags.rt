// A small kind of value to test with.
ghost use Rattle.frames_tests.specs.Flags.{flags};
ghost use Rattle.std.proofs.Common.{rules};
ghost use Rattle.std.specs.Prelude.{refl};

use kinds::kind::Kind;

// Kind 1: yes or no, with the codes 1 and 0.
pub struct Flags;

impl Kind for Flags {
    type Value = bool;

    const NUMBER: u8 = 1;

    ghost NUMBER = { 1 };

    ghost means = { flags };

    ghost numbered = { refl };

    ghost lawful = { Prim.search rules };

    fn code(v: bool) -> u64 {
        if v { 1 } else { 0 }
    }

    fn value(code: u64) -> Option<bool> {
        match code {
            0 => Some(false),
            1 => Some(true),
            _ => None,
        }
    }
}
