// What a kind of value is.
ghost use Rattle.std.specs.Prelude.{◌≡◌, ℕ};
ghost use Rattle.kinds.specs.Meaning.{KindMeaning, KindLaws};

// A kind: its number in a frame's header, its values, and a code below 2^48 for each of them.
pub trait Kind {
    type Value: Copy;

    const NUMBER: u8;

    ghost NUMBER: { ℕ };

    ghost means: { KindMeaning Self.Value };

    // The value's code.
    fn code(v: Self::Value) -> u64
        ensures { result ≡ means.code v };

    // The value that has this code, if any.
    fn value(code: u64) -> Option<Self::Value>
        ensures { result ≡ means.value code };

    // The constant is the meaning's number.
    ghost numbered: { NUMBER ≡ means.number };

    ghost lawful: { KindLaws means };
}
