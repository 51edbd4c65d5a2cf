// Cutting bytes at the mark that divides lines or words.
ghost use Rattle.script.specs.Pieces.{Splits};
ghost use Rattle.std.specs.Prelude.{◌≡◌, ◌==◌, position};

// The bytes before the first mark, and those after it if there is one.
pub(crate) fn split_first(mark: u8, bytes: &[u8]) -> (&[u8], Option<&[u8]>)
    ensures { Splits mark bytes.now result.0.now result.1 }
{
    match first_mark(mark, bytes) {
        Some(at) => (&bytes[..at], Some(&bytes[at + 1..])),
        None => (bytes, None),
    }
}

fn first_mark(mark: u8, bytes: &[u8]) -> Option<usize>
    ensures { result ≡ position (λ b. b == mark) bytes.now }
{
    bytes.iter().position(|b| *b == mark)
}
