// How many participants and cells there are.
ghost use Rattle.std.specs.Prelude.{◌≡◌, ◌+◌, ◌*◌, ◌<◌, ◌≤◌, is_some, IfSome};
ghost use Rattle.register.specs.Ranges.{in_range};

// 2 to 7 participants and 1 to 64 cells.
#[derive(Clone, Copy)]
pub(crate) struct Size {
    pub(crate) n: usize,
    pub(crate) cells: usize,
    ghost some: { 2 ≤ n },
    ghost few: { n ≤ 7 },
    ghost some_cells: { 1 ≤ cells },
    ghost few_cells: { cells ≤ 64 },
}

impl Size {
    // Nothing where one of them is out of range.
    pub(crate) fn new(n: usize, cells: usize) -> Option<Size>
        ensures ranges { is_some result ≡ in_range n cells }
        ensures is { IfSome result (λ size. (size.n ≡ n) × (size.cells ≡ cells)) }
    {
        if 2 <= n && n <= 7 && 1 <= cells && cells <= 64 {
            Some(Size { n, cells })
        } else {
            None
        }
    }

    // The number of rows, and of places in a store.
    pub(crate) fn places(self) -> usize
        ensures all { result ≡ self.n * self.cells }
        ensures few { result ≤ 448 }
    {
        self.n * self.cells
    }

    // Where participant p keeps cell c, among the rows and in the store.
    pub(crate) fn place(self, p: usize, c: usize) -> usize
        requires { (p < self.n) × (c < self.cells) }
        ensures row { result ≡ p * self.cells + c }
        ensures within { result < self.n * self.cells }
    {
        p * self.cells + c
    }
}
