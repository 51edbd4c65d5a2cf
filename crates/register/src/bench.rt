// A register with its rows, its line and its page, as a session runs it.
ghost use Rattle.std.specs.Prelude.{◌≡◌, ◌≤◌, pos, IfOk, vec_len};
ghost use Rattle.std.specs.Option.{option_map};
ghost use Rattle.stores.specs.Meaning.{Fresh};
ghost use Rattle.stores.specs.Page.{page_means};
ghost use Rattle.machine.specs.Calls.{ReadsOut};
ghost use Rattle.machine.specs.Runs.{Does, prepare as prepare_event, accept as accept_event, deliver as deliver_event, restart as restart_event};
ghost use Rattle.register.specs.State.{turn};
ghost use Rattle.register.specs.Benches.{our_makes, bench_board, as_ballot, of_ballot, handed_back, Lays};

use crate::register::Register;
use crate::round::Round;
use crate::size::Size;
use kinds::glyph::Glyph;
use kinds::glyph_numbers::GlyphNumbers;
use model::faults::Fault;
use model::rows::Row;
use posts::line::Line;
use quorums::majority::Majority;
use std::alloc::{AllocError, Global};
use stores::page::PageStore;

// Glyph numbers, majority, a line and a page store.
#[derive(Drop)]
pub(crate) struct Bench {
    register: Register<GlyphNumbers, Majority, Line, PageStore>,
    rows: Vec<Row>,
    line: Line,
    page: PageStore,
}

impl Bench {
    // A register of n participants and so many cells, or nothing where one of them is out of range.
    pub(crate) fn new(heap: Global, n: usize, cells: usize) -> Result<Option<Bench>, AllocError>
        ensures { IfOk result (λ bench. Lays n cells (option_map bench_board bench)) }
    {
        let Some(size) = Size::new(n, cells) else {
            return Ok(None);
        };
        let Ok(rule) = Majority::new(n) else {
            return Ok(None);
        };
        let line = Line::new(heap)?;
        let page = blank_page(heap, size.places())?;
        let mut rows = blank_rows(heap, size.places())?;
        let Ok(register) = Register::set_up(n, cells, rule, rows.as_mut_slice(), &page) else {
            return Ok(None);
        };
        Ok(Some(Bench {
            register,
            rows,
            line,
            page,
        }))
    }

    pub(crate) fn size(&self) -> Size
        ensures { result ≡ self.now.register.size }
    {
        self.register.size()
    }

    // Prepares, and tells the round by its ballot.
    pub(crate) fn prepare(&mut self, p: usize, c: usize, b: u32) -> Result<(i32, usize), Fault>
        ensures { Does our_makes (bench_board self.old) (prepare_event p c (pos b) (of_ballot p c result)) (bench_board self.new) }
    {
        let (round, kept) = self.register.prepare(
            self.rows.as_mut_slice(),
            &mut self.page,
            &mut self.line,
            p,
            c,
            as_ballot(b),
        )?;
        Ok((round.spend(), kept))
    }

    // Accepts. The round is over for the caller, taken or refused.
    pub(crate) fn accept(&mut self, round: Round, glyph: Glyph) -> Result<(Glyph, usize), Fault>
        ensures { Does our_makes (bench_board self.old) (accept_event (turn round) glyph (handed_back (turn round) result)) (bench_board self.new) }
    {
        self.register
            .accept(
                self.rows.as_mut_slice(),
                &mut self.page,
                &mut self.line,
                round,
                glyph,
            )
            .map_err(|(fault, round)| {
                round.abandon();
                fault
            })
    }

    pub(crate) fn deliver(
        &mut self,
        q: usize,
        k: usize,
        buffer: &mut [u8; 88],
    ) -> Result<usize, Fault>
        ensures { Does our_makes (bench_board self.old) (deliver_event q k buffer.old result buffer.new) (bench_board self.new) }
    {
        self.register.deliver(
            self.rows.as_mut_slice(),
            &mut self.page,
            &mut self.line,
            q,
            k,
            buffer,
        )
    }

    pub(crate) fn restart(&mut self, p: usize) -> Result<(), Fault>
        ensures { Does our_makes (bench_board self.old) (restart_event p result) (bench_board self.new) }
    {
        self.register
            .restart(self.rows.as_mut_slice(), &self.page, p)
    }

    pub(crate) fn read_out(&self, p: usize, c: usize) -> Result<Option<(i32, Glyph)>, Fault>
        ensures { ReadsOut our_makes (bench_board self.now).table p c result }
    {
        self.register.read_out(self.rows.as_slice(), p, c)
    }
}

// A number of a line as a ballot. One that is too great for that is no ballot, and -1 is none either. (i32::try_from takes one number more, 0x7fff_ffff.)
fn as_ballot(b: u32) -> i32
    ensures { result ≡ as_ballot b }
{
    if b < 0x7fff_ffff { b as i32 } else { -1 }
}

// A page with so many places, none of which holds an entry.
fn blank_page(heap: Global, places: usize) -> Result<PageStore, AllocError>
    requires { places ≤ 448 }
    ensures { IfOk result (λ page. (page_means.places page ≡ places) × Fresh page_means page) }
{
    Ok(PageStore::new(vec![in heap; 0u8; 12 * places]?))
}

// So many rows of no entries.
fn blank_rows(heap: Global, places: usize) -> Result<Vec<Row>, AllocError>
    ensures { IfOk result (λ rows. vec_len rows ≡ places) }
{
    Ok(vec![in heap; Row::empty(); places]?)
}
