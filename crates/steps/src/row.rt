// What a row shows. It has room for the most participants; how many of them there are, n, the register knows and hands in beside it.
ghost use Rattle.std.specs.Prelude.{◌≡◌, ℕ, ◌<◌, ◌≤◌, min, false};
ghost use Rattle.std.specs.Fn.{FnReturnsAt};
ghost use Rattle.model.specs.Entries.{clean};
ghost use Rattle.model.specs.Sets.{member};
ghost use Rattle.steps.specs.Rows.{numbers_at, vote_of, promised, voted, Leads, Carries, Shows};

use kinds::kind::Kind;
use model::entries::{Entry, NO_BALLOT};
use model::rows::{MOST, Row};
use model::sets::with;
use quorums::rule::QuorumRule;

// The vote that counts: none where the numbers are no entry or the code has no value.
pub fn counted_vote<K: Kind>(e: &Entry) -> i32
    ensures { result ≡ vote_of K.Kind.means (clean e.now) }
{
    let e = e.clean();
    if K::value(e.code).is_some() {
        e.vote
    } else {
        NO_BALLOT
    }
}

// The first of the n participants whose vote is the highest in the row, if anybody voted.
pub fn highest_vote<K: Kind>(row: &Row, n: usize) -> Option<usize>
    ensures { Leads K.Kind.means row.now.entries (min n 7) result }
{
    // Two variables: of a pair, as `shown` answers it, only the holder would be asked for.
    let mut highest = NO_BALLOT;
    let mut holder = None;
    for (i, e) in row.entries[..n.min(MOST)].iter().enumerate() {
        let vote = counted_vote::<K>(e);
        if vote > highest {
            highest = vote;
            holder = Some(i);
        }
    }
    holder
}

// The value that an accept carries: that of the highest vote in the row, or the one handed in where nobody voted.
pub fn carried<K: Kind>(row: &Row, n: usize, v: K::Value) -> K::Value
    ensures { Carries K.Kind.means row.now.entries (min n 7) v result }
{
    highest_vote::<K>(row, n)
        .and_then(|i| K::value(row.entries[i].clean().code))
        .unwrap_or(v)
}

// Those of the n participants that the row shows with promise b.
pub fn promisers(row: &Row, n: usize, b: i32) -> u8
    ensures { (i : ℕ) → member result i ≡ promised row.now.entries (min n 7) b i }
{
    those(row, n, |e| e.clean().promise == b)
}

// Those of the n participants whose vote in the row counts and is b.
pub fn voters<K: Kind>(row: &Row, n: usize, b: i32) -> u8
    ensures { (i : ℕ) → member result i ≡ voted K.Kind.means row.now.entries (min n 7) b i }
{
    those(row, n, |e| counted_vote::<K>(e) == b)
}

// Those of the n participants whose entry in the row passes.
fn those<F: Fn(&Entry) -> bool>(row: &Row, n: usize, passes: F) -> u8
    requires { F.IsAlwaysCallable passes }
    ensures asked { (i : ℕ) → i < min n 7 → FnReturnsAt F.Fn passes (numbers_at row.now.entries i) (member result i) }
    ensures no_others { (i : ℕ) → min n 7 ≤ i → member result i ≡ false }
{
    let mut set = 0;
    for (i, e) in row.entries[..n.min(MOST)].iter().enumerate() {
        if passes(e) {
            set = with(set, i);
        }
    }
    set
}

// The highest ballot whose voters in the row form a choosing set, with the value of the first of them.
pub fn shown<K: Kind, Q: QuorumRule>(row: &Row, n: usize, rule: &Q) -> Option<(i32, K::Value)>
    ensures { Shows K.Kind.means (Q.QuorumRule.means.chooses rule.now) row.now.entries (min n 7) result }
{
    let mut choice = None;
    for e in &row.entries[..n.min(MOST)] {
        let e = e.clean();
        let Some(v) = K::value(e.code) else { continue };
        let top = choice.map_or(NO_BALLOT, |(b, _)| b);
        if e.vote > top && rule.chooses(voters::<K>(row, n, e.vote)) {
            choice = Some((e.vote, v));
        }
    }
    choice
}
