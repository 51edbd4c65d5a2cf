// What a step makes of an entry.
ghost use Rattle.std.specs.Prelude.{◌≡◌};
ghost use Rattle.steps.specs.Entries.{promising, voting, seen, adopted, behind};

use model::entries::Entry;

// The entry that promises ballot b, its vote as before.
pub fn promising(own: Entry, b: i32) -> Entry
    ensures { result ≡ promising own b }
{
    Entry { promise: b, ..own }
}

// The entry that has promised and voted in ballot b, for the value of this code.
pub fn voting(b: i32, code: u64) -> Entry
    ensures { result ≡ voting b code }
{
    Entry {
        promise: b,
        vote: b,
        code,
    }
}

// The view of a sender after its entry s came in: the larger promise, and the later vote with its code.
pub fn seen(view: Entry, s: Entry) -> Entry
    ensures { result ≡ seen view s }
{
    let later = if view.vote < s.vote { s } else { view };
    Entry {
        promise: view.promise.max(s.promise),
        ..later
    }
}

// The own entry after a sender's entry s came in: it takes over a vote that its promise does not forbid, and promises no less than s. (It shares a struct literal with `seen` and no test: one function over the test would say less.)
pub fn adopted(own: Entry, s: Entry) -> Entry
    ensures { result ≡ adopted own s }
{
    let voted = if own.promise <= s.vote { s } else { own };
    Entry {
        promise: own.promise.max(s.promise),
        ..voted
    }
}

// Whether what the sender knew of us, t, is behind what we now hold.
pub fn behind(t: Entry, own: Entry) -> bool
    ensures { result ≡ behind t own }
{
    t.promise < own.promise || t.vote < own.vote
}
