// Sets of participants as masks: participant i is worth 2^i.
ghost use Rattle.std.specs.Prelude.{◌≡◌, ℕ, not, ◌&&◌, ◌||◌, count_by, ◌==◌, count_ones, nat_lt};
ghost use Rattle.model.specs.Sets.{member, all, single, all_but, with, without};
ghost use Rattle.std.specs.List.{range_with_len};

// Whether participant p is in the set.
pub fn has(set: u8, p: usize) -> bool
    ensures { result ≡ member set p }
{
    p < 8 && (set >> p) % 2 == 1
}

// The participants 0 to n - 1.
pub fn all(n: usize) -> u8
    ensures value { result ≡ all n }
    ensures by_members { (i : ℕ) → member result i ≡ (nat_lt i n && nat_lt i 8) }
{
    if n < 8 { ((1u16 << n) - 1) as u8 } else { 255 }
}

// Participant p alone; nobody where p is past 7.
pub fn single(p: usize) -> u8
    ensures value { result ≡ single p }
    ensures by_members { (i : ℕ) → member result i ≡ (i == p && nat_lt p 8) }
{
    if p < 8 { 1 << p } else { 0 }
}

// The participants 0 to n - 1 without p.
pub fn all_but(n: usize, p: usize) -> u8
    ensures value { result ≡ all_but n p }
    ensures by_members { (i : ℕ) → member result i ≡ (nat_lt i n && nat_lt i 8 && not (i == p)) }
{
    if p < n && p < 8 {
        all(n) - single(p)
    } else {
        all(n)
    }
}

// The set with participant p in it. Nobody past 7 can be.
#[tactic(auto, using(crate::proofs::Changes::told_with))]
pub fn with(set: u8, p: usize) -> u8
    ensures value { result ≡ with set p }
    ensures by_members { (i : ℕ) → member result i ≡ (member set i || i == p && nat_lt p 8) }
{
    set | single(p)
}

// The set with participant p out of it.
#[tactic(auto, using(crate::proofs::Changes::told_without))]
pub fn without(set: u8, p: usize) -> u8
    ensures value { result ≡ without set p }
    ensures by_members { (i : ℕ) → member result i ≡ (member set i && not (i == p)) }
{
    set & all_but(8, p)
}

// How many participants are in the set.
pub fn count(set: u8) -> usize
    ensures value { result ≡ count_ones set }
    ensures by_members { result ≡ count_by (member set) (range_with_len 0 8) }
{
    set.count_ones() as usize
}

#[cfg(test)]
mod tests {
    use super::*;

    #[test]
    fn masks(rt: HostRuntime) {
        assert_eq!(rt; all_but(4, 1), 0b1101);
        assert_eq!(rt; count(all(3)), 3);
        assert!(rt; has(single(2), 2));
    }
}
