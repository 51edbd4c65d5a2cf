// Participants of unlike weight.
ghost use Rattle.std.specs.Prelude.{◌≡◌, ◌≤◌, T, if◌then◌else◌, nat_le};
ghost use Rattle.std.specs.List.{list_all};
ghost use Rattle.model.specs.Sets.{member};
ghost use Rattle.quorums.specs.Thresholds.{weight, seven, crossed, stands};
ghost use Rattle.quorums.specs.Weights.{weight_of, total};

use crate::rule::QuorumRule;
use model::faults::Fault;
use model::sets;

// A rule for n participants, 2 to 7, by weights from 0 to 15 and two thresholds whose sum exceeds the total weight.
// (A rule is Copy, which an ArrayVec of the weights would not be: so their number stands beside the array.)
#[derive(Clone, Copy, Debug)]
pub struct Weighted {
    n: usize,
    weights: [u8; 7],
    promise: u32,
    choose: u32,
    ghost ok: { T (stands n weights promise choose) },
}

// The weight at i, 0 past the last.
fn weight(weights: &[u8], i: usize) -> u8
    ensures { result ≡ weight weights.now i }
{
    weights.get(i).copied().unwrap_or(0)
}

// The weights, with 0 for those past the last.
fn seven(weights: &[u8]) -> [u8; 7]
    ensures { result ≡ seven weights.now }
{
    std::array::from_fn(|i| weight(weights, i))
}

// What participant i, of weight w, adds to the weight of a set.
fn share(set: u8, i: usize, w: u8) -> u32
    ensures value { result ≡ (if member set i then w else 0) }
    ensures upper_bound { result ≤ 255 }
{
    if sets::has(set, i) { u32::from(w) } else { 0 }
}

// The weight of those of the first n participants that are in the set.
// (By the numbers below n: over the slice of the first n weights the sum is no shorter, and the proofs of two that use it stayed open.)
fn weigh(weights: &[u8; 7], n: usize, set: u8) -> u32
    requires { n ≤ 7 }
    ensures { result ≡ weight_of (weight weights.now) n (member set) }
{
    (0..n).map(|i| share(set, i, weights[i])).sum()
}

// The weight of the first n participants together.
fn total(weights: &[u8; 7], n: usize) -> u32
    requires { n ≤ 7 }
    ensures { result ≡ total (weight weights.now) n }
{
    weigh(weights, n, sets::all(n))
}

// Whether no weight is above 15.
fn light(weights: &[u8; 7]) -> bool
    ensures { result ≡ list_all (λ w. nat_le w 15) weights.now }
{
    weights.iter().all(|w| *w <= 15)
}

// Whether each threshold is from 1 to the total, and the two are more than the total. (Two numbers: the rule of which they are fields is only being made.)
fn crossed(all: u32, promise: u32, choose: u32) -> bool
    ensures { result ≡ crossed all promise choose }
{
    (1..=all).contains(&promise) && (1..=all).contains(&choose) && all - choose < promise
}

// Whether these make a rule.
fn stands(n: usize, weights: &[u8; 7], promise: u32, choose: u32) -> bool
    ensures { result ≡ stands n weights.now promise choose }
{
    (2..=7).contains(&n) && light(weights) && crossed(total(weights, n), promise, choose)
}

impl Weighted {
    ghost use Rattle.quorums.specs.Examples.{MajorityExamples, WeightedExamples};
    ghost use Rattle.quorums.specs.WeightedRules.{made_weighted};

    // The rule for as many participants as there are weights, or refusal 14.
    #[tactic(auto, using(crate::proofs::Worked::majority_examples, crate::proofs::Worked::weighted_examples))]
    pub fn new(weights: &[u8], promise: u32, choose: u32) -> Result<Weighted, Fault>
        ensures value { result ≡ made_weighted weights.now promise choose }
        ensures examples { MajorityExamples × WeightedExamples }
    {
        let n = weights.len();
        let weights = seven(weights);
        if stands(n, &weights, promise, choose) {
            Ok(Weighted {
                n,
                weights,
                promise,
                choose,
            })
        } else {
            Err(Fault::NoRule)
        }
    }
}

impl QuorumRule for Weighted {
    ghost use Rattle.quorums.specs.Loads.{weighted_lawful};
    ghost use Rattle.quorums.specs.WeightedRules.{weighted};

    ghost means = { weighted };

    ghost lawful = { weighted_lawful };

    fn size(&self) -> usize {
        self.n
    }

    fn promises(&self, set: u8) -> bool {
        weigh(&self.weights, self.n, set) >= self.promise
    }

    fn chooses(&self, set: u8) -> bool {
        weigh(&self.weights, self.n, set) >= self.choose
    }
}
