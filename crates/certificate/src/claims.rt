// Whether what a certificate claims of two candidates is as said: its path and its cut.
ghost use Rattle.std.specs.Prelude.{◌≡◌, not};
ghost use Rattle.std.specs.List.{list_all};
ghost use Rattle.ballots.specs.Sets.{holds, every};
ghost use Rattle.pairwise.specs.Pairs.{pairs};
ghost use Rattle.pairwise.specs.Pairwise.{win_in};
ghost use Rattle.certificate.specs.Judge.{weakest_to, is_path, crosses, is_cut};

use crate::Number;
use ballots::CandidateSet;
use pairwise::Pairwise;

// The weakest of the wins from x over the candidates of the row to y, its last; 0 where the row does not end in y.
fn weakest_to(pairwise: &Pairwise, y: usize, x: usize, row: &[u8]) -> Number
    ensures { result ≡ weakest_to (win_in pairwise.now) y x row.now }
{
    match row {
        [] => 0,
        [last] if usize::from(*last) == y => pairwise.win(x, y),
        [_] => 0,
        [next, rest @ ..] => {
            let next = usize::from(*next);
            pairwise
                .win(x, next)
                .min(weakest_to(pairwise, y, next, rest))
        }
    }
}

// Whether the row of candidates is a path from x to y of the strength. A row of nobody stands for the strength 0.
#[tactic(auto, unfolding(crate::specs::Judge::is_path))]
pub(crate) fn is_path(pairwise: &Pairwise, row: &[u8], x: usize, y: usize, strength: Number) -> bool
    ensures { result ≡ is_path (win_in pairwise.now) x y strength row.now }
{
    match row {
        [] => strength == 0,
        [first, rest @ ..] => {
            usize::from(*first) == x && weakest_to(pairwise, y, x, rest) == strength && 0 < strength
        }
    }
}

// Whether a is in the set and b is not, and a wins against b with more than the strength.
fn crosses(pairwise: &Pairwise, set: CandidateSet, strength: Number, a: usize, b: usize) -> bool
    ensures { result ≡ crosses (win_in pairwise.now) strength set a b }
{
    set.contains(a) && !set.contains(b) && strength < pairwise.win(a, b)
}

// Whether a wins against nobody outside of the set with more than the strength, or is outside of it.
fn is_calm(pairwise: &Pairwise, set: CandidateSet, strength: Number, a: usize) -> bool
    ensures { let t = pairwise.now in
        result ≡ every (λ b. not (crosses (win_in t) strength set a b)) t.counts.candidates }
{
    (0..pairwise.counts.candidates).all(|b| !crosses(pairwise, set, strength, a, b))
}

// Whether nobody in the set wins against somebody outside with more than the strength.
fn is_tight(pairwise: &Pairwise, set: CandidateSet, strength: Number) -> bool
    ensures { let w = win_in pairwise.now in
        let v = pairwise.now.counts.candidates in
        result ≡ list_all (λ ab. not (crosses w strength set ab.0 ab.1)) (pairs v) }
{
    (0..pairwise.counts.candidates).all(|a| !set.contains(a) || is_calm(pairwise, set, strength, a))
}

// Whether the set has x and not y, and is a cut of the strength.
#[tactic(auto, using(std::proofs::lemmas::Bool::Decides::nat_tests, crate::proofs::Support::within_all), unfolding(crate::specs::Judge::is_cut))]
pub(crate) fn is_cut(
    pairwise: &Pairwise,
    set: CandidateSet,
    x: usize,
    y: usize,
    strength: Number,
) -> bool
    ensures { let v = pairwise.now.counts.candidates in
        result ≡ is_cut (win_in pairwise.now) v x y strength set }
{
    let everybody = CandidateSet::all_below(pairwise.counts.candidates);
    set.bits() <= everybody.bits()
        && set.contains(x)
        && !set.contains(y)
        && is_tight(pairwise, set, strength)
}
