// The rounds of a fit: one loop for every solver.
ghost use Rattle.std.specs.Prelude.{◌≡◌, cond, [], suc, ◌≤◌, length, None, Some};
ghost use Rattle.steps.specs.Num.{at};
ghost use Rattle.support.specs.Word.{has, word};
ghost use Rattle.rule.specs.Rule.{going, last_look, start};
ghost use Rattle.rule.specs.Dropped.{before, or_else};
ghost use Rattle.rule.specs.Fits.{keeps};
ghost use Rattle.rule.specs.Givens.{problem_given};
ghost use Rattle.rule.specs.Sizes.{Lent};
ghost use Rattle.refit.specs.Parts.{Kept};
ghost use Rattle.rounds.specs.Turned.{Turned};
ghost use Rattle.rounds.specs.Ran.{CameTo};

use coeffs::inner::{coefficient, finds, support_of};
use refit::inner::solve_terms;
use rule::{Given, Look, Setup, Stop};
use slices::inner::clear;
use support::{Support, Term};

// What a round came to: a refit over this support, or the fit's end, by a refused refit at this term.
#[derive(Clone, Copy, Debug, PartialEq, Eq)]
pub enum Turn {
    Again(Support),
    Empty,
    Settled,
    Refused(Term),
}

// How the rounds of a fit ended, and which of their looks dropped the term that was watched.
#[derive(Clone, Copy, Debug, PartialEq)]
pub struct Ran {
    pub stop: Stop,
    pub refits: usize,
    pub drop: Option<Look>,
}

// One round after the last refitted support: a look at the coefficients, and a refit unless they end the fit.
pub fn round(given: Given, last: Support, coeffs: &mut [f64], ws: &mut [f64]) -> Turn
    requires { Lent given.task coeffs.old ws.old × Kept given ws.old }
    ensures { Turned (problem_given given.entry) last.0 coeffs.old result coeffs.new
        × Kept given.entry ws.new }
{
    let support = support_of(coeffs, given.task.setup);
    if support == Support::empty() {
        clear(coeffs, given.task.cols);
        return Turn::Empty;
    }
    if support == last {
        return Turn::Settled;
    }
    match solve_terms(given, support, coeffs, ws) {
        Ok(()) => Turn::Again(support),
        Err(term) => {
            clear(coeffs, given.task.cols);
            Turn::Refused(term)
        }
    }
}

// The rounds are used up after this many refits, and one more look found this support.
#[tactic(auto, unfolding(rule::specs::Rule::last_look))]
fn last_look(refits: usize, last: Support, support: Support) -> Stop
    ensures { result ≡ last_look refits last.0 support.0 }
{
    if refits > 0 && support == last {
        return Stop::Settled;
    }
    Stop::OutOfRounds
}

// What is known of a term after the look at these coefficients, which follows so many refits: an earlier look may have dropped it.
#[tactic(auto, unfolding(rule::specs::Dropped::or_else))]
fn watched(
    drop: Option<Look>,
    refits: usize,
    term_idx: Term,
    coeffs: &[f64],
    setup: Setup,
) -> Option<Look>
    requires { refits ≤ 1000 }
    ensures { result ≡ or_else drop (cond (has (word (λ j. keeps setup j (at coeffs.now j)) (length coeffs.now)) term_idx.0)
        None (Some (before (suc refits) (at coeffs.now term_idx.0)))) }
{
    if drop.is_some() || finds(coeffs, term_idx, setup) {
        return drop;
    }
    Some(Look {
        refit: refits + 1,
        value: coefficient(coeffs, term_idx),
    })
}

// The rounds after a first solve that was not refused: each refits but one that ends the fit. When they are used up, the last look tells the stop.
// Before each round the term that is watched is looked at; that changes nothing.
pub fn rounds(given: Given, term_idx: Term, coeffs: &mut [f64], ws: &mut [f64]) -> Ran
    requires { Lent given.task coeffs.old ws.old × Kept given ws.old
        × (start (problem_given given) ≡ going coeffs.old []) }
    ensures { CameTo (problem_given given.entry) given.entry.task.setup.max_iter term_idx.0
        result.stop result.refits result.drop coeffs.new }
{
    let mut last = Support::empty();
    let mut drop = None;
    for refits in 0..given.task.setup.max_iter {
        drop = watched(drop, refits, term_idx, coeffs, given.task.setup);
        match round(given, last, coeffs, ws) {
            Turn::Again(support) => {
                last = support;
            }
            Turn::Empty => {
                return Ran {
                    stop: Stop::Empty,
                    refits,
                    drop,
                };
            }
            Turn::Settled => {
                return Ran {
                    stop: Stop::Settled,
                    refits,
                    drop,
                };
            }
            Turn::Refused(term) => {
                return Ran {
                    stop: Stop::RefitRefused(term),
                    refits: refits + 1,
                    drop,
                };
            }
        }
    }
    let stop = last_look(
        given.task.setup.max_iter,
        last,
        support_of(coeffs, given.task.setup),
    );
    Ran {
        stop,
        refits: given.task.setup.max_iter,
        drop,
    }
}
