// A fit, all but its last pass: the first solve, over all columns, and the rounds after it.
ghost use Rattle.std.specs.Prelude.{◌≡◌, length, None};
ghost use Rattle.steps.specs.Space.{cleared};
ghost use Rattle.rule.specs.Givens.{problem_given};
ghost use Rattle.rule.specs.Sizes.{Lent};
ghost use Rattle.rounds.specs.Ran.{CameTo};

use refit::inner::{keep, solve_terms};
use rounds::inner::{Ran, rounds};
use rule::{Given, Stop};
use slices::inner::clear;
use support::{Support, Term};

// A fit that ends before its first look, with zeros.
fn unlooked(stop: Stop, coeffs: &mut [f64]) -> Ran
    ensures zeros { coeffs.new ≡ cleared (length coeffs.old) coeffs.old }
    ensures stop { result.stop ≡ stop }
    ensures refits { result.refits ≡ 0 }
    ensures drop { result.drop ≡ None }
{
    let n = coeffs.len();
    clear(coeffs, n);
    Ran {
        stop,
        refits: 0,
        drop: None,
    }
}

// No data, a first solve that is refused, or the rounds, in which one term is watched.
pub fn run(given: Given, term_idx: Term, coeffs: &mut [f64], ws: &mut [f64]) -> Ran
    requires { Lent given.task coeffs.old ws.old }
    ensures { CameTo (problem_given given.entry) given.entry.task.setup.max_iter term_idx.0
        result.stop result.refits result.drop coeffs.new }
{
    let n_cols = given.task.cols;
    if given.task.rows == 0 || n_cols == 0 {
        return unlooked(Stop::NoData, coeffs);
    }
    keep(given, ws);
    match solve_terms(given, Support::full(n_cols), coeffs, ws) {
        Ok(()) => rounds(given, term_idx, coeffs, ws),
        Err(term) => unlooked(Stop::FirstRefused(term), coeffs),
    }
}
