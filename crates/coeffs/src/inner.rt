// The coefficients: a look at them, the last pass, and the values of a refit put at their terms.
ghost use Rattle.std.specs.Prelude.{◌≡◌, cond, ◌≤◌, ◌<◌, length, set};
ghost use Rattle.steps.specs.Num.{+zero, at};
ghost use Rattle.steps.specs.Table.{tab};
ghost use Rattle.support.specs.Word.{has, place, word, with_term};
ghost use Rattle.rule.specs.Rule.{scatter};
ghost use Rattle.rule.specs.Fits.{keeps, clears};

use float64::abs;
use rule::Setup;
use support::{Col, Support, Term};

// Whether a look keeps a coefficient; a NaN on either side it does not.
pub fn kept(c: f64, setup: Setup) -> bool
    ensures { result ≡ keeps setup 0 c }
{
    abs(c) >= setup.threshold
}

// The support with a term put in where its coefficient is kept.
fn look_at(s: Support, t: Term, c: f64, setup: Setup) -> Support
    ensures { result.0 ≡ cond (keeps setup t.0 c) (with_term s.0 t.0) s.0 }
{
    if kept(c, setup) { s.with(t) } else { s }
}

// The support: every term with |c| at least the threshold.
pub fn support_of(coeffs: &[f64], setup: Setup) -> Support
    requires { length coeffs.now ≤ 64 }
    ensures { result.0 ≡ word (λ j. keeps setup j (at coeffs.now j)) (length coeffs.now) }
{
    let mut s = Support::empty();
    for (j, c) in coeffs.iter().enumerate() {
        s = look_at(s, Term(j), *c, setup);
    }
    s
}

// Whether a look finds a term.
pub fn finds(coeffs: &[f64], term_idx: Term, setup: Setup) -> bool
    ensures { result ≡ has (word (λ j. keeps setup j (at coeffs.now j)) (length coeffs.now)) term_idx.0 }
{
    match coeffs.get(term_idx.0) {
        Some(c) => kept(*c, setup),
        None => false,
    }
}

// The coefficient of a term; where there is no such term, a NaN.
pub fn coefficient(coeffs: &[f64], term_idx: Term) -> f64
    ensures { result ≡ at coeffs.now term_idx.0 }
{
    coeffs.get(term_idx.0).copied().unwrap_or(f64::NAN)
}

// A coefficient after the last pass.
fn pruned(c: f64, setup: Setup) -> f64
    ensures { result ≡ cond (clears setup 0 c) +zero c }
{
    if abs(c) < setup.threshold { 0.0 } else { c }
}

// The last pass: +0.0 at each c with |c| below the threshold.
pub fn prune(coeffs: &mut [f64], setup: Setup)
    ensures { coeffs.new ≡ tab (length coeffs.old) (λ j. cond (clears setup j (at coeffs.old j)) +zero (at coeffs.old j)) }
{
    for c in coeffs.iter_mut() {
        *c = pruned(*c, setup);
    }
}

// The value at a reduced place.
fn value_at(values: &[f64], col: Col) -> f64
    requires { col.0 < length values.now }
    ensures { result ≡ at values.now col.0 }
{
    values[col.0]
}

// What stands at a term after a refit: the value at its reduced place, +0.0 where it is not supported.
fn value_of(values: &[f64], support: Support, term_idx: Term) -> f64
    requires { (term_idx.0 < length values.now) × (length values.now ≤ 64) }
    ensures { result ≡ cond (has support.0 term_idx.0) (at values.now (place support.0 term_idx.0)) +zero }
{
    if support.contains(term_idx) {
        value_at(values, support.place(term_idx))
    } else {
        0.0
    }
}

// A coefficient is put at a term number, never at a reduced place.
fn put(coeffs: &mut [f64], term_idx: Term, x: f64)
    requires { term_idx.0 < length coeffs.old }
    ensures { coeffs.new ≡ set coeffs.old term_idx.0 x }
{
    coeffs[term_idx.0] = x;
}

// The values at the head of the coefficients go to their terms, all else is +0.0. From the last term down: a reduced place is at most its term number,
// so that no value is overwritten before it is read.
pub fn scatter(coeffs: &mut [f64], support: Support)
    requires { length coeffs.old ≤ 64 }
    ensures { coeffs.new ≡ scatter (length coeffs.old) support.0 coeffs.old }
{
    for j in (0..coeffs.len()).rev() {
        let x = value_of(coeffs, support, Term(j));
        put(coeffs, Term(j), x);
    }
}
