// Why a term was kept or not, by the code of the solver and of theta's layout.
ghost use Rattle.std.specs.Prelude.{◌≡◌};
ghost use Rattle.rule.specs.Codes.{by_code};
ghost use Rattle.rule.specs.Tasks.{setup_of};
ghost use Rattle.why.specs.Codes.{caused_number};
ghost use Rattle.capi.specs.Numbered.{Numbered};
ghost use Rattle.capi.specs.Coded.{cause_numbers, cause_values, WhyCoded, Explained};

use crate::fits::asked;
use places::Layout;
use refusal::{Refusal, answer_number};
use rule::{Setup, Solver, by_code};
use support::Term;
use why::{Cause, cause_code, cause_refit, cause_value, why};

// The code and the refit number of a cause into `cause`, its coefficient into `value`; a refusal leaves both unchanged.
fn put_cause(answer: Result<Cause, Refusal>, cause: &mut [u64; 2], value: &mut [f64; 1])
    ensures { (cause.new ≡ cause_numbers answer cause.old) × (value.new ≡ cause_values answer value.old) }
{
    if let Ok(c) = answer {
        *cause = [cause_code(c), cause_refit(c) as u64];
        *value = [cause_value(c)];
    }
}

// The call by code: an unknown code is malformed, first of all.
fn why_by(
    code: Option<(Layout, Solver)>,
    theta: &[f64],
    n_rows: usize,
    n_cols: usize,
    target: &[f64],
    setup: Setup,
    term_idx: Term,
    coeffs: &mut [f64],
    workspace: &mut [f64],
) -> Result<Cause, Refusal>
    ensures { WhyCoded code n_rows n_cols setup term_idx.0 theta.now target.now
        coeffs.old coeffs.new workspace.old workspace.new result }
{
    let (layout, solver) = code.ok_or(Refusal::Malformed)?;
    let task = asked(layout, solver, n_rows, n_cols, setup);
    why(task, theta, target, term_idx, coeffs, workspace)
}

// Why a term of a fit was kept or not, by a code as in the bench programs' header. `cause` is its code and refit number, `value` its coefficient; zeros where the cause has none.
#[unsafe(no_mangle)]
pub extern "C" fn dapmotar_why(
    code: u64,
    theta: &[f64],
    n_rows: usize,
    n_cols: usize,
    target: &[f64],
    threshold: f64,
    lambda: f64,
    max_iter: usize,
    term: usize,
    coeffs: &mut [f64],
    workspace: &mut [f64],
    cause: &mut [u64; 2],
    value: &mut [f64; 1],
) -> u64
    ensures { Numbered caused_number (Explained (WhyCoded (by_code code) n_rows n_cols (setup_of threshold lambda max_iter) term theta.now target.now
        coeffs.old coeffs.new workspace.old workspace.new) cause.old cause.new value.old value.new) result }
{
    let setup = Setup {
        threshold,
        lambda,
        max_iter,
    };
    let answer = why_by(
        by_code(code),
        theta,
        n_rows,
        n_cols,
        target,
        setup,
        Term(term),
        coeffs,
        workspace,
    );
    put_cause(answer, cause, value);
    answer_number(answer)
}
