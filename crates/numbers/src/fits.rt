// F8 and the sizes of the fits.
ghost use Rattle.std.specs.Prelude.{◌≤◌};
ghost use Rattle.rule.specs.declared.Solver.{Solver};

use super::say;
use hexdigits::inner::bits;
use places::Layout;
use refusal::{Refusal, answer_number};
use rule::{Report, Setup, Solver, Task, stop_code};
use strlsq::strlsq;

const NAN: u64 = 0x7ff8_0000_0000_0000;

// Whether a fit reports so.
fn reports(fitted: Result<Report, Refusal>, stop: u64, refits: usize, kept: u64) -> bool {
    fitted.is_ok_and(|r| stop_code(r.stop) == stop && r.refits == refits && r.kept.0 == kept)
}

// A task of one row.
fn task(solver: Solver, cols: usize, threshold: f64, lambda: f64, max_iter: usize) -> Task {
    Task {
        solver,
        layout: Layout::ByRows,
        rows: 1,
        cols,
        setup: Setup {
            threshold,
            lambda,
            max_iter,
        },
    }
}

// F8: theta 1, target NaN, threshold 0.5.
fn f8(max_iter: usize, stop: u64, coefficient: u64) -> bool {
    let task = task(Solver::Normal, 1, 0.5, 0.0, max_iter);
    let mut coeffs = [7.0];
    let fitted = strlsq(task, &[1.0], &[f64::NAN], &mut coeffs, &mut [7.0; 5]);
    reports(fitted, stop, 0, 0) && bits(coeffs[0]) == coefficient
}

// A fit of a row of ones, with a workspace of so many numbers.
fn fit_ones(solver: Solver, cols: usize, max_iter: usize, room: usize) -> Result<Report, Refusal>
    requires { (cols ≤ 65) × (room ≤ 12805) }
{
    let theta = [1.0; 65];
    let mut coeffs = [7.0; 65];
    let mut workspace = [7.0; 12805];
    strlsq(
        task(solver, cols, 0.0, 1.0, max_iter),
        &theta[..cols],
        &[1.0],
        &mut coeffs[..cols],
        &mut workspace[..room],
    )
}

// Whether such a fit of 64 columns settles after one refit, with every term kept.
fn passes(solver: Solver, room: usize) -> bool
    requires { room ≤ 12805 }
{
    reports(fit_ones(solver, 64, 1000, room), 4, 1, u64::MAX)
}

// The number with which such a fit is refused.
fn refused(solver: Solver, cols: usize, max_iter: usize, room: usize) -> u64
    requires { (cols ≤ 65) × (room ≤ 12805) }
{
    answer_number(fit_ones(solver, cols, max_iter, room))
}

// Whether each solver passes a test: two with one workspace, QR with another.
fn each<F: Fn(Solver, usize) -> bool>(room: usize, by_qr: usize, test: F) -> bool
    requires { (solver : Solver) → F.pre test solver room × F.pre test solver by_qr }
{
    test(Solver::Normal, room) && test(Solver::Marquardt, room) && test(Solver::Qr, by_qr)
}

// The sizes: what the fits take, and one more. 64 columns need 12,416 numbers at any row count, by QR 8,707 of one row.
fn sizes(rt: &impl Print) {
    say(rt, b"64 columns, max_iter 1,000", each(12416, 8707, passes));
    say(
        rt,
        b"65 columns",
        each(
            12805,
            8973,
            |solver, room| refused(solver, 65, 1000, room) == 1,
        ),
    );
    say(
        rt,
        b"max_iter 1,001",
        each(
            12416,
            8707,
            |solver, room| refused(solver, 64, 1001, room) == 3,
        ),
    );
    say(
        rt,
        b"a workspace one short",
        each(
            12415,
            8706,
            |solver, room| refused(solver, 64, 1000, room) == 7,
        ),
    );
}

pub fn run(rt: &impl Print) {
    say(rt, b"F8, max_iter 0", f8(0, 5, NAN));
    say(rt, b"F8, max_iter 1", f8(1, 2, 0));
    sizes(rt);
}
