// The three fits of theta by columns: lengths, refusals, workspace and report are those of theta by rows.
ghost use Rattle.capi.specs.Numbered.{Numbered, Reported};
ghost use Rattle.rule.specs.Tasks.{setup_of, task_of, by_columns};
ghost use Rattle.rule.specs.Calls.{FitCall};
ghost use Rattle.rule.specs.Codes.{fitted_number};

use crate::fits::{asked, fit};
use places::Layout;
use rule::{Setup, Solver};

// Sequential thresholded ridge regression, each solve by the normal equations.
#[unsafe(no_mangle)]
pub extern "C" fn dapmotar_strlsq_by_columns(
    theta: &[f64],
    n_rows: usize,
    n_cols: usize,
    target: &[f64],
    threshold: f64,
    lambda: f64,
    max_iter: usize,
    coeffs: &mut [f64],
    workspace: &mut [f64],
    report: &mut [u64; 4],
    error: &mut [f64; 1],
) -> u64
    ensures { Numbered fitted_number (Reported (FitCall (by_columns (task_of Solver.Normal n_rows n_cols (setup_of threshold lambda max_iter)))
        theta.now target.now coeffs.old coeffs.new workspace.old workspace.new)
        report.old report.new error.old error.new) result }
{
    let setup = Setup {
        threshold,
        lambda,
        max_iter,
    };
    let task = asked(Layout::ByColumns, Solver::Normal, n_rows, n_cols, setup);
    fit(task, theta, target, coeffs, workspace, report, error)
}

// The same, each solve by least squares.
#[unsafe(no_mangle)]
pub extern "C" fn dapmotar_strlsq_qr_by_columns(
    theta: &[f64],
    n_rows: usize,
    n_cols: usize,
    target: &[f64],
    threshold: f64,
    lambda: f64,
    max_iter: usize,
    coeffs: &mut [f64],
    workspace: &mut [f64],
    report: &mut [u64; 4],
    error: &mut [f64; 1],
) -> u64
    ensures { Numbered fitted_number (Reported (FitCall (by_columns (task_of Solver.Qr n_rows n_cols (setup_of threshold lambda max_iter)))
        theta.now target.now coeffs.old coeffs.new workspace.old workspace.new)
        report.old report.new error.old error.new) result }
{
    let setup = Setup {
        threshold,
        lambda,
        max_iter,
    };
    let task = asked(Layout::ByColumns, Solver::Qr, n_rows, n_cols, setup);
    fit(task, theta, target, coeffs, workspace, report, error)
}

// Each solve by the normal equations again, damped in proportion to their diagonal.
#[unsafe(no_mangle)]
pub extern "C" fn dapmotar_strlsq_marquardt_by_columns(
    theta: &[f64],
    n_rows: usize,
    n_cols: usize,
    target: &[f64],
    threshold: f64,
    lambda: f64,
    max_iter: usize,
    coeffs: &mut [f64],
    workspace: &mut [f64],
    report: &mut [u64; 4],
    error: &mut [f64; 1],
) -> u64
    ensures { Numbered fitted_number (Reported (FitCall (by_columns (task_of Solver.Marquardt n_rows n_cols (setup_of threshold lambda max_iter)))
        theta.now target.now coeffs.old coeffs.new workspace.old workspace.new)
        report.old report.new error.old error.new) result }
{
    let setup = Setup {
        threshold,
        lambda,
        max_iter,
    };
    let task = asked(Layout::ByColumns, Solver::Marquardt, n_rows, n_cols, setup);
    fit(task, theta, target, coeffs, workspace, report, error)
}
