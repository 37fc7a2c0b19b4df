// The three fits, and the workspace that each needs.
ghost use Rattle.std.specs.Prelude.{◌≡◌};
ghost use Rattle.capi.specs.Numbered.{Numbered, Reported, report_numbers, report_error, workspace};
ghost use Rattle.rule.specs.Tasks.{laid, setup_of, task_of};
ghost use Rattle.rule.specs.Calls.{FitCall};
ghost use Rattle.rule.specs.Codes.{fitted_number};

use places::Layout;
use refusal::{Refusal, answer_number};
use rule::inner::needed;
use rule::{Report, Setup, Solver, Task, stop_code, stop_term};
use strlsq::strlsq;

// Stop, refits, kept word and refused term of a fit into `report`, its squared error into `error`; a refusal leaves both unchanged.
fn put_report(answer: Result<Report, Refusal>, report: &mut [u64; 4], error: &mut [f64; 1])
    ensures { (report.new ≡ report_numbers answer report.old) × (error.new ≡ report_error answer error.old) }
{
    if let Ok(f) = answer {
        *report = [
            stop_code(f.stop),
            f.refits as u64,
            f.kept.0,
            stop_term(f.stop) as u64,
        ];
        *error = [f.error];
    }
}

// The task of an export's parameters.
pub fn asked(layout: Layout, solver: Solver, rows: usize, cols: usize, setup: Setup) -> Task
    ensures { result ≡ laid layout (task_of solver rows cols setup) }
{
    Task {
        solver,
        layout,
        rows,
        cols,
        setup,
    }
}

// A fit as the exports answer it: its report and its error, and 0 or the refusal's number.
pub fn fit(
    task: Task,
    theta: &[f64],
    target: &[f64],
    coeffs: &mut [f64],
    workspace: &mut [f64],
    report: &mut [u64; 4],
    error: &mut [f64; 1],
) -> u64
    ensures { Numbered fitted_number (Reported (FitCall task
        theta.now target.now coeffs.old coeffs.new workspace.old workspace.new)
        report.old report.new error.old error.new) result }
{
    let answer = strlsq(task, theta, target, coeffs, workspace);
    put_report(answer, report, error);
    answer_number(answer)
}

// Sequential thresholded ridge regression, each solve by the normal equations. After a fit `report` is stop, refits, kept word and refused term (255: none), `error` the squared error.
#[unsafe(no_mangle)]
pub extern "C" fn dapmotar_strlsq(
    theta: &[f64],
    n_rows: usize,
    n_cols: usize,
    target: &[f64],
    threshold: f64,
    lambda: f64,
    max_iter: usize,
    coeffs: &mut [f64],
    workspace: &mut [f64],
    report: &mut [u64; 4],
    error: &mut [f64; 1],
) -> u64
    ensures { Numbered fitted_number (Reported (FitCall (task_of Solver.Normal n_rows n_cols (setup_of threshold lambda max_iter))
        theta.now target.now coeffs.old coeffs.new workspace.old workspace.new)
        report.old report.new error.old error.new) result }
{
    let setup = Setup {
        threshold,
        lambda,
        max_iter,
    };
    let task = asked(Layout::ByRows, Solver::Normal, n_rows, n_cols, setup);
    fit(task, theta, target, coeffs, workspace, report, error)
}

// The same, each solve by least squares.
#[unsafe(no_mangle)]
pub extern "C" fn dapmotar_strlsq_qr(
    theta: &[f64],
    n_rows: usize,
    n_cols: usize,
    target: &[f64],
    threshold: f64,
    lambda: f64,
    max_iter: usize,
    coeffs: &mut [f64],
    workspace: &mut [f64],
    report: &mut [u64; 4],
    error: &mut [f64; 1],
) -> u64
    ensures { Numbered fitted_number (Reported (FitCall (task_of Solver.Qr n_rows n_cols (setup_of threshold lambda max_iter))
        theta.now target.now coeffs.old coeffs.new workspace.old workspace.new)
        report.old report.new error.old error.new) result }
{
    let setup = Setup {
        threshold,
        lambda,
        max_iter,
    };
    let task = asked(Layout::ByRows, Solver::Qr, n_rows, n_cols, setup);
    fit(task, theta, target, coeffs, workspace, report, error)
}

// Each solve by the normal equations again, damped in proportion to their diagonal.
#[unsafe(no_mangle)]
pub extern "C" fn dapmotar_strlsq_marquardt(
    theta: &[f64],
    n_rows: usize,
    n_cols: usize,
    target: &[f64],
    threshold: f64,
    lambda: f64,
    max_iter: usize,
    coeffs: &mut [f64],
    workspace: &mut [f64],
    report: &mut [u64; 4],
    error: &mut [f64; 1],
) -> u64
    ensures { Numbered fitted_number (Reported (FitCall (task_of Solver.Marquardt n_rows n_cols (setup_of threshold lambda max_iter))
        theta.now target.now coeffs.old coeffs.new workspace.old workspace.new)
        report.old report.new error.old error.new) result }
{
    let setup = Setup {
        threshold,
        lambda,
        max_iter,
    };
    let task = asked(Layout::ByRows, Solver::Marquardt, n_rows, n_cols, setup);
    fit(task, theta, target, coeffs, workspace, report, error)
}

// The workspace that a fit needs, in numbers; 0 where the sizes are beyond the limits.
#[tactic(auto, using(std::proofs::lemmas::Bool::Decides::nat_tests), unfolding(crate::specs::Numbered::workspace))]
fn workspace_of(solver: Solver, n_rows: usize, n_cols: usize) -> usize
    ensures { result ≡ workspace solver n_rows n_cols }
{
    if n_cols > 64 || n_rows > 4096 {
        return 0;
    }
    needed(solver, n_rows, n_cols)
}

// The workspace of `dapmotar_strlsq`.
#[unsafe(no_mangle)]
pub extern "C" fn dapmotar_strlsq_workspace(n_rows: usize, n_cols: usize) -> usize
    ensures { result ≡ workspace Solver.Normal n_rows n_cols }
{
    workspace_of(Solver::Normal, n_rows, n_cols)
}

// The workspace of `dapmotar_strlsq_qr`.
#[unsafe(no_mangle)]
pub extern "C" fn dapmotar_strlsq_qr_workspace(n_rows: usize, n_cols: usize) -> usize
    ensures { result ≡ workspace Solver.Qr n_rows n_cols }
{
    workspace_of(Solver::Qr, n_rows, n_cols)
}

// The workspace of `dapmotar_strlsq_marquardt`.
#[unsafe(no_mangle)]
pub extern "C" fn dapmotar_strlsq_marquardt_workspace(n_rows: usize, n_cols: usize) -> usize
    ensures { result ≡ workspace Solver.Marquardt n_rows n_cols }
{
    workspace_of(Solver::Marquardt, n_rows, n_cols)
}
