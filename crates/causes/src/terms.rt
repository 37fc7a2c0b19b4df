// The causes of an input that was accepted, term by term.
ghost use Rattle.std.specs.Prelude.{◌≡◌, ◌≤◌, length};
ghost use Rattle.hexdigits.specs.Put.{Written};
ghost use Rattle.rule.specs.Sizes.{Limited, Lent};
ghost use Rattle.exchange.specs.Limits.{most_cols, most_rows, most_space};
ghost use Rattle.exchange.specs.Exchange.{Accepted};
ghost use Rattle.causes.specs.Lines.{cause_lines};
ghost use Rattle.causes.specs.Limits.{why_room};
ghost use Rattle.causes.specs.Exchange.{cause_lines_asked, cause_given};

use crate::lines::write_cause;
use exchange::inner::{COLS, ROWS, SPACE, THETA, read_given};
use rule::{Given, Task};
use strlsq::inner::fit_in;
use support::Term;
use why::Cause;
use why::inner::cause_of;

// The cause of one term: a fit that watches it.
fn cause_in(given: Given, term_idx: Term, coeffs: &mut [f64], workspace: &mut [f64]) -> Cause
    requires { Lent given.task coeffs.old workspace.old }
    ensures { result ≡ cause_given given.entry term_idx.0 }
{
    let watched = fit_in(given, term_idx, coeffs, workspace);
    cause_of(watched, given.task.setup)
}

// A line for each term, rising. A fit watches one term, so each has its own.
fn write_causes(given: Given, coeffs: &mut [f64], workspace: &mut [f64], out: &mut [u8]) -> usize
    requires { Limited most_cols most_rows given.task
        × (length coeffs.old ≡ given.task.cols) × (length workspace.old ≡ most_space) × (why_room ≤ length out.old) }
    ensures { Written 0 (cause_lines (cause_given given.entry) given.entry.task.cols) out.old out.new result }
{
    let mut next = 0;
    for j in 0..given.task.cols {
        let cause = cause_in(given, Term(j), coeffs, workspace);
        next = write_cause(cause, out, next);
    }
    next
}

// Reads the rows of an accepted input, and writes the lines of its terms.
pub fn causes_rows(s: &[u8], task: Task, out: &mut [u8]) -> usize
    requires { Accepted s.now task × (why_room ≤ length out.old) }
    ensures { Written 0 (cause_lines_asked s.now task) out.old out.new result }
{
    let mut theta = [0.0; THETA];
    let mut target = [0.0; ROWS];
    let given = read_given(s, task, &mut theta, &mut target);
    let mut coeffs = [0.0; COLS];
    let mut workspace = [0.0; SPACE];
    write_causes(given, &mut coeffs[..task.cols], &mut workspace, out)
}
