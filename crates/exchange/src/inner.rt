// An input of a bench program: the check of its frames, and theta and target read from them.
ghost use Rattle.std.specs.Prelude.{◌≡◌, ◌*◌, ◌≤◌, length, Ok};
ghost use Rattle.refusal.specs.Answers.{Answer};
ghost use Rattle.reader.specs.Header.{head_of};
ghost use Rattle.rule.specs.Sizes.{Limited};
ghost use Rattle.exchange.specs.Limits.{most_cols, most_rows};
ghost use Rattle.exchange.specs.Exchange.{rows_fine, then_rows, passed, theta_asked, target_asked, Accepted, HasRead};
ghost use Rattle.rule.specs.declared.Task.{Task};

use reader::inner::header::{FRAME, read_header};
use reader::inner::numbers::{frames_of, read_target, read_theta};
use refusal::{Answer, Refusal};
use rule::{Given, Task};

// The programs' own limits of a task.
pub const COLS: usize = 16;

pub const ROWS: usize = 128;

// One byte more than the longest valid input has, theta by rows: what a longer input has beyond it changes no answer (`cut_alike_by`).
pub const INPUT: usize = FRAME + ROWS * (16 * (1 + COLS) + 1) + 1;

// The largest theta, and the largest workspace: that of the largest task by least squares.
pub const THETA: usize = ROWS * COLS;

pub const SPACE: usize = 2 * ((ROWS + COLS) * COLS) + 3 * (ROWS + COLS) + 3 * COLS;

// Malformed rows or tail.
fn rows(s: &[u8], task: Task) -> Answer
    requires { Limited most_cols most_rows task }
    ensures { result ≡ rows_fine s.now task }
{
    let frames = frames_of(task.layout, task.rows, task.cols);
    if frames.formed(s) {
        Ok(())
    } else {
        Err(Refusal::Malformed)
    }
}

// The task of an input, or the first refusal: a malformed header, what `before` refuses of the task, malformed rows or tail.
pub fn checked<F: FnOnce(Task) -> Answer>(input: &[u8], before: F) -> Result<Task, Refusal>
    requires callable { F.IsAlwaysCallable before }
    requires limited { (task : Task) → F.post before task (Ok tt) → Limited most_cols most_rows task }
    ensures { (first : Task → Answer) → ((task : Task) (r : Answer) → F.post before task r → r ≡ first task)
        → result ≡ passed (λ task. then_rows (first task) input.now task) (head_of input.now) }
{
    let task = read_header(input).ok_or(Refusal::Malformed)?;
    before(task)?;
    rows(input, task)?;
    Ok(task)
}

// Reads theta and target of an accepted input.
#[tactic(auto, unfolding(crate::specs::Exchange::theta_asked, crate::specs::Exchange::target_asked))]
pub fn read_rows(s: &[u8], task: Task, theta: &mut [f64], target: &mut [f64])
    requires { Accepted s.now task × (most_rows * most_cols ≤ length theta.old) × (most_rows ≤ length target.old) }
    ensures { HasRead s.now task theta.new target.new }
{
    read_theta(s, task.layout, task.rows, task.cols, theta);
    read_target(s, task.layout, task.rows, task.cols, target);
}

// What an accepted input gives its fit: theta and target are read into arrays that are lent for them.
pub fn read_given<'a>(
    s: &[u8],
    task: Task,
    theta: &'a mut [f64; THETA],
    target: &'a mut [f64; ROWS],
) -> Given<'a>
    requires { Accepted s.now task }
    ensures task { result.task ≡ task }
    ensures theta { result.theta.now ≡ theta_asked s.now task }
    ensures target { result.target.now ≡ target_asked s.now task }
{
    read_rows(s, task, theta, target);
    Given {
        task,
        theta: &theta[..task.rows * task.cols],
        target: &target[..task.rows],
    }
}
