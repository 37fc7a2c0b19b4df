// The exchange of the program that says why: the bytes of an input in, a line for each term out.
#![tactic(auto)]

mod lines;
mod terms;

ghost use Rattle.std.specs.Prelude.{◌≡◌};
ghost use Rattle.reader.specs.Header.{head_of};
ghost use Rattle.exchange.specs.Exchange.{passed, Exchanged};
ghost use Rattle.causes.specs.Exchange.{why_before, why_checked, causes_of};

use exchange::inner::{COLS, ROWS};
use lines::CAUSE_BYTES;
use refusal::{Answer, Refusal};
use rule::Task;
use rule::inner::limits;
use why::inner::low_threshold;
use writer::inner::write_refusal;

// The longest answer: a line for each column.
pub const ANSWER: usize = COLS * CAUSE_BYTES;

// The limits, then a threshold that is not above zero.
#[tactic(auto, unfolding(crate::specs::Exchange::why_before))]
fn why_before(task: Task) -> Answer
    ensures { result ≡ why_before task }
{
    limits(task, COLS, ROWS)?;
    low_threshold(task.setup)
}

// The task of an input, or the first refusal that applies.
#[tactic(auto, using(crate::specs::Cases::before_limits))]
fn check(input: &[u8]) -> Result<Task, Refusal>
    ensures { result ≡ passed (why_checked input.now) (head_of input.now) }
{
    exchange::inner::checked(input, why_before)
}

// Writes the answer to an input at the head of `answer`, and returns its length.
pub fn respond_why(input: &[u8], answer: &mut [u8; ANSWER]) -> usize
    ensures { Exchanged causes_of input.now answer.old answer.new result }
{
    match check(input) {
        Ok(task) => terms::causes_rows(input, task, answer),
        Err(w) => write_refusal(w, answer),
    }
}
