// The bench program's exchange: the bytes of an input in, those of its answer out.
#![tactic(auto)]

mod fit;

ghost use Rattle.std.specs.Prelude.{◌≡◌};
ghost use Rattle.reader.specs.Header.{head_of};
ghost use Rattle.exchange.specs.Exchange.{passed};
ghost use Rattle.frames.specs.Exchange.{checked, Exchange};

use exchange::inner::{COLS, ROWS};
use refusal::Refusal;
use rule::Task;
use rule::inner::limits;
use writer::inner::{COEFFICIENT_BYTES, REPORT_BYTES, write_refusal};

// The longest answer: a report, and a coefficient for each column.
pub const ANSWER: usize = REPORT_BYTES + COLS * COEFFICIENT_BYTES;

// The task of an input, or the first refusal that applies.
#[tactic(auto, using(rule::specs::Sizes::limits_hold))]
fn check(input: &[u8]) -> Result<Task, Refusal>
    ensures { result ≡ passed (checked input.now) (head_of input.now) }
{
    exchange::inner::checked(input, |task| limits(task, COLS, ROWS))
}

// Writes the answer to an input at the head of `answer`, and returns its length.
pub fn respond(input: &[u8], answer: &mut [u8; ANSWER]) -> usize
    ensures { Exchange input.now answer.old answer.new result }
{
    match check(input) {
        Ok(task) => fit::fit_rows(input, task, answer),
        Err(w) => write_refusal(w, answer),
    }
}
