// What a C or Rust program links: thin exports, each with the contract of the call behind it. An answer is 0 or the refusal's number.
#![tactic(auto)]

mod columns;
mod explain;
mod fits;
mod solvers;

ghost use Rattle.std.specs.Prelude.{◌≡◌};
ghost use Rattle.builders.specs.Calls.{JtjCall, JtrCall, marquardt, ridge};
ghost use Rattle.capi.specs.Numbered.{Numbered};
ghost use Rattle.float64.specs.Root.{abs_of};
ghost use Rattle.float64.specs.Rule.{SqrtCall};
ghost use Rattle.causes.specs.Exchange.{causes_of};
ghost use Rattle.exchange.specs.Exchange.{Exchanged};
ghost use Rattle.frames.specs.Exchange.{Exchange};
ghost use Rattle.refusal.specs.Answers.{answer_number};

use builders::Damping;
use refusal::answer_number;

// double dapmotar_sqrt(double x): the square root, rounded once.
#[unsafe(no_mangle)]
pub extern "C" fn dapmotar_sqrt(x: f64) -> f64
    ensures { SqrtCall x result }
{
    float64::sqrt(x)
}

// double dapmotar_abs(double x): the absolute value.
#[unsafe(no_mangle)]
pub extern "C" fn dapmotar_abs(x: f64) -> f64
    ensures { result ≡ abs_of x }
{
    float64::abs(x)
}

// The products of the columns of `jac`, summed over its rows; lambda is added to each diagonal number.
#[unsafe(no_mangle)]
pub extern "C" fn dapmotar_jtj(
    jac: &[f64],
    n_rows: usize,
    n_params: usize,
    lambda: f64,
    out: &mut [f64],
) -> u64
    ensures { Numbered answer_number (JtjCall (ridge lambda) jac.now n_rows n_params out.old out.new) result }
{
    answer_number(builders::jtj(jac, n_rows, n_params, Damping::Ridge(lambda), out))
}

// The same sums, each diagonal number damped in proportion: by lambda times it, or by lambda alone where its magnitude is below 2^-52.
#[unsafe(no_mangle)]
pub extern "C" fn dapmotar_jtj_marquardt(
    jac: &[f64],
    n_rows: usize,
    n_params: usize,
    lambda: f64,
    out: &mut [f64],
) -> u64
    ensures { Numbered answer_number (JtjCall (marquardt lambda) jac.now n_rows n_params out.old out.new) result }
{
    answer_number(builders::jtj(jac, n_rows, n_params, Damping::Proportion(lambda), out))
}

// The products of each column of `jac` and the numbers `r`, summed over the rows.
#[unsafe(no_mangle)]
pub extern "C" fn dapmotar_jtr(
    jac: &[f64],
    r: &[f64],
    n_rows: usize,
    n_params: usize,
    out: &mut [f64],
) -> u64
    ensures { Numbered answer_number (JtrCall jac.now r.now n_rows n_params out.old out.new) result }
{
    answer_number(builders::jtr(jac, r, n_rows, n_params, out))
}

// The bench program's exchange: the answer to an input at the head of `answer`, and its length.
#[unsafe(no_mangle)]
pub extern "C" fn dapmotar_respond(input: &[u8], answer: &mut [u8; frames::ANSWER]) -> usize
    ensures { Exchange input.now answer.old answer.new result }
{
    frames::respond(input, answer)
}

// The exchange of the program `why`, in the same way.
#[unsafe(no_mangle)]
pub extern "C" fn dapmotar_respond_why(input: &[u8], answer: &mut [u8; causes::ANSWER]) -> usize
    ensures { Exchanged causes_of input.now answer.old answer.new result }
{
    causes::respond_why(input, answer)
}
