// What a fit is given and what it reports.
#![tactic(auto)]

mod given;
pub mod inner;

ghost use Rattle.std.specs.Prelude.{◌≡◌};
ghost use Rattle.rule.specs.Codes.{by_code, stop_code, stop_term};

pub use given::Given;
use places::Layout;
use support::{Support, Term};

// The threshold, lambda and max_iter travel together through every layer.
#[derive(Clone, Copy, Debug, PartialEq)]
pub struct Setup {
    pub threshold: f64,
    pub lambda: f64,
    pub max_iter: usize,
}

// How a solve is done: by the normal equations, by least squares, or by the normal equations damped in proportion.
#[derive(Clone, Copy, Debug, PartialEq, Eq)]
pub enum Solver {
    Normal,
    Qr,
    Marquardt,
}

// What a fit is asked for: how it solves, how theta is stored, theta's sizes, and the setup. A header says just this.
#[derive(Clone, Copy, Debug, PartialEq)]
pub struct Task {
    pub solver: Solver,
    pub layout: Layout,
    pub rows: usize,
    pub cols: usize,
    pub setup: Setup,
}

// Why a fit ended; a solve that refused names the term of theta at which it did.
#[derive(Clone, Copy, Debug, PartialEq, Eq)]
pub enum Stop {
    NoData,
    FirstRefused(Term),
    Empty,
    RefitRefused(Term),
    Settled,
    OutOfRounds,
}

// The look that first did not find a term: the one before the refit of this number, at this coefficient.
#[derive(Clone, Copy, Debug, PartialEq)]
pub struct Look {
    pub refit: usize,
    pub value: f64,
}

// What stands beside the coefficients: bit j of the kept word is one exactly if the final |c(j)| is at least the threshold, and the squared error is what its terms leave.
#[derive(Clone, Copy, Debug, PartialEq)]
pub struct Report {
    pub stop: Stop,
    pub refits: usize,
    pub kept: Support,
    pub error: f64,
}

// The codes of the solvers with theta by rows, and a sixteen more each with theta by columns.
#[tactic(auto, unfolding(crate::specs::Codes::by_code))]
pub fn by_code(code: u64) -> Option<(Layout, Solver)>
    ensures { result ≡ by_code code }
{
    match code {
        0x01 => Some((Layout::ByRows, Solver::Normal)),
        0x02 => Some((Layout::ByRows, Solver::Qr)),
        0x03 => Some((Layout::ByRows, Solver::Marquardt)),
        0x11 => Some((Layout::ByColumns, Solver::Normal)),
        0x12 => Some((Layout::ByColumns, Solver::Qr)),
        0x13 => Some((Layout::ByColumns, Solver::Marquardt)),
        _ => None,
    }
}

// The code of a stop in document 01.
pub fn stop_code(s: Stop) -> u64
    ensures { result ≡ stop_code s }
{
    match s {
        Stop::NoData => 0,
        Stop::FirstRefused(_) => 1,
        Stop::Empty => 2,
        Stop::RefitRefused(_) => 3,
        Stop::Settled => 4,
        Stop::OutOfRounds => 5,
    }
}

// The term at which a solve refused, as a report says it: 255 where there is none.
pub fn stop_term(s: Stop) -> usize
    ensures { result ≡ stop_term s }
{
    match s {
        Stop::FirstRefused(t) | Stop::RefitRefused(t) => t.0,
        _ => 255,
    }
}
