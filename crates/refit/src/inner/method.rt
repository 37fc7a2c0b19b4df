// What a solver solves from.
ghost use Rattle.std.specs.Prelude.{◌≡◌};
ghost use Rattle.refit.specs.Method.{method_of};

use rule::Solver;
use sums::inner::Damping;

// The kept sums, with a damping, by the normal equations; or the rows, by least squares.
#[derive(Clone, Copy)]
pub enum Method {
    Sums(Damping),
    Rows,
}

// One line a solver: the first solve and each refit of a fit go by it.
pub fn method_of(solver: Solver, lambda: f64) -> Method
    ensures { result ≡ method_of solver lambda }
{
    match solver {
        Solver::Normal => Method::Sums(Damping::Ridge(lambda)),
        Solver::Qr => Method::Rows,
        Solver::Marquardt => Method::Sums(Damping::Proportion(lambda)),
    }
}
