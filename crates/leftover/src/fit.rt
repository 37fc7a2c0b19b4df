// What the error is measured on: the kept columns of theta, a target for each row, and a coefficient for each column, kept or not.
ghost use Rattle.std.specs.Prelude.{◌≡◌, length};

use places::Reduced;

#[derive(Clone, Copy)]
pub struct Fit<'a> {
    pub kept: Reduced<'a>,
    pub target: &'a [f64],
    pub coeffs: &'a [f64],
    pub ghost targets: { length target.now ≡ kept.theta.rows },
    pub ghost values: { length coeffs.now ≡ kept.theta.cols },
}
