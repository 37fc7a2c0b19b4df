// What a fit is given, once no refusal applies.
ghost use Rattle.std.specs.Prelude.{◌≡◌};
ghost use Rattle.places.specs.Theta.{entries};
ghost use Rattle.rule.specs.Fits.{matrix_of};
ghost use Rattle.rule.specs.Sizes.{Sized};

use crate::Task;
use places::Theta;

// A task, and a theta and a target of the lengths that it says.
#[derive(Clone, Copy)]
pub struct Given<'a> {
    pub task: Task,
    pub theta: &'a [f64],
    pub target: &'a [f64],
    pub ghost sized: { Sized task theta.now target.now },
}

impl<'a> Given<'a> {
    // Theta as a matrix, stored as the task says.
    #[tactic(auto, unfolding(crate::specs::Fits::matrix_of))]
    pub fn theta(self) -> Theta<'a>
        ensures rows { result.rows ≡ self.entry.task.rows }
        ensures cols { result.cols ≡ self.entry.task.cols }
        ensures matrix { entries result ≡ matrix_of self.entry.task self.entry.theta.now }
    {
        Theta {
            layout: self.task.layout,
            rows: self.task.rows,
            cols: self.task.cols,
            numbers: self.theta,
        }
    }
}
