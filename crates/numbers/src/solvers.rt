// C1 and C2, and the two traps that none of the replayed exchanges tells.
use super::say;
use hexdigits::inner::bits;
use refusal::{Answer, answer_number};
use solve::{solve_lu, solve_spd_cholesky};

// The number of a solver's answer to a 1 by 1 matrix.
fn number_of<F: FnOnce(&mut [f64], &mut [f64], usize) -> Answer>(solve: F, a: f64) -> u64
    requires { F.IsAlwaysCallable solve }
{
    answer_number(solve(&mut [a], &mut [1.0], 1))
}

fn cholesky_of(a: f64) -> u64 {
    number_of(solve_spd_cholesky, a)
}

fn lu_of(a: f64) -> u64 {
    number_of(solve_lu, a)
}

// `qr` of two rows (1, -0.0): a sum that starts at +0.0 leaves -0.0 above the diagonal.
fn qr_sums() -> bool {
    let a = [1.0, -0.0, 1.0, -0.0];
    let mut data = [7.0; 4];
    let mut betas = [7.0; 2];
    let mut workspace = [7.0; 2];
    let answer = decomp::qr(&a, 2, 2, &mut data, &mut betas, &mut workspace);
    answer_number(answer) == 0 && bits(data[1]) == 0
}

pub fn run(rt: &impl Print) {
    say(rt, b"C1", cholesky_of(1e-14) == 8);
    say(
        rt,
        b"C1, the next f64 up",
        cholesky_of(1.0000000000000002e-14) == 0,
    );
    say(rt, b"C2", lu_of(1e-15) == 0);
    say(
        rt,
        b"C2, the next f64 down",
        lu_of(9.999999999999999e-16) == 9,
    );
    say(rt, b"Cholesky passes a NaN", cholesky_of(f64::NAN) == 0);
    say(rt, b"sums of qr start at -0.0", qr_sums());
}
