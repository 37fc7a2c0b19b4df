// The solvers and QR.
ghost use Rattle.std.specs.Prelude.{◌≡◌};
ghost use Rattle.capi.specs.Numbered.{Numbered, WithColumn, column_numbers};
ghost use Rattle.decomp.specs.Calls.{QrCall};
ghost use Rattle.refusal.specs.Answers.{answer_number, answer_column};
ghost use Rattle.solve.specs.Calls.{CholeskyCall, InvertCall, LeastCall, LuCall, NormalCall};

use refusal::{Answer, answer_column, answer_number};

// The column at which a solver refused into `column`; any other answer leaves it unchanged.
fn put_column(answer: Answer, column: &mut [u64; 1])
    ensures { column.new ≡ column_numbers (answer_column answer) column.old }
{
    if let Some(c) = answer_column(answer) {
        *column = [c as u64];
    }
}

// Solves by Cholesky: a becomes the factor, b the solution.
#[unsafe(no_mangle)]
pub extern "C" fn dapmotar_solve_spd_cholesky(
    a: &mut [f64],
    b: &mut [f64],
    n: usize,
    column: &mut [u64; 1],
) -> u64
    ensures { Numbered answer_number (WithColumn (CholeskyCall a.old b.old n a.new b.new) column.old column.new) result }
{
    let answer = solve::solve_spd_cholesky(a, b, n);
    put_column(answer, column);
    answer_number(answer)
}

// Solves by LU: a becomes the factors, b the solution.
#[unsafe(no_mangle)]
pub extern "C" fn dapmotar_solve_lu(
    a: &mut [f64],
    b: &mut [f64],
    n: usize,
    column: &mut [u64; 1],
) -> u64
    ensures { Numbered answer_number (WithColumn (LuCall a.old b.old n a.new b.new) column.old column.new) result }
{
    let answer = solve::solve_lu(a, b, n);
    put_column(answer, column);
    answer_number(answer)
}

// Solves by Cholesky, or by LU where that refuses: b becomes the solution, a stays, and the workspace is cleared.
#[unsafe(no_mangle)]
pub extern "C" fn dapmotar_solve_normal_equations(
    a: &[f64],
    b: &mut [f64],
    n: usize,
    workspace: &mut [f64],
    column: &mut [u64; 1],
) -> u64
    ensures { Numbered answer_number (WithColumn (NormalCall a.now b.old n b.new workspace.old workspace.new) column.old column.new) result }
{
    let answer = solve::solve_normal_equations(a, b, n, workspace);
    put_column(answer, column);
    answer_number(answer)
}

// The inverse of a positive definite matrix by Cholesky, into `out`: a stays, and the workspace is cleared.
#[unsafe(no_mangle)]
pub extern "C" fn dapmotar_invert_spd(
    a: &[f64],
    n: usize,
    out: &mut [f64],
    workspace: &mut [f64],
    column: &mut [u64; 1],
) -> u64
    ensures { Numbered answer_number (WithColumn (InvertCall a.now n out.old out.new workspace.old workspace.new) column.old column.new) result }
{
    let answer = solve::invert_spd(a, n, out, workspace);
    put_column(answer, column);
    answer_number(answer)
}

// QR of the m by n matrix `a` into `data` and `betas`; the workspace has at least m numbers.
#[unsafe(no_mangle)]
pub extern "C" fn dapmotar_qr(
    a: &[f64],
    m: usize,
    n: usize,
    data: &mut [f64],
    betas: &mut [f64],
    workspace: &mut [f64],
) -> u64
    ensures { Numbered answer_number (QrCall a.now m n «data».old «data».new betas.old betas.new
        workspace.old workspace.new) result }
{
    answer_number(decomp::qr(a, m, n, data, betas, workspace))
}

// The least squares solution of the m by n matrix `a` and the right-hand side `b`, into `out`.
#[unsafe(no_mangle)]
pub extern "C" fn dapmotar_solve_least_squares(
    a: &[f64],
    b: &[f64],
    m: usize,
    n: usize,
    out: &mut [f64],
    workspace: &mut [f64],
    column: &mut [u64; 1],
) -> u64
    ensures { Numbered answer_number (WithColumn (LeastCall a.now b.now m n out.old out.new workspace.old workspace.new) column.old column.new) result }
{
    let answer = solve::solve_least_squares(a, b, m, n, out, workspace);
    put_column(answer, column);
    answer_number(answer)
}
