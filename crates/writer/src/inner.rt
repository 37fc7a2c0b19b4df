// The lines of an answer, written from the first byte on.
ghost use Rattle.std.specs.Prelude.{◌≡◌, ◌+◌, ◌*◌, ◌≤◌, ◌++◌, length};
ghost use Rattle.hexdigits.specs.Put.{Written};
ghost use Rattle.writer.specs.Answer.{report_bytes, coefficient_bytes, refusal_line, report_line, coefficient_lines};

use hexdigits::inner::{bits, write_hex, write_line};
use refusal::Refusal;
use rule::{Report, stop_code, stop_term};

// The bytes of a report's line, and of a coefficient's.
pub const REPORT_BYTES: usize = 2 + 4 + 16 + 2 + 16 + 1;

pub const COEFFICIENT_BYTES: usize = 16 + 1;

// `ff` and the refusal's number.
pub fn write_refusal(w: Refusal, out: &mut [u8]) -> usize
    requires { 5 ≤ length out.old }
    ensures { Written 0 (refusal_line w) out.old out.new result }
{
    let a = write_hex(0xff, 2, out, 0);
    write_line(refusal::number(w), 2, out, a)
}

// Stop, refits, kept word, refused term and squared error.
fn write_status(report: Report, out: &mut [u8]) -> usize
    requires { report_bytes ≤ length out.old }
    ensures { Written 0 (report_line report) out.old out.new result }
{
    let a = write_hex(stop_code(report.stop), 2, out, 0);
    let b = write_hex(report.refits as u64, 4, out, a);
    let c = write_hex(report.kept.0, 16, out, b);
    let d = write_hex(stop_term(report.stop) as u64, 2, out, c);
    write_line(bits(report.error), 16, out, d)
}

// A line per coefficient, from `at` on.
fn write_coefficients(coeffs: &[f64], out: &mut [u8], at: usize) -> usize
    requires { at + coefficient_bytes * length coeffs.now ≤ length out.old }
    ensures { Written at (coefficient_lines coeffs.now) out.old out.new result }
{
    let mut next = at;
    for x in coeffs {
        next = write_line(bits(*x), 16, out, next);
    }
    next
}

// The report's line, then a line per coefficient.
pub fn write_fit(report: Report, coeffs: &[f64], out: &mut [u8]) -> usize
    requires { report_bytes + coefficient_bytes * length coeffs.now ≤ length out.old }
    ensures { Written 0 (report_line report ++ coefficient_lines coeffs.now) out.old out.new result }
{
    let at = write_status(report, out);
    write_coefficients(coeffs, out, at)
}
