// The line of a cause.
ghost use Rattle.std.specs.Prelude.{◌+◌, ◌≤◌, length};
ghost use Rattle.hexdigits.specs.Put.{Written};
ghost use Rattle.causes.specs.Lines.{cause_bytes, cause_line};

use hexdigits::inner::{bits, write_hex, write_line};
use why::{Cause, cause_code, cause_refit, cause_value};

// The bytes of a line.
pub const CAUSE_BYTES: usize = 2 + 4 + 16 + 1;

// Cause, refit number and coefficient, from `at` on.
pub fn write_cause(c: Cause, out: &mut [u8], at: usize) -> usize
    requires { at + cause_bytes ≤ length out.old }
    ensures { Written at (cause_line c) out.old out.new result }
{
    let a = write_hex(cause_code(c), 2, out, at);
    let b = write_hex(cause_refit(c) as u64, 4, out, a);
    write_line(bits(cause_value(c)), 16, out, b)
}
