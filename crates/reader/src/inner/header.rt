// The header's frame.
ghost use Rattle.std.specs.Prelude.{◌≡◌};
ghost use Rattle.hexdigits.specs.Hex.{Digits};
ghost use Rattle.reader.specs.Header.{header_digits, header_formed, header, head_of};

use hexdigits::inner::{all_hex, float, number_at};
use places::Layout;
use rule::{Setup, Solver, Task, by_code};

// The header's digits, and its frame: these and a newline.
const DIGITS: usize = 44;

pub const FRAME: usize = DIGITS + 1;

// Whether the input begins with a header's digits and a newline.
#[tactic(auto, using(std::proofs::lemmas::Bool::Decides::nat_tests), unfolding(crate::specs::Header::header_formed))]
fn formed(s: &[u8]) -> bool
    ensures { result ≡ header_formed s.now }
{
    s.len() >= FRAME && all_hex(s, 0, DIGITS) && s[DIGITS] == b'\n'
}

// What the digits after the solver's code say.
#[tactic(auto, using(hexdigits::specs::Parts::part_digits), unfolding(crate::specs::Header::header))]
fn fields(s: &[u8], layout: Layout, solver: Solver) -> Task
    requires { Digits s.now 0 header_digits }
    ensures { result ≡ header s.now layout solver }
{
    Task {
        solver,
        layout,
        rows: number_at(s, 2, 4) as usize,
        cols: number_at(s, 6, 2) as usize,
        setup: Setup {
            threshold: float(s, 12),
            lambda: float(s, 28),
            max_iter: number_at(s, 8, 4) as usize,
        },
    }
}

// What an input's header asks for; none is a malformed one.
#[tactic(auto, using(crate::proofs::HeaderLaws::header_has, hexdigits::specs::Parts::part_digits), unfolding(crate::specs::Header::head_of))]
pub fn read_header(s: &[u8]) -> Option<Task>
    ensures { result ≡ head_of s.now }
{
    if !formed(s) {
        return None;
    }
    let (layout, solver) = by_code(number_at(s, 0, 2))?;
    Some(fields(s, layout, solver))
}
