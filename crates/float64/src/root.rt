// The root of a positive finite number, by its pattern: `parted` has it in 53 digits and a scale, `packed` makes the scale even and puts the root's
// pattern together, `half_root` finds the root's 53 digits by a guess that passes an exact test (`guess`, `nearest`) or else digit by digit (`root_digits`).

ghost use Rattle.std.specs.Prelude.{◌≡◌, ℕ, ◌*◌, ◌^◌, ◌<◌, ◌≤◌, true};
ghost use Rattle.float64.specs.Rule.{units_of};
ghost use Rattle.float64.specs.Parts.{WholePart, Halved, Rooted};

// 53 digits and a scale, digits * 2 ^ exp.
#[derive(Clone, Copy)]
struct Scaled {
    digits: u64,
    exp: u64,
    ghost low: { 2 ^ 52 ≤ digits },
    ghost high: { digits < 2 ^ 53 },
    ghost most: { exp ≤ 2097 },
}

// sig * 2 ^ 52 written with 53 digits.
fn widened(sig: u64) -> Scaled
    requires some { 0 < sig }
    requires few { sig < 2 ^ 52 }
    ensures { result.digits * 2 ^ result.exp ≡ sig * 2 ^ 52 }
{
    let exp = sig.ilog2();
    Scaled {
        digits: sig << (52 - exp),
        exp: u64::from(exp),
    }
}

// The whole part of the root of s * 2 ^ 54, two digits a turn.
fn root_digits(s: u64) -> u64
    requires { s < 2 ^ 54 }
    ensures { WholePart (s * 2 ^ 54) result }
{
    let mut rest = s;
    let mut q: u64 = 0;
    let mut rem: u64 = 0;
    for _ in 0u64..54 {
        let next = rem * 4 + rest / 0x10_0000_0000_0000;
        rest = rest % 0x10_0000_0000_0000 * 4;
        let trial = q * 4 + 1;
        if next >= trial {
            rem = next - trial;
            q = q * 2 + 1;
        } else {
            rem = next;
            q = q * 2;
        }
    }
    q
}

// The 53 digits in a pattern of a number that is not small.
fn digits_of(z: f64) -> u64
    ensures low { 2 ^ 52 ≤ result }
    ensures high { result < 2 ^ 53 }
{
    if z.is_nan() {
        return 0x10_0000_0000_0000;
    }
    z.to_bits() % 0x10_0000_0000_0000 + 0x10_0000_0000_0000
}

// A guess at the nearest whole number to the root of s * 2 ^ 52, where b is the pattern of s / 2 ^ 52. Nothing is claimed of how near it
// is: `nearest` tests it, and where it fails, some once in a thousand, the digits are found one by one.
fn guess(b: u64) -> u64
    requires from_1 { 0x3ff0_0000_0000_0000 ≤ b }
    requires below_4 { b < 0x4010_0000_0000_0000 }
    ensures low { 2 ^ 52 ≤ result }
    ensures high { result < 2 ^ 53 }
{
    let f = f64::from_bits(b);
    // p is near 1 / (2 * root), y = 2 * f * p near the root: Newton's steps, two with a constant that centres the error
    let p0 = f64::from_bits(0x5fd6_ed1b_0000_0000 - b / 2);
    let y0 = (f + f) * p0;
    let k0 = 1.5008787872 - y0 * p0;
    let p1 = p0 * k0;
    let y1 = y0 * k0;
    let k1 = 1.500000579296 - y1 * p1;
    let p2 = p1 * k1;
    let y2 = y1 * k1;
    // a has so few digits that its square is exact: what f is more than y2 * y2, times w, which is near 1 / (root + y2), is what y2 lacks; a root that
    // seems midway, just above a power of 4, is below
    let a = (y2 + 201326592.0) - 201326592.0;
    let more = (f - a * a) - (y2 - a) * (y2 + a);
    let w = p2 * (1.75 - 1.5 * (y2 * p2));
    digits_of(y2 + (more * w - 1e-22))
}

// Whether m is the nearest whole number to the root of s * 2 ^ 52: whether s * 2 ^ 52 - m * m is more than -m and at most m. With a and b for m's halves of
// 27 digits, a * a * 2 ^ 54, a * b * 2 ^ 28 and b * b are taken off in turn; 2 ^ 54 is added before the last, which may leave less than nothing. The answer
// is also no where what is left is below zero, which wraps, or too large to go on with: then the guess was far off, or a * b is nothing.
fn nearest(s: u64, m: u64) -> bool
    requires few { s < 2 ^ 54 }
    requires low { 2 ^ 52 ≤ m }
    requires high { m < 2 ^ 53 }
    ensures { result ≡ true → Halved s m }
{
    let a = m / 0x800_0000;
    let b = m % 0x800_0000;
    let t = s.wrapping_sub(a * a * 4);
    if t >= 0x10_0000_0000 {
        return false;
    }
    let v = (t * 0x100_0000 + 0x400_0000).wrapping_sub(a * b);
    if v >= 0x8_0000_0000 {
        return false;
    }
    let e = v * 0x1000_0000;
    let low = b * b + 0x40_0000_0000_0000;
    if low >= e + m {
        return false;
    }
    e <= low + m
}

// The root of s * 2 ^ 52 rounded to the nearest whole number: a guess that passes the test, or else by digits.
fn half_root(s: u64, b: u64) -> u64
    requires few { s < 2 ^ 54 }
    requires from_1 { 0x3ff0_0000_0000_0000 ≤ b }
    requires below_4 { b < 0x4010_0000_0000_0000 }
    ensures { Halved s result }
{
    let m = guess(b);
    if nearest(s, m) {
        return m;
    }
    let q = root_digits(s);
    (q + 1) / 2
}

// From digits and a scale to the pattern of the root.
fn packed(x: Scaled) -> u64
    ensures { (n : ℕ) → x.digits * 2 ^ x.exp ≡ n * 2 ^ 52 → Rooted n result }
{
    let h = x.exp / 2;
    let s = x.digits * (1 + x.exp % 2);
    let m = half_root(s, x.digits + (0x3fe + x.exp % 2) * 0x10_0000_0000_0000);
    (485 + h) * 0x10_0000_0000_0000 + m
}

// The positive finite number whose pattern is b, in units of 2 ^ -1074 and these times 2 ^ 52, written with 53 digits.
fn parted(b: u64) -> Scaled
    requires positive { 0 < b }
    requires finite { b < 0x7ff0_0000_0000_0000 }
    ensures { result.digits * 2 ^ result.exp ≡ units_of b * 2 ^ 52 }
{
    let field = b / 0x10_0000_0000_0000;
    let digits = b % 0x10_0000_0000_0000;
    if field == 0 {
        return widened(digits);
    }
    Scaled {
        digits: 0x10_0000_0000_0000 + digits,
        exp: field + 51,
    }
}

// The pattern of the root of the positive finite number whose pattern is b.
pub fn root_pattern(b: u64) -> u64
    requires positive { 0 < b }
    requires finite { b < 0x7ff0_0000_0000_0000 }
    ensures { Rooted (units_of b) result }
{
    packed(parted(b))
}
