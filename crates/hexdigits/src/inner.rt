// Digits read and written; each function may require what its caller tested.
ghost use Rattle.std.specs.Prelude.{◌≡◌, ◌+◌, ◌≤◌, ◌<◌, length};
ghost use Rattle.hexdigits.specs.Hex.{digit, glyph as glyph_of, all_hex, number_at as number_of, Digits, float as float_at, digits, bits as bits_of, line};
ghost use Rattle.hexdigits.specs.Put.{Written};

// A digit's value, if the byte is one.
#[tactic(auto, using(std::proofs::lemmas::Bool::Decides::nat_tests), unfolding(crate::specs::Hex::digit, crate::specs::Hex::value))]
fn value(b: u8) -> Option<u64>
    ensures { result ≡ digit b }
{
    match b {
        b'0'..=b'9' => Some((b - b'0') as u64),
        b'a'..=b'f' => Some((b - b'a' + 10) as u64),
        _ => None,
    }
}

// The digit of a value.
#[tactic(auto, using(std::proofs::lemmas::Bool::Decides::nat_tests), unfolding(crate::specs::Hex::glyph))]
fn glyph(d: u64) -> u8
    requires { d < 16 }
    ensures { result ≡ glyph_of d }
{
    if d < 10 {
        b'0' + d as u8
    } else {
        b'a' - 10 + d as u8
    }
}

// Whether the n bytes from `at` on are all digits.
pub fn all_hex(s: &[u8], at: usize, n: usize) -> bool
    requires { at + n ≤ length s.now }
    ensures { result ≡ all_hex s.now at n }
{
    s[at..at + n].iter().all(|b| value(*b).is_some())
}

// The number that the n digits from `at` on write.
pub fn number_at(s: &[u8], at: usize, n: usize) -> u64
    requires { Digits s.now at n × (n ≤ 16) }
    ensures { result ≡ number_of s.now at n }
{
    let mut w = 0;
    for b in &s[at..at + n] {
        w = w * 16 + value(*b).unwrap();
    }
    w
}

// The f64 whose bits the 16 digits from `at` on write.
pub fn float(s: &[u8], at: usize) -> f64
    requires { Digits s.now at 16 }
    ensures { result ≡ float_at s.now at }
{
    let bits = number_at(s, at, 16);
    if bits % 0x8000_0000_0000_0000 > 0x7ff0_0000_0000_0000 {
        return f64::NAN;
    }
    f64::from_bits(bits)
}

// The bits of an f64: a NaN's are 7ff8000000000000.
#[tactic(auto, unfolding(crate::specs::Hex::bits))]
pub fn bits(x: f64) -> u64
    ensures { result ≡ bits_of x }
{
    if x.is_nan() {
        return 0x7ff8_0000_0000_0000;
    }
    x.to_bits()
}

// Writes the last n digits of w from `at` on.
pub fn write_hex(w: u64, n: usize, out: &mut [u8], at: usize) -> usize
    requires { at + n ≤ length out.old }
    ensures next { result ≡ at + n }
    ensures written { Written at (digits n w) out.old out.new result }
{
    let mut rest = w;
    for i in (at..at + n).rev() {
        out[i] = glyph(rest % 16);
        rest /= 16;
    }
    at + n
}

// Writes them and a newline.
pub fn write_line(w: u64, n: usize, out: &mut [u8], at: usize) -> usize
    requires { at + n < length out.old }
    ensures next { result ≡ at + n + 1 }
    ensures written { Written at (line n w) out.old out.new result }
{
    let end = write_hex(w, n, out, at);
    out[end] = b'\n';
    end + 1
}
