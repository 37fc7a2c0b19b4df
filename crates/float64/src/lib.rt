// The square root of an f64, rounded once, its absolute value, and the greater of two. `sqrt` and `abs` work on bits.
#![tactic(auto)]

mod root;

ghost use Rattle.std.specs.Prelude.{◌≡◌};
ghost use Rattle.float64.specs.Root.{abs_of, greater_of};
ghost use Rattle.float64.specs.Rule.{SqrtCall};

// The root: ±0 give themselves, +infinity itself, NaN and negatives below zero a NaN, and a positive finite number the f64 nearest its exact root.
pub fn sqrt(x: f64) -> f64
    ensures { SqrtCall x result }
{
    if x.is_nan() {
        return f64::NAN;
    }
    if x == 0.0 {
        return x;
    }
    if x < 0.0 {
        return f64::NAN;
    }
    let b = x.to_bits();
    if b == 0x7ff0_0000_0000_0000 {
        return x;
    }
    f64::from_bits(root::root_pattern(b))
}

// The absolute value: the sign's bit taken off, and a NaN passed through.
pub fn abs(x: f64) -> f64
    ensures { result ≡ abs_of x }
{
    if x.is_nan() {
        return x;
    }
    f64::from_bits(x.to_bits() % 0x8000_0000_0000_0000)
}

// The greater of two, where a NaN is passed over; of two equal ones the first.
pub fn greater(a: f64, b: f64) -> f64
    ensures { result ≡ greater_of a b }
{
    if a.is_nan() {
        return b;
    }
    if a < b { b } else { a }
}
