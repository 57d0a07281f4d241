// The allowance: Rust's `(w as f64 * m).round() as i32`, for every `u32` w and every `f64` m.
// Rounding and cast are rebuilt from the bits of the one product, and not made by the library's `round`: a rule of the project.
// An `f64` with the biased exponent e and the 52 trailing digits t is (2^52 + t) * 2^(e - 1075).
#![tactic(auto)]

ghost use Rattle.std.specs.Prelude.{◌≡◌, ◌+◌, ◌*◌, ◌^◌, ◌<◌, ◌≤◌, min, pos};
ghost use Rattle.std.specs.Float.{binary64, fin};
ghost use Rattle.std.specs.Float.Ieee.{of_bits};
ghost use Rattle.allowance.specs.Allowance.{half_up, rounded, to_i32, allowed_of};

// The bit of the sign.
const SIGN: u64 = 1 << 63;

// The pattern of infinity: each larger one, without its sign, is a NaN's.
const INFINITY: u64 = 0x7ff0_0000_0000_0000;

// 2^52: the leading digit, which the pattern leaves out, and the weight of the exponent's field.
const LEADING: u64 = 1 << 52;

// The biased exponent of 0.5.
const OF_HALF: u64 = 1022;

// The biased exponent of 2^31.
const OF_LIMIT: u64 = 1054;

// The biased exponent of 2^51, whose last digit is a half.
const OF_LAST_HALF: u64 = 1074;

// 2^31: no `i32` has a larger magnitude.
const LIMIT: u64 = 1 << 31;

// The `f64` of any 64 bits. `f64::from_bits` is not defined at a NaN's pattern, and all those patterns are one NaN.
#[tactic(auto, using(crate::proofs::Patterns::patterns))]
pub fn f64_of_bits(b: u64) -> f64
    ensures { result ≡ of_bits binary64 b }
{
    if b % SIGN > INFINITY {
        f64::NAN
    } else {
        f64::from_bits(b)
    }
}

// The magnitude of the number with these fields, to whole, halves up, and no more than 2^31.
#[tactic(auto, using(crate::proofs::Ranges::sizes))]
fn magnitude(biased: u64, trailing: u64) -> u64
    requires { trailing < 2 ^ 52 }
    ensures { result ≡ min (half_up ((2 ^ 52 + trailing) * 2 ^ biased) (2 ^ 1075)) (2 ^ 31) }
{
    match biased {
        ..OF_HALF => 0,
        OF_HALF..OF_LIMIT => (((LEADING + trailing) >> (OF_LAST_HALF - biased)) + 1) / 2,
        _ => LIMIT,
    }
}

// A magnitude with a sign, clamped to `i32`, as the Rust's `as i32` clamps the float. (`as` here: each fits, by the contract and by `min`;
// `try_from` would test that again.)
#[tactic(auto, using(crate::proofs::Clamp::clamps))]
fn signed(negative: bool, size: u64) -> i32
    requires { size ≤ 2 ^ 31 }
    ensures { result ≡ to_i32 (fin negative size (pos 0)) }
{
    if negative {
        -(size as i64) as i32
    } else {
        size.min(LIMIT - 1) as i32
    }
}

// `p.round() as i32`, and named after it.
#[tactic(auto, using(crate::proofs::Fields::from_nan))]
pub fn round_to_i32(p: f64) -> i32
    ensures { result ≡ to_i32 (rounded p) }
{
    if p.is_nan() {
        return 0;
    }
    let bits = p.to_bits();
    let size = magnitude(bits % SIGN / LEADING, bits % LEADING);
    signed(bits >= SIGN, size)
}

// `(w as f64 * m).round() as i32`.
#[tactic(auto, unfolding(crate::specs::Allowance::allowed_of, crate::specs::Allowance::product))]
pub fn allowed(w: u32, m: f64) -> i32
    ensures { result ≡ allowed_of w m }
{
    round_to_i32(f64::from(w) * m)
}

// The same, with the multiplier by its 64 bits, as a job has it.
pub fn allowed_of_bits(w: u32, b: u64) -> i32
    ensures { result ≡ allowed_of w (of_bits binary64 b) }
{
    allowed(w, f64_of_bits(b))
}
