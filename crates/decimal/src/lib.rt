// The decimal text of an integer, written at a place of a lent buffer: a minus sign below zero, no leading zeros.
// Each digit is how many multiples of a power of ten are at most what is left, and these are subtracted: no division and no remainder.
// `put_u32` and `put_i32` are for writers that measure and write by the same code: a byte past the end is left out and still counts.
// `write_i32` writes the whole text or nothing.
#![tactic(auto)]

ghost use Rattle.std.specs.Prelude.{◌≡◌, ◌+◌, ◌*◌, ◌<◌, ◌≤◌, ◌^◌, ◌/◌, ◌%◌, length};
ghost use Rattle.wire.specs.Puts.{Puts};
ghost use Rattle.decimal.specs.Decimal.{decimal_of, int_text};
ghost use Rattle.decimal.specs.Padded.{padded, Sized};
ghost use Rattle.decimal.specs.Written.{written_of, buffer_after};

// How many digits the largest u32 has.
const MOST_DIGITS: usize = 10;

// The powers of ten, from 10^0 on.
const POWERS: [u32; MOST_DIGITS] = [
    1, 10, 100, 1000, 10000, 100000, 1000000, 10000000, 100000000, 1000000000,
];

// (A table: `pow` multiplies, in a loop.)
fn power(k: usize) -> u32
    requires { k < 10 }
    ensures { result ≡ 10 ^ k }
{
    POWERS[k]
}

// A digit as a byte, and what is left below it.
#[derive(Clone, Copy)]
struct Digit {
    byte: u8,
    rest: u32,
}

// The digit of m at the place of `unit`, its first: how many of 1 to 9 times `unit` are at most m. All nine are compared, whatever the digit,
// so that no branch depends on it: a digit is hard to predict.
fn first_digit(m: u32, unit: u32) -> Digit
    requires { (0 < unit) × (m < 10 * unit) }
    ensures { (result.byte ≡ 48 + m / unit) × (result.rest ≡ m % unit) }
{
    let mut n: u32 = 0;
    for k in 1..10 {
        n += u32::from(k * u64::from(unit) <= u64::from(m));
    }
    // `as`: n is at most 9.
    Digit {
        byte: b'0' + (n as u8),
        rest: m - n * unit,
    }
}

// The last `count` digits of m, which has no more. (An output and its place: see wire, "writing".)
fn put_digits(out: &mut [u8], at: usize, m: u32, count: usize) -> usize
    requires { (count ≤ 10) × (m < 10 ^ count) }
    ensures { Puts out.old at (padded count m) out.new result }
{
    let mut p = at;
    let mut rest = m;
    for k in (0..count).rev() {
        let digit = first_digit(rest, power(k));
        p = wire::put(out, p, digit.byte);
        rest = digit.rest;
    }
    p
}

// How many digits m has.
fn count_digits(m: u32) -> usize
    ensures { Sized m result }
{
    (1..MOST_DIGITS)
        .find(|n| m < power(*n))
        .unwrap_or(MOST_DIGITS)
}

// m in decimal. (Named by the type, as wire's `put_u32`: of a u32 and of an i32 the text is told by two definitions.)
#[tactic(auto, using(crate::proofs::FromFirst::decimal_is))]
pub fn put_u32(out: &mut [u8], at: usize, m: u32) -> usize
    ensures { Puts out.old at (decimal_of m) out.new result }
{
    put_digits(out, at, m, count_digits(m))
}

// z in decimal.
#[tactic(auto, using(crate::proofs::Sign::plain_text))]
pub fn put_i32(out: &mut [u8], at: usize, z: i32) -> usize
    ensures { Puts out.old at (int_text z) out.new result }
{
    let m = z.unsigned_abs();
    if z < 0 {
        let p = wire::put(out, at, b'-');
        return put_u32(out, p, m);
    }
    put_u32(out, at, m)
}

// How many bytes the text of z has.
#[tactic(auto, using(crate::proofs::Sign::text_length, crate::proofs::FromFirst::decimal_length))]
pub fn len_i32(z: i32) -> usize
    ensures { result ≡ length (int_text z) }
{
    count_digits(z.unsigned_abs()) + usize::from(z < 0)
}

// z in decimal, if it fits whole: the place after it. Else nothing is written.
#[tactic(auto, using(crate::proofs::Whole::refused, crate::proofs::Whole::kept))]
pub fn write_i32(out: &mut [u8], at: usize, z: i32) -> Option<usize>
    ensures value { result ≡ written_of out.old at z }
    ensures out_after { out.new ≡ buffer_after out.old at z }
{
    let end = at.saturating_add(len_i32(z));
    if out.len() < end {
        return None;
    }
    Some(put_i32(out, at, z))
}
