// Rounded quotients of a product by a number, also past 64 bits (01, Rounding), and sums of numbers
// that stand evenly apart.
#![tactic(auto)]

ghost use Rattle.std.specs.Prelude.{◌≡◌, true, ◌+◌, ◌*◌, ◌/◌, ◌^◌, ◌<◌, ◌≤◌, pos, nat_abs, ◌*ℤ◌};
ghost use Rattle.integers.specs.Parts.{◌⋖◌};
ghost use Rattle.model.specs.Rounding.{r};
ghost use Rattle.integers.specs.Sums.{sum};
ghost use Rattle.model.specs.Lists.{at};
ghost use Rattle.arithmetic.specs.Spaced.{Spaced};
ghost use Rattle.arithmetic.specs.Wide.{Product};
ghost use Rattle.arithmetic.specs.Capped.{capped};

use rounding::{Quotient, UNSIGNED_SCALE, magnitude, round_div, round_signed};

// A product of two numbers below 2^48: top × 2^32 + mid × 2^16 + low.
#[derive(Clone, Copy)]
struct Wide {
    top: u64,
    mid: u64,
    low: u64,
}

// The base of a product's digits.
const BASE: u64 = 65536;

// The sum of n numbers that stand `step` places apart, from place `first` on.
pub fn spaced_sum(xs: &[i64], first: usize, step: usize, n: usize) -> i64
    requires { Spaced first step n xs.now }
    ensures { result ≡ sum n (λ k. at xs.now (first + step * k)) }
{
    let mut out = 0i64;
    for k in 0..n {
        out += xs[first + step * k];
    }
    out
}

// a × x, digit by digit of x.
fn widening_mul(a: u64, x: u64) -> Wide
    requires { (a < 2 ^ 48) × (x < 2 ^ 48) }
    ensures { Product (a * x) result.top result.mid result.low }
{
    let low = a * (x % BASE);
    let mid = a * (x / BASE % BASE) + low / BASE;
    Wide {
        top: a * (x / BASE / BASE) + mid / BASE,
        mid: mid % BASE,
        low: low % BASE,
    }
}

// The product of two magnitudes.
fn wide_product(a: i64, x: i64) -> Wide
    requires { (nat_abs a < 2 ^ 48) × (nat_abs x < 2 ^ 48) }
    ensures { Product (nat_abs a * nat_abs x) result.top result.mid result.low }
{
    widening_mul(magnitude(a), magnitude(x))
}

// One more digit of what is divided by d: q × d + rem so far.
fn next_digit(q: u64, rem: u64, digit: u64, d: u64) -> Quotient
    requires { (q < 2 ^ 32) × (rem < d) × (d < 2 ^ 48) × (digit < 65536) }
    ensures { (result.q * d + result.rem ≡ (q * d + rem) * 65536 + digit) × (result.rem < d) × (result.q < (q + 1) * 65536) }
{
    let t = rem * BASE + digit;
    Quotient {
        q: q * BASE + t / d,
        rem: t % d,
    }
}

// A product divided by d, where the quotient is below 2^48.
fn divide(p: Wide, d: u64) -> Quotient
    requires { (p.top / 65536 < d) × (p.mid < 65536) × (p.low < 65536) × (d < 2 ^ 48) }
    ensures { (result.q * d + result.rem ≡ (p.top * 65536 + p.mid) * 65536 + p.low) × (result.rem < d) × (result.q < 2 ^ 48) }
{
    let s = next_digit(p.top / d, p.top % d, p.mid, d);
    next_digit(s.q, s.rem, p.low, d)
}

// Whether the product of a and x surely fits a word.
fn is_narrow(a: i64, x: i64) -> bool
    ensures { result ≡ true → nat_abs (a *ℤ x) ≤ 8 * 10 ^ 18 }
{
    magnitude(a) <= 8 * UNSIGNED_SCALE && magnitude(x) <= UNSIGNED_SCALE
}

// The whole number nearest to a × x / d, where the product fits a word.
fn round_narrow(a: i64, x: i64, d: i64) -> i64
    requires { (nat_abs (a *ℤ x) ≤ 8 * 10 ^ 18) × (pos 0 ⋖ d) × (nat_abs d < 2 ^ 48) }
    ensures { result ≡ r (a *ℤ x) d }
{
    round_div(a * x, d)
}

// The whole number nearest to a × x / d, where that is below 2^48; p is the product of the
// magnitudes.
fn round_wide(a: i64, x: i64, p: Wide, d: i64) -> i64
    requires product { Product (nat_abs a * nat_abs x) p.top p.mid p.low }
    requires top_bound { (p.top / 65536 < nat_abs d) × (pos 0 ⋖ d) × (nat_abs d < 2 ^ 48) }
    ensures { result ≡ r (a *ℤ x) d }
{
    let s = divide(p, magnitude(d));
    round_signed((a < 0) != (x < 0), s.q, s.rem, d)
}

// The whole number nearest to a × x / d, where that is below 2^48. A product that fits a word takes
// one division, so the smaller factor goes second.
pub fn mul_div(a: i64, x: i64, d: i64) -> i64
    requires { (nat_abs a < 2 ^ 48) × (nat_abs x < 2 ^ 48) × (pos 0 ⋖ d) × (nat_abs d < 2 ^ 48) × (nat_abs a * nat_abs x < 2 ^ 48 * nat_abs d) }
    ensures { result ≡ r (a *ℤ x) d }
{
    if is_narrow(a, x) {
        return round_narrow(a, x, d);
    }
    round_wide(a, x, wide_product(a, x), d)
}

// A number where its magnitude is at most cap.
fn up_to(cap: u64, k: i64) -> Option<i64>
    ensures { result ≡ capped cap k }
{
    if magnitude(k) > cap {
        return None;
    }
    Some(k)
}

// The whole number nearest to a × x / d, where its magnitude is at most cap.
pub fn mul_div_capped(a: i64, x: i64, d: i64, cap: u64) -> Option<i64>
    requires { (nat_abs a < 2 ^ 48) × (nat_abs x < 2 ^ 48) × (pos 0 ⋖ d) × (nat_abs d < 2 ^ 48) × (cap < 2 ^ 48) }
    ensures { result ≡ capped cap (r (a *ℤ x) d) }
{
    if is_narrow(a, x) {
        return up_to(cap, round_narrow(a, x, d));
    }
    let p = wide_product(a, x);
    if p.top / BASE >= magnitude(d) {
        return None;
    }
    up_to(cap, round_wide(a, x, p, d))
}
