// The whole number nearest to a quotient (01, Rounding): the rule for halves, and the rounding of a
// quotient and a remainder.
#![tactic(auto)]

ghost use Rattle.std.specs.Prelude.{◌≡◌, ◌+◌, ◌*◌, ◌^◌, ◌<◌, ◌≤◌, pos, nat_abs, ◌*ℤ◌, ◌+ℤ◌};
ghost use Rattle.integers.specs.Parts.{◌⋖◌};
ghost use Rattle.model.specs.Rounding.{r};
ghost use Rattle.rounding.specs.Steps.{step_of};
ghost use Rattle.rounding.specs.Signed.{turned, signed};

// S: shares are whole numbers of one part in S.
pub const SCALE: i64 = 1000000000;

// S without a sign.
pub const UNSIGNED_SCALE: u64 = SCALE as u64;

// An exact quotient and its remainder, or the first digit below it.
#[derive(Clone, Copy)]
pub struct Quotient {
    pub q: u64,
    pub rem: u64,
}

// A number without its sign, the least i64 too: one above that has an opposite.
pub fn magnitude(a: i64) -> u64
    ensures { result ≡ nat_abs a }
{
    a.unsigned_abs()
}

// How far the nearest number is from a quotient q: 0 or 1, from what is left above q and what is
// missing to the next number. This function alone knows how a half is rounded: to the even number.
fn step(left: i64, missing: i64, q: i64) -> i64
    ensures { result ≡ step_of q left missing }
{
    if left == missing {
        return if magnitude(q) % 2 == 0 { 0 } else { 1 };
    }
    if left < missing { 0 } else { 1 }
}

// The whole number nearest to (q × d + rem) / d, from a quotient and a remainder.
pub fn round_quotient(q: i64, rem: i64, d: i64) -> i64
    requires { (pos 0 ⋖ d) × (nat_abs d ≤ 10 ^ 18) × (nat_abs rem < nat_abs d) × (nat_abs q ≤ 9 * 10 ^ 18) }
    ensures { result ≡ r (q *ℤ d +ℤ rem) d }
{
    if rem < 0 {
        q - step(-rem, d + rem, q)
    } else {
        q + step(rem, d - rem, q)
    }
}

// The whole number nearest to a / b.
pub fn round_div(a: i64, b: i64) -> i64
    requires { (pos 0 ⋖ b) × (nat_abs b ≤ 10 ^ 18) × (nat_abs a ≤ 9 * 10 ^ 18) }
    ensures { result ≡ r a b }
{
    round_quotient(a / b, a % b, b)
}

// The whole number nearest to (whole × n + part × k) / n. The product may pass a word: part's
// quotient by n is taken first, and what it leaves is small.
pub fn round_share(whole: i64, part: i64, k: i64, n: i64) -> i64
    requires pos { (pos 0 ⋖ n) × (nat_abs n ≤ 1000) × (nat_abs k ≤ nat_abs n) }
    requires whole_bound { (nat_abs whole ≤ 4 * 10 ^ 18) × (nat_abs part ≤ 10 ^ 18) }
    ensures { result ≡ r (whole *ℤ n +ℤ part *ℤ k) n }
{
    let left = part % n * k;
    round_quotient(whole + part / n * k + left / n, left % n, n)
}

// k, or its opposite where `negative` says so: a sign, and no choice of steps.
pub fn with_sign(negative: bool, k: i64) -> i64
    requires { nat_abs k ≤ 2 * 10 ^ 18 }
    ensures { result ≡ turned negative k }
{
    if negative { -k } else { k }
}

// The rounding of a quotient and a remainder of magnitudes, which stand for a number below zero
// where `negative` says so.
pub fn round_signed(negative: bool, q: u64, rem: u64, d: i64) -> i64
    requires { (pos 0 ⋖ d) × (nat_abs d ≤ 10 ^ 18) × (rem < nat_abs d) × (q ≤ 10 ^ 18) }
    ensures { result ≡ r (signed negative (q * nat_abs d + rem)) d }
{
    with_sign(negative, round_quotient(q as i64, rem as i64, d))
}
