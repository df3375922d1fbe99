// A cell's quotient: by S², which is past a word (01, Cell forecasts). Digits go by the base S, so
// that every divisor is a constant.
#![tactic(auto)]

ghost use Rattle.std.specs.Prelude.{◌≡◌, ◌+◌, ◌*◌, ◌/◌, ◌%◌, ◌^◌, ◌<◌, ◌≤◌, nat_abs, ◌*ℤ◌};
ghost use Rattle.model.specs.Rounding.{S, r};

use rounding::{Quotient, SCALE, UNSIGNED_SCALE, magnitude, round_signed, with_sign};

// Half of S, and its square.
const HALF_SCALE: u64 = UNSIGNED_SCALE / 2;

const SQUARE: u64 = UNSIGNED_SCALE * UNSIGNED_SCALE;

// The quotient of v × x by S², and the first digit below it in base S.
fn divide_by_square(v: u64, x: u64) -> Quotient
    requires { (v ≤ 2 * 10 ^ 14) × (x ≤ 9 * 10 ^ 18) }
    ensures { (result.q * 10 ^ 9 + result.rem ≡ v * x / 10 ^ 9) × (result.rem < 10 ^ 9) × (result.q < 10 ^ 18) }
{
    let low = v % UNSIGNED_SCALE * (x % UNSIGNED_SCALE);
    let mid = v / UNSIGNED_SCALE * (x % UNSIGNED_SCALE)
        + v % UNSIGNED_SCALE * (x / UNSIGNED_SCALE)
        + low / UNSIGNED_SCALE;
    Quotient {
        q: v / UNSIGNED_SCALE * (x / UNSIGNED_SCALE) + mid / UNSIGNED_SCALE,
        rem: mid % UNSIGNED_SCALE,
    }
}

// The lowest digit of v × x in base S.
fn lowest_digit(v: i64, x: i64) -> u64
    ensures { result ≡ nat_abs v * nat_abs x % 10 ^ 9 }
{
    magnitude(v % SCALE * (x % SCALE)) % UNSIGNED_SCALE
}

// A cell: the whole number nearest to v × x / S². The first digit below the quotient says which
// that is, unless it is just half of S.
pub fn scale_cell(v: i64, x: i64) -> i64
    requires { (nat_abs v ≤ 2 * 10 ^ 14) × (nat_abs x ≤ 9 * 10 ^ 18) }
    ensures { result ≡ r (v *ℤ x) (S *ℤ S) }
{
    if x == 0 {
        return 0;
    }
    let s = divide_by_square(magnitude(v), magnitude(x));
    let negative = (v < 0) != (x < 0);
    if s.rem == HALF_SCALE {
        return round_signed(
            negative,
            s.q,
            s.rem * UNSIGNED_SCALE + lowest_digit(v, x),
            SQUARE as i64,
        );
    }
    with_sign(negative, (s.q + u64::from(s.rem >= HALF_SCALE)) as i64)
}
