// The quotients of `rounding`, `arithmetic` and `scaling` over plain numbers, as a test or a
// benchmark in another language calls them: outside its range a function answers OUTSIDE, past a
// cap TOO_LARGE, numbers as C has them.
#![tactic(auto)]

ghost use Rattle.std.specs.Prelude.{◌≡◌};
ghost use Rattle.model.specs.Questions.{within};
ghost use Rattle.probes.specs.Probes.{round_div, share, ultimate, row_base, cell};

const OUTSIDE: i64 = i64::MIN;

const TOO_LARGE: i64 = i64::MAX;

// Whether low <= x <= high.
fn lies_within(low: i64, high: i64, x: i64) -> bool
    ensures { result ≡ within low high x }
{
    (low..=high).contains(&x)
}

// The rounded quotient of a delay's numerator a by b.
#[unsafe(no_mangle)]
#[tactic(auto, unfolding(crate::specs::Probes::round_div))]
pub extern "C" fn probe_round_div(a: i64, b: i64) -> i64
    ensures { result ≡ round_div a b }
{
    if !lies_within(-9000000000000000000, 9000000000000000000, a) {
        return OUTSIDE;
    }
    if !lies_within(1, 1000000000000000000, b) {
        return OUTSIDE;
    }
    rounding::round_div(a, b)
}

// A cumulative share as the chain ladder takes it: g × a / b, up to the largest one in bounds.
#[unsafe(no_mangle)]
#[tactic(auto, unfolding(crate::specs::Probes::share))]
pub extern "C" fn probe_share(g: i64, a: i64, b: i64) -> i64
    ensures { result ≡ share g a b }
{
    if !lies_within(0, 4000000000, g) {
        return OUTSIDE;
    }
    if !lies_within(-4000000000000, 4000000000000, a) {
        return OUTSIDE;
    }
    if !lies_within(1, 4000000000000, b) {
        return OUTSIDE;
    }
    arithmetic::mul_div_capped(g, a, b, 4000000000).unwrap_or(TOO_LARGE)
}

// An ultimate: c × S / g.
#[unsafe(no_mangle)]
#[tactic(auto, unfolding(crate::specs::Probes::ultimate, model::specs::Rounding::S))]
pub extern "C" fn probe_ultimate(c: i64, g: i64) -> i64
    ensures { result ≡ ultimate c g }
{
    if !lies_within(0, 200000000000, c) {
        return OUTSIDE;
    }
    if !lies_within(1000000, 4000000000, g) {
        return OUTSIDE;
    }
    arithmetic::mul_div(c, rounding::SCALE, g)
}

// A row base: u × w / d, up to a cap.
#[unsafe(no_mangle)]
#[tactic(auto, unfolding(crate::specs::Probes::row_base))]
pub extern "C" fn probe_row_base(u: i64, w: i64, d: i64, cap: u64) -> i64
    ensures { result ≡ row_base u w d cap }
{
    if !lies_within(-210000000000000, 210000000000000, u) {
        return OUTSIDE;
    }
    if !lies_within(-210000000000000, 210000000000000, w) {
        return OUTSIDE;
    }
    if !lies_within(1, 210000000000000, d) {
        return OUTSIDE;
    }
    if cap > 210000000000000 {
        return OUTSIDE;
    }
    arithmetic::mul_div_capped(u, w, d, cap).unwrap_or(TOO_LARGE)
}

// A cell: v × x / S².
#[unsafe(no_mangle)]
#[tactic(auto, unfolding(crate::specs::Probes::cell))]
pub extern "C" fn probe_cell(v: i64, x: i64) -> i64
    ensures { result ≡ cell v x }
{
    if !lies_within(-200000000000000, 200000000000000, v) {
        return OUTSIDE;
    }
    if !lies_within(-9000000000000000000, 9000000000000000000, x) {
        return OUTSIDE;
    }
    scaling::scale_cell(v, x)
}
