// Question 1, how many records a set has, question 3 of a record, and question 5 of a value.
ghost use Rattle.std.specs.Prelude.{◌≡◌, ◌&&◌, ◌-◌, ◌*◌, ◌≤◌, ◌<◌, ltb, eqb};
ghost use Rattle.model.specs.Records.{inside, is_line, in_range, set_length};
ghost use Rattle.model.specs.Questions.{q1, kinds};

use crate::fields;

// Question 1.
#[tactic(auto, unfolding(model::specs::Questions::q1))]
pub fn q1(m: usize) -> bool
    ensures { result ≡ q1 m }
{
    (2..=20).contains(&m)
}

// The number of kinds of a set.
#[tactic(auto, unfolding(model::specs::Questions::kinds))]
pub fn kinds(has_incurred: bool) -> usize
    ensures { result ≡ kinds has_incurred }
{
    if has_incurred { 3 } else { 2 }
}

// The number of records of a set.
pub fn set_records(m: usize, has_incurred: bool) -> usize
    requires { m ≤ 20 }
    ensures { 16 * result ≡ set_length m has_incurred }
{
    kinds(has_incurred) * (m * (m + 1) / 2)
}

// Question 3 of one record, where there are `kinds` kinds and the file's line is `line`: a spare
// byte that is not zero makes the record's line 256 or more. All tests are made, with no branch.
pub fn record_ok(h: fields::RecordHead, m: usize, kinds: usize, line: usize) -> bool
    requires { (h.year < 256) × (h.delay < 256) }
    ensures { result ≡ (ltb h.kind kinds && inside m h.year h.delay && (is_line line && eqb h.line line)) }
{
    (h.kind < kinds) & ((1 <= h.year) & (h.year + h.delay <= m)) & ((line <= 5) & (h.line == line))
}

// Question 5 of one value. A `match` on the kind, a number as the record has it, would branch in
// the reader's loop.
#[tactic(auto, unfolding(model::specs::Records::in_range))]
pub fn in_range(kind: usize, v: i64) -> bool
    ensures { result ≡ in_range kind v }
{
    let lowest = if kind < 2 { 0 } else { -10_000_000_000 };
    let highest = if kind == 0 {
        10_000_000
    } else {
        10_000_000_000
    };
    (lowest..=highest).contains(&v)
}
