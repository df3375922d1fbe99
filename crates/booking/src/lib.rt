// One transaction of a claims journal (02, Job 3): its questions, and the tally brought up to date.
#![tactic(auto)]

ghost use Rattle.std.specs.Prelude.{◌≡◌, Some, None, cond, ◌&&◌, ◌^◌, ◌<◌, eqb, leb, pos, ◌+ℤ◌};
ghost use Rattle.model.specs.Records.{in_range};
ghost use Rattle.model.specs.Questions.{within};
ghost use Rattle.model.specs.Journal.{booked_at, q16, of_booking};
ghost use Rattle.model.specs.Calls.{of_step, Stepped};
ghost use Rattle.refusals.specs.Refusals.{refusal_number};
ghost use Rattle.booking.specs.Good.{Good};

use model::{JournalTally, Transaction};
use refusals::Refusal;

// Whether an amount is 0 in a report, 0 to 10^10 in a payment; the kind is any number yet.
fn amount_ok(kind: usize, amount: i64) -> bool
    ensures { result ≡ within (pos 0) (pos (cond (eqb kind 0) 0 (10 ^ 10))) amount }
{
    let most = if kind == 0 { 0 } else { 10_000_000_000 };
    (0..=most).contains(&amount)
}

// Question 16 of a transaction.
#[tactic(auto, unfolding(model::specs::Journal::q16))]
fn fields_ok(m: usize, x: Transaction) -> bool
    ensures { result ≡ q16 m x }
{
    x.claim <= 4095
        && x.kind <= 1
        && 1 <= x.accident
        && x.accident <= m
        && x.accident <= x.calendar
        && x.calendar <= m
        && x.spare == 0
        && amount_ok(x.kind, x.amount)
}

// The place of a transaction's cell.
fn place(x: Transaction) -> usize
    requires { Good 20 x }
    ensures value { result ≡ booked_at x }
    ensures below { result < 400 }
{
    20 * (x.accident - 1) + (x.calendar - x.accident)
}

// Question 18: the transaction's cell with an amount added, where the calendar year is not below
// the last and the cell stays in its range.
fn added(last: usize, x: Transaction, cell: i64, amount: i64) -> Option<i64>
    ensures { result ≡ cond (leb last x.calendar && in_range x.kind (cell +ℤ amount)) (Some (cell +ℤ amount)) None }
{
    if x.calendar < last {
        return None;
    }
    let sum = cell.checked_add(amount)?;
    records::questions::in_range(x.kind, sum).then_some(sum)
}

// Questions 17 and 18 of a transaction whose fields are good, and the tally afterwards.
fn book(t: &mut JournalTally, x: Transaction) -> Result<(), Refusal>
    requires { Good 20 x }
    ensures { Stepped (of_booking t.old x) t.old x t.new (refusal_number result) }
{
    let owner = usize::from(t.claims[x.claim]);
    let place = place(x);
    if x.kind == 0 {
        if owner != 0 {
            return Err(Refusal::ClaimOrder);
        }
        let Some(cell) = added(t.last, x, t.counts[place], 1) else {
            return Err(Refusal::Booking);
        };
        t.claims[x.claim] = x.accident as u8;
        t.counts[place] = cell;
    } else {
        if owner != x.accident {
            return Err(Refusal::ClaimOrder);
        }
        let Some(cell) = added(t.last, x, t.paid[place], x.amount) else {
            return Err(Refusal::Booking);
        };
        t.paid[place] = cell;
    }
    t.last = x.calendar;
    Ok(())
}

// One transaction over a tally: its refusal, with nothing changed, or the tally brought up to date.
#[tactic(auto, using(crate::specs::Fields::good, crate::specs::Fields::good_20), unfolding(model::specs::Questions::first_no, model::specs::Journal::of_transaction))]
pub fn enter(t: &mut JournalTally, m: usize, x: Transaction) -> Result<(), Refusal>
    ensures { Stepped (of_step m t.old x) t.old x t.new (refusal_number result) }
{
    if !records::questions::q1(m) {
        return Err(Refusal::Size);
    }
    if !fields_ok(m, x) {
        return Err(Refusal::JournalForm);
    }
    book(t, x)
}
