// The claims journal (02, Job 3): a running tally that each transaction brings up to date, and the
// replay of a whole journal.
#![tactic(auto)]

ghost use Rattle.std.specs.Prelude.{◌≡◌, ◌+◌, ◌*◌, ◌≤◌, [], ◌∷◌, length};
ghost use Rattle.model.specs.Questions.{first_no, q1};
ghost use Rattle.model.specs.Journal.{transaction_at, no_tally, q16_length};
ghost use Rattle.model.specs.Calls.{of_step, Stepped, Replayed};
ghost use Rattle.refusals.specs.Refusals.{refusal_number};

use model::{JournalTally, Transaction};
use records::{fields, questions};
use refusals::Refusal;

// Transaction k of a journal.
#[tactic(auto, unfolding(model::specs::Journal::transaction_at))]
fn transaction_at(journal: &[u8], k: usize) -> Transaction
    requires { 16 * k + 16 ≤ length journal.now }
    ensures { result ≡ transaction_at journal.now k }
{
    let at = 16 * k;
    Transaction {
        claim: fields::four(journal, at),
        kind: fields::byte(journal, at + 4),
        accident: fields::byte(journal, at + 5),
        calendar: fields::byte(journal, at + 6),
        spare: fields::byte(journal, at + 7),
        amount: fields::value(journal, k),
    }
}

// One transaction brought into the caller's tally.
pub fn step(t: &mut JournalTally, m: usize, x: Transaction) -> Result<(), Refusal>
    ensures { Stepped (of_step m t.old x) t.old x t.new (refusal_number result) }
{
    booking::enter(t, m, x)
}

// A tally with nothing in it.
#[tactic(auto, unfolding(model::specs::Journal::no_tally))]
fn empty() -> JournalTally
    ensures { result ≡ no_tally }
{
    JournalTally {
        claims: [0; 4096],
        counts: [0; 400],
        paid: [0; 400],
        last: 0,
    }
}

// Question 1, and 16 of a journal's length.
#[tactic(auto, unfolding(model::specs::Questions::first_no, model::specs::Journal::q16_length))]
fn framed(journal: &[u8], m: usize) -> Result<(), Refusal>
    ensures { refusal_number result ≡ first_no ((1, q1 m) ∷ (16, q16_length journal.now) ∷ []) }
{
    if !questions::q1(m) {
        return Err(Refusal::Size);
    }
    if 65536 < journal.len() || journal.len() % 16 != 0 {
        return Err(Refusal::JournalForm);
    }
    Ok(())
}

// The replay of a journal: one transaction after the other goes into a tally that starts from zeros
// and becomes the caller's where none is refused.
pub fn replay(journal: &[u8], m: usize, tally: &mut JournalTally) -> Result<(), Refusal>
    ensures { Replayed m journal.now tally.old tally.new (refusal_number result) }
{
    framed(journal, m)?;
    let mut t = empty();
    for k in 0..journal.len() / 16 {
        step(&mut t, m, transaction_at(journal, k))?;
    }
    *tally = t;
    Ok(())
}
