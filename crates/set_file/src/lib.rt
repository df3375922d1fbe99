// The writer of triangle sets (01, Triangle records; 02, Jobs 2 and 7).
#![tactic(auto)]

mod questions;

ghost use Rattle.std.specs.Prelude.{◌≡◌, length};
ghost use Rattle.model.specs.Calls.{write_refusal, write_output};
ghost use Rattle.refusals.specs.Refusals.{refusal_number};

use refusals::Refusal;

// The writer: questions 1, 3 of the line, 5 and 7, and the set's file at the front of the output.
// `has_incurred` stands beside incurred, since C calls this, and C has no `Option`.
#[tactic(auto, using(model::specs::Lengths::set_most, model::specs::Lengths::size_so, crate::specs::RoundTrip::length_file), unfolding(model::specs::Questions::first_no, model::specs::Questions::q7_writer, model::specs::Calls::write_refusal, model::specs::Calls::write_output, model::specs::Overlay::overlay))]
pub fn write_lent<'a>(
    m: usize,
    line: u64,
    has_incurred: bool,
    counts: &'a [i64; 400],
    paid: &'a [i64; 400],
    incurred: &'a [i64; 400],
    out: &mut [u8],
) -> Result<(), Refusal>
    ensures value { refusal_number result ≡ write_refusal m line has_incurred counts.now paid.now incurred.now (length out.old) }
    ensures out_after { out.new ≡ write_output m line has_incurred counts.now paid.now incurred.now out.old }
{
    if !records::questions::q1(m) {
        return Err(Refusal::Size);
    }
    if 5 < line {
        return Err(Refusal::RecordForm);
    }
    if !questions::set_ok(m, has_incurred, counts, paid, incurred) {
        return Err(Refusal::ValueRange);
    }
    if out.len() < 16 * records::questions::set_records(m, has_incurred) {
        return Err(Refusal::OutputRoom);
    }
    writer::put_set(m, line as usize, has_incurred, counts, paid, incurred, out);
    Ok(())
}

// The writer, of triangles by value: the form that document 01 names, beside the one that C calls.
pub fn write_set(
    m: usize,
    line: u64,
    has_incurred: bool,
    counts: [i64; 400],
    paid: [i64; 400],
    incurred: [i64; 400],
    out: &mut [u8],
) -> Result<(), Refusal>
    ensures value { refusal_number result ≡ write_refusal m line has_incurred counts paid incurred (length out.old) }
    ensures out_after { out.new ≡ write_output m line has_incurred counts paid incurred out.old }
{
    write_lent(m, line, has_incurred, &counts, &paid, &incurred, out)
}
