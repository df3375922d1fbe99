// The lines of a tally in a layout, and the text that `closing` prints: of a tally, or of a
// refusal.
#![tactic(auto)]

ghost use Rattle.std.specs.Prelude.{◌≡◌, true, ℕ, ◌+◌, ◌≤◌, ◌<◌, ◌+ℤ◌, length};
ghost use Rattle.model.specs.Lists.{at};
ghost use Rattle.model.specs.Overlay.{overlay};
ghost use Rattle.model.specs.Calendar.{lines, tally_text, refusal_text};
ghost use Rattle.year_tally.specs.TallyAdd.{fits64};
ghost use Rattle.text.specs.Written.{Written};
ghost use Rattle.tally.specs.Printable.{Printable};
ghost use Rattle.tally_text.specs.TallyTextLaws.{field_in, sums_in, laid};

use arithmetic::spaced_sum;
use text::{put, write_aligned, write_bytes, write_digits};
use year_tally::Tally;

// How the lines of a tally are laid out: a year and an amount stand at the right of so many bytes,
// or take those that they need; before an amount there is a space.
#[derive(Clone, Copy)]
pub struct Layout {
    pub year: usize,
    pub amount: usize,
}

// The layout of `closing`'s text.
const PLAIN: Layout = Layout { year: 0, amount: 0 };

// Writes a space and an amount, at the right of `width` bytes.
fn write_field(out: &mut [u8], at: usize, width: usize, value: i64) -> usize
    requires { at + length (field_in width value) ≤ length out.old }
    ensures { Written out.old at (field_in width value) out.new result }
{
    let next = put(out, at, b' ');
    write_aligned(out, next, width, value)
}

// Writes what stands behind a line's name: RBNS, IBNR, their sum, and a newline.
pub fn write_sums(out: &mut [u8], at: usize, width: usize, rbns: i64, ibnr: i64) -> usize
    requires ibnr_value { fits64 (rbns +ℤ ibnr) ≡ true }
    requires sums_in_bounds { at + length (sums_in width rbns ibnr) ≤ length out.old }
    ensures { Written out.old at (sums_in width rbns ibnr) out.new result }
{
    let both = rbns + ibnr;
    let second = write_field(out, at, width, rbns);
    let third = write_field(out, second, width, ibnr);
    let end = write_field(out, third, width, both);
    put(out, end, b'\n')
}

// Writes the lines of years 1 to n.
pub fn write_lines(out: &mut [u8], start: usize, n: usize, layout: Layout, t: &Tally) -> usize
    requires n_bound { n ≤ 38 }
    requires by_index { (k : ℕ) → k < n → fits64 (at t.now.rbns k +ℤ at t.now.ibnr k) ≡ true }
    requires lines_in_bounds { start + length (lines (laid layout) t.now n) ≤ length out.old }
    ensures { Written out.old start (lines (laid layout) t.now n) out.new result }
{
    let mut end = start;
    for k in 0..n {
        let next = write_aligned(out, end, layout.year, (k + 1) as i64);
        end = write_sums(out, next, layout.amount, t.rbns[k], t.ibnr[k]);
    }
    end
}

// Writes the text of a tally at the start of the output, and hands back its length.
pub fn write_tally_text(out: &mut [u8], m: usize, t: &Tally) -> usize
    requires le_m { (2 ≤ m) × (m ≤ 20) }
    requires printable { Printable m t.now }
    requires text_in_bounds { length (tally_text m t.now) ≤ length out.old }
    ensures { (out.new ≡ overlay out.old 0 (tally_text m t.now)) × (result ≡ length (tally_text m t.now)) }
{
    let years = 2 * m - 2;
    let end = write_lines(out, 0, years, PLAIN, t);
    let first = spaced_sum(&t.rbns, 0, 1, years);
    let second = spaced_sum(&t.ibnr, 0, 1, years);
    let next = put(out, end, b'T');
    write_sums(out, next, PLAIN.amount, first, second)
}

// Writes "refused n" and a newline at the start of the output, and hands back the text's length.
// The text has a number, so this takes one.
pub fn write_refusal(out: &mut [u8], n: u64) -> usize
    requires { length (refusal_text n) ≤ length out.old }
    ensures { (out.new ≡ overlay out.old 0 (refusal_text n)) × (result ≡ length (refusal_text n)) }
{
    let next = write_bytes(out, 0, b"refused ");
    let end = write_digits(out, next, n);
    put(out, end, b'\n')
}
