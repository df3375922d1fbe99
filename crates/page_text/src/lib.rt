// The closing page of a tally (02, Job 1): its calendar years in columns, for paper.
#![tactic(auto)]

ghost use Rattle.std.specs.Prelude.{◌≡◌, ◌*◌, ◌≤◌, length};
ghost use Rattle.model.specs.Overlay.{overlay};
ghost use Rattle.model.specs.Page.{page_text};
ghost use Rattle.tally.specs.Printable.{Printable};

use arithmetic::spaced_sum;
use tally_text::{Layout, write_lines, write_sums};
use text::write_bytes;
use year_tally::Tally;

// A column of an amount has 21 bytes: a space, and the 20 that the longest amount takes.
const COLUMNS: Layout = Layout {
    year: 4,
    amount: 20,
};

// Writes the page of a tally at the start of the output.
pub fn write_page(out: &mut [u8], m: usize, t: &Tally)
    requires le_m { (2 ≤ m) × (m ≤ 20) × (136 * m ≤ length out.old) }
    requires printable { Printable m t.now }
    ensures { out.new ≡ overlay out.old 0 (page_text m t.now) }
{
    let years = 2 * m - 2;
    let first = write_bytes(
        out,
        0,
        b"YEAR                 RBNS                 IBNR                TOTAL\n",
    );
    let end = write_lines(out, first, years, COLUMNS, t);
    let x = spaced_sum(&t.rbns, 0, 1, years);
    let y = spaced_sum(&t.ibnr, 0, 1, years);
    let next = write_bytes(out, end, b" ALL");
    write_sums(out, next, COLUMNS.amount, x, y);
}
