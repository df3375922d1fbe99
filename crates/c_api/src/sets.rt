// The reader and the writer of triangle sets.
ghost use Rattle.std.specs.Prelude.{◌≡◌, cond, length};
ghost use Rattle.model.specs.Calls.{if_accepted, read_answer, write_refusal, write_output};

use refusals::refusal_number;

// The reader: the set of a file goes to line, counts, paid and incurred, and has_incurred becomes 1
// where incurred is there, else 0.
#[unsafe(no_mangle)]
pub extern "C" fn pardesul_read_set(
    file: &[u8],
    m: usize,
    line: &mut u64,
    has_incurred: &mut u8,
    counts: &mut [i64; 400],
    paid: &mut [i64; 400],
    incurred: &mut [i64; 400],
) -> u64
    ensures value { result ≡ (read_answer m file.now).refusal }
    ensures line_after { line.new ≡ if_accepted result (read_answer m file.now).set.line line.old }
    ensures has_incurred_after { has_incurred.new ≡ if_accepted result (cond (read_answer m file.now).set.has_incurred 1 0) has_incurred.old }
    ensures counts_after { counts.new ≡ if_accepted result (read_answer m file.now).set.counts counts.old }
    ensures paid_after { paid.new ≡ if_accepted result (read_answer m file.now).set.paid paid.old }
    ensures incurred_after { incurred.new ≡ if_accepted result (read_answer m file.now).set.incurred incurred.old }
{
    let mut set = [0i64; 1200];
    let refusal = refusal_number(triangles::read_cells(file, m, &mut set));
    if refusal != 0 {
        return refusal;
    }
    triangles::copy_kind(&set, 0, counts);
    triangles::copy_kind(&set, 1, paid);
    triangles::copy_kind(&set, 2, incurred);
    *line = triangles::line(file);
    *has_incurred = triangles::has_incurred(file, m) as u8;
    0
}

// The writer: the set's file goes to the front of the output.
#[unsafe(no_mangle)]
pub extern "C" fn pardesul_write_set<'a>(
    m: usize,
    line: u64,
    has_incurred: bool,
    counts: &'a [i64; 400],
    paid: &'a [i64; 400],
    incurred: &'a [i64; 400],
    out: &mut [u8],
) -> u64
    ensures value { result ≡ write_refusal m line has_incurred counts.now paid.now incurred.now (length out.old) }
    ensures out_after { out.new ≡ write_output m line has_incurred counts.now paid.now incurred.now out.old }
{
    let answer = set_file::write_lent(m, line, has_incurred, counts, paid, incurred, out);
    refusal_number(answer)
}
