// The bytes of a set.
#![tactic(auto)]

ghost use Rattle.std.specs.Prelude.{◌≡◌, ◌+◌, ◌≤◌, ◌<◌, length};
ghost use Rattle.model.specs.Records.{given_set};
ghost use Rattle.model.specs.Overlay.{overlay};
ghost use Rattle.model.specs.SetFile.{word, record_of, file_of};
ghost use Rattle.writer.specs.Written.{year_bytes, kind_bytes};

// The bytes of a record: its kind, its accident year, delay and line, and its value as a word.
fn record_bytes(kind: usize, year: usize, delay: usize, line: usize, value: i64) -> [u8; 16]
    requires { (kind < 3) × (year ≤ 20) × (delay < 20) × (line ≤ 5) }
    ensures { result ≡ record_of kind year delay line (word value) }
{
    let w = value.to_le_bytes();
    [
        kind as u8,
        year as u8,
        delay as u8,
        line as u8,
        0,
        0,
        0,
        0,
        w[0],
        w[1],
        w[2],
        w[3],
        w[4],
        w[5],
        w[6],
        w[7],
    ]
}

// Copies a record into the output, from index a on. By index: `copy_from_slice` of each record made
// the writer take twice as long.
fn put(out: &mut [u8], a: usize, bytes: [u8; 16])
    requires { a + 16 ≤ length out.old }
    ensures { out.new ≡ overlay out.old a bytes }
{
    for k in 0..16 {
        out[a + k] = bytes[k];
    }
}

// Writes the records of the first n cells of a year from index a on, and hands back the index
// after them.
fn put_year(
    out: &mut [u8],
    a: usize,
    line: usize,
    kind: usize,
    cells: &[i64; 400],
    year: usize,
    n: usize,
) -> usize
    requires line_bound { (line ≤ 5) × (kind < 3) × (1 ≤ year) × (year ≤ 20) × (n ≤ 20) }
    requires n_in_bounds { a + length (year_bytes line kind cells.now year n) ≤ length out.old }
    ensures value { result ≡ a + length (year_bytes line kind cells.now year n) }
    ensures out_after { out.new ≡ overlay out.old a (year_bytes line kind cells.now year n) }
{
    let mut next = a;
    for j in 0..n {
        let v = cells[20 * (year - 1) + j];
        put(out, next, record_bytes(kind, year, j, line, v));
        next += 16;
    }
    next
}

// Writes the cells of a kind from index a on, and hands back the index after them.
fn put_kind(
    out: &mut [u8],
    a: usize,
    m: usize,
    line: usize,
    kind: usize,
    cells: &[i64; 400],
) -> usize
    requires m_bound { (m ≤ 20) × (line ≤ 5) × (kind < 3) }
    requires cells_in_bounds { a + length (kind_bytes m line kind cells.now) ≤ length out.old }
    ensures value { result ≡ a + length (kind_bytes m line kind cells.now) }
    ensures out_after { out.new ≡ overlay out.old a (kind_bytes m line kind cells.now) }
{
    let mut next = a;
    for k in 0..m {
        next = put_year(out, next, line, kind, cells, k + 1, m - k);
    }
    next
}

// Writes the set's file at the front of the output: by kind, then year, then delay. A kind is the
// number that its records get; the flag and the three triangles are those of the writer's calls.
pub fn put_set<'a>(
    m: usize,
    line: usize,
    has_incurred: bool,
    counts: &'a [i64; 400],
    paid: &'a [i64; 400],
    incurred: &'a [i64; 400],
    out: &mut [u8],
)
    requires m_bound { (m ≤ 20) × (line ≤ 5) }
    requires incurred_in_bounds { length (file_of m (given_set m line has_incurred counts.now paid.now incurred.now)) ≤ length out.old }
    ensures { out.new ≡ overlay out.old 0 (file_of m (given_set m line has_incurred counts.now paid.now incurred.now)) }
{
    let second = put_kind(out, 0, m, line, 0, counts);
    let third = put_kind(out, second, m, line, 1, paid);
    if has_incurred {
        put_kind(out, third, m, line, 2, incurred);
    }
}
