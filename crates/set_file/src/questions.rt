// Question 5 of a set, cell by cell.
ghost use Rattle.std.specs.Prelude.{◌≡◌, ◌≤◌};
ghost use Rattle.model.specs.Lists.{every};
ghost use Rattle.model.specs.Records.{cell, in_range};
ghost use Rattle.model.specs.Questions.{each_cell, q5_writer};

// Question 5 of the first n cells of a year. By index: `iter().all` over a part of the cells took
// an instruction more a cell.
fn year_ok(kind: usize, cells: &[i64; 400], year: usize, n: usize) -> bool
    requires { (1 ≤ year) × (year ≤ 20) × (n ≤ 20) }
    ensures { result ≡ every n (λ j. in_range kind (cell cells.now year j)) }
{
    for j in 0..n {
        if !records::questions::in_range(kind, cells[20 * (year - 1) + j]) {
            return false;
        }
    }
    true
}

// Question 5 of the cells of a triangle, year by year; its kind is the number that its records get.
fn cells_ok(m: usize, kind: usize, cells: &[i64; 400]) -> bool
    requires { m ≤ 20 }
    ensures { result ≡ each_cell m (λ i j. in_range kind (cell cells.now i j)) }
{
    for k in 0..m {
        if !year_ok(kind, cells, k + 1, m - k) {
            return false;
        }
    }
    true
}

// Question 5 of the set, with the flag and the three triangles as `write_lent` has them from C.
#[tactic(auto, unfolding(model::specs::Questions::q5_writer))]
pub fn set_ok<'a>(
    m: usize,
    has_incurred: bool,
    counts: &'a [i64; 400],
    paid: &'a [i64; 400],
    incurred: &'a [i64; 400],
) -> bool
    requires { m ≤ 20 }
    ensures { result ≡ q5_writer m has_incurred counts.now paid.now incurred.now }
{
    cells_ok(m, 0, counts) && cells_ok(m, 1, paid) && (!has_incurred || cells_ok(m, 2, incurred))
}
