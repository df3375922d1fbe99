// The closing page of a file (02, Job 1).
#![tactic(auto)]

ghost use Rattle.std.specs.Prelude.{◌≡◌, length};
ghost use Rattle.model.specs.Calls.{page_refusal, page_output};
ghost use Rattle.refusals.specs.Refusals.{refusal_number};

use page_text::write_page;
use refusals::Refusal;
use tally::tally_of;

// The closing page of a file, by method and basis, written to the front of the lent page: questions
// 1 to 6, 15 and 9 to 14. The bytes past 136 × m keep their values, and a refusal leaves all as
// they were. Any numbers may be handed in for m, method and basis.
pub fn closing_page(
    file: &[u8],
    m: usize,
    method: u64,
    basis: u64,
    page: &mut [u8],
) -> Result<(), Refusal>
    ensures value { refusal_number result ≡ page_refusal m file.now method basis (length page.old) }
    ensures page_after { page.new ≡ page_output m file.now method basis page.old }
{
    let mut set = [0i64; 1200];
    forecast::read_to_forecast(file, m, method, basis, &mut set)?;
    if page.len() < 136 * m {
        return Err(Refusal::PageRoom);
    }
    let mut leftovers = [0i64; 20];
    let mut entries = [0i64; 1560];
    set_forecast::forecast_set(&set, m, method, basis, &mut leftovers, &mut entries)?;
    write_page(page, m, &tally_of(&entries, m));
    Ok(())
}
