// The replay of a claims journal.
ghost use Rattle.model.specs.Calls.{Replayed};

// A journal goes into the caller's tally, whatever that holds.
#[unsafe(no_mangle)]
pub extern "C" fn pardesul_replay(journal: &[u8], m: usize, tally: &mut model::JournalTally) -> u64
    ensures { Replayed m journal.now tally.old tally.new result }
{
    refusals::refusal_number(journal::replay(journal, m, tally))
}
