// Why a call is refused: the question that got the first no (01, The gatekeeper's questions; 02).
#![tactic(auto)]

ghost use Rattle.std.specs.Prelude.{◌≡◌};
ghost use Rattle.refusals.specs.Refusals.{number, refusal_number};

// A question, by what it asks; its number stands in the README.
#[derive(Clone, Copy)]
pub enum Refusal {
    Size,
    FileLength,
    RecordForm,
    CellCopies,
    ValueRange,
    Settings,
    OutputRoom,
    Cut,
    CountSums,
    PaidSums,
    Shares,
    SolvedDelays,
    Incurred,
    RowBases,
    PageRoom,
    JournalForm,
    ClaimOrder,
    Booking,
    Dates,
    GivenDelays,
}

impl From<Refusal> for u64 {
    ghost from_gives = { λ r n. n ≡ number r };

    fn from(refusal: Refusal) -> u64 {
        match refusal {
            Refusal::Size => 1,
            Refusal::FileLength => 2,
            Refusal::RecordForm => 3,
            Refusal::CellCopies => 4,
            Refusal::ValueRange => 5,
            Refusal::Settings => 6,
            Refusal::OutputRoom => 7,
            Refusal::Cut => 8,
            Refusal::CountSums => 9,
            Refusal::PaidSums => 10,
            Refusal::Shares => 11,
            Refusal::SolvedDelays => 12,
            Refusal::Incurred => 13,
            Refusal::RowBases => 14,
            Refusal::PageRoom => 15,
            Refusal::JournalForm => 16,
            Refusal::ClaimOrder => 17,
            Refusal::Booking => 18,
            Refusal::Dates => 19,
            Refusal::GivenDelays => 20,
        }
    }
}

// The refusal number of a call: 0 where it is accepted.
pub fn refusal_number(answer: Result<(), Refusal>) -> u64
    ensures { result ≡ refusal_number answer }
{
    match answer {
        Ok(()) => 0,
        Err(refusal) => u64::from(refusal),
    }
}
