// What belongs to no subject: why a call is refused. The rest is definitions, in specs/, and their
// laws, in proofs/.
#![tactic(auto)]

ghost use Rattle.std.specs.Prelude.{◌≡◌};
ghost use Rattle.base.specs.Answers.{is_named, refusal_number};

// Why a call is refused. Each has a number, which programs print and C is given; docs/REFUSALS.md
// says when it comes and what to do.
#[derive(Clone, Copy, Debug, PartialEq, Eq)]
pub enum Refusal {
    // of a rule and its file
    TooShort,
    TooLong,
    StateCount,
    SymbolCount,
    CutPairs,
    StrayState,
    BadPairs,
    BadArcs,
    TooManySets,
    // of a board and its chunks
    PlaceCount,
    NoPlace,
    LongChunk,
    ForeignByte,
    NoRule,
    NoBoard,
    NotDue,
    EmptyPlace,
    // of a pattern
    LongPattern,
    NoPattern,
    TooManyLetters,
    // of mappings, of samples and of two rules
    TooManyStates,
    TooManyMappings,
    TooManyReached,
    OtherSymbols,
    TooManyMerged,
    // of a tray
    Width,
    NotRows,
    // of a form, and of a text that is made
    NoForm,
    NoSeed,
    // of summaries
    BrokenSummary,
    OtherRule,
    MissingEnd,
    // of a comparison, and of a saved judge
    TooManyPairs,
    NotSaved,
    // of no call: who writes or shows a refusal takes any number, so one that no name above has; one
    // that a name has is told as 0
    Other(u8),
}

impl Refusal {
    pub fn number(self) -> u8
        ensures { result ≡ refusal_number self }
    {
        match self {
            Refusal::TooShort => 1,
            Refusal::TooLong => 2,
            Refusal::StateCount => 3,
            Refusal::SymbolCount => 4,
            Refusal::CutPairs => 5,
            Refusal::StrayState => 6,
            Refusal::BadPairs => 7,
            Refusal::BadArcs => 8,
            Refusal::TooManySets => 9,
            Refusal::PlaceCount => 10,
            Refusal::NoPlace => 11,
            Refusal::LongChunk => 12,
            Refusal::ForeignByte => 13,
            Refusal::NoRule => 20,
            Refusal::NoBoard => 21,
            Refusal::NotDue => 22,
            Refusal::EmptyPlace => 23,
            Refusal::LongPattern => 30,
            Refusal::NoPattern => 31,
            Refusal::TooManyLetters => 32,
            Refusal::TooManyStates => 33,
            Refusal::TooManyMappings => 34,
            Refusal::TooManyReached => 35,
            Refusal::OtherSymbols => 36,
            Refusal::TooManyMerged => 37,
            Refusal::Width => 38,
            Refusal::NotRows => 39,
            Refusal::NoForm => 40,
            Refusal::NoSeed => 41,
            Refusal::BrokenSummary => 42,
            Refusal::OtherRule => 43,
            Refusal::MissingEnd => 44,
            Refusal::TooManyPairs => 45,
            Refusal::NotSaved => 46,
            Refusal::Other(number) => {
                // so that the number of a name is told for that name alone
                if is_named(number) { 0 } else { number }
            }
        }
    }
}

// Whether a refusal with a name has the number.
fn is_named(number: u8) -> bool
    ensures { result ≡ is_named number }
{
    if number < 20 {
        return 1 <= number && number <= 13;
    }
    if number < 30 {
        return number <= 23;
    }
    number <= 46
}
