// The table of refusals: the number of each cause.
ghost use Rattle.std.specs.Prelude.{◌≡◌, [], ◌∷◌};

use refusal::Refusal;

// The numbers of the causes, in the order of the table. They are numbers, since that is what the table shows.
pub fn refusal_numbers() -> [u8; 19]
    ensures { result ≡ 1 ∷ 2 ∷ 3 ∷ 4 ∷ 5 ∷ 6 ∷ 7 ∷ 8 ∷ 9 ∷ 10 ∷ 11 ∷ 12 ∷ 13 ∷ 14 ∷ 15 ∷ 16 ∷ 17 ∷ 18 ∷ 19 ∷ [] }
{
    [
        Refusal::TooFewBytes,
        Refusal::TooManyBytes,
        Refusal::FillingBitSet,
        Refusal::StartNotAState,
        Refusal::StateWithoutStep,
        Refusal::SliceTooSmall,
        Refusal::TooFewFreeRows,
        Refusal::OperandAbsent,
        Refusal::PropositionAbsent,
        Refusal::GradeTooLarge,
        Refusal::LineTooLong,
        Refusal::MalformedToken,
        Refusal::TokenNotAllowed,
        Refusal::TooManyLevels,
        Refusal::RowAbsent,
        Refusal::RowNotMarked,
        Refusal::StateAbsent,
        Refusal::FormWithoutQuestion,
        Refusal::NoSuchWay,
    ]
    .map(|cause| cause.number())
}
