// Every cause for which a call of the checker says no, and the number that reports it.
#![tactic(auto)]

ghost use Rattle.std.specs.Prelude.{◌≡◌, ◌==◌};
ghost use Rattle.refusal.specs.Numbers.{number_of};
ghost use Rattle.refusal.specs.declared.Refusal.{Refusal};

#[derive(Clone, Copy, Debug, PartialEq, Eq)]
pub enum Refusal {
    // A packed file.
    TooFewBytes = 1,
    TooManyBytes = 2,
    FillingBitSet = 3,
    StartNotAState = 4,
    StateWithoutStep = 5,
    // A lent slice, or a text that no slice may hold.
    SliceTooSmall = 6,
    // The rows of a sheet.
    TooFewFreeRows = 7,
    OperandAbsent = 8,
    PropositionAbsent = 9,
    GradeTooLarge = 10,
    // The text of a formula.
    LineTooLong = 11,
    MalformedToken = 12,
    TokenNotAllowed = 13,
    TooManyLevels = 14,
    // A question about a row.
    RowAbsent = 15,
    RowNotMarked = 16,
    StateAbsent = 17,
    FormWithoutQuestion = 18,
    NoSuchWay = 19,
}

impl Refusal {
    // The number that reports and documents use for this cause. Causes are the same where their numbers are.
    pub fn number(self) -> u8
        ensures value { result ≡ number_of self }
        ensures same { (other : Refusal) → ⟦<Refusal as PartialEq>⟧.eq self other ≡ (number_of self == number_of other) }
    {
        self as u8
    }
}
