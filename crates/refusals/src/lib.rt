// Why a call is turned away: the reasons, each with its number in document 01, and the answer that a host is told.
#![tactic(auto)]

ghost use Rattle.std.specs.Prelude.{◌≡◌};
ghost use Rattle.refusals.specs.Number.{number_of, number};

// A reason to turn a call away. A call tests its reasons in an order of its own and is refused by the first that applies.
#[derive(Clone, Copy, Debug, PartialEq, Eq)]
pub enum Refusal {
    // The dof is above 9.
    DofTooLarge = 1,
    // A list of frames, of counts or of matches is empty.
    EmptyList = 2,
    // A slice other than the actions has not the length that its counts call for, or a limit is passed.
    WrongLength = 3,
    // A frame's count is at or below 0.
    EmptyFrame = 4,
    // The counts, added up, are below 3.
    TooFewPoints = 5,
    // A moment or a coordinate is not finite.
    NotFinite = 6,
    // Sigma is not finite and positive.
    BadSigma = 7,
    // There is not one action for each frame.
    WrongActions = 8,
    // A word of a map is neither an offset nor unmapped.
    BadWord = 9,
    // A mapped frame's segment ends past the order of the Hessian.
    OutOfHessian = 10,
    // A normal's norm is not finite or not above 1e-12.
    DegenerateNormal = 11,
    // A variance is not finite and positive.
    BadVariance = 12,
    // The fixed set's count is below 0.
    NegativeFixedCount = 13,
    // A transform has not the rows or columns that it should have.
    TransformMisfit = 14,
    // The count would not be exact: it would be above 2^53.
    CountTooLarge = 15,
}

impl From<Refusal> for u32 {
    ghost from_gives = { λ reason n. n ≡ number_of reason };

    fn from(reason: Refusal) -> u32 {
        reason as u32
    }
}

// What a host is told: the number of the reason, or 0.
pub fn told(answer: Result<(), Refusal>) -> u32
    ensures { result ≡ number answer }
{
    match answer {
        Ok(()) => 0,
        Err(reason) => reason.into(),
    }
}
