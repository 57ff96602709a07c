// What a call answers: a verdict, and with a refusal its number and its place.
ghost use Rattle.std.specs.Prelude.{◌≡◌};
ghost use Rattle.records.specs.Answers.{answer_of};
ghost use Rattle.records.specs.Reasons.{number_of};
ghost use Rattle.records.specs.Refusals.{must, refusal};

use crate::refusals::Reason;

// A refusal: its reason, which has a number, and the place that it names.
#[derive(Clone, Copy, Debug, PartialEq, Eq)]
pub struct Refusal {
    pub reason: Reason,
    pub place: usize,
}

impl Refusal {
    // The number of the refusal.
    pub fn number(self) -> u8
        ensures { result ≡ number_of self.reason }
    {
        u8::from(self.reason)
    }
}

// The verdict that every answer carries.
#[derive(Clone, Copy, Debug, PartialEq, Eq)]
pub enum Verdict {
    Done,
    Member,
    NotMember,
    Refused(Refusal),
}

// The answer of a call that gives nothing but its verdict.
#[derive(Clone, Copy, Debug, PartialEq, Eq)]
pub struct Answer {
    pub verdict: Verdict,
}

// A refusal as the outcome of a test.
pub fn refuse(reason: Reason, place: usize) -> Result<(), Refusal>
    ensures { result ≡ refusal reason place }
{
    Err(Refusal { reason, place })
}

// No refusal where a condition holds, and otherwise the one with this reason and place.
pub fn check_that(holds: bool, reason: Reason, place: usize) -> Result<(), Refusal>
    ensures { result ≡ must holds reason place }
{
    if holds { Ok(()) } else { refuse(reason, place) }
}

// The verdict of a call that gives nothing else, from what its tests found.
impl From<Result<(), Refusal>> for Verdict {
    ghost from_gives = { λ checked verdict. verdict ≡ (answer_of checked).verdict };

    fn from(checked: Result<(), Refusal>) -> Verdict {
        match checked {
            Ok(()) => Verdict::Done,
            Err(refusal) => Verdict::Refused(refusal),
        }
    }
}

// The answer of a call that gives nothing but its verdict, from what its tests found.
impl From<Result<(), Refusal>> for Answer {
    ghost from_gives = { λ checked answer. answer ≡ answer_of checked };

    fn from(checked: Result<(), Refusal>) -> Answer {
        Answer {
            verdict: Verdict::from(checked),
        }
    }
}
