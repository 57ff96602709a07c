// What reduce and test answer.
ghost use Rattle.std.specs.Prelude.{◌≡◌};
ghost use Rattle.reduction.specs.Reduction.{refused_reduction, refused_test, summed};

use records::answers::{Refusal, Verdict};
use slots::system::System;

// The answer of reduce and of member: the number of moves made, the rank, and whether the given words are independent.
#[derive(Clone, Copy, Debug, PartialEq, Eq)]
pub struct Reduction {
    pub verdict: Verdict,
    pub moves: usize,
    pub rank: usize,
    pub independent: bool,
}

// The answer of test: whether the system is reduced.
#[derive(Clone, Copy, Debug, PartialEq, Eq)]
pub struct Tested {
    pub verdict: Verdict,
    pub reduced: bool,
}

impl Reduction {
    // The answer of reduce and of member with a verdict, after so many moves that left a system.
    pub fn of(verdict: Verdict, moves: usize, reduced: &System) -> Reduction
        ensures { result ≡ summed verdict moves reduced.now }
    {
        let rank = reduced.rank();
        Reduction {
            verdict,
            moves,
            rank,
            independent: rank == reduced.len(),
        }
    }
}

// The answer of reduce and of member where a test ended the call.
impl From<Result<(), Refusal>> for Reduction {
    ghost from_gives = { λ checked answer. answer ≡ refused_reduction checked };

    fn from(checked: Result<(), Refusal>) -> Reduction {
        Reduction {
            verdict: Verdict::from(checked),
            moves: 0,
            rank: 0,
            independent: false,
        }
    }
}

// The answer of test where a test of the system ended the call.
impl From<Result<(), Refusal>> for Tested {
    ghost from_gives = { λ checked answer. answer ≡ refused_test checked };

    fn from(checked: Result<(), Refusal>) -> Tested {
        Tested {
            verdict: Verdict::from(checked),
            reduced: false,
        }
    }
}
