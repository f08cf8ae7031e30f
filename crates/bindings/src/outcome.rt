// An answer or a refusal, as two numbers.
ghost use Rattle.std.specs.Prelude.{◌≡◌};
ghost use Rattle.bindings.specs.Outcomes.{outcome_of};

use crate::refused::Refused;

/// Refusal 0 and the answer, or the number of the refusal and 0: C has no Result.
#[repr(C)]
#[derive(Clone, Copy)]
pub struct Outcome {
    pub refusal: u32,
    pub value: u64,
}

// What a caller is told of an answer.
impl From<Result<u64, Refused>> for Outcome {
    ghost from_gives = { λ answer outcome. outcome ≡ outcome_of answer };

    fn from(answer: Result<u64, Refused>) -> Outcome {
        match answer {
            Ok(value) => Outcome { refusal: 0, value },
            Err(refused) => Outcome {
                refusal: u32::from(refused.number()),
                value: 0,
            },
        }
    }
}

// The same of a length.
impl From<Result<usize, Refused>> for Outcome {
    ghost from_gives = { λ answer outcome. outcome ≡ outcome_of answer };

    fn from(answer: Result<usize, Refused>) -> Outcome {
        Outcome::from(answer.map(|length| length as u64))
    }
}
