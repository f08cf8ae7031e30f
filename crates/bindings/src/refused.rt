// What an export refuses.
ghost use Rattle.std.specs.Prelude.{◌≡◌};
ghost use Rattle.bindings.specs.Outcomes.{refused_number};

use contents::Refusal;

/// Why an export has no answer.
#[derive(Clone, Copy, PartialEq, Eq, Debug)]
pub enum Refused {
    /// a number stands for no levels, no side or no preference
    Unknown,
    /// the plan refuses
    Plan(Refusal),
}

impl Refused {
    /// The number by which it is told: 255 is no number of a plan's refusal.
    pub fn number(self) -> u8
        ensures { result ≡ refused_number self }
    {
        match self {
            Refused::Unknown => 255,
            Refused::Plan(refusal) => refusal.number(),
        }
    }
}

// The plan's refusal, as `?` hands it on.
impl From<Refusal> for Refused {
    ghost use Rattle.bindings.specs.declared.refused.Refused.TheVariants.{Plan};

    ghost from_gives = { λ refusal refused. refused ≡ Plan refusal };

    fn from(refusal: Refusal) -> Refused {
        Refused::Plan(refusal)
    }
}
