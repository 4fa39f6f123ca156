// The reasons why something is refused, for all crates that refuse, and the number that stands for each.
#![tactic(auto)]

ghost use Rattle.std.specs.Prelude.{◌≡◌, ◌≤◌};
ghost use Rattle.refusals.specs.Refusal.{number_of, number_in};
ghost use Rattle.refusals.specs.declared.Refusal.{Refusal};

// Why: a lent buffer has the wrong length; the scale is none; the autocorrelations are none; a lag is none; the state is not valid; the line is
// malformed; more than can be counted or numbered; a downlink frame without its samples; no such channel.
#[derive(Clone, Copy, PartialEq, Eq, Debug)]
pub enum Refusal {
    Length = 1,
    Scale = 2,
    Numbers = 3,
    Lag = 4,
    State = 5,
    Malformed = 6,
    Limit = 7,
    Samples = 8,
    Channel = 9,
}

impl Refusal {
    // Its number in an answer: one digit, not 0, and no other refusal has it.
    pub fn number(self) -> u8
        ensures value { result ≡ number_of self }
        ensures digit { (1 ≤ result) × (result ≤ 9) }
        ensures own { (other : Refusal) → number_of other ≡ result → other ≡ self }
    {
        self as u8
    }
}

// The number of a check's finding, for whoever answers by numbers: 0 where nothing is refused.
pub fn number_in(found: Result<(), Refusal>) -> u8
    ensures { result ≡ number_in found }
{
    match found {
        Ok(()) => 0,
        Err(refusal) => refusal.number(),
    }
}
