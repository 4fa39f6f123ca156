// Clause 6.8: the hangover that keeps the flag up after a burst of speech.
#![tactic(auto)]

ghost use Rattle.std.specs.Prelude.{◌≡◌};
ghost use Rattle.hangover.specs.Hangover.{hangover_of, burst_of, run_down_of, started_of};

use operations::{add, sub};

pub const BURSTCONST: i16 = 3;

const HANGCONST: i16 = 5;

// The flag of a frame, and the two counts after it.
#[derive(Clone, Copy)]
pub struct Hung {
    pub vad: bool,
    pub burstcount: i16,
    pub hangcount: i16,
}

impl Hung {
    // The flag kept up by a running hangover, which is then one frame shorter.
    fn run_down(self) -> Hung
        ensures { result ≡ run_down_of self.vad self.burstcount self.hangcount }
    {
        if self.hangcount >= 0 {
            Hung {
                vad: true,
                hangcount: sub(self.hangcount, 1),
                ..self
            }
        } else {
            self
        }
    }

    // A burst that is long enough starts the hangover anew.
    fn started(self) -> Hung
        ensures { result ≡ started_of self.vad self.burstcount self.hangcount }
    {
        if self.burstcount >= BURSTCONST {
            Hung {
                burstcount: BURSTCONST,
                hangcount: HANGCONST,
                ..self
            }
            .run_down()
        } else {
            self.run_down()
        }
    }
}

// The frames of raw speech in a row, this one counted.
fn burst(vvad: bool, burstcount: i16) -> i16
    ensures { result ≡ burst_of vvad burstcount }
{
    if vvad { add(burstcount, 1) } else { 0 }
}

// The flag of a frame with the raw decision vvad, and the two counts after it.
pub fn hangover(vvad: bool, burstcount: i16, hangcount: i16) -> Hung
    ensures { result ≡ hangover_of vvad burstcount hangcount }
{
    Hung {
        vad: vvad,
        burstcount: burst(vvad, burstcount),
        hangcount,
    }
    .started()
}
