// A frame by itself: how much is lent, and whether its scale, its numbers and its lags are such as an encoder hands over.
#![tactic(auto)]

ghost use Rattle.std.specs.Prelude.{◌≡◌};
ghost use Rattle.refusals.specs.Refusal.{number_in};
ghost use Rattle.frames.specs.Frame.{samples_ok, acf_ok, lags_ok, frame_refusal_of};
ghost use Rattle.frames.specs.Direction.{direction_in};

use lags::lag_ok;
use operations::magnitude;
use refusals::Refusal;
use rows::short_within;

// A frame's autocorrelations and lags, as many as are lent.
pub const NUMBERS: usize = 9;

pub const LAGS: usize = 4;

// The samples of a downlink frame.
pub const SAMPLES: usize = 160;

// A frame goes up, from the handset to the network, or down, and then has its samples too.
#[derive(Clone, Copy)]
pub enum Direction<'a> {
    Uplink,
    Downlink(&'a [i16]),
}

impl<'a> Direction<'a> {
    // Whether a downlink frame has its 160 samples.
    pub fn samples_ok(self) -> bool
        ensures { result ≡ samples_ok (direction_in self.entry) }
    {
        match self {
            Direction::Uplink => true,
            Direction::Downlink(samples) => samples.len() == SAMPLES,
        }
    }
}

// Whether no number is larger in magnitude than the first, which is not negative.
fn acf_ok(acf: [i32; 9]) -> bool
    ensures { result ≡ acf_ok acf }
{
    let first = acf[0];
    let top = magnitude(first);
    first >= 0 && acf.iter().all(|x| magnitude(*x) <= top)
}

// Whether each lag is one of 40..120.
fn lags_ok(lags: [u16; 4]) -> bool
    ensures { result ≡ lags_ok lags }
{
    lags.iter().all(|lag| lag_ok(*lag))
}

// Whether a frame by itself can be accepted: its scale, its numbers and its lags, in this order.
pub fn check(acf: [i32; 9], lags: [u16; 4], scalvad: i16) -> Result<(), Refusal>
    ensures { number_in result ≡ frame_refusal_of acf lags scalvad }
{
    if !short_within(0, 4, scalvad) {
        return Err(Refusal::Scale);
    }
    if !acf_ok(acf) {
        return Err(Refusal::Numbers);
    }
    if !lags_ok(lags) {
        return Err(Refusal::Lag);
    }
    Ok(())
}
