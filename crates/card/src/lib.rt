// A card: a lent bank of 1 to 64 channel states. An order names a channel; its state is taken out of the bank, stepped by value, and stored.
#![tactic(auto)]

ghost use Rattle.std.specs.Prelude.{◌≡◌};
ghost use Rattle.refusals.specs.Refusal.{number_in};
ghost use Rattle.frames.specs.Direction.{direction_in};
ghost use Rattle.card.specs.Card as meaning;
ghost use Rattle.card.specs.Result.{called_in};

use frames::Direction;
use pairs::Pair;
use refusals::Refusal;
use state::State;

// The most channels of a bank.
pub const CHANNELS: usize = 64;

// What a call that is accepted is answered: flags and energies, as of a step. The next state is in the bank.
#[derive(Clone, Copy)]
pub struct Called {
    pub vad: bool,
    pub vvad: bool,
    pub stat: bool,
    pub acf0: Pair,
    pub pvad: Pair,
}

// Whether a bank of n channels is of 1 to 64, and the channel one of them.
pub fn in_bank(n: usize, channel: usize) -> bool
    ensures { result ≡ meaning.in_bank n channel }
{
    n <= CHANNELS && channel < n
}

// A frame on a channel; where it is refused, the bank stays as it was.
pub fn call(
    bank: &mut [State],
    channel: usize,
    direction: Direction<'_>,
    acf: &[i32],
    lags: &[u16],
    scalvad: i16,
) -> Result<Called, Refusal>
    ensures value { called_in result ≡ meaning.answer_of bank.old (meaning.call channel (meaning.frame_of (direction_in direction.entry) acf.now lags.now scalvad)) }
    ensures bank_after { bank.new ≡ meaning.bank_after bank.old (meaning.call channel (meaning.frame_of (direction_in direction.entry) acf.now lags.now scalvad)) }
{
    if !in_bank(bank.len(), channel) {
        return Err(Refusal::Channel);
    }
    let a = detector::frame(direction, acf, lags, scalvad, bank[channel])?;
    bank[channel] = a.next;
    Ok(Called {
        vad: a.vad,
        vvad: a.vvad,
        stat: a.stat,
        acf0: a.acf0,
        pvad: a.pvad,
    })
}

// One channel starts anew.
pub fn reset(bank: &mut [State], channel: usize) -> Result<(), Refusal>
    ensures value { number_in result ≡ (meaning.answer_of bank.old (meaning.reset channel)).refusal }
    ensures bank_after { bank.new ≡ meaning.bank_after bank.old (meaning.reset channel) }
{
    if !in_bank(bank.len(), channel) {
        return Err(Refusal::Channel);
    }
    bank[channel] = State::reset();
    Ok(())
}
