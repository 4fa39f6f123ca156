// The voice activity detector of GSM 06.32, on the uplink and on the downlink: one frame, the state before it, and the answer with the state after it.
#![tactic(auto)]

ghost use Rattle.std.specs.Prelude.{◌≡◌};
ghost use Rattle.refusals.specs.Refusal.{number_in, number_of};
ghost use Rattle.frames.specs.Frame.{samples_ok};
ghost use Rattle.frames.specs.Direction.{direction_in};
ghost use Rattle.detector.specs.Refusal as table;
ghost use Rattle.detector.specs.Step as clause;
ghost use Rattle.detector.specs.Result.{accepted_in, answer_of, refused_in};

use averages::{Averages, average};
use energy::{Energies, energy};
use frames::{Direction, LAGS, NUMBERS, check};
use hangover::{Hung, hangover};
use lags::{lagcount, ptch};
use pairs::{Pair, greater};
use predictor::{Filter, predicted};
use refusals::Refusal;
use rows::{four, nine};
use spectrum::{Compared, compare};
use state::{State, state_ok};
use threshold::{Kept, adapt};
use tone::tone;

// The answer to a frame that is accepted; `stat` is what 6.4 finds in it. For speed, the state comes first here and in a refusal: a result has it at one
// place then, whichever it is.
#[derive(Clone, Copy)]
pub struct Accepted {
    pub next: State,
    pub acf0: Pair,
    pub pvad: Pair,
    pub vad: bool,
    pub vvad: bool,
    pub stat: bool,
}

// A frame that is refused: the state as it was given, and why.
#[derive(Clone, Copy)]
pub struct Refused {
    pub state: State,
    pub refusal: Refusal,
}

impl Refused {
    // A frame that is refused, with the state that it was given.
    pub fn new(refusal: Refusal, state: State) -> Refused
        ensures { refused_in result ≡ clause.refused_of (number_of refusal) state }
    {
        Refused { state, refusal }
    }
}

// Whoever has the state still needs only the reason.
impl From<Refused> for Refusal {
    ghost from_gives = { λ r e. e ≡ r.refusal };

    fn from(r: Refused) -> Refusal {
        r.refusal
    }
}

// What 6.2 to 6.4 leave behind.
#[derive(Clone, Copy)]
struct Middle {
    sacf: [i32; 27],
    ptsacf: usize,
    sav0: [i32; 36],
    ptsav0: usize,
    lastdm: i32,
    stat: bool,
    rav1: [i16; 9],
    normrav1: i16,
}

// ---- refusals

// Whether a frame is accepted in a state: its buffers, its samples, the state, and then the frame by itself, in this order.
fn admit(
    direction: Direction<'_>,
    acf: &[i32],
    lags: &[u16],
    scalvad: i16,
    s: State,
) -> Result<(), Refusal>
    ensures { number_in result ≡ table.refusal_of (samples_ok (direction_in direction.entry)) acf.now lags.now scalvad s }
{
    if acf.len() != NUMBERS || lags.len() != LAGS {
        return Err(Refusal::Length);
    }
    if !direction.samples_ok() {
        return Err(Refusal::Samples);
    }
    if !state_ok(s) {
        return Err(Refusal::State);
    }
    check(nine(acf), four(lags), scalvad)
}

// ---- the clauses

// What 6.2 to 6.4 leave behind of a frame: the histories, the filter of the average, and whether the spectrum is stationary.
fn spectral(acf: [i32; 9], scalvad: i16, s: State) -> Middle
    ensures { result ≡ clause.spectral_of acf scalvad s }
{
    let Averages {
        av0,
        av1,
        sacf,
        ptsacf,
        sav0,
        ptsav0,
    } = average(acf, scalvad, s.sacf, s.ptsacf, s.sav0, s.ptsav0);
    let Filter { rav1, normrav1 } = predicted(av1);
    let Compared { dm, stat } = compare(av0, rav1, normrav1, s.lastdm);
    Middle {
        sacf,
        ptsacf,
        sav0,
        ptsav0,
        lastdm: dm,
        stat,
        rav1,
        normrav1,
    }
}

// A frame that is accepted: 6.6 reads `tone`, and `found` is kept for the next frame.
fn answered(
    tone: bool,
    found: bool,
    acf: [i32; 9],
    lags: [u16; 4],
    scalvad: i16,
    s: State,
) -> Accepted
    ensures { accepted_in result ≡ clause.accepted_of tone found acf lags scalvad s }
{
    let Energies { acf0, pvad } = energy(acf, scalvad, s.rvad, s.normrvad);
    let Middle {
        sacf,
        ptsacf,
        sav0,
        ptsav0,
        lastdm,
        stat,
        rav1,
        normrav1,
    } = spectral(acf, scalvad, s);
    // By a name of its own: a field that is an array can't stand straight in a literal.
    let rvad = s.rvad;
    let was = Kept {
        thvad: s.thvad,
        adaptcount: s.adaptcount,
        rvad,
        normrvad: s.normrvad,
    };
    let ptch = ptch(s.oldlagcount, s.veryoldlagcount);
    let Kept {
        thvad,
        adaptcount,
        rvad,
        normrvad,
    } = adapt(acf0, pvad, ptch, stat, tone, rav1, normrav1, was);
    let vvad = greater(pvad, thvad);
    let Hung {
        vad,
        burstcount,
        hangcount,
    } = hangover(vvad, s.burstcount, s.hangcount);
    let next = State {
        rvad,
        normrvad,
        sacf,
        ptsacf,
        sav0,
        ptsav0,
        lastdm,
        thvad,
        adaptcount,
        burstcount,
        hangcount,
        oldlagcount: lagcount(s.oldlag, lags),
        veryoldlagcount: s.oldlagcount,
        oldlag: lags[3],
        tone: found,
    };
    Accepted {
        vad,
        vvad,
        stat,
        acf0,
        pvad,
        next,
    }
}

// One frame: its direction, on the downlink with its samples, lent; nine autocorrelations and four lags, lent; the scale; the state before. For speed,
// whoever has frames of both directions calls this: the clauses are then in the program once, and the compiler puts them into their caller.
pub fn frame(
    direction: Direction<'_>,
    acf: &[i32],
    lags: &[u16],
    scalvad: i16,
    s: State,
) -> Result<Accepted, Refused>
    ensures { answer_of result ≡ clause.answer_for (direction_in direction.entry) acf.now lags.now scalvad s }
{
    if let Err(refusal) = admit(direction, acf, lags, scalvad, s) {
        return Err(Refused::new(refusal, s));
    }
    let (read, found) = match direction {
        Direction::Uplink => (false, false),
        Direction::Downlink(samples) => (s.tone, tone(samples)),
    };
    Ok(answered(read, found, nine(acf), four(lags), scalvad, s))
}

// One frame on the uplink.
pub fn step(acf: &[i32], lags: &[u16], scalvad: i16, s: State) -> Result<Accepted, Refused>
    ensures { answer_of result ≡ clause.step_of acf.now lags.now scalvad s }
{
    frame(Direction::Uplink, acf, lags, scalvad, s)
}

// One frame on the downlink, with its 160 samples, lent.
pub fn downlink(
    acf: &[i32],
    lags: &[u16],
    scalvad: i16,
    sof: &[i16],
    s: State,
) -> Result<Accepted, Refused>
    ensures { answer_of result ≡ clause.downlink_of acf.now lags.now scalvad sof.now s }
{
    frame(Direction::Downlink(sof), acf, lags, scalvad, s)
}
