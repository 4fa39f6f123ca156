// Why a frame was sent or not, and why the threshold moved or not: the reasons of each frame of a run from reset.
#![tactic(auto)]

ghost use Rattle.std.specs.Prelude.{◌≡◌, ◌<◌, Ok};
ghost use Rattle.frames.specs.Direction.{direction_in};
ghost use Rattle.detector.specs.Step.{tone_read};
ghost use Rattle.detector.specs.Result.{accepted_in};
ghost use Rattle.why.specs.Explain as meaning;
ghost use Rattle.why.specs.Result.{explained_in};
ghost use Rattle.why.specs.Fits.{why_case};

use detector::Accepted;
use frames::Direction;
use hangover::BURSTCONST;
use lags::ptch;
use pairs::Pair;
use refusals::Refusal;
use state::State;
use threshold::{Way, way_taken};

// The most frames that are numbered.
const LIMIT: u32 = u32::MAX;

// Why the flag is what it is: the energy is above the threshold; the hangover holds it up, with the number of the latest frame that completed a
// burst; or neither.
#[derive(Clone, Copy)]
pub enum Flag {
    Energy,
    Hangover(u32),
    Quiet,
}

// The reasons of an accepted frame, and its number.
#[derive(Clone, Copy)]
pub struct Reasons {
    pub number: u32,
    pub flag: Flag,
    pub threshold: Way,
}

// A run so far: the detector, how many frames were accepted, and the number of the latest that completed a burst, 0 where none did: `explain` answers from
// every such run, and a hangover names this number.
#[derive(Clone, Copy)]
pub struct Explainer {
    pub state: State,
    pub number: u32,
    pub latest: u32,
}

// The run after a frame that is accepted, its answer, and its reasons.
#[derive(Clone, Copy)]
pub struct Explained {
    pub next: Explainer,
    pub answer: Accepted,
    pub reasons: Reasons,
}

// A frame that is refused: the run as it was, and why.
#[derive(Clone, Copy)]
pub struct Denied {
    pub explainer: Explainer,
    pub refusal: Refusal,
}

// A run before its first frame.
pub fn start() -> Explainer
    ensures { result ≡ meaning.start_of }
{
    let state = State::reset();
    Explainer {
        state,
        number: 0,
        latest: 0,
    }
}

// Why the flag is what it is.
fn flag_reason(vvad: bool, vad: bool, latest: u32) -> Flag
    ensures { result ≡ meaning.flag_reason vvad vad latest }
{
    if vvad {
        return Flag::Energy;
    }
    if vad {
        return Flag::Hangover(latest);
    }
    Flag::Quiet
}

// Why the threshold moved or not: the way through 6.6, which read `tone`, from the state at entry.
fn threshold_reason(tone: bool, s: State, acf0: Pair, stat: bool) -> Way
    ensures { result ≡ meaning.threshold_reason tone s acf0 stat }
{
    way_taken(
        acf0,
        ptch(s.oldlagcount, s.veryoldlagcount),
        stat,
        tone,
        s.adaptcount,
    )
}

// The latest frame that completed a burst, after frame `number` has left `burstcount`.
fn latest_after(burstcount: i16, number: u32, latest: u32) -> u32
    ensures { result ≡ meaning.latest_after burstcount number latest }
{
    if burstcount >= BURSTCONST {
        return number;
    }
    latest
}

// The flag that 6.6 reads.
fn tone_read(direction: Direction<'_>, s: State) -> bool
    ensures { result ≡ tone_read (direction_in direction.entry) s }
{
    match direction {
        Direction::Uplink => false,
        Direction::Downlink(_) => s.tone,
    }
}

// An accepted frame, explained; `tone` is the flag that 6.6 read.
fn because(tone: bool, e: Explainer, answer: Accepted) -> Explained
    requires { e.number < meaning.limit }
    ensures { explained_in (Ok result) ≡ meaning.accepted_of tone e (accepted_in answer) }
{
    let number = e.number + 1;
    let latest = latest_after(answer.next.burstcount, number, e.latest);
    let reasons = Reasons {
        number,
        flag: flag_reason(answer.vvad, answer.vad, latest),
        threshold: threshold_reason(tone, e.state, answer.acf0, answer.stat),
    };
    let next = Explainer {
        state: answer.next,
        number,
        latest,
    };
    Explained {
        answer,
        reasons,
        next,
    }
}

// Explains one frame in either direction, lent as to the detector; one that would be accepted, and for which there is no number, is refused.
pub fn explain(
    direction: Direction<'_>,
    e: Explainer,
    acf: &[i32],
    lags: &[u16],
    scalvad: i16,
) -> Result<Explained, Denied>
    ensures value { explained_in result ≡ meaning.explained_for (direction_in direction.entry) e acf.now lags.now scalvad }
    ensures why_value { (why_case (explained_in result).why).number ≡ (explained_in result).answer.refusal }
{
    match detector::frame(direction, acf, lags, scalvad, e.state) {
        Err(r) => Err(Denied {
            refusal: r.refusal,
            explainer: e,
        }),
        Ok(_) if e.number >= LIMIT => Err(Denied {
            refusal: Refusal::Limit,
            explainer: e,
        }),
        Ok(a) => Ok(because(tone_read(direction, e.state), e, a)),
    }
}
