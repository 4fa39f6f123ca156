// The detector's interface for C and Rust: a state and an answer as lent runs of numbers of 32 bits, frames of both directions, and trace lines read and
// written.
#![tactic(auto)]

ghost use Rattle.std.specs.Prelude.{◌≡◌, true, ◌++◌, ◌+◌, ◌<◌, ◌≤◌, nat_abs, pos, length, take, drop};
ghost use Rattle.std.specs.Int.{w16};
ghost use Rattle.std.proofs.Common.{SFits};
ghost use Rattle.numbers.specs.Sum.{at};
ghost use Rattle.refusals.specs.Refusal.{number_in};
ghost use Rattle.frames.specs.Frame.{up, down, samples_ok};
ghost use Rattle.frames.specs.Direction.{direction_in};
ghost use Rattle.state.specs.Valid.{Between};
ghost use Rattle.lindenflax.specs.Run as library;
ghost use Rattle.lindenflax.specs.Lines as trace;

use detector::frame;
use frames::{Direction, LAGS, NUMBERS};
use lines::{read, write};
use pairs::Pair;
use refusals::{Refusal, number_in};
use rows::{all_within, within};
use state::State;

// The numbers of a state, and of an answer, as C has them. Which stands where is in specs/Run.antt.
const RUN: usize = 85;

const ANSWER: usize = 6;

// ---- a state from a run

// Whether each of the numbers from `first` on is one of 16 bits.
fn shorts(run: &[i32; RUN], first: usize, count: usize) -> bool
    requires { first + count ≤ library.RUN }
    ensures { result ≡ library.shorts_of (library.part first count run.now) }
{
    all_within(-32768, 32767, &run[first..first + count])
}

// Whether each number fits its field. That it does is asked for by two functions alone, so that a run needs no type of its own.
fn narrow(run: &[i32; RUN]) -> bool
    ensures { result ≡ library.narrow_of run.now }
{
    shorts(run, 0, 10)
        & shorts(run, 76, 7)
        & within(0, 27, run[37])
        & within(0, 27, run[74])
        & within(0, 65535, run[83])
        & within(0, 1, run[84])
}

// The N numbers of a run from `first` on.
fn part<const N: usize>(run: &[i32; RUN], first: usize) -> [i32; N]
    requires { first + N ≤ library.RUN }
    ensures { result ≡ library.part first N run.now }
{
    let mut out = [0i32; N];
    out.copy_from_slice(&run[first..first + N]);
    out
}

// A number that is one of 16 bits. What is cast here, and for the pointers and the last lag, is known to fit: `try_from` would bring an error that can't come.
fn short(x: i32) -> i16
    requires { SFits w16 x }
    ensures { result ≡ x }
{
    x as i16
}

// The filter in a run.
fn filter(run: &[i32; RUN]) -> [i16; 9]
    requires { library.narrow_of run.now ≡ true }
    ensures { result ≡ library.part 0 9 run.now }
{
    part(run, 0).map(short)
}

// The number at i, which is one of 16 bits.
fn short_at(run: &[i32; RUN], i: usize) -> i16
    requires { (i < library.RUN) × SFits w16 (at run.now i) }
    ensures { result ≡ at run.now i }
{
    short(run[i])
}

// The pointer at i.
fn pointer_at(run: &[i32; RUN], i: usize) -> usize
    requires { (i < library.RUN) × Between (pos 0) (pos 27) (at run.now i) }
    ensures { result ≡ nat_abs (at run.now i) }
{
    run[i] as usize
}

// The last lag.
fn last_lag(run: &[i32; RUN]) -> u16
    requires { Between (pos 0) (pos 65535) (at run.now 83) }
    ensures { result ≡ nat_abs (at run.now 83) }
{
    run[83] as u16
}

// Whether a number is that of a flag that is set.
fn flag(x: i32) -> bool
    ensures { result ≡ library.flag_of x }
{
    x == 1
}

// The state in a run whose numbers fit.
#[tactic(auto, using(crate::proofs::Parted::filter_fits, crate::proofs::Parted::places_fit))]
fn unpacked(run: [i32; RUN]) -> State
    requires { library.narrow_of run ≡ true }
    ensures { result ≡ library.state_of run }
{
    State {
        rvad: filter(&run),
        normrvad: short_at(&run, 9),
        sacf: part(&run, 10),
        ptsacf: pointer_at(&run, 37),
        sav0: part(&run, 38),
        ptsav0: pointer_at(&run, 74),
        lastdm: run[75],
        thvad: Pair {
            e: short_at(&run, 76),
            m: short_at(&run, 77),
        },
        adaptcount: short_at(&run, 78),
        burstcount: short_at(&run, 79),
        hangcount: short_at(&run, 80),
        oldlagcount: short_at(&run, 81),
        veryoldlagcount: short_at(&run, 82),
        oldlag: last_lag(&run),
        tone: flag(run[84]),
    }
}

// ---- a run from a state

// A run with N numbers in place of those from `first` on.
fn with_part<const N: usize>(mut run: [i32; RUN], first: usize, numbers: &[i32; N]) -> [i32; RUN]
    requires { first + N ≤ library.RUN }
    ensures { result ≡ take first run ++ numbers.now ++ drop (first + N) run }
{
    run[first..first + N].copy_from_slice(numbers);
    run
}

// 1 for a flag that is set and 0 for one that is not.
fn bit(flag: bool) -> i32
    ensures { result ≡ library.bit_of flag }
{
    i32::from(flag)
}

// A state as a run. The pointers are cast, since they are known to fit.
fn packed(s: State) -> [i32; RUN]
    requires { (s.ptsacf ≤ 27) × (s.ptsav0 ≤ 27) }
    ensures { result ≡ library.run_of s }
{
    let run = with_part([0i32; RUN], 0, &s.rvad.map(i32::from));
    let run = with_part(run, 9, &[i32::from(s.normrvad)]);
    let run = with_part(run, 10, &s.sacf);
    let run = with_part(run, 37, &[s.ptsacf as i32]);
    let run = with_part(run, 38, &s.sav0);
    with_part(
        run,
        74,
        &[
            s.ptsav0 as i32,
            s.lastdm,
            i32::from(s.thvad.e),
            i32::from(s.thvad.m),
            i32::from(s.adaptcount),
            i32::from(s.burstcount),
            i32::from(s.hangcount),
            i32::from(s.oldlagcount),
            i32::from(s.veryoldlagcount),
            i32::from(s.oldlag),
            bit(s.tone),
        ],
    )
}

// ---- what is lent

// The 85 numbers of a lent run, by value.
fn taken(state: &[i32]) -> [i32; RUN]
    requires { length state.now ≡ library.RUN }
    ensures { result ≡ state.now }
{
    let mut out = [0i32; RUN];
    out.copy_from_slice(state);
    out
}

// Stores a run into a lent one.
fn put(state: &mut [i32], run: [i32; RUN])
    requires { length state.old ≡ library.RUN }
    ensures { state.new ≡ run }
{
    state.copy_from_slice(&run);
}

// Stores an answer into a lent run.
fn put_answer(answer: &mut [i32], vad: bool, vvad: bool, acf0: Pair, pvad: Pair)
    requires { length answer.old ≡ library.ANSWER }
    ensures { answer.new ≡ library.answer_run vad vvad acf0 pvad }
{
    answer.copy_from_slice(&[
        bit(vad),
        bit(vvad),
        i32::from(acf0.e),
        i32::from(acf0.m),
        i32::from(pvad.e),
        i32::from(pvad.m),
    ]);
}

// Whether what is lent to a step can be read: the lengths, the samples of a downlink frame, and the numbers of the state, in this order.
fn lent(
    direction: Direction<'_>,
    acf: &[i32],
    lags: &[u16],
    state: &[i32],
    answer: &[i32],
) -> Result<(), Refusal>
    ensures { number_in result ≡ library.lent_number (samples_ok (direction_in direction.entry)) acf.now lags.now state.now answer.now }
{
    if acf.len() != NUMBERS || lags.len() != LAGS || state.len() != RUN || answer.len() != ANSWER {
        return Err(Refusal::Length);
    }
    if !direction.samples_ok() {
        return Err(Refusal::Samples);
    }
    if !narrow(&taken(state)) {
        return Err(Refusal::State);
    }
    Ok(())
}

// One frame: an accepted one's next state and its answer go into the lent runs.
fn stepped(
    direction: Direction<'_>,
    acf: &[i32],
    lags: &[u16],
    scale: i16,
    state: &mut [i32],
    answer: &mut [i32],
) -> Result<(), Refusal>
    ensures value { number_in result ≡ library.step_number (direction_in direction.entry) acf.now lags.now scale state.old answer.old }
    ensures state_after { state.new ≡ library.step_run (direction_in direction.entry) acf.now lags.now scale state.old answer.old }
    ensures answer_after { answer.new ≡ library.step_answer (direction_in direction.entry) acf.now lags.now scale state.old answer.old }
{
    lent(direction, acf, lags, state, answer)?;
    let a = frame(direction, acf, lags, scale, unpacked(taken(state)))?;
    put(state, packed(a.next));
    put_answer(answer, a.vad, a.vvad, a.acf0, a.pvad);
    Ok(())
}

// ---- the interface: C has no `Result`, so each function answers with a number, 0 where nothing is refused

// The state after a reset, into a lent run of 85 numbers: 0, or 1 for a run of another length.
#[unsafe(no_mangle)]
pub extern "C" fn lindenflax_reset(state: &mut [i32]) -> u8
    ensures value { result ≡ library.reset_number state.old }
    ensures state_after { state.new ≡ library.reset_run state.old }
{
    if state.len() != RUN {
        return 1;
    }
    put(state, packed(State::reset()));
    0
}

// One frame on the uplink: nine autocorrelations, four lags, the scale, the state, which becomes the next, and where the answer goes.
#[unsafe(no_mangle)]
pub extern "C" fn lindenflax_step(
    acf: &[i32],
    lags: &[u16],
    scale: i16,
    state: &mut [i32],
    answer: &mut [i32],
) -> u8
    ensures value { result ≡ library.step_number up acf.now lags.now scale state.old answer.old }
    ensures state_after { state.new ≡ library.step_run up acf.now lags.now scale state.old answer.old }
    ensures answer_after { answer.new ≡ library.step_answer up acf.now lags.now scale state.old answer.old }
{
    number_in(stepped(Direction::Uplink, acf, lags, scale, state, answer))
}

// One frame on the downlink: the same, and its 160 samples.
#[unsafe(no_mangle)]
pub extern "C" fn lindenflax_downlink(
    acf: &[i32],
    lags: &[u16],
    scale: i16,
    samples: &[i16],
    state: &mut [i32],
    answer: &mut [i32],
) -> u8
    ensures value { result ≡ library.step_number (down samples.now) acf.now lags.now scale state.old answer.old }
    ensures state_after { state.new ≡ library.step_run (down samples.now) acf.now lags.now scale state.old answer.old }
    ensures answer_after { answer.new ≡ library.step_answer (down samples.now) acf.now lags.now scale state.old answer.old }
{
    number_in(stepped(
        Direction::Downlink(samples),
        acf,
        lags,
        scale,
        state,
        answer,
    ))
}

// A trace line read: nine autocorrelations, four lags and a run of one for the scale, or the first of 1, 6, 2, 3, 4 that refuses it.
#[unsafe(no_mangle)]
pub extern "C" fn lindenflax_read_line(
    line: &[u8],
    acf: &mut [i32],
    lags: &mut [u16],
    scale: &mut [i16],
) -> u8
    ensures value { result ≡ trace.read_number line.now acf.old lags.old scale.old }
    ensures acf_after { acf.new ≡ trace.read_acf line.now acf.old lags.old scale.old }
    ensures lags_after { lags.new ≡ trace.read_lags line.now acf.old lags.old scale.old }
    ensures scale_after { scale.new ≡ trace.read_scale line.now acf.old lags.old scale.old }
{
    if scale.len() != 1 {
        return 1;
    }
    match read(line, acf, lags) {
        Ok(read) => {
            scale[0] = read;
            0
        }
        Err(refusal) => refusal.number(),
    }
}

// A frame written into a lent line of 82 bytes, or the first of 1, 2, 3, 4 that refuses it.
#[unsafe(no_mangle)]
pub extern "C" fn lindenflax_write_line(
    acf: &[i32],
    lags: &[u16],
    scale: i16,
    line: &mut [u8],
) -> u8
    ensures value { result ≡ trace.write_number acf.now lags.now scale line.old }
    ensures line_after { line.new ≡ trace.write_line acf.now lags.now scale line.old }
{
    number_in(write(acf, lags, scale, line))
}
