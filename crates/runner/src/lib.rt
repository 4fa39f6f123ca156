// Runs a trace piece by piece: what is unfinished is carried by value.
#![tactic(auto)]

ghost use Rattle.std.specs.Prelude.{◌≡◌};
ghost use Rattle.refusals.specs.Refusal.{number_of};
ghost use Rattle.detector.specs.Result.{answer_of};
ghost use Rattle.runner.specs.Said as one;
ghost use Rattle.runner.specs.Run as run;
ghost use Rattle.runner.specs.Hears as line;
ghost use Rattle.runner.specs.Fed as piece;
ghost use Rattle.runner.specs.Laws as law;

use counts::Reply;
use detector::{Accepted, Refused};
use player::{Hearer, Player};
use refusals::Refusal;
use state::State;

// The bytes of an answer: its three characters and a line feed.
const ANSWER: usize = 4;

// The detector as it hears the lines of a trace.
#[derive(Clone, Copy)]
pub struct Uplink {
    pub state: State,
}

// A run between two pieces.
pub type Runner = Player<Uplink>;

// What a line is answered, and the state for the next one.
#[derive(Clone, Copy)]
pub struct Said {
    pub reply: Reply,
    pub next: State,
}

// ---- one line

// A line that is refused.
fn denied(refusal: Refusal, s: State) -> Said
    ensures { result ≡ one.denied_of (number_of refusal) s }
{
    Said {
        reply: Reply {
            refusal: refusal.number(),
            vad: false,
            vvad: false,
        },
        next: s,
    }
}

// A line whose frame went to the detector.
pub fn stepped(r: Result<Accepted, Refused>) -> Said
    ensures { result ≡ one.stepped_of (answer_of r) }
{
    match r {
        Ok(a) => Said {
            reply: Reply {
                refusal: 0,
                vad: a.vad,
                vvad: a.vvad,
            },
            next: a.next,
        },
        Err(r) => denied(r.refusal, r.state),
    }
}

// Answers a line, with its line feed, and leaves the state for the next one. For speed, the state changes where it lies: for a line that is refused as it is
// read the compiler need not copy it.
pub fn answered(state: &mut State, line: &[u8]) -> Reply
    ensures value { result ≡ run.reply_of state.old line.now }
    ensures state_after { state.new ≡ run.next_of state.old line.now }
{
    match lines::decode(line) {
        Ok(frame) => {
            let said = stepped(detector::step(&frame.acf, &frame.lags, frame.scale, *state));
            *state = said.next;
            said.reply
        }
        Err(refusal) => denied(refusal, *state).reply,
    }
}

// What a line, with its line feed, is answered, and the state for the next one.
pub fn answer(s: State, line: &[u8]) -> Said
    ensures { result ≡ one.said_of s line.now }
{
    let mut next = s;
    let reply = answered(&mut next, line);
    Said { reply, next }
}

// A flag as a character. `listener` has the same line: neither crate stands on the other, and one line needs no crate of its own.
fn flag(b: bool) -> u8
    ensures { result ≡ one.flag_of b }
{
    b'0' + u8::from(b)
}

// A number as a character.
fn numeral(n: u8) -> u8
    ensures { result ≡ one.numeral_of n }
{
    if n < 10 { b'0' + n } else { b'?' }
}

// The four bytes of an answer.
pub fn text(r: Reply) -> [u8; ANSWER]
    ensures { result ≡ one.text_of r }
{
    let n = numeral(r.refusal);
    let a = flag(r.vad);
    let b = flag(r.vvad);
    [n, a, b, b'\n']
}

impl Hearer for Uplink {
    const MOST: usize = ANSWER;

    ghost MOST = { one.answer_bytes };

    ghost next = { line.next_of };

    ghost text = { line.text_of };

    fn hear(&mut self, _block: &[u8], line: &[u8], out: &mut [u8], at: usize) -> usize {
        let reply = answered(&mut self.state, line);
        pieces::put(out, at, &text(reply));
        at + ANSWER
    }

    ghost most = { law.text_most };

    ghost short_next = { law.short_next };

    ghost short_text = { law.short_text };
}

// ---- a run in pieces

// A run before its first piece. It stands free: `Runner` names a type of `player`, and a crate gives methods to its own types alone.
pub fn start() -> Runner
    ensures { result ≡ piece.start_of }
{
    Player::new(Uplink {
        state: State::reset(),
    })
}

// The end of the input: what is carried is a line too, and malformed, since it lacks its line feed.
pub fn finish(r: Runner) -> Option<[u8; ANSWER]>
    ensures { result ≡ piece.end_of r }
{
    if pieces::held(r.finder) == 0 {
        None
    } else {
        Some(text(denied(Refusal::Malformed, r.hearer.state).reply))
    }
}
