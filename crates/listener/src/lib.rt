// Runs a trace with its samples on the downlink, piece by piece: what is unfinished is carried by value.
#![tactic(auto)]

ghost use Rattle.std.specs.Prelude.{◌≡◌, ◌<◌, false};
ghost use Rattle.refusals.specs.Refusal.{number_of};
ghost use Rattle.detector.specs.Result.{answer_of};
ghost use Rattle.listener.specs.Said as one;
ghost use Rattle.listener.specs.Run as run;
ghost use Rattle.listener.specs.Hears as line;
ghost use Rattle.listener.specs.Fed as piece;
ghost use Rattle.listener.specs.Laws as law;

use detector::{Accepted, Refused};
use player::{Hearer, Player};
use refusals::Refusal;
use state::State;

// The bytes of an answer: its four characters and a line feed.
const ANSWER: usize = 5;

// The detector as it hears the lines of a trace on the downlink.
#[derive(Clone, Copy)]
pub struct Downlink {
    pub state: State,
}

// A run between two pieces.
pub type Listener = Player<Downlink>;

// The answer to a line: its refusal number, vad, vvad, and the tone flag that is kept for the next frame. The number itself stands here, 0 for none, since
// the definitions of an answer and of its text, in specs/Said.antt, are of that.
#[derive(Clone, Copy)]
pub struct Reply {
    pub refusal: u8,
    pub vad: bool,
    pub vvad: bool,
    pub tone: bool,
}

// What a line is answered, and the state for the next one.
#[derive(Clone, Copy)]
pub struct Said {
    pub reply: Reply,
    pub next: State,
}

// ---- one line

// The answer to a line that is refused, beside the flag that is kept.
fn only(refusal: Refusal, tone: bool) -> Reply
    ensures { result ≡ record { refusal = number_of refusal; vad = false; vvad = false; tone = tone } }
{
    Reply {
        refusal: refusal.number(),
        vad: false,
        vvad: false,
        tone,
    }
}

// A line that is refused keeps the state, and its flag.
fn denied(refusal: Refusal, s: State) -> Said
    ensures { result ≡ one.denied_of (number_of refusal) s }
{
    Said {
        reply: only(refusal, s.tone),
        next: s,
    }
}

// A line whose frame went to the detector.
fn stepped(r: Result<Accepted, Refused>) -> Said
    ensures { result ≡ one.stepped_of (answer_of r) }
{
    match r {
        Ok(a) => Said {
            reply: Reply {
                refusal: 0,
                vad: a.vad,
                vvad: a.vvad,
                tone: a.next.tone,
            },
            next: a.next,
        },
        Err(r) => denied(r.refusal, r.state),
    }
}

impl Downlink {
    // Answers a line, with its line feed, and the bytes of its frame's samples. For speed, the state changes where it lies: for a line that is refused as it
    // is read the compiler need not copy it.
    fn reply(&mut self, block: &[u8], line: &[u8]) -> Reply
        ensures value { result ≡ run.reply_of self.old.state block.now line.now }
        ensures state_after { self.new.state ≡ run.next_of self.old.state block.now line.now }
    {
        match lines::decode(line) {
            Ok(frame) => {
                let heard = samples::read(block);
                let said = stepped(detector::downlink(
                    &frame.acf,
                    &frame.lags,
                    frame.scale,
                    &heard.sof[..heard.count],
                    self.state,
                ));
                self.state = said.next;
                said.reply
            }
            Err(refusal) => only(refusal, self.state.tone),
        }
    }
}

// What a line, with its line feed, and the bytes of its frame's samples are answered, and the state for the next one.
pub fn answer(s: State, block: &[u8], line: &[u8]) -> Said
    ensures { result ≡ one.said_of s block.now line.now }
{
    let mut heard = Downlink { state: s };
    let reply = heard.reply(block, line);
    Said {
        reply,
        next: heard.state,
    }
}

// A flag as a character. `runner` has the same line: neither crate stands on the other, and one line needs no crate of its own.
fn flag(b: bool) -> u8
    ensures { result ≡ one.flag_of b }
{
    b'0' + u8::from(b)
}

// The five bytes of an answer.
fn text(r: Reply) -> [u8; ANSWER]
    requires { r.refusal < 10 }
    ensures { result ≡ one.text_of r }
{
    let a = flag(r.vad);
    let b = flag(r.vvad);
    let c = flag(r.tone);
    [b'0' + r.refusal, a, b, c, b'\n']
}

impl Hearer for Downlink {
    const MOST: usize = ANSWER;

    ghost MOST = { one.answer_bytes };

    ghost next = { line.next_of };

    ghost text = { line.text_of };

    fn hear(&mut self, block: &[u8], line: &[u8], out: &mut [u8], at: usize) -> usize {
        let reply = self.reply(block, line);
        pieces::put(out, at, &text(reply));
        at + ANSWER
    }

    ghost most = { law.text_most };

    ghost short_next = { law.short_next };

    ghost short_text = { law.short_text };
}

// ---- a run in pieces

// A run before its first piece. It stands free: `Listener` names a type of `player`, and a crate gives methods to its own types alone.
pub fn start() -> Listener
    ensures { result ≡ piece.start_of }
{
    Player::new(Downlink {
        state: State::reset(),
    })
}

// The end of a trace, where no output is lent: what is carried is a line too, and malformed. Its text, or none where nothing is carried. It stands free,
// as `start` does.
pub fn finish(r: Listener) -> Option<[u8; ANSWER]>
    ensures { result ≡ piece.end_of r }
{
    if pieces::held(r.finder) == 0 {
        return None;
    }
    let malformed = denied(Refusal::Malformed, r.hearer.state);
    Some(text(malformed.reply))
}
