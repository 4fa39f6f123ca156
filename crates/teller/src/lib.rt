// Tells, line by line, why each frame of a trace was sent or not: the lines of a trace that comes in pieces, each answered in words.
#![tactic(auto)]

ghost use Rattle.std.specs.Prelude.{◌≡◌, ◌+◌, ◌≤◌, length, drop};
ghost use Rattle.pieces.specs.Put.{put_of};
ghost use Rattle.why.specs.Why.{why_in};
ghost use Rattle.why.specs.Result.{explained_in};
ghost use Rattle.teller.specs.Words as words;
ghost use Rattle.teller.specs.Decimal.{decimal_of};
ghost use Rattle.teller.specs.Told.{told_in};
ghost use Rattle.teller.specs.Run as run;
ghost use Rattle.teller.specs.Laws as law;
ghost use Rattle.teller.specs.Fed as piece;

use frames::Direction;
use operations::magnitude;
use player::{Hearer, Player};
use refusals::Refusal;
use threshold::Way;
use why::{Denied, Explained, Explainer, Flag, Reasons};

// The most bytes that a line is told in: 4294967295 hangover 4294967295 waiting 8, and a line feed.
const MOST: usize = 41;

// A run, and whether it is one on the downlink: that is the run's kind, and both kinds have an explainer, so the flag has no value of its own.
#[derive(Clone, Copy)]
pub struct Hearing {
    pub downlink: bool,
    pub explainer: Explainer,
}

// A trace so far.
pub type Teller = Player<Hearing>;

// Why a line's frame was sent or not, and the run after it.
#[derive(Clone, Copy)]
pub struct Told {
    pub why: Result<Reasons, Refusal>,
    pub next: Hearing,
}

// A number in decimal: its digits are those of `text` from `from` on, in fixed room, since there is no heap.
#[derive(Clone, Copy)]
struct Written {
    text: [u8; 10],
    from: usize,
}

// ---- one line

// What the explainer's result tells, and the run after it.
fn sent(downlink: bool, r: Result<Explained, Denied>) -> Told
    ensures { told_in result ≡ run.sent_of downlink (explained_in r) }
{
    match r {
        Ok(x) => Told {
            why: Ok(x.reasons),
            next: Hearing {
                downlink,
                explainer: x.next,
            },
        },
        Err(d) => Told {
            why: Err(d.refusal),
            next: Hearing {
                downlink,
                explainer: d.explainer,
            },
        },
    }
}

impl Hearing {
    // Explains the frame of a line, with its line feed; `block` are the bytes of its samples. For speed, the run changes where it lies: for a line that is
    // refused as it is read the compiler need not copy it.
    fn told(&mut self, block: &[u8], line: &[u8]) -> Result<Reasons, Refusal>
        ensures value { why_in result ≡ (run.told_of self.old block.now line.now).why }
        ensures run_after { self.new ≡ run.next_of self.old block.now line.now }
    {
        match lines::decode(line) {
            Ok(frame) => {
                let heard = samples::read(block);
                let sof = heard.sof;
                let direction = if self.downlink {
                    Direction::Downlink(&sof[..heard.count])
                } else {
                    Direction::Uplink
                };
                let told = sent(
                    self.downlink,
                    why::explain(
                        direction,
                        self.explainer,
                        &frame.acf,
                        &frame.lags,
                        frame.scale,
                    ),
                );
                *self = told.next;
                told.why
            }
            Err(refusal) => Err(refusal),
        }
    }
}

// Explains the frame of a line, with its line feed; `block` are the bytes of its samples. What it is told, and the run after it.
pub fn tell(h: Hearing, block: &[u8], line: &[u8]) -> Told
    ensures { told_in result ≡ run.told_of h block.now line.now }
{
    let mut next = h;
    let why = next.told(block, line);
    Told { why, next }
}

// ---- its text

// A number's digits, made from the last on: the number ends the loop, and each digit is below ten, so the casts lose nothing.
fn digits(n: u32) -> Written
    ensures { (result.from ≤ 9) × (drop result.from result.text ≡ decimal_of n) }
{
    let mut text = [48u8; 10];
    let mut from: usize = 9;
    let mut rest = n;
    while rest >= 10 {
        text[from] = 48 + (rest % 10) as u8;
        from -= 1;
        rest /= 10;
    }
    text[from] = 48 + rest as u8;
    Written { text, from }
}

// Lent output, and the place of the next text.
#[derive(Drop)]
struct Page<'a> {
    out: &'a mut [u8],
    at: usize,
}

impl Page<'_> {
    // Puts a text.
    fn word(&mut self, text: &[u8])
        requires { self.old.at + length text.now ≤ length self.old.out.now }
        ensures same { self.new.out.ghost_name ≡ self.old.out.ghost_name }
        ensures value { self.new.at ≡ self.old.at + length text.now }
        ensures out_after { self.new.out.now ≡ put_of self.old.out.now self.old.at text.now }
    {
        pieces::put(self.out, self.at, text);
        self.at += text.len();
    }

    // Puts a number.
    fn number(&mut self, n: u32)
        requires { self.old.at + length (decimal_of n) ≤ length self.old.out.now }
        ensures same { self.new.out.ghost_name ≡ self.old.out.ghost_name }
        ensures value { self.new.at ≡ self.old.at + length (decimal_of n) }
        ensures out_after { self.new.out.now ≡ put_of self.old.out.now self.old.at (decimal_of n) }
    {
        let d = digits(n);
        self.word(&d.text[d.from..])
    }

    // Puts the reason of a flag.
    fn flag(&mut self, f: Flag)
        requires { self.old.at + length (words.flag_text f) ≤ length self.old.out.now }
        ensures same { self.new.out.ghost_name ≡ self.old.out.ghost_name }
        ensures value { self.new.at ≡ self.old.at + length (words.flag_text f) }
        ensures out_after { self.new.out.now ≡ put_of self.old.out.now self.old.at (words.flag_text f) }
    {
        match f {
            Flag::Energy => self.word(b"energy"),
            Flag::Hangover(n) => {
                self.word(b"hangover ");
                self.number(n)
            }
            Flag::Quiet => self.word(b"quiet"),
        }
    }

    // Puts the reason of a threshold.
    fn way(&mut self, w: Way)
        requires { self.old.at + length (words.way_text w) ≤ length self.old.out.now }
        ensures same { self.new.out.ghost_name ≡ self.old.out.ghost_name }
        ensures value { self.new.at ≡ self.old.at + length (words.way_text w) }
        ensures out_after { self.new.out.now ≡ put_of self.old.out.now self.old.at (words.way_text w) }
    {
        match w {
            Way::Floor => self.word(b"floor"),
            Way::Periodic => self.word(b"periodic"),
            Way::Unsteady => self.word(b"unsteady"),
            Way::Tone => self.word(b"tone"),
            Way::Waiting(k) => {
                self.word(b"waiting ");
                self.number(magnitude(i32::from(k)))
            }
            Way::Adapted => self.word(b"adapted"),
        }
    }

    // Puts what a line is told.
    fn text(&mut self, why: Result<Reasons, Refusal>)
        requires { self.old.at + length (words.text_of (why_in why)) ≤ length self.old.out.now }
        ensures same { self.new.out.ghost_name ≡ self.old.out.ghost_name }
        ensures value { self.new.at ≡ self.old.at + length (words.text_of (why_in why)) }
        ensures out_after { self.new.out.now ≡ put_of self.old.out.now self.old.at (words.text_of (why_in why)) }
    {
        match why {
            Err(refusal) => {
                self.word(b"refused ");
                self.number(u32::from(refusal.number()));
                self.word(b"\n")
            }
            Ok(r) => {
                self.number(r.number);
                self.word(b" ");
                self.flag(r.flag);
                self.word(b" ");
                self.way(r.threshold);
                self.word(b"\n")
            }
        }
    }
}

impl Hearer for Hearing {
    const MOST: usize = MOST;

    ghost MOST = { words.most };

    ghost next = { run.next_of };

    ghost text = { run.line_text };

    fn hear(&mut self, block: &[u8], line: &[u8], out: &mut [u8], at: usize) -> usize {
        let why = self.told(block, line);
        let mut page = Page { out, at };
        page.text(why);
        page.at
    }

    ghost most = { law.line_most };

    ghost short_next = { law.short_next };

    ghost short_text = { law.short_text };
}

// ---- a trace in pieces

// A trace before its first piece.
pub fn start(downlink: bool) -> Teller
    ensures { result ≡ piece.start_of downlink }
{
    Player::new(Hearing {
        downlink,
        explainer: why::start(),
    })
}

// The end of a trace, where no output is lent: what is carried has no line feed, and is refused with 6. Its text, or none where nothing is carried.
pub fn finish(t: Teller) -> Option<[u8; 10]>
    ensures { result ≡ piece.end_of t }
{
    if pieces::held(t.finder) == 0 {
        return None;
    }
    Some(*b"refused 6\n")
}
