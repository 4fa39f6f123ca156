// The answer to a line, and the counts of answers.
#![tactic(auto)]

ghost use Rattle.std.specs.Prelude.{◌≡◌, false, [], ◌∷◌};
ghost use Rattle.counts.specs.Counts.{totals_of, full_of, plus_of, count_of};

// The most lines that are counted: eight digits write no more.
const LIMIT: u64 = 4294967295;

// The answer to a line: its refusal number, vad and vvad. The number is any: `count` here, and `text` in `runner`, promise something for every one.
#[derive(Clone, Copy)]
pub struct Reply {
    pub refusal: u8,
    pub vad: bool,
    pub vvad: bool,
}

// The five numbers of a night: accepted frames, those with vvad, those kept only by the hangover, quiet ones, and refused lines.
#[derive(Clone, Copy)]
pub struct Totals {
    pub accepted: u32,
    pub speech: u32,
    pub held: u32,
    pub quiet: u32,
    pub refused: u32,
}

// Totals, and 0, or 7 where there was a line more than can be counted. The number is any: `count` keeps every other too.
#[derive(Clone, Copy)]
pub struct Counted {
    pub refusal: u8,
    pub totals: Totals,
}

// Whether no line more is counted.
fn full(t: Totals) -> bool
    ensures { result ≡ full_of t }
{
    let lines = u64::from(t.accepted) + u64::from(t.refused);
    let frames = u64::from(t.speech) + u64::from(t.held) + u64::from(t.quiet);
    (lines >= LIMIT) | (frames >= LIMIT)
}

// The totals with an answer more.
fn more(t: Totals, r: Reply) -> Totals
    requires { full_of t ≡ false }
    ensures { result ≡ plus_of t (totals_of (r ∷ [])) }
{
    let mut n = t;
    if r.refusal != 0 {
        n.refused += 1;
        return n;
    }
    n.accepted += 1;
    if r.vvad {
        n.speech += 1;
    } else if r.vad {
        n.held += 1;
    } else {
        n.quiet += 1;
    }
    n
}

// Counts an answer, or gives 7 and the totals as they are; what has been refused stays.
pub fn count(c: Counted, r: Reply) -> Counted
    ensures { result ≡ count_of c r }
{
    if c.refusal != 0 {
        return c;
    }
    let t = c.totals;
    if full(t) {
        return Counted {
            refusal: 7,
            totals: t,
        };
    }
    let totals = more(t, r);
    Counted { refusal: 0, totals }
}
