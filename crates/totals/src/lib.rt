// A night's totals: the answers to the lines of a trace counted, and the line of the report.
#![tactic(auto)]

ghost use Rattle.std.specs.Prelude.{◌≡◌};
ghost use Rattle.totals.specs.Report as line;
ghost use Rattle.totals.specs.Fed as piece;
ghost use Rattle.totals.specs.Hears as hears;
ghost use Rattle.totals.specs.Laws as law;

use counts::{Counted, Totals, count};
use player::{Hearer, Player};
use state::State;

// The bytes of a report: five numbers of eight digits, and a line feed.
pub const REPORT: usize = 41;

// What lines leave: the totals, and the detector.
#[derive(Clone, Copy)]
pub struct Tally {
    pub counted: Counted,
    pub state: State,
}

// A night between two pieces of its trace.
pub type Night = Player<Tally>;

// ---- a night in pieces

// A line is answered, and its answer counted and not written.
impl Hearer for Tally {
    const MOST: usize = 0;

    ghost MOST = { 0 };

    ghost next = { hears.next_of };

    ghost text = { hears.text_of };

    fn hear(&mut self, _block: &[u8], line: &[u8], _out: &mut [u8], at: usize) -> usize {
        // Kept for the one line that may not be counted: the detector has not heard it.
        let before = self.state;
        let reply = runner::answered(&mut self.state, line);
        self.counted = count(self.counted, reply);
        if self.counted.refusal != 0 {
            self.state = before;
            return at;
        }
        at
    }

    ghost most = { law.text_most };

    ghost short_next = { law.short_next };

    ghost short_text = { law.short_text };
}

// A night before the first piece of its trace. It stands free, as `feed` and `finish` do: `Night` names a type of `player`, and a crate gives methods to its own types alone.
pub fn start() -> Night
    ensures { result ≡ piece.start_of }
{
    Player::new(Tally {
        counted: Counted {
            refusal: 0,
            totals: Totals {
                accepted: 0,
                speech: 0,
                held: 0,
                quiet: 0,
                refused: 0,
            },
        },
        state: State::reset(),
    })
}

// Feeds a piece of the trace. The player refuses where an answer has no room, and these need none.
pub fn feed(n: Night, input: &[u8]) -> Night
    ensures { result ≡ piece.fed_of n input.now }
{
    let mut night = n;
    let _none = night.feed(input, &[], &mut []).unwrap();
    night
}

// The end of the trace: what is carried is a line too.
pub fn finish(n: Night) -> Counted
    ensures { result ≡ piece.finish_of n }
{
    let mut night = n;
    let _none = night.finish(&mut []).unwrap();
    night.hearer.counted
}

// ---- the report

// The line of the report.
pub fn report(t: Totals) -> [u8; REPORT]
    ensures { result ≡ line.report_of t }
{
    let numbers = [t.accepted, t.speech, t.held, t.quiet, t.refused];
    let mut out = [b'\n'; REPORT];
    for (i, n) in numbers.iter().enumerate() {
        pieces::put(&mut out, 8 * i, &lines::eight(*n));
    }
    out
}
