// Plays a trace to a hearer, piece by piece, with the samples beside its lines: what is unfinished is carried by value.
#![tactic(auto)]

ghost use Rattle.std.specs.Prelude.{◌≡◌, ℕ, ◌+◌, ◌*◌, ◌≤◌, List, length, leb};
ghost use Rattle.pieces.specs.Lines.{lines_of, short};
ghost use Rattle.pieces.specs.Cut.{held_of};
ghost use Rattle.pieces.specs.Put.{put_of};
ghost use Rattle.player.specs.Played as meaning;

use pieces::Finder;
use refusals::Refusal;

// What hears the lines of a trace, one after the other, and writes what each is answered.
pub trait Hearer: Copy {
    // The most bytes that a line is answered in.
    const MOST: usize;

    ghost MOST: { ℕ };

    // The hearer after a line, beside the bytes of its frame's samples, and what the line is answered.
    ghost next: { Self → List ℕ → List ℕ → Self };

    ghost text: { Self → List ℕ → List ℕ → List ℕ };

    // Hears a line, with its line feed, and puts its answer at `at`; where that ends.
    fn hear(&mut self, block: &[u8], line: &[u8], out: &mut [u8], at: usize) -> usize
        requires { at + MOST ≤ length out.old }
        ensures heard { self.new ≡ next self.old block.now line.now }
        ensures wrote { result ≡ at + length (text self.old block.now line.now) }
        ensures written { out.new ≡ put_of out.old at (text self.old block.now line.now) };

    ghost most: { (h : Self) (b l : List ℕ) → length (text h b l) ≤ MOST };

    // No more of a line is looked at than `pieces` keeps.
    ghost short_next: { (h : Self) (b l : List ℕ) → next h b (short l) ≡ next h b l };

    ghost short_text: { (h : Self) (b l : List ℕ) → text h b (short l) ≡ text h b l };
}

// A trace between two of its pieces: the hearer, and the unfinished line.
#[derive(Clone, Copy)]
pub struct Player<H> {
    pub hearer: H,
    pub finder: Finder,
}

// How far some lines go: so many bytes of the samples they take, and there their answers end.
#[derive(Clone, Copy)]
struct Ran {
    used: usize,
    wrote: usize,
}

// What is carried of a line.
fn carried(finder: &Finder) -> &[u8]
    ensures { result.now ≡ held_of finder.now }
{
    &finder.line[..pieces::held(*finder)]
}

// Plays the lines of an input, each with its samples; the answers are written from `at` on.
fn run<H: Hearer>(hearer: &mut H, input: &[u8], samples: &[u8], out: &mut [u8], at: usize) -> Ran
    requires { at + H.MOST * length (lines_of input.now) ≤ length out.old }
    ensures value { result ≡ meaning.ran_of H.next H.text hearer.old samples.now input.now at }
    ensures hearer_after { hearer.new ≡ (meaning.heard_of H.next (meaning.beside_of hearer.old samples.now) (lines_of input.now)).state }
    ensures out_after { out.new ≡ put_of out.old at (meaning.texts_of H.next H.text (meaning.beside_of hearer.old samples.now) (lines_of input.now)) }
{
    let mut used: usize = 0;
    let mut wrote = at;
    let mut i: usize = 0;
    // A `while` over places: a line's end is looked for many bytes at a time, and `line_end` gives its place.
    while i < input.len() {
        let to = pieces::line_end(input, i);
        let end = samples::frame_end(samples, used);
        wrote = hearer.hear(&samples[used..end], &input[i..to], out, wrote);
        used = end;
        i = to;
    }
    Ran { used, wrote }
}

impl<H: Hearer> Player<H> {
    // A trace before its first piece.
    pub fn new(hearer: H) -> Player<H>
        ensures { result ≡ meaning.start_of hearer }
    {
        Player {
            hearer,
            finder: pieces::start(),
        }
    }

    // Whether `out` has the most bytes of an answer for each of so many lines.
    fn room(lines: usize, out: &[u8]) -> bool
        ensures { result ≡ leb (H.MOST * lines) (length out.now) }
    {
        H::MOST.saturating_mul(lines) <= out.len()
    }

    // Plays the lines that end in a piece, with their samples: the carried one, then those that lie whole in it. How many bytes of answers are written.
    fn play(&mut self, input: &[u8], samples: &[u8], out: &mut [u8]) -> usize
        requires { H.MOST * length input.now ≤ length out.old }
        ensures value { result ≡ length (meaning.written_of H.next H.text self.old input.now samples.now) }
        ensures player_after { self.new ≡ meaning.next_player H.next self.old input.now samples.now }
        ensures out_after { out.new ≡ put_of out.old 0 (meaning.written_of H.next H.text self.old input.now samples.now) }
    {
        let c = pieces::cut(self.finder, input);
        let a = run(&mut self.hearer, &c.head[..c.n], samples, out, 0);
        let b = run(
            &mut self.hearer,
            &input[c.from..c.to],
            &samples[a.used..],
            out,
            a.wrote,
        );
        self.finder = c.rest;
        b.wrote
    }

    // Plays a piece: how many bytes of answers are written. Where `out` has less than the most bytes of an answer for each byte of the piece, it is
    // refused, and nothing changes.
    pub fn feed(&mut self, input: &[u8], samples: &[u8], out: &mut [u8]) -> Result<usize, Refusal>
        ensures value { result ≡ meaning.fed_of H.next H.text H.MOST self.old input.now samples.now (length out.old) }
        ensures player_after { self.new ≡ meaning.player_after H.next H.MOST self.old input.now samples.now (length out.old) }
        ensures out_after { out.new ≡ meaning.out_after H.next H.text H.MOST self.old input.now samples.now out.old }
    {
        if !Self::room(input.len(), out) {
            return Err(Refusal::Length);
        }
        Ok(self.play(input, samples, out))
    }

    // The end of the input: what is carried is a line too, which lacks its line feed and whose samples are not looked at. How many bytes are written.
    // Where a line is carried and `out` has less than the most bytes of an answer, it is refused, and nothing changes.
    pub fn finish(&mut self, out: &mut [u8]) -> Result<usize, Refusal>
        ensures value { result ≡ meaning.finish_of H.next H.text H.MOST self.old (length out.old) }
        ensures player_after { self.new ≡ meaning.ended_of H.next H.MOST self.old (length out.old) }
        ensures out_after { out.new ≡ meaning.out_ended H.next H.text H.MOST self.old out.old }
    {
        let line = carried(&self.finder);
        if !Self::room(line.len().min(1), out) {
            return Err(Refusal::Length);
        }
        let last = run(&mut self.hearer, line, &[], out, 0);
        self.finder = pieces::start();
        Ok(last.wrote)
    }
}
