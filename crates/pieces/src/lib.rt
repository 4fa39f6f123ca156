// The lines of an input that comes in pieces: what is unfinished is carried by value.
#![tactic(auto)]

ghost use Rattle.std.specs.Prelude.{◌≡◌, [], ◌++◌, ◌+◌, ◌≤◌, leb, length, take, drop};
ghost use Rattle.pieces.specs.Lines as text;
ghost use Rattle.pieces.specs.Cut as piece;
ghost use Rattle.pieces.specs.Put.{put_of};

// The first bytes of a line that are kept: one more than the longest line of any form has, so that a longer one is known.
const KEPT: usize = 85;

// The bytes before the line feed of a line as most are: a longer line has none among them either.
const USUAL: usize = 81;

// An unfinished line: its first bytes, and how many they are. There is no heap, and the promises of `held` and `cut` speak of any two such fields, so that
// the buffer is fixed and its length stands beside it.
#[derive(Clone, Copy)]
pub struct Finder {
    pub line: [u8; KEPT],
    pub fill: usize,
}

// A piece in three: the first `n` bytes of `head` are the line that was carried and ends here, in `from..to` lie whole lines, and the rest is carried.
// The same holds of `head` and `n`, since there is no heap.
#[derive(Clone, Copy)]
pub struct Parts {
    pub head: [u8; KEPT],
    pub n: usize,
    pub from: usize,
    pub to: usize,
    pub rest: Finder,
}

// ---- lines in a text

// How many bytes stand before the first line feed: byte by byte.
fn seek(s: &[u8]) -> usize
    ensures { result ≡ text.plain_of s.now }
{
    s.iter().position(|b| *b == b'\n').unwrap_or(s.len())
}

// Whether no line feed stands in as many bytes as a line has. A loop that never leaves is done many bytes at a time.
#[tactic(auto, using(crate::proofs::Found::plain_taken))]
fn plain(usual: &[u8; USUAL]) -> bool
    ensures { result ≡ leb 81 (text.plain_of usual.now) }
{
    let mut ok = true;
    for b in usual {
        ok = ok & (*b != b'\n');
    }
    ok
}

// The same as `seek`: the first 81 bytes of a line, as most have and more, are tested in one go.
fn find(s: &[u8]) -> usize
    ensures { result ≡ text.plain_of s.now }
{
    match s.split_first_chunk() {
        Some((usual, rest)) if plain(usual) => USUAL + seek(rest),
        _ => seek(s),
    }
}

// Where the line that starts at `i` ends.
pub fn line_end(s: &[u8], i: usize) -> usize
    ensures { result ≡ i + text.first_of (drop i s.now) }
{
    if i >= s.len() {
        return i;
    }
    let k = i + find(&s[i..]);
    if k < s.len() { k + 1 } else { k }
}

// Where the last line that ends in a text ends, 0 where none does.
fn last_end(s: &[u8]) -> usize
    ensures { result ≡ piece.to_of s.now }
{
    match s.iter().rposition(|b| *b == b'\n') {
        Some(k) => k + 1,
        None => 0,
    }
}

// How many lines end in a piece. A loop that never leaves is done many bytes at a time.
#[tactic(auto, using(crate::proofs::Found::feeds_taken))]
pub fn feeds(piece: &[u8]) -> usize
    ensures { result ≡ text.feeds_of piece.now }
{
    let mut n = 0;
    for b in piece {
        if *b == b'\n' {
            n += 1;
        }
    }
    n
}

// ---- the carried line

// Nothing carried.
pub fn start() -> Finder
    ensures { result ≡ piece.finder_of [] }
{
    Finder {
        line: [0u8; KEPT],
        fill: 0,
    }
}

// How many bytes are carried.
pub fn held(f: Finder) -> usize
    ensures { result ≡ length (piece.held_of f) }
{
    find(&f.line[..f.fill.min(KEPT)])
}

// A part stored into a line.
fn stored(line: [u8; KEPT], at: usize, part: &[u8]) -> [u8; KEPT]
    requires { at + length part.now ≤ text.kept }
    ensures { result ≡ take at line ++ part.now ++ drop (at + length part.now) line }
{
    let mut out = line;
    out[at..at + part.len()].copy_from_slice(part);
    out
}

// The carried line with a part more.
fn joined(f: Finder, part: &[u8]) -> Finder
    ensures { result ≡ piece.finder_of (piece.held_of f ++ part.now) }
{
    let fill = held(f);
    let kept = stored([0u8; KEPT], 0, &f.line[..fill]);
    let k = part.len().min(KEPT - fill);
    let line = stored(kept, fill, &part[..k]);
    Finder {
        line,
        fill: fill + k,
    }
}

// How much of a piece in which a line ends belongs to the carried line.
fn ending(f: Finder, input: &[u8]) -> usize
    ensures { result ≡ piece.ending_of f input.now }
{
    if held(f) == 0 { 0 } else { line_end(input, 0) }
}

// Cuts a piece.
pub fn cut(f: Finder, input: &[u8]) -> Parts
    ensures { result ≡ piece.cut_of f input.now }
{
    let to = last_end(input);
    if to == 0 {
        let rest = joined(f, input);
        return Parts {
            head: [0u8; KEPT],
            n: 0,
            from: 0,
            to: 0,
            rest,
        };
    }
    let from = ending(f, input);
    let h = joined(f, &input[..from]);
    let head = h.line;
    let rest = joined(start(), &input[to..]);
    Parts {
        head,
        n: h.fill,
        from,
        to,
        rest,
    }
}

// ---- what is written

// Puts a text at `at`, where it fits.
pub fn put(out: &mut [u8], at: usize, text: &[u8])
    ensures { out.new ≡ put_of out.old at text.now }
{
    if at <= out.len() && text.len() <= out.len() - at {
        out[at..at + text.len()].copy_from_slice(text);
    }
}
