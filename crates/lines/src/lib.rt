// Trace lines: a frame written as 81 upper-case hexadecimal digits and a line feed, and read back.
#![tactic(auto)]

ghost use Rattle.std.specs.Prelude.{◌≡◌, ◌+◌, ◌*◌, ◌<◌, ◌≤◌, true, false, ◌++◌, map, length, take, drop, pos, MatchOption};
ghost use Rattle.refusals.specs.Refusal.{number_in};
ghost use Rattle.rows.specs.Rows.{row, all};
ghost use Rattle.lines.specs.Hex as hex;
ghost use Rattle.lines.specs.Line as trace;
ghost use Rattle.lines.specs.Answers as answer;

use frames::{LAGS, NUMBERS, check};
use refusals::Refusal;
use rows::{four, nine};

// A line's digits, and its bytes with the line feed.
pub const DIGITS: usize = 81;

pub const LINE: usize = 82;

// Where the scale stands, and the first lag.
const SCALE_AT: usize = 72;

const LAGS_AT: usize = 73;

// The frame of a line.
#[derive(Clone, Copy, PartialEq, Eq, Debug)]
pub struct Frame {
    pub acf: [i32; 9],
    pub scale: i16,
    pub lags: [u16; 4],
}

// ---- digits

// The character of a number below 16.
fn digit(n: u8) -> u8
    requires { n < 16 }
    ensures { result ≡ hex.digit_of n }
{
    if n < 10 { b'0' + n } else { b'A' + (n - 10) }
}

// Whether a character is a digit. A byte below its range wraps to one beyond it, so that there is no branch, for speed.
fn is_hex(b: u8) -> bool
    ensures { result ≡ hex.hex_of b }
{
    let figure = b.wrapping_sub(b'0') < 10;
    let letter = b.wrapping_sub(b'A') < 6;
    figure | letter
}

// What a digit is worth, with no branch, for speed: 65 is A, and 65 % 16 + 9 is 10.
fn worth(b: u8) -> u8
    requires { hex.hex_of b ≡ true }
    ensures { result ≡ hex.value_of b }
{
    b % 16 + 9 * (b / 64)
}

// What a character is worth, if it is a digit.
pub fn value(b: u8) -> Option<u8>
    ensures { result ≡ hex.worth_of b }
{
    if is_hex(b) { Some(worth(b)) } else { None }
}

// The number that eight digits write. Only speed explains the shape: the eight characters are put into one number, a lane of eight bits for each and the
// first in the lowest, and all are worked on at once.
fn number(digits: &[u8; 8]) -> u32
    requires { all hex.hex_of digits.now ≡ true }
    ensures { result ≡ hex.number_of digits.now }
{
    let x = u64::from_le_bytes(*digits);
    // 1 in the lane of each letter: its character has the bit 6, and that of a figure has not.
    let letters = (x / 64) & 0x0101_0101_0101_0101;
    // What each digit is worth: 0 is 48, and A is 48 + 10 + 7.
    let worths = x - 0x3030_3030_3030_3030 - 7 * letters;
    // Each digit with the one after it, from the lane above: four numbers of two digits, then two of four, then one of eight.
    let bytes = (worths * 0x10 + worths / 0x100) & 0x00ff_00ff_00ff_00ff;
    let halves = (bytes * 0x100 + bytes / 0x1_0000) & 0x0000_ffff_0000_ffff;
    // What is left fits 32 bits, and is cast: `try_from` would bring an error that can't come.
    ((halves * 0x1_0000 + halves / 0x1_0000_0000) & 0xffff_ffff) as u32
}

// The lowest digits of a number, as many as are wanted. They are stored by index, since a proof learns nothing of what is written through an iterator. A
// number below 16 fits 8 bits, and is cast for the same reason as above.
fn written<const K: usize>(x: u32) -> [u8; K]
    ensures { result ≡ hex.digits_of K x }
{
    let mut out = [b'0'; K];
    let mut n = x;
    for i in (0..K).rev() {
        out[i] = digit((n % 16) as u8);
        n /= 16;
    }
    out
}

// The eight digits of a number.
pub fn eight(x: u32) -> [u8; 8]
    ensures { result ≡ hex.digits_of 8 x }
{
    written(x)
}

// ---- a line to read

// A line of 81 digits and a line feed.
#[derive(Clone, Copy)]
struct Formed<'a> {
    line: &'a [u8; LINE],
    ghost formed: { trace.formed_of line.now ≡ true },
}

impl<'a> Formed<'a> {
    // A line, if it is one. The loop never leaves, for speed: it is done many characters at a time.
    fn of(line: &'a [u8]) -> Option<Self>
        ensures { MatchOption result (trace.formed_of line.now ≡ false) (λ f. f.line.now ≡ line.now) }
    {
        let Some(line) = line.as_array() else {
            return None;
        };
        let mut ok = line[DIGITS] == b'\n';
        for b in &line[..DIGITS] {
            ok = ok & is_hex(*b);
        }
        if ok { Some(Formed { line }) } else { None }
    }

    // Its nine numbers, stored by index for the same reason.
    fn acf(self) -> [i32; 9]
        ensures { result ≡ row 9 (trace.word_at self.entry.line.now) }
    {
        let line = self.line;
        let (words, _) = line.as_chunks::<8>();
        let mut acf = [0i32; 9];
        for (i, word) in words[..NUMBERS].iter().enumerate() {
            acf[i] = number(word).cast_signed();
        }
        acf
    }

    // Its scale.
    fn scale(self) -> i16
        ensures { result ≡ pos (trace.field_at 1 (drop 72 self.entry.line.now) 0) }
    {
        i16::from(worth(self.line[SCALE_AT]))
    }

    // Its four lags: eight digits, and so the four bytes of one number.
    fn lags(self) -> [u16; 4]
        ensures { result ≡ row 4 (trace.field_at 2 (drop 73 self.entry.line.now)) }
    {
        let line = self.line;
        let digits = line[LAGS_AT..].first_chunk().unwrap();
        let [a, b, c, d] = number(digits).to_be_bytes();
        [u16::from(a), u16::from(b), u16::from(c), u16::from(d)]
    }
}

// Reads the numbers of a line, whatever they are.
pub fn parse(line: &[u8]) -> Result<Frame, Refusal>
    ensures { answer.decoded_in result ≡ answer.parsed_of line.now }
{
    let Some(formed) = Formed::of(line) else {
        return Err(Refusal::Malformed);
    };
    let acf = formed.acf();
    let lags = formed.lags();
    Ok(Frame {
        acf,
        scale: formed.scale(),
        lags,
    })
}

// Reads a line: its frame, or the first of 6, 2, 3, 4 that refuses it.
pub fn decode(line: &[u8]) -> Result<Frame, Refusal>
    ensures { answer.decoded_in result ≡ answer.decoded_of line.now }
{
    let frame = parse(line)?;
    check(frame.acf, frame.lags, frame.scale)?;
    Ok(frame)
}

// Reads a line into lent numbers and lags and gives its scale, or the first of 1, 6, 2, 3, 4 that refuses it and leaves them as they were.
pub fn read(line: &[u8], acf: &mut [i32], lags: &mut [u16]) -> Result<i16, Refusal>
    ensures value { answer.heading_in result ≡ answer.read_of acf.old lags.old line.now }
    ensures acf_after { acf.new ≡ answer.acf_after acf.old lags.old line.now }
    ensures lags_after { lags.new ≡ answer.lags_after acf.old lags.old line.now }
{
    if acf.len() != NUMBERS || lags.len() != LAGS {
        return Err(Refusal::Length);
    }
    let frame = decode(line)?;
    acf.copy_from_slice(&frame.acf);
    lags.copy_from_slice(&frame.lags);
    Ok(frame.scale)
}

// ---- a frame to write

// Puts a number of K digits at `at`.
fn put<const K: usize>(line: &mut [u8], at: usize, x: u32)
    requires { at + K ≤ length line.old }
    ensures { line.new ≡ take at line.old ++ hex.digits_of K x ++ drop (at + K) line.old }
{
    line[at..at + K].copy_from_slice(&written::<K>(x));
}

// Puts a frame's line.
fn put_line(line: &mut [u8], frame: Frame)
    requires { length line.old ≡ trace.LINE }
    ensures { line.new ≡ trace.line_of frame }
{
    for (i, z) in frame.acf.iter().enumerate() {
        put::<8>(line, 8 * i, z.cast_unsigned());
    }
    put::<1>(line, SCALE_AT, u32::from(frame.scale.unsigned_abs()));
    for (k, lag) in frame.lags.iter().enumerate() {
        put::<2>(line, LAGS_AT + 2 * k, u32::from(*lag));
    }
    line[DIGITS] = b'\n';
}

// Writes a frame into a lent line, or gives the first of 1, 2, 3, 4 that refuses it and leaves the line as it was.
pub fn write(acf: &[i32], lags: &[u16], scale: i16, line: &mut [u8]) -> Result<(), Refusal>
    ensures value { number_in result ≡ answer.write_of (record { acf = acf.entry.now; scale = scale; lags = lags.now }) line.old }
    ensures line_after { line.new ≡ answer.line_after (record { acf = acf.entry.now; scale = scale; lags = lags.now }) line.old }
{
    if acf.len() != NUMBERS || lags.len() != LAGS || line.len() != LINE {
        return Err(Refusal::Length);
    }
    let acf = nine(acf);
    let lags = four(lags);
    check(acf, lags, scale)?;
    put_line(line, Frame { acf, scale, lags });
    Ok(())
}
