// What programs share with files: the file that is named or standard input, read piece by piece, and standard output. What fails is named on
// standard error. No contract can say which bytes are read or written: the promises here are of numbers alone.
#![tactic(auto)]

ghost use Rattle.std.specs.Prelude.{◌≡◌, ◌≤◌, ◌<◌, ◌^◌, length, IfOk};
ghost use Rattle.io.specs.Counts.{IsPrefixLen};
ghost use Rattle.std.specs.Io.{ReadsAtMost};

use arrayvec::ArrayVec;
use std::env::{Env, FillError};
use std::fs::File;
use std::io::{Read, Stdin, Write};
use std::{fs, io, str};

// The name of a file, in fixed memory: no program allocates.
type Name = ArrayVec<u8, 4096>;

// The system's number of the error `File name too long`, which the call for a word does not give.
const TOO_LONG: i32 = 36;

// What failed was named on standard error.
#[derive(Clone, Copy, PartialEq, Eq, Debug)]
pub struct Failed;

// Where the reading of an input ended: at its end, or where it could not be read, which was named.
#[derive(Clone, Copy, PartialEq, Eq, Debug)]
pub enum Ended {
    Whole,
    Unread,
}

// An input that is open: standard input, or the file of a name.
#[derive(Drop)]
pub enum Input {
    Standard(Stdin),
    Named(File, Name),
}

// What a program does with an input, piece by piece, of at most N bytes each.
pub trait Steps<const N: usize> {
    // Why no more pieces are taken.
    type Stop: Drop;

    // Takes a piece.
    fn step(&mut self, rt: HostRuntime, piece: &[u8]) -> Result<(), Self::Stop>
        requires { length piece.now ≤ N };

    // So a piece can be read into an array.
    ghost fits_in_memory: { N < 2 ^ 63 };

    // Reads an input, and takes each piece of it. A proved loop has to end, and nothing says that an input does: no run comes to the last turn.
    final fn each(&mut self, rt: HostRuntime, input: &mut Input) -> Result<Ended, Self::Stop> {
        let mut piece = [0u8; N];
        for _ in 0..u64::MAX {
            match input.read(rt, &mut piece) {
                Ok(0) => return Ok(Ended::Whole),
                Ok(n) => self.step(rt, &piece[..n])?,
                Err(Failed) => return Ok(Ended::Unread),
            }
        }
        Ok(Ended::Whole)
    }
}

// ---- standard error

// Writes the texts to standard error. Nothing can be said of what can't be written there.
pub fn complain(rt: HostRuntime, texts: &[&[u8]]) {
    for text in texts {
        let _written = rt.stderr().write_all(text).is_ok();
    }
}

// The words of an error, up to the system's number for it.
fn plain(words: &[u8]) -> &[u8]
    ensures { length result.now ≤ length words.now }
{
    let number = b" (os error ";
    match words
        .windows(number.len())
        .position(|w| w == number.as_slice())
    {
        Some(end) => &words[..end],
        None => words,
    }
}

// Names what failed on standard error, and says why.
fn fail(rt: HostRuntime, name: &[u8], error: io::Error) -> Failed {
    let mut words = ArrayVec::<u8, 256>::new();
    let _whole = write!(words, "{error}").is_ok();
    complain(rt, &[name, b": ", plain(&words), b"\n"]);
    Failed
}

// ---- inputs

// How many words the program was called with, its own name among them. Each is read into the same fixed memory: the library's list of them would
// allocate.
pub fn words(rt: HostRuntime) -> usize {
    let mut word = [0u8; 4096];
    (0..usize::MAX)
        .take_while(|i| !matches!(rt.arg(*i, &mut word), Err(FillError::NotPresent)))
        .count()
}

// The file of a name.
fn opened(rt: HostRuntime, name: &[u8]) -> io::Result<File> {
    let path = str::from_utf8(name).map_err(|_| io::Error::from(io::ErrorKind::InvalidData))?;
    fs::open(&rt, path)
}

impl Input {
    // Standard input.
    pub fn standard(rt: HostRuntime) -> Input {
        Input::Standard(rt.stdin())
    }

    // The file that the program's word `i` names. A word that is too long is named by its first bytes.
    pub fn named(rt: HostRuntime, i: usize) -> Result<Input, Failed> {
        let mut name = Name::from([0u8; 4096]);
        let Ok(length) = rt.arg(i, &mut name) else {
            return Err(fail(rt, &name, io::Error::from_raw_os_error(TOO_LONG)));
        };
        name.truncate(length);
        let file = opened(rt, &name).map_err(|error| fail(rt, &name, error))?;
        Ok(Input::Named(file, name))
    }

    // The file that is named as the program's one word, or standard input where none is. With more words `usage` is written to standard error.
    pub fn open(rt: HostRuntime, usage: &[u8]) -> Result<Input, Failed> {
        match words(rt) {
            0 | 1 => Ok(Input::standard(rt)),
            2 => Input::named(rt, 1),
            _ => {
                complain(rt, &[usage]);
                Err(Failed)
            }
        }
    }

    // What the input is called.
    fn name(&self) -> &[u8] {
        match self {
            Input::Standard(_) => b"standard input",
            Input::Named(_, name) => name,
        }
    }

    // Names the input on standard error, and says `what` of it.
    pub fn say(&self, rt: HostRuntime, what: &[u8]) {
        complain(rt, &[self.name(), what]);
    }

    // Reads once: how many bytes came, none at the end.
    pub fn read(&mut self, rt: HostRuntime, piece: &mut [u8]) -> Result<usize, Failed>
        ensures prefix_len { IfOk result (λ n. IsPrefixLen n piece.new) }
        ensures piece_len_unchanged { length piece.new ≡ length piece.old }
    {
        self.read_some(piece)
            .map_err(|error| fail(rt, self.name(), error))
    }

    // Reads until the piece is full or the input ends: how many bytes came. The loop counts bytes that came, and no index.
    pub fn fill(&mut self, rt: HostRuntime, piece: &mut [u8]) -> Result<usize, Failed>
        ensures prefix_len { IfOk result (λ n. IsPrefixLen n piece.new) }
        ensures piece_len_unchanged { length piece.new ≡ length piece.old }
    {
        let mut n = 0;
        while n < piece.len() {
            let k = self.read(rt, &mut piece[n..])?;
            if k == 0 {
                break;
            }
            n += k;
        }
        Ok(n)
    }

    // What one reading gives.
    fn read_some(&mut self, piece: &mut [u8]) -> io::Result<usize>
        ensures bound { ReadsAtMost result piece.new }
        ensures piece_len_unchanged { length piece.new ≡ length piece.old }
    {
        match self {
            Input::Standard(stdin) => stdin.read(piece),
            Input::Named(file, _) => file.read(piece),
        }
    }
}

// ---- standard output

// Writes a text to standard output.
pub fn write(rt: HostRuntime, text: &[u8]) -> Result<(), Failed> {
    rt.stdout()
        .write_all(text)
        .map_err(|error| fail(rt, b"standard output", error))
}
