// Tells why each frame of a trace was sent or not: from standard input, or from the file that is named, to a line of words on standard output for each
// line. With a second word the trace is one of the downlink, and this names its samples: each line takes the next 320 bytes of them.
#![tactic(auto)]

ghost use Rattle.std.specs.Prelude.{◌≡◌, ◌*◌, ◌≤◌, length, IfOk};
ghost use Rattle.std.proofs.Common.{rules};
ghost use Rattle.io.specs.Counts.{IsPrefixLen};
ghost use Rattle.samples.specs.Samples.{frame_bytes};

use files::{Failed, Input, Steps};
use samples::FRAME_BYTES;
use teller::Teller;

// The most bytes of a piece.
const PIECE: usize = 1024;

// What is told so far and, on the downlink, the samples; and the room for those of a piece and for what it is told: no piece is refused.
#[derive(Drop)]
struct Telling {
    teller: Teller,
    sound: Option<Input>,
    samples: [u8; FRAME_BYTES * PIECE],
    out: [u8; 41 * PIECE],
}

// Reads the samples of the lines that end in a piece; on the uplink there are none.
fn hear(
    rt: HostRuntime,
    sound: &mut Option<Input>,
    piece: &[u8],
    samples: &mut [u8],
) -> Result<usize, Failed>
    requires { frame_bytes * length piece.now ≤ length samples.old }
    ensures prefix_len { IfOk result (λ n. IsPrefixLen n samples.new) }
    ensures samples_len_unchanged { length samples.new ≡ length samples.old }
{
    match sound {
        Some(sound) => {
            let bytes = FRAME_BYTES * pieces::feeds(piece);
            sound.fill(rt, &mut samples[..bytes])
        }
        None => Ok(0),
    }
}

impl Steps<PIECE> for Telling {
    type Stop = Failed;

    // Reads the samples of a piece, feeds both, and writes what it is told. Samples that can't be read end it all: no line is told as if they were
    // missing.
    fn step(&mut self, rt: HostRuntime, piece: &[u8]) -> Result<(), Failed> {
        let heard = hear(rt, &mut self.sound, piece, &mut self.samples)?;
        let wrote = self
            .teller
            .feed(piece, &self.samples[..heard], &mut self.out)
            .unwrap();
        files::write(rt, &self.out[..wrote])
    }

    ghost fits_in_memory = { Prim.search rules };
}

// Tells of the whole trace, on the downlink where there is a sound. Where the trace can't be read on, what is carried is told as at its end.
fn tell_all(rt: HostRuntime, trace: &mut Input, sound: Option<Input>) -> Result<(), Failed> {
    let mut telling = Telling {
        teller: teller::start(sound.is_some()),
        sound,
        samples: [0u8; FRAME_BYTES * PIECE],
        out: [0u8; 41 * PIECE],
    };
    telling.each(rt, trace)?;
    if let Some(text) = teller::finish(telling.teller) {
        files::write(rt, &text)?;
    }
    Ok(())
}

// Tells of a trace and its samples where both are named, and else of the trace that is named, or of standard input.
fn tell(rt: HostRuntime) -> Result<(), Failed> {
    if files::words(rt) == 3 {
        let mut trace = Input::named(rt, 1)?;
        let sound = Input::named(rt, 2)?;
        return tell_all(rt, &mut trace, Some(sound));
    }
    let mut trace = Input::open(rt, b"why_trace: a trace, and its samples on the downlink\n")?;
    tell_all(rt, &mut trace, None)
}

// What failed was named: the exit status says nothing.
fn main(rt: HostRuntime) {
    let _written = tell(rt).is_ok();
}
