// Runs a trace with its samples on the downlink: the two files that are named, to the answers on standard output, five bytes a line. Each line takes
// the next 320 bytes of the samples; what the samples hold more than that is not read.
#![tactic(auto)]

ghost use Rattle.std.specs.Prelude.{◌≤◌, length};
ghost use Rattle.std.proofs.Common.{rules};

use files::{Failed, Input, Steps};
use listener::Listener;
use samples::FRAME_BYTES;

// The most bytes of a piece.
const PIECE: usize = 1024;

// A run and its samples, and the room for those of a piece and for its answers: no piece is refused.
#[derive(Drop)]
struct Run {
    listener: Listener,
    sound: Input,
    samples: [u8; FRAME_BYTES * PIECE],
    out: [u8; 5 * PIECE],
}

impl Steps<PIECE> for Run {
    type Stop = Failed;

    // Fills in the samples of the lines that end in a piece, feeds both, and writes the answers. Samples that can't be read end the run: no line is
    // answered as if they were missing.
    fn step(&mut self, rt: HostRuntime, piece: &[u8]) -> Result<(), Failed> {
        let bytes = FRAME_BYTES * pieces::feeds(piece);
        let samples = &mut self.samples[..];
        let heard = self.sound.fill(rt, &mut samples[..bytes])?;
        let wrote = self
            .listener
            .feed(piece, &self.samples[..heard], &mut self.out)
            .unwrap();
        files::write(rt, &self.out[..wrote])
    }

    ghost fits_in_memory = { Prim.search rules };
}

// Answers the trace and the samples that are named. Where the trace can't be read on, what is carried is answered as at its end.
fn answer(rt: HostRuntime) -> Result<(), Failed> {
    if files::words(rt) != 3 {
        files::complain(rt, &[b"run_downlink: a trace and its samples\n"]);
        return Err(Failed);
    }
    let mut trace = Input::named(rt, 1)?;
    let sound = Input::named(rt, 2)?;
    let mut run = Run {
        listener: listener::start(),
        sound,
        samples: [0u8; FRAME_BYTES * PIECE],
        out: [0u8; 5 * PIECE],
    };
    run.each(rt, &mut trace)?;
    if let Some(text) = listener::finish(run.listener) {
        files::write(rt, &text)?;
    }
    Ok(())
}

// What failed was named: the exit status says nothing.
fn main(rt: HostRuntime) {
    let _written = answer(rt).is_ok();
}
