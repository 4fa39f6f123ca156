// Runs a card's trace, on a bank of 64 channels that are all reset: from standard input, or from the file that is named as the one argument, to the answers on standard output, four bytes a line.
#![tactic(auto)]

ghost use Rattle.std.proofs.Common.{rules};

use exchange::Exchange;
use files::{Failed, Input, Steps};

// The most bytes of a piece.
const PIECE: usize = 65536;

// A run, and the room for the answers of a piece: no piece is refused.
#[derive(Drop)]
struct Run {
    exchange: Exchange,
    out: [u8; 4 * PIECE],
}

impl Steps<PIECE> for Run {
    type Stop = Failed;

    // Feeds a piece, and writes the answers.
    fn step(&mut self, rt: HostRuntime, piece: &[u8]) -> Result<(), Failed> {
        let wrote = self.exchange.feed(piece, &[], &mut self.out).unwrap();
        files::write(rt, &self.out[..wrote])
    }

    ghost fits_in_memory = { Prim.search rules };
}

// Answers the whole input. Where it can't be read on, what is carried is answered as at its end.
fn answer(rt: HostRuntime) -> Result<(), Failed> {
    let mut input = Input::open(rt, b"run_card: one file at most\n")?;
    let mut run = Run {
        exchange: exchange::start(),
        out: [0u8; 4 * PIECE],
    };
    run.each(rt, &mut input)?;
    if let Some(text) = exchange::finish(run.exchange) {
        files::write(rt, &text)?;
    }
    Ok(())
}

// What failed was named: the exit status says nothing.
fn main(rt: HostRuntime) {
    let _written = answer(rt).is_ok();
}
