// A night's totals: for standard input, or for each file that is named, in their order, the line of its report on standard output.
#![tactic(auto)]

ghost use Rattle.std.proofs.Common.{rules};

use counts::Counted;
use files::{Ended, Failed, Input, Steps};
use totals::Night;

// A line that is refused: no more of its input is counted.
#[derive(Clone, Copy, PartialEq, Eq, Debug)]
struct Refused;

// What an input comes to so far.
#[derive(Drop)]
struct Sum {
    night: Night,
}

impl Steps<16384> for Sum {
    type Stop = Refused;

    // Counts the lines of a piece.
    fn step(&mut self, _rt: HostRuntime, piece: &[u8]) -> Result<(), Refused> {
        self.night = totals::feed(self.night, piece);
        if self.night.hearer.counted.refusal == 0 {
            Ok(())
        } else {
            Err(Refused)
        }
    }

    ghost fits_in_memory = { Prim.search rules };
}

// What an input comes to, up to a line that is refused; nothing, if it can't be read to its end.
fn counted(rt: HostRuntime, input: &mut Input) -> Result<Counted, Failed> {
    let mut sum = Sum {
        night: totals::start(),
    };
    match sum.each(rt, input) {
        Ok(Ended::Unread) => Err(Failed),
        Ok(Ended::Whole) | Err(Refused) => Ok(totals::finish(sum.night)),
    }
}

// Reports an input. One that can't be read has no report.
fn report(rt: HostRuntime, input: &mut Input) -> Result<(), Failed> {
    let Ok(counted) = counted(rt, input) else {
        return Ok(());
    };
    let written = files::write(rt, &totals::report(counted.totals));
    if counted.refusal != 0 {
        input.say(
            rt,
            b": refusal 7, the totals are those of its first 4294967295 lines\n",
        );
    }
    written
}

// Reports each input that can be opened, as long as the reports can be written.
fn report_all(rt: HostRuntime) -> Result<(), Failed> {
    let words = files::words(rt);
    if words < 2 {
        return report(rt, &mut Input::standard(rt));
    }
    // By number, which is how a word is asked for.
    for i in 1..words {
        if let Ok(mut input) = Input::named(rt, i) {
            report(rt, &mut input)?;
        }
    }
    Ok(())
}

// What failed was named: the exit status says nothing.
fn main(rt: HostRuntime) {
    let _written = report_all(rt).is_ok();
}
