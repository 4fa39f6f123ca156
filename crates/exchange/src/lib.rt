// A card's trace run piece by piece: each line is an order on one of 64 channels. The bank, and what is unfinished, are carried by value.
#![tactic(auto)]

ghost use Rattle.std.specs.Prelude.{◌≡◌, false, Ok};
ghost use Rattle.runner.specs.Said.{answer_bytes};
ghost use Rattle.exchange.specs.Named as one;
ghost use Rattle.exchange.specs.Hears as hears;
ghost use Rattle.exchange.specs.Laws as law;
ghost use Rattle.exchange.specs.Fed as piece;

use card::{CHANNELS, in_bank};
use counts::Reply;
use lines::Frame;
use player::{Hearer, Player};
use refusals::Refusal;
use runner::Said;
use state::State;

// The bytes of an answer: its three characters and a line feed.
const ANSWER: usize = 4;

// The states of a card's channels.
#[derive(Clone, Copy)]
pub struct Bank {
    pub states: [State; CHANNELS],
}

// A run between two pieces.
pub type Exchange = Player<Bank>;

// What a line asks of its channel.
#[derive(Clone, Copy)]
pub enum Order {
    Call(Frame),
    Reset,
}

// What a line names: a channel of the bank, and what is asked of it.
#[derive(Clone, Copy)]
pub struct Named {
    pub channel: usize,
    pub order: Order,
}

// ---- one line

// Reads a line, with its line feed: what it names, or the first of 6, 9 that refuses it.
fn read(line: &[u8]) -> Result<Named, Refusal>
    ensures { one.read_in result ≡ one.named_of line.now }
{
    let [high, low, rest @ ..] = line else {
        return Err(Refusal::Malformed);
    };
    let Some(high) = lines::value(*high) else {
        return Err(Refusal::Malformed);
    };
    let Some(low) = lines::value(*low) else {
        return Err(Refusal::Malformed);
    };
    let order = if rest == b"\n".as_slice() {
        Order::Reset
    } else {
        Order::Call(lines::parse(rest)?)
    };
    let channel = 16 * usize::from(high) + usize::from(low);
    if !in_bank(CHANNELS, channel) {
        return Err(Refusal::Channel);
    }
    Ok(Named { channel, order })
}

// A number alone.
fn only(refusal: u8) -> Reply
    ensures { result ≡ record { refusal = refusal; vad = false; vvad = false } }
{
    Reply {
        refusal,
        vad: false,
        vvad: false,
    }
}

// What is answered where the named channel has this state.
fn answer(s: State, named: Named) -> Said
    ensures { result ≡ one.said_of s (one.read_in (Ok named)) }
{
    match named.order {
        Order::Call(frame) => {
            runner::stepped(detector::step(&frame.acf, &frame.lags, frame.scale, s))
        }
        Order::Reset => Said {
            reply: only(0),
            next: State::reset(),
        },
    }
}

// Where a line is refused, all states stay as they were.
impl Hearer for Bank {
    const MOST: usize = ANSWER;

    ghost MOST = { answer_bytes };

    ghost next = { hears.next_of };

    ghost text = { hears.text_of };

    fn hear(&mut self, _block: &[u8], line: &[u8], out: &mut [u8], at: usize) -> usize {
        let reply = match read(line) {
            Ok(named) => {
                let said = answer(self.states[named.channel], named);
                self.states[named.channel] = said.next;
                said.reply
            }
            Err(refusal) => only(refusal.number()),
        };
        pieces::put(out, at, &runner::text(reply));
        at + ANSWER
    }

    ghost most = { law.text_most };

    ghost short_next = { law.short_next };

    ghost short_text = { law.short_text };
}

// ---- a run in pieces

// A run before its first piece.
pub fn start() -> Exchange
    ensures { result ≡ piece.start_of }
{
    Player::new(Bank {
        states: [State::reset(); CHANNELS],
    })
}

// The end of the input: what is carried is a line too, and malformed, since it lacks its line feed.
pub fn finish(x: Exchange) -> Option<[u8; ANSWER]>
    ensures { result ≡ piece.end_of x }
{
    if pieces::held(x.finder) == 0 {
        None
    } else {
        Some(runner::text(only(Refusal::Malformed.number())))
    }
}
