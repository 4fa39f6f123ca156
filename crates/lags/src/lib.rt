// The range of a lag; and clauses 6.5 and 6.9: how often a lag of the frame is near a multiple of the one before it.
#![tactic(auto)]

ghost use Rattle.std.specs.Prelude.{◌≡◌, pos};
ghost use Rattle.lags.specs.Lags.{lag_ok, ptch_of, smallag_of, counted_of, lagcount_of};

// Whether a lag is one of 40..120.
#[tactic(auto, unfolding(crate::specs::Lags::lag_ok))]
pub fn lag_ok(lag: u16) -> bool
    ensures { result ≡ lag_ok lag }
{
    (40..=120).contains(&lag)
}

// 6.5: whether the two frames before were periodic.
pub fn ptch(oldlagcount: i16, veryoldlagcount: i16) -> bool
    ensures { result ≡ ptch_of oldlagcount veryoldlagcount }
{
    i32::from(oldlagcount) + i32::from(veryoldlagcount) >= 4
}

// The larger lag's remainder by the smaller; by a lag of 0 there is nothing to take off.
#[tactic(auto, unfolding(crate::specs::Lags::smallag_of))]
fn smallag(oldlag: u16, lag: u16) -> u16
    ensures { result ≡ smallag_of oldlag lag }
{
    let most = oldlag.max(lag);
    let least = oldlag.min(lag);
    if least == 0 { most } else { most % least }
}

// Whether a lag counts beside the one before it.
#[tactic(auto, unfolding(crate::specs::Lags::counted_of))]
fn counted(oldlag: u16, lag: u16) -> bool
    ensures { result ≡ counted_of oldlag lag }
{
    let small = smallag(oldlag, lag);
    let least = oldlag.min(lag);
    small.min(least.saturating_sub(small)) < 2
}

// 6.9: how many of the four lags count.
pub fn lagcount(oldlag: u16, lags: [u16; 4]) -> i16
    ensures { result ≡ pos (lagcount_of oldlag lags) }
{
    let mut count = 0;
    let mut last = oldlag;
    for lag in lags {
        count += i16::from(counted(last, lag));
        last = lag;
    }
    count
}
