// Clause 6.10: whether the samples of a frame are a tone.
#![tactic(auto)]

ghost use Rattle.std.specs.Prelude.{◌≡◌, ◌≤◌, pos, length, ◌≤ℤ◌};
ghost use Rattle.operations.specs.Operations as op;
ghost use Rattle.tone.specs.Window as window;
ghost use Rattle.tone.specs.Autocorrelation as acf;
ghost use Rattle.tone.specs.Coefficients as coef;
ghost use Rattle.tone.specs.Pole as pole;
ghost use Rattle.tone.specs.Gain as gain;
ghost use Rattle.tone.specs.Tone as whole;

use operations::{abs, add, l_mult, l_shl, l_shr, l_sub, mult, mult_r, norm, product, shr, sub};
use predictor::reflection;

// Table 3.2. The second half of the window is the same, mirrored.
const HANN: [i16; 80] = [
    0, 12, 51, 114, 204, 318, 458, 622, 811, 1025, 1262, 1523, 1807, 2114, 2444, 2795, 3167, 3560,
    3972, 4405, 4856, 5325, 5811, 6314, 6832, 7365, 7913, 8473, 9046, 9631, 10226, 10831, 11444,
    12065, 12693, 13326, 13964, 14607, 15251, 15898, 16545, 17192, 17838, 18482, 19122, 19758,
    20389, 21014, 21631, 22240, 22840, 23430, 24009, 24575, 25130, 25670, 26196, 26707, 27201,
    27679, 28139, 28581, 29003, 29406, 29789, 30151, 30491, 30809, 31105, 31377, 31626, 31852,
    32053, 32230, 32382, 32509, 32611, 32688, 32739, 32764,
];

// ---- 6.10.1

// The windowed samples. For speed, the table is taken once, and the two halves are a loop each that counts: the compiler works on many entries at
// once in those, and not in `from_fn` of so long an array.
fn sofh(sof: &[i16]) -> [i16; 160]
    requires { length sof.now ≡ 160 }
    ensures { result ≡ window.sofh_of sof.now }
{
    let hann = HANN;
    let mut out = [0i16; 160];
    for i in 0..80 {
        out[i] = mult_r(sof[i], hann[i]);
    }
    for i in 80..160 {
        out[i] = mult_r(sof[i], hann[159 - i]);
    }
    out
}

// ---- 6.10.2

// The largest magnitude: for speed, that of the largest and of the least number. The magnitude of -32768 is 32767.
fn smax(sofh: [i16; 160]) -> i16
    ensures { result ≡ acf.smax_of 160 sofh }
{
    let mut high: i16 = 0;
    let mut low: i16 = 0;
    for x in &sofh {
        high = high.max(*x);
        low = low.min(*x);
    }
    high.max(abs(low))
}

// The scaling factor.
fn scalauto(smax: i16) -> i16
    ensures { result ≡ acf.scalauto_of smax }
{
    if smax == 0 {
        return 0;
    }
    sub(4, norm(l_shl(i32::from(smax), 16)))
}

// The rounded product by 16384 / 2^n: for speed, a shift, and of that the half rounded up.
fn halved(x: i16, n: u32) -> i16
    requires { n ≤ 3 }
    ensures { result ≡ op.mult_r x (op.◌>>ₛ◌ (pos 16384) (pos n)) }
{
    let y = x >> n;
    y - (y >> 1)
}

// The samples, scaled by at most 4 bits. The loop counts, for speed: of so long an array `map` is done entry by entry.
fn scaled(scalauto: i16, sofh: [i16; 160]) -> [i16; 160]
    requires { scalauto ≤ℤ pos 4 }
    ensures { result ≡ acf.scaled_of scalauto sofh }
{
    let mut out = sofh;
    if scalauto > 0 {
        let n = (scalauto - 1) as u32;
        for k in 0..160 {
            out[k] = halved(sofh[k], n);
        }
    }
    out
}

// The samples, scaled by their largest magnitude.
fn dynamic(sofh: [i16; 160]) -> [i16; 160]
    ensures { result ≡ acf.dynamic_of sofh }
{
    scaled(scalauto(smax(sofh)), sofh)
}

// One autocorrelation of samples that are at most 2048 in magnitude: no sum clips. The loop counts, for speed: over a `zip` each lag costs more.
fn acfh(sofh: &[i16; 160], k: usize) -> i32
    requires { (k ≤ 4) × acf.Small sofh.now }
    ensures { result ≡ acf.l_acfh_of sofh.now k }
{
    let mut s: i32 = 0;
    for j in 0..(160 - k) {
        s += product(sofh[j + k], sofh[j]);
    }
    s * 2
}

// ---- 6.10.3

// The reflection coefficients, of the order 4.
fn rc(sofh: [i16; 160]) -> [i16; 9]
    requires { acf.Small sofh }
    ensures { result ≡ coef.rc_of sofh }
{
    reflection(
        4,
        std::array::from_fn(|k| if k <= 4 { acfh(&sofh, k) } else { 0 }),
    )
}

// ---- 6.10.5

// Whether the pole is complex and not below 385 Hz.
fn pole(a1: i16, a2: i16) -> bool
    ensures { result ≡ pole.pole_of a1 a2 }
{
    let den = l_mult(a1, a1);
    let num = l_sub(l_shl(i32::from(a2), 16), den);
    if num <= 0 {
        return false;
    }
    if a1 < 0 {
        let temp = l_shr(den, 16) as i16;
        return l_sub(num, l_mult(temp, 3189)) >= 0;
    }
    true
}

// ---- 6.10.6

// The normalised prediction error.
fn prederr(rc: [i16; 9]) -> i16
    ensures { result ≡ gain.prederr_of rc 4 }
{
    let mut err: i16 = 32767;
    for r in &rc[1..5] {
        err = mult(err, sub(32767, mult(*r, *r)));
    }
    err
}

// 6.10.4 to 6.10.6.
fn judged(rc: [i16; 9]) -> bool
    ensures { result ≡ whole.judged_of rc }
{
    let temp = shr(rc[1], 2);
    let a1 = add(temp, mult_r(rc[2], temp));
    let a2 = shr(rc[2], 2);
    pole(a1, a2) && sub(prederr(rc), 1464) < 0
}

// 6.10. What is not 160 samples is no tone.
pub fn tone(sof: &[i16]) -> bool
    ensures { result ≡ whole.flag_of sof.now }
{
    sof.len() == 160 && judged(rc(dynamic(sofh(sof))))
}
