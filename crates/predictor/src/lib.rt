// Clause 6.3: from the averaged autocorrelations of four frames before to the filter that whitens them.
#![tactic(auto)]

ghost use Rattle.std.specs.Prelude.{◌++◌, ◌≡◌, ◌-◌, ◌<◌, ◌≤◌, min, pos};
ghost use Rattle.operations.specs.Operations as op;
ghost use Rattle.rows.specs.Rows.{row};
ghost use Rattle.predictor.specs.Schur as schur;
ghost use Rattle.predictor.specs.StepUp as step;
ghost use Rattle.predictor.specs.Filter as filter;

use operations::{abs, add, div, l_add, l_mult, l_shl, l_shr, mult_r, norm, sub, topped};
use rows::lagged;

// The autocorrelation of the predictor, and its scaling.
#[derive(Clone, Copy)]
pub struct Filter {
    pub rav1: [i16; 9],
    pub normrav1: i16,
}

// ---- 6.3.1

// Whether the recursion is left.
fn leaves(p0: i16, p1: i16) -> bool
    ensures { result ≡ schur.leaves_of p0 p1 }
{
    p0 < abs(p1)
}

// A reflection coefficient.
fn coefficient(p0: i16, p1: i16) -> i16
    ensures { result ≡ schur.coefficient_of p0 p1 }
{
    let q = div(abs(p1), p0);
    if p1 > 0 { sub(0, q) } else { q }
}

// One update of the recursion.
fn turned(x: i16, y: i16, c: i16) -> i16
    ensures { result ≡ schur.turned_of x y c }
{
    add(x, mult_r(y, c))
}

// The Schur recursion of an order up to 8. K is kept backwards, `k[m]` for the clause's K[9-m], so that its start is sacf, as that of P is.
// The loops count, since a turn reads P one place further on than it stores, and they are left by a label where the clause exits.
fn recursion(order: usize, sacf: [i16; 9]) -> [i16; 9]
    requires { order ≤ 8 }
    ensures { result ≡ schur.schur_of order sacf }
{
    let mut k = sacf;
    let mut p = sacf;
    let mut v = [0i16; 9];
    'outer: for n in 1..(order + 1) {
        let a = p[0];
        let b = p[1];
        if leaves(a, b) {
            break 'outer;
        }
        let c = coefficient(a, b);
        v[n] = c;
        if n == order {
            break 'outer;
        }
        p[0] = turned(a, b, c);
        for m in 1..(order + 1 - n) {
            let x = p[m + 1];
            let y = k[m];
            p[m] = turned(x, y, c);
            k[m] = turned(y, x, c);
        }
    }
    v
}

// The averages in 16 bits.
fn sacf(av1: [i32; 9]) -> [i16; 9]
    ensures { result ≡ row 9 (schur.sacf_of av1) }
{
    let temp = norm(av1[0]);
    av1.map(|x| topped(x, temp))
}

// The reflection coefficients of an order, which is at most 8: a greater one is taken as 8.
pub fn reflection(order: usize, acf: [i32; 9]) -> [i16; 9]
    ensures { result ≡ schur.reflection_of (min order 8) acf }
{
    if acf[0] == 0 {
        return [0i16; 9];
    }
    recursion(order.min(8), sacf(acf))
}

// The reflection coefficients of the averages, by a call of its own of the recursion, for speed: the compiler then knows the order in each.
pub fn vpar(av1: [i32; 9]) -> [i16; 9]
    ensures { result ≡ schur.vpar_of av1 }
{
    if av1[0] == 0 {
        return [0i16; 9];
    }
    recursion(8, sacf(av1))
}

// ---- 6.3.2

// Where L_coef[0] stands in the row of 17 that holds L_coef. The eight entries below it are 0, so that one formula gives each entry of an order:
// for L_coef[m] it is the clause's shift, and above that it is 0. The compiler works on four entries at once in such a loop.
const FIRST: usize = 8;

// One coefficient, one order up, from itself and the one that mirrors it.
fn lifted(coef: i32, mirror: i32, v: i16) -> i32
    ensures { result ≡ op.l_add coef (op.l_mult v (op.◌>>◌ mirror (pos 16))) }
{
    let temp = l_shr(mirror, 16) as i16;
    l_add(coef, l_mult(v, temp))
}

// The coefficients after the order m, from those after the order before. From the entry n on they are 0 and stay. The loop counts, since an
// entry is made from itself and from the one that mirrors it.
fn raised(coef: [i32; 17], vpar: [i16; 9], m: usize, n: usize) -> [i32; 17]
    requires { (1 ≤ m) × (m < n) × (n ≤ 9) × (coef ≡ row 8 (λ i. pos 0) ++ step.l_coef_of vpar (m - 1)) }
    ensures { result ≡ row 8 (λ i. pos 0) ++ step.l_coef_of vpar m }
{
    let mut out = coef;
    for i in 1..n {
        out[FIRST + i] = lifted(coef[FIRST + i], coef[FIRST + m - i], vpar[m]);
    }
    out
}

// The coefficients after the order 8. For speed, the first four orders are made without the entries from 5 on, which are 0.
fn coefficients(vpar: [i16; 9]) -> [i32; 17]
    ensures { result ≡ row 8 (λ i. pos 0) ++ step.l_coef_of vpar 8 }
{
    let mut coef = [0i32; 17];
    coef[FIRST] = l_shl(16384, 15);
    for m in 1..=4 {
        coef = raised(coef, vpar, m, 5);
    }
    for m in 5..=8 {
        coef = raised(coef, vpar, m, 9);
    }
    coef
}

// A coefficient in 13 bits.
fn narrowed(coef: i32) -> i16
    ensures { result ≡ op.◌>>◌ coef (pos 19) }
{
    l_shr(coef, 19) as i16
}

// The predictor in 13 bits.
pub fn aav1(vpar: [i16; 9]) -> [i16; 9]
    ensures { result ≡ row 9 (step.aav1_of vpar) }
{
    let coef = coefficients(vpar);
    std::array::from_fn(|i| narrowed(coef[FIRST + i]))
}

// ---- 6.3.3

// The autocorrelation of the predictor, normalised by its first entry.
pub fn whitened(aav1: [i16; 9]) -> Filter
    ensures { result ≡ filter.whitened_of aav1 }
{
    let work = lagged(aav1);
    let normrav1 = norm(work[0]);
    let rav1 = work.map(|x| topped(x, normrav1));
    Filter { rav1, normrav1 }
}

// The filter that whitens the averages.
pub fn predicted(av1: [i32; 9]) -> Filter
    ensures { result ≡ filter.predicted_of av1 }
{
    whitened(aav1(vpar(av1)))
}
