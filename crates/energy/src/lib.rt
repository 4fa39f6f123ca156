// Clause 6.1: the energy of a frame, and its energy through the adaptive filter.
#![tactic(auto)]

ghost use Rattle.std.specs.Prelude.{◌≡◌, pos};
ghost use Rattle.operations.specs.Operations as op;
ghost use Rattle.rows.specs.Rows.{row};
ghost use Rattle.energy.specs.Energy as clause;

use operations::{add, l_add, l_mult, l_shr, norm, shl, shr, sub, topped};
use pairs::Pair;
use rows::products;

// The energy of the input signal, and of the filtered signal.
#[derive(Clone, Copy)]
pub struct Energies {
    pub acf0: Pair,
    pub pvad: Pair,
}

// The energy of an all-zero frame, below all others.
const SILENT: Pair = Pair { e: -32768, m: 0 };

// One autocorrelation in 13 bits.
fn scaled(x: i32, normacf: i16) -> i16
    ensures { result ≡ op.◌>>◌ (op.◌<<◌ x normacf) (pos 19) }
{
    shr(topped(x, normacf), 3)
}

// The autocorrelations in 13 bits.
fn sacf(acf: [i32; 9]) -> [i16; 9]
    ensures { result ≡ row 9 (clause.sacf_of acf) }
{
    let normacf = norm(acf[0]);
    acf.map(|x| scaled(x, normacf))
}

// The filter sum.
fn filter_sum(acf: [i32; 9], rvad: [i16; 9]) -> i32
    ensures { result ≡ clause.filter_sum_of acf rvad }
{
    let s = sacf(acf);
    let first = l_shr(l_mult(s[0], rvad[0]), 1);
    l_add(products(&rvad[1..], &s[1..]), first)
}

// 1 for a number that is not positive.
fn positive(x: i32) -> i32
    ensures { result ≡ clause.positive x }
{
    x.max(1)
}

// The energy of a frame that is not all zero.
fn acf0(acf: [i32; 9], scalvad: i16) -> Pair
    ensures { result ≡ clause.acf0_of acf scalvad }
{
    let normacf = norm(acf[0]);
    Pair {
        e: sub(add(32, shl(scalvad, 1)), normacf),
        m: shl(scaled(acf[0], normacf), 3),
    }
}

// The filtered energy, of a sum that is positive.
fn pvad(e: i16, normrvad: i16, sum: i32) -> Pair
    ensures { result ≡ clause.pvad_of e normrvad sum }
{
    let normprod = norm(sum);
    Pair {
        e: sub(sub(add(e, 14), normrvad), normprod),
        m: topped(sum, normprod),
    }
}

// The two energies of a frame.
pub fn energy(acf: [i32; 9], scalvad: i16, rvad: [i16; 9], normrvad: i16) -> Energies
    ensures { result ≡ clause.energy_of acf scalvad rvad normrvad }
{
    if acf[0] == 0 {
        return Energies {
            acf0: SILENT,
            pvad: SILENT,
        };
    }
    let acf0 = acf0(acf, scalvad);
    let sum = positive(filter_sum(acf, rvad));
    Energies {
        pvad: pvad(acf0.e, normrvad, sum),
        acf0,
    }
}
