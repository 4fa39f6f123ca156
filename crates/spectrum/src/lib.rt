// Clause 6.4: how far the spectrum has moved since the frame before.
#![tactic(auto)]

ghost use Rattle.std.specs.Prelude.{◌≡◌};
ghost use Rattle.rows.specs.Rows.{row};
ghost use Rattle.spectrum.specs.Spectrum as clause;

use operations::{div, l_abs, l_add, l_shl, l_shr, l_sub, norm, shl, sub, topped};
use rows::products;

// The distance measure L_dm, and whether it stayed.
#[derive(Clone, Copy)]
pub struct Compared {
    pub dm: i32,
    pub stat: bool,
}

// The averages in 13 bits.
fn sav0(av0: [i32; 9]) -> [i16; 9]
    ensures { result ≡ row 9 (clause.sav0_of av0) }
{
    if av0[0] == 0 {
        return [4095i16; 9];
    }
    let shift = sub(norm(av0[0]), 3);
    av0.map(|x| topped(x, shift))
}

// The doubled quotient.
fn quotient(temp: i16, first: i16) -> i32
    ensures { result ≡ clause.quotient_of temp first }
{
    if temp <= first {
        return l_shl(l_add(0, i32::from(div(temp, first))), 1);
    }
    l_shl(l_add(32768, i32::from(div(sub(temp, first), first))), 1)
}

// The sum, whose magnitude is size, over the first entry.
fn divided(sum: i32, size: i32, first: i16) -> i32
    ensures { result ≡ clause.divided_of sum size first }
{
    let temp = topped(size, norm(size));
    let dm = quotient(temp, shl(first, 3));
    if sum < 0 { l_sub(0, dm) } else { dm }
}

// The distance measure, from the quotient and its shift.
fn measured(dm: i32, shift: i16, first: i16, normrav1: i16) -> i32
    ensures { result ≡ clause.measured_of dm shift first normrav1 }
{
    l_shr(
        l_add(l_shr(l_shl(dm, 14), shift), l_shl(i32::from(first), 11)),
        normrav1,
    )
}

// The distance measure.
fn dm(av0: [i32; 9], rav1: [i16; 9], normrav1: i16) -> i32
    ensures { result ≡ clause.l_dm_of av0 rav1 normrav1 }
{
    let s = sav0(av0);
    let sum = products(&rav1[1..], &s[1..]);
    let size = l_abs(sum);
    if size == 0 {
        return measured(0, 0, rav1[0], normrav1);
    }
    measured(divided(sum, size, s[0]), norm(size), rav1[0], normrav1)
}

// The distance measure, and whether it stayed since the one before.
pub fn compare(av0: [i32; 9], rav1: [i16; 9], normrav1: i16, lastdm: i32) -> Compared
    ensures { result ≡ clause.compare_of av0 rav1 normrav1 lastdm }
{
    let dm = dm(av0, rav1, normrav1);
    Compared {
        dm,
        stat: l_sub(l_abs(l_sub(dm, lastdm)), 3277) < 0,
    }
}
