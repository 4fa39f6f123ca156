// Rows of numbers: the test of a range, lent rows by value, and the running sums of products that three clauses use. A sum of which no step before
// the last can clip is made as an exact one; any other is clipped at each step.
#![tactic(auto)]

ghost use Rattle.std.specs.Prelude.{◌≡◌, true, ℕ, ◌^◌, ◌<◌, ◌≤◌, min, nat_abs, pos, length, get_or};
ghost use Rattle.numbers.specs.Sum.{at};
ghost use Rattle.rows.specs.Choice.{within};
ghost use Rattle.rows.specs.Rows.{row, first_of, all, thirteen, product_sum, l_products, l_lagged};

use operations::{l_add, l_mult, product};
use std::array;

// The lesser of two lengths.
pub fn lesser(m: usize, n: usize) -> usize
    ensures { result ≡ min m n }
{
    m.min(n)
}

// ---- ranges

// Whether z is one of lo..hi.
pub fn within(lo: i32, hi: i32, z: i32) -> bool
    ensures { result ≡ within lo hi z }
{
    (lo..=hi).contains(&z)
}

// The same of a 16-bit number.
pub fn short_within(lo: i16, hi: i16, z: i16) -> bool
    ensures { result ≡ within lo hi z }
{
    (lo..=hi).contains(&z)
}

// Whether each number of a row is one of lo..hi. The loop never leaves, for speed: it is done many entries at a time.
pub fn all_within(lo: i32, hi: i32, a: &[i32]) -> bool
    ensures { result ≡ all (within lo hi) a.now }
{
    let mut ok = true;
    for z in a {
        ok &= within(lo, hi, *z);
    }
    ok
}

// ---- lent rows, by value

// The entry at i of a row, and z beyond its end.
fn entry<T: Copy>(from: &[T], i: usize, z: T) -> T
    ensures { result ≡ get_or from.now i z }
{
    from.get(i).copied().unwrap_or(z)
}

// The first nine numbers of a lent row, by value.
pub fn nine(from: &[i32]) -> [i32; 9]
    ensures { result ≡ first_of 9 (pos 0) from.now }
{
    array::from_fn(|i| entry(from, i, 0))
}

// The first four lags of a lent row, by value.
pub fn four(from: &[u16]) -> [u16; 4]
    ensures { result ≡ first_of 4 0 from.now }
{
    array::from_fn(|k| entry(from, k, 0))
}

// ---- running sums

// Whether each number of a row has 13 bits. This loop never leaves either.
fn narrow(a: &[i16]) -> bool
    ensures { result ≡ all thirteen a.now }
{
    let mut ok = true;
    for x in a {
        ok &= short_within(-4096, 4095, *x);
    }
    ok
}

// The exact sum of the products of two rows, which stays within 32 bits: the second has at most nine entries, of 13 bits. The other promise is what
// the reading of the first row tells.
fn exact(a: &[i16], b: &[i16]) -> i32
    requires { (length b.now ≤ 9) × (all thirteen b.now ≡ true) }
    ensures value { result ≡ product_sum a.now b.now }
    ensures by_index { (k : ℕ) → k < min (length a.now) (length b.now) → nat_abs (at a.now k) ≤ 2 ^ 15 }
{
    let mut s = 0;
    for (x, y) in a.iter().zip(b) {
        s += product(*x, *y);
    }
    s
}

// The sum of the doubled products of two rows, clipped at each step.
fn clipped(a: &[i16], b: &[i16]) -> i32
    ensures { result ≡ l_products a.now b.now }
{
    let mut s = 0;
    for (x, y) in a.iter().zip(b) {
        s = l_add(s, l_mult(*x, *y));
    }
    s
}

// The sum of the doubled products of two rows, over the entries that both have. Where the second has at most eight entries, of 13 bits, no step
// but the last can clip.
pub fn products(a: &[i16], b: &[i16]) -> i32
    ensures { result ≡ l_products a.now b.now }
{
    if b.len() <= 8 && narrow(b) {
        let s = exact(a, b);
        l_add(s, s)
    } else {
        clipped(a, b)
    }
}

// The sum of the doubled products of a row and itself, at the lag i. If `small`, the row is of 13 bits, and then no step can clip.
fn lag_sum(small: bool, a: [i16; 9], i: usize) -> i32
    requires { (i < 9) × (small ≡ true → all thirteen a ≡ true) }
    ensures { result ≡ l_lagged a i }
{
    if small {
        exact(&a, &a[i..]) * 2
    } else {
        clipped(&a, &a[i..])
    }
}

// These sums at each lag from 0 to 8. One test says whether any of them can clip.
pub fn lagged(a: [i16; 9]) -> [i32; 9]
    ensures { result ≡ row 9 (l_lagged a) }
{
    let small = narrow(&a);
    array::from_fn(|i| lag_sum(small, a, i))
}
