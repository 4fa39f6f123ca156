// The operations of GSM 06.10 on 16 and 32 bits. Each answers for every input, and answers what specs/Operations.antt defines under its name.
// A cast to a smaller width stands where the number fits, which is proved: `try_from` would ask what to do where it does not.
#![tactic(auto)]

ghost use Rattle.std.specs.Prelude.{◌≡◌, ◌^◌, ℤ, nat_abs, pos, ◌+ℤ◌, ◌-ℤ◌, ◌*ℤ◌};
ghost use Rattle.std.specs.Int.Signed.{shr_z};
ghost use Rattle.std.specs.Int.{Width, w16, w32};
ghost use Rattle.numbers.specs.Clamp.{clamp};
ghost use Rattle.numbers.specs.Wrap.{wrap};
ghost use Rattle.operations.specs.Operations as op;

// ---- the two widths

// A short or a long variable. What is computed of one is exact in the wider type, and then put back into its range.
trait Word: Copy {
    ghost width: { Width };

    ghost value: { Self → ℤ };

    fn exact(self) -> i32
        ensures { result ≡ value self };

    // The nearest number of the width.
    fn nearest(exact: i64) -> Self
        ensures { value result ≡ clamp width exact };

    // Times 2 ^ k, wrapped to the width.
    fn up(self, k: u32) -> Self
        ensures { value result ≡ wrap width (value self *ℤ pos (2 ^ k)) };

    // Over 2 ^ k, rounded down.
    fn down(self, k: u32) -> Self
        ensures { value result ≡ shr_z (value self) (2 ^ k) };
}

impl Word for i16 {
    ghost width = { w16 };

    ghost value = { λ x. x };

    fn exact(self) -> i32 {
        i32::from(self)
    }

    fn nearest(exact: i64) -> i16 {
        exact.clamp(i64::from(i16::MIN), i64::from(i16::MAX)) as i16
    }

    fn up(self, k: u32) -> i16 {
        self.unbounded_shl(k)
    }

    fn down(self, k: u32) -> i16 {
        self.unbounded_shr(k)
    }
}

impl Word for i32 {
    ghost width = { w32 };

    ghost value = { λ x. x };

    fn exact(self) -> i32 {
        self
    }

    fn nearest(exact: i64) -> i32 {
        exact.clamp(i64::from(i32::MIN), i64::from(i32::MAX)) as i32
    }

    fn up(self, k: u32) -> i32 {
        self.unbounded_shl(k)
    }

    fn down(self, k: u32) -> i32 {
        self.unbounded_shr(k)
    }
}

// ---- sums and differences: of a clamp the compiler makes one addition and a test for overflow, and of the library's `saturating_add` twice as much

fn sum<W: Word>(x: W, y: W) -> W
    ensures { W.value result ≡ clamp W.width (W.value x +ℤ W.value y) }
{
    W::nearest(i64::from(x.exact()) + i64::from(y.exact()))
}

fn difference<W: Word>(x: W, y: W) -> W
    ensures { W.value result ≡ clamp W.width (W.value x -ℤ W.value y) }
{
    W::nearest(i64::from(x.exact()) - i64::from(y.exact()))
}

#[tactic(auto, using(numbers::proofs::Read::zreads), unfolding(crate::specs::Operations::add))]
pub fn add(x: i16, y: i16) -> i16
    ensures { result ≡ op.add x y }
{
    sum(x, y)
}

#[tactic(auto, using(numbers::proofs::Read::zreads), unfolding(crate::specs::Operations::sub))]
pub fn sub(x: i16, y: i16) -> i16
    ensures { result ≡ op.sub x y }
{
    difference(x, y)
}

#[tactic(auto, using(numbers::proofs::Read::zreads), unfolding(crate::specs::Operations::l_add))]
pub fn l_add(x: i32, y: i32) -> i32
    ensures { result ≡ op.l_add x y }
{
    sum(x, y)
}

#[tactic(auto, using(numbers::proofs::Read::zreads), unfolding(crate::specs::Operations::l_sub))]
pub fn l_sub(x: i32, y: i32) -> i32
    ensures { result ≡ op.l_sub x y }
{
    difference(x, y)
}

// ---- products and magnitudes

// The exact product.
pub fn product(x: i16, y: i16) -> i32
    ensures { result ≡ x *ℤ y }
{
    i32::from(x) * i32::from(y)
}

// The product in 32768ths, rounded down.
#[tactic(auto, using(numbers::proofs::Read::zreads, crate::proofs::Shift::right_back), unfolding(crate::specs::Operations::mult))]
pub fn mult(x: i16, y: i16) -> i16
    ensures { result ≡ op.mult x y }
{
    i16::nearest(i64::from(product(x, y) >> 15))
}

// The product in 32768ths, rounded to the nearest.
pub fn mult_r(x: i16, y: i16) -> i16
    ensures { result ≡ op.mult_r x y }
{
    i16::nearest(i64::from((product(x, y) + 16384) >> 15))
}

// The doubled product. 2^30 is the one product whose double does not fit. One test for it is faster than a saturated sum of each: the compiler works
// on four products at once.
pub fn l_mult(x: i16, y: i16) -> i32
    ensures { result ≡ op.l_mult x y }
{
    let p = product(x, y);
    if p == 1 << 30 { i32::MAX } else { p * 2 }
}

// The true magnitude, 2147483648 for the least number: what bounds and validity speak of.
pub fn magnitude(x: i32) -> u32
    ensures { result ≡ nat_abs x }
{
    x.unsigned_abs()
}

// The magnitude; that of -32768 is 32767.
#[tactic(auto, using(numbers::proofs::Read::zreads), unfolding(crate::specs::Operations::abs, numbers::specs::Clamp::clamp))]
pub fn abs(x: i16) -> i16
    ensures { result ≡ op.abs x }
{
    x.saturating_abs()
}

// The same of a long variable; that of -2147483648 is 2147483647.
#[tactic(auto, using(numbers::proofs::Read::zreads), unfolding(crate::specs::Operations::l_abs, numbers::specs::Clamp::clamp))]
pub fn l_abs(x: i32) -> i32
    ensures { result ≡ op.l_abs x }
{
    x.saturating_abs()
}

// ---- shifts: to the left it drops the bits pushed out, to the right it rounds down, and a negative amount is the opposite shift

// To the left by n.
#[tactic(auto, using(numbers::proofs::Read::zreads, crate::proofs::Shift::left_of, crate::proofs::Shift::left_opposite))]
fn left<W: Word>(x: W, n: i16) -> W
    ensures { W.value result ≡ op.shift_left W.width (W.value x) n }
{
    let k = u32::from(n.unsigned_abs());
    if n < 0 { x.down(k) } else { x.up(k) }
}

// To the right by n.
#[tactic(auto, using(numbers::proofs::Read::zreads, crate::proofs::Shift::right_of, crate::proofs::Shift::right_opposite))]
fn right<W: Word>(x: W, n: i16) -> W
    ensures { W.value result ≡ op.shift_right W.width (W.value x) n }
{
    let k = u32::from(n.unsigned_abs());
    if n < 0 { x.up(k) } else { x.down(k) }
}

pub fn shl(x: i16, n: i16) -> i16
    ensures { result ≡ op.shift_left w16 x n }
{
    left(x, n)
}

pub fn shr(x: i16, n: i16) -> i16
    ensures { result ≡ op.shift_right w16 x n }
{
    right(x, n)
}

pub fn l_shl(x: i32, n: i16) -> i32
    ensures { result ≡ op.shift_left w32 x n }
{
    left(x, n)
}

pub fn l_shr(x: i32, n: i16) -> i32
    ensures { result ≡ op.shift_right w32 x n }
{
    right(x, n)
}

// The low 16 bits of a long variable.
pub fn short(x: i32) -> i16
    ensures { result ≡ op.short x }
{
    (x << 16 >> 16) as i16
}

// The top half of a long variable shifted to the left.
#[tactic(auto, using(numbers::proofs::Read::zreads, crate::proofs::Top::top_back), unfolding(crate::specs::Operations::shift_right))]
pub fn topped(x: i32, n: i16) -> i16
    ensures { result ≡ op.topped x n }
{
    (l_shl(x, n) >> 16) as i16
}

// ---- norm

// The shift that brings the magnitude into 2^30..2^31-1, and 0 for 0. It is the number of zeros before the magnitude's first digit among 31. The machine
// counts among 32, so the magnitude is moved up by one. Nothing is left then of 0, nor of 2^31, the least number's: the norm of both is 0.
pub fn norm(x: i32) -> i16
    ensures { result ≡ op.norm x }
{
    let m = magnitude(x) << 1;
    if m == 0 { 0 } else { m.leading_zeros() as i16 }
}

// ---- division

// The quotient in 32768ths, rounded down; by 0 it is 0 for 0, and else the end of the range on the side of x.
pub fn div(x: i16, y: i16) -> i16
    ensures { result ≡ op.div x y }
{
    let n = i32::from(x) * 32768;
    let d = i32::from(y);
    let quotient = if y == 0 {
        n
    } else if y < 0 {
        (-n).div_euclid(-d)
    } else {
        n.div_euclid(d)
    };
    i16::nearest(i64::from(quotient))
}
