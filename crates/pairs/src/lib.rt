// Pseudo-floating numbers of clause 6, and which of two is the greater.
#![tactic(auto)]

ghost use Rattle.std.specs.Prelude.{◌≡◌};
ghost use Rattle.pairs.specs.Pairs.{greater_of};

// The pair (e, m) means m times 2^(e - 15). The order of the fields is that of the comparison: the exponents decide, and the mantissas where those are
// equal.
#[derive(Clone, Copy, PartialEq, Eq, PartialOrd, Ord)]
pub struct Pair {
    pub e: i16,
    pub m: i16,
}

// Whether a is greater than b.
pub fn greater(a: Pair, b: Pair) -> bool
    ensures { result ≡ greater_of a b }
{
    a > b
}
