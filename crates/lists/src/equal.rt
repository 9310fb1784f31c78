// Lists compared with one another and with zeros, whatever the width of their numbers.
ghost use Rattle.std.specs.Prelude.{◌≡◌, ◌↔◌, true, length, replicate};
ghost use Rattle.std.specs.Bool.{Decides};
ghost use Rattle.std.proofs.lemmas.Bool.Decides.{Decides-eqb};

// A number of some width: its zero, and that `==` tells any two apart.
pub trait Number: Copy + PartialEq {
    ghost ZERO: { Self };

    const ZERO: Self;

    ghost exact: { (a b : Self) → Decides (Self.eq a b) (a ≡ b) };
}

impl Number for u8 {
    ghost ZERO = { 0 };

    ghost exact = { Decides-eqb };

    const ZERO: u8 = 0;
}

impl Number for u32 {
    ghost ZERO = { 0 };

    ghost exact = { Decides-eqb };

    const ZERO: u32 = 0;
}

impl Number for u64 {
    ghost ZERO = { 0 };

    ghost exact = { Decides-eqb };

    const ZERO: u64 = 0;
}

pub fn same<T: Number>(a: &[T], b: &[T]) -> bool
    ensures { (result ≡ true) ↔ (a.now ≡ b.now) }
{
    a == b
}

pub fn zero<T: Number>(s: &[T]) -> bool
    ensures { (result ≡ true) ↔ (s.now ≡ replicate (length s.now) T.ZERO) }
{
    let zero = T::ZERO;
    s.iter().all(|x| *x == zero)
}
