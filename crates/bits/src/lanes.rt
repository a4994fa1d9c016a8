// Numbers of so many bits, each bit a lane of its own: what the types u16, u32 and u64 have in common. Code over a `Lanes` adds, masks and
// shifts all of a number's bits at once, and is written once for all three.
ghost use Rattle.std.specs.Prelude.{◌≡◌, ℕ, ◌*◌, ◌/◌, ◌%◌, ◌^◌, ◌<◌};
ghost use Rattle.std.specs.Int.Bits.{bit_and};
ghost use Rattle.bits.specs.Xor.{◌⊕◌};

use std::ops::{BitAnd, Shl, Shr};

// `number` is what a value is in definitions, and `width` how many bits it has. Each law says what an operator gives. Exclusive or is a
// method: its contract also says that the sum has no more bits, which no law over all of `Self` can.
pub trait Lanes: Copy
    + BitAnd<Self, Output = Self>
    + Shl<u32, Output = Self>
    + Shr<u32, Output = Self> {
    ghost width: { ℕ };

    ghost number: { Self → ℕ };

    // Lane by lane the sum over GF(2).
    fn xor(self, other: Self) -> Self
        ensures { (number result ≡ number self ⊕ number other) × (number result < 2 ^ width) };

    ghost can_and: { (x y : Self) → Self.can_bitand x y };

    ghost and_is: { (x y r : Self) → Self.bitand_gives x y r → number r ≡ bit_and (number x) (number y) };

    ghost can_shift_left: { (x : Self) (n : ℕ) → n < width → Self.can_shl x n };

    ghost shift_left_is: { (x : Self) (n : ℕ) (r : Self) → Self.shl_gives x n r → number r ≡ number x * 2 ^ n % 2 ^ width };

    ghost can_shift_right: { (x : Self) (n : ℕ) → n < width → Self.can_shr x n };

    ghost shift_right_is: { (x : Self) (n : ℕ) (r : Self) → Self.shr_gives x n r → number r ≡ number x / 2 ^ n };
}

impl Lanes for u16 {
    ghost width = { 16 };

    ghost number = { λ x. x };

    fn xor(self, other: u16) -> u16 {
        self ^ other
    }

    ghost can_and = { λ x y. tt };

    ghost and_is = { λ x y r e. e };

    ghost can_shift_left = { λ x n l. l };

    ghost shift_left_is = { λ x n r e. e };

    ghost can_shift_right = { λ x n l. l };

    ghost shift_right_is = { λ x n r e. e };
}

impl Lanes for u32 {
    ghost width = { 32 };

    ghost number = { λ x. x };

    fn xor(self, other: u32) -> u32 {
        self ^ other
    }

    ghost can_and = { λ x y. tt };

    ghost and_is = { λ x y r e. e };

    ghost can_shift_left = { λ x n l. l };

    ghost shift_left_is = { λ x n r e. e };

    ghost can_shift_right = { λ x n l. l };

    ghost shift_right_is = { λ x n r e. e };
}

impl Lanes for u64 {
    ghost width = { 64 };

    ghost number = { λ x. x };

    fn xor(self, other: u64) -> u64 {
        self ^ other
    }

    ghost can_and = { λ x y. tt };

    ghost and_is = { λ x y r e. e };

    ghost can_shift_left = { λ x n l. l };

    ghost shift_left_is = { λ x n r e. e };

    ghost can_shift_right = { λ x n l. l };

    ghost shift_right_is = { λ x n r e. e };
}
