//! Values of one to four words of 64 bits, for flows that keep their values in words.
ghost use Rattle.std.specs.Prelude.{◌≡◌, ℕ, ◌<◌, ◌≤◌, List, take};
ghost use Rattle.flow_law.specs.flow.Words.{are_one, one_in, one_once, are_two, two_in, two_once, are_three, three_in, three_once, are_four, four_in, four_once, one_fits, two_fits, three_fits, four_fits};

use super::packed::{Half, Packed};

/// A type whose values are kept in a few words. Each value has one list of words, and no two values share one.
///
/// It is implemented for each `OneWord` type, and for tuples of two to four `Packed` values: each takes one word. Implement
/// it for a struct of yours.
pub trait Words {
    /// How many words a value has, from 1 to 4.
    const WIDTH: usize;

    ghost WIDTH: { ℕ };

    /// Whether a list of words is that of a value.
    ghost are_words: { List ℕ → Type 0 };

    /// The value of a list of words.
    ghost value_in: { List ℕ → Self };

    /// Returns the words of the value; those after the first `WIDTH` mean nothing.
    fn words(self) -> [u64; 4]
        ensures words { are_words (take WIDTH result) }
        ensures value { value_in (take WIDTH result) ≡ self };

    /// Returns the value of these words.
    fn of_words(words: &[u64]) -> Self
        requires { are_words words.now }
        ensures { result ≡ value_in words.now };

    ghost width_fits: { (0 < WIDTH) × (WIDTH ≤ 4) };

    /// Each value has only one list of words.
    ghost words_once: { (v w : List ℕ) → are_words v → are_words w → value_in v ≡ value_in w → v ≡ w };
}

/// A `Packed` type whose values are kept in their packs, in flows that take values of several words too. Pairs are not:
/// each side has a word there.
pub trait OneWord: Packed {}

impl OneWord for u64 {}

impl OneWord for u32 {}

impl OneWord for u16 {}

impl OneWord for u8 {}

impl OneWord for i64 {}

impl OneWord for i32 {}

impl OneWord for i16 {}

impl OneWord for i8 {}

impl OneWord for bool {}

impl OneWord for char {}

impl OneWord for () {}

impl<T: Half> OneWord for Option<T> {}

impl<T: OneWord> Words for T {
    const WIDTH: usize = 1;

    ghost WIDTH = { 1 };

    ghost are_words = { are_one T.packs };

    ghost value_in = { one_in T.value_of };

    #[inline(always)]
    fn words(self) -> [u64; 4] {
        [self.pack(), 0, 0, 0]
    }

    #[inline(always)]
    fn of_words(words: &[u64]) -> T {
        T::unpack(words[0])
    }

    ghost width_fits = { one_fits };

    ghost words_once = { one_once T.packs T.value_of T.one_pack };
}

impl<A: Packed, B: Packed> Words for (A, B) {
    const WIDTH: usize = 2;

    ghost WIDTH = { 2 };

    ghost are_words = { are_two A.packs B.packs };

    ghost value_in = { two_in A.value_of B.value_of };

    #[inline(always)]
    fn words(self) -> [u64; 4] {
        let (first, second) = self;
        [first.pack(), second.pack(), 0, 0]
    }

    #[inline(always)]
    fn of_words(words: &[u64]) -> (A, B) {
        (A::unpack(words[0]), B::unpack(words[1]))
    }

    ghost width_fits = { two_fits };

    ghost words_once = { two_once A.packs B.packs A.value_of B.value_of A.one_pack B.one_pack };
}

impl<A: Packed, B: Packed, C: Packed> Words for (A, B, C) {
    const WIDTH: usize = 3;

    ghost WIDTH = { 3 };

    ghost are_words = { are_three A.packs B.packs C.packs };

    ghost value_in = { three_in A.value_of B.value_of C.value_of };

    #[inline(always)]
    fn words(self) -> [u64; 4] {
        let (first, second, third) = self;
        [first.pack(), second.pack(), third.pack(), 0]
    }

    #[inline(always)]
    fn of_words(words: &[u64]) -> (A, B, C) {
        (
            A::unpack(words[0]),
            B::unpack(words[1]),
            C::unpack(words[2]),
        )
    }

    ghost width_fits = { three_fits };

    ghost words_once = { three_once A.packs B.packs C.packs A.value_of B.value_of C.value_of A.one_pack B.one_pack C.one_pack };
}

impl<A: Packed, B: Packed, C: Packed, D: Packed> Words for (A, B, C, D) {
    const WIDTH: usize = 4;

    ghost WIDTH = { 4 };

    ghost are_words = { are_four A.packs B.packs C.packs D.packs };

    ghost value_in = { four_in A.value_of B.value_of C.value_of D.value_of };

    #[inline(always)]
    fn words(self) -> [u64; 4] {
        let (first, second, third, fourth) = self;
        [first.pack(), second.pack(), third.pack(), fourth.pack()]
    }

    #[inline(always)]
    fn of_words(words: &[u64]) -> (A, B, C, D) {
        (
            A::unpack(words[0]),
            B::unpack(words[1]),
            C::unpack(words[2]),
            D::unpack(words[3]),
        )
    }

    ghost width_fits = { four_fits };

    ghost words_once = { four_once A.packs B.packs C.packs D.packs A.value_of B.value_of C.value_of D.value_of A.one_pack B.one_pack C.one_pack D.one_pack };
}
