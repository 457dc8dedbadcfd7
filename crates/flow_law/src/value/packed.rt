//! Values that fit a word of 64 bits, for flows that keep their value in one word.
ghost use Rattle.std.specs.Char.{IsScalar};
ghost use Rattle.std.specs.Int.{cast_signed};
ghost use Rattle.std.specs.Prelude.{◌≡◌, ℕ, ◌^◌, ◌<◌, ◌==◌};
ghost use Rattle.std.proofs.Common.{sym, ◌∙◌};
ghost use Rattle.flow_law.specs.flow.Packs.{below_word, short_below, byte_below, bit_below, scalar_below, none_below, bit_once, signed_once};
ghost use mir.Syntax.{w8, w16, w32, w64};

/// A type whose values are packed into a word. Each value has one pack, and no two values share one, so words can be
/// compared instead of values.
pub trait Packed {
    /// Whether a word is a pack.
    ghost packs: { ℕ → Type 0 };

    /// The value of a pack.
    ghost value_of: { ℕ → Self };

    /// Returns the pack of the value.
    fn pack(self) -> u64
        ensures packs { packs result }
        ensures value { value_of result ≡ self };

    /// Returns the value of a pack.
    fn unpack(word: u64) -> Self
        requires { packs word }
        ensures { result ≡ value_of word };

    /// Every pack fits a word.
    ghost packs_fit: { (w : ℕ) → packs w → w < 2 ^ 64 };

    /// Each value has only one pack.
    ghost one_pack: { (v w : ℕ) → packs v → packs w → value_of v ≡ value_of w → v ≡ w };
}

/// A type whose packs fit half a word, so that two of them, or one and a mark, fit a whole word.
pub trait Half: Packed {
    ghost packs_half: { (w : ℕ) → Self.Packed.packs w → w < 2 ^ 32 };
}

impl Packed for u64 {
    ghost packs = { λ w. w < 2 ^ 64 };

    ghost value_of = { λ w. w };

    fn pack(self) -> u64 {
        self
    }

    fn unpack(word: u64) -> u64 {
        word
    }

    ghost packs_fit = { λ w h. h };

    ghost one_pack = { λ v w p q e. e };
}

impl Packed for u32 {
    ghost packs = { λ w. w < 2 ^ 32 };

    ghost value_of = { λ w. w };

    fn pack(self) -> u64 {
        u64::from(self)
    }

    fn unpack(word: u64) -> u32 {
        word as u32
    }

    ghost packs_fit = { below_word };

    ghost one_pack = { λ v w p q e. e };
}

impl Half for u32 {
    ghost packs_half = { λ w h. h };
}

impl Packed for u16 {
    ghost packs = { λ w. w < 2 ^ 16 };

    ghost value_of = { λ w. w };

    fn pack(self) -> u64 {
        u64::from(self)
    }

    fn unpack(word: u64) -> u16 {
        word as u16
    }

    ghost packs_fit = { λ w h. below_word w (short_below w h) };

    ghost one_pack = { λ v w p q e. e };
}

impl Half for u16 {
    ghost packs_half = { short_below };
}

impl Packed for u8 {
    ghost packs = { λ w. w < 2 ^ 8 };

    ghost value_of = { λ w. w };

    fn pack(self) -> u64 {
        u64::from(self)
    }

    fn unpack(word: u64) -> u8 {
        word as u8
    }

    ghost packs_fit = { λ w h. below_word w (byte_below w h) };

    ghost one_pack = { λ v w p q e. e };
}

impl Half for u8 {
    ghost packs_half = { byte_below };
}

impl Packed for i64 {
    ghost packs = { λ w. w < 2 ^ 64 };

    ghost value_of = { cast_signed w64 };

    fn pack(self) -> u64 {
        self.cast_unsigned()
    }

    fn unpack(word: u64) -> i64 {
        word.cast_signed()
    }

    ghost packs_fit = { λ w h. h };

    ghost one_pack = { signed_once w64 };
}

impl Packed for i32 {
    ghost packs = { λ w. w < 2 ^ 32 };

    ghost value_of = { cast_signed w32 };

    fn pack(self) -> u64 {
        u64::from(self.cast_unsigned())
    }

    fn unpack(word: u64) -> i32 {
        (word as u32).cast_signed()
    }

    ghost packs_fit = { below_word };

    ghost one_pack = { signed_once w32 };
}

impl Half for i32 {
    ghost packs_half = { λ w h. h };
}

impl Packed for i16 {
    ghost packs = { λ w. w < 2 ^ 16 };

    ghost value_of = { cast_signed w16 };

    fn pack(self) -> u64 {
        u64::from(self.cast_unsigned())
    }

    fn unpack(word: u64) -> i16 {
        (word as u16).cast_signed()
    }

    ghost packs_fit = { λ w h. below_word w (short_below w h) };

    ghost one_pack = { signed_once w16 };
}

impl Half for i16 {
    ghost packs_half = { short_below };
}

impl Packed for i8 {
    ghost packs = { λ w. w < 2 ^ 8 };

    ghost value_of = { cast_signed w8 };

    fn pack(self) -> u64 {
        u64::from(self.cast_unsigned())
    }

    fn unpack(word: u64) -> i8 {
        (word as u8).cast_signed()
    }

    ghost packs_fit = { λ w h. below_word w (byte_below w h) };

    ghost one_pack = { signed_once w8 };
}

impl Half for i8 {
    ghost packs_half = { byte_below };
}

impl Packed for bool {
    ghost packs = { λ w. w < 2 };

    ghost value_of = { λ w. w == 1 };

    fn pack(self) -> u64 {
        u64::from(self)
    }

    fn unpack(word: u64) -> bool {
        word == 1
    }

    ghost packs_fit = { λ w h. below_word w (bit_below w h) };

    ghost one_pack = { bit_once };
}

impl Half for bool {
    ghost packs_half = { bit_below };
}

impl Packed for char {
    ghost packs = { IsScalar };

    ghost value_of = { λ w. w };

    fn pack(self) -> u64 {
        u64::from(self)
    }

    fn unpack(word: u64) -> char {
        char::from_u32(word as u32).unwrap()
    }

    ghost packs_fit = { λ w h. below_word w (scalar_below w h) };

    ghost one_pack = { λ v w p q e. e };
}

impl Half for char {
    ghost packs_half = { scalar_below };
}

impl Packed for () {
    ghost packs = { λ w. w ≡ 0 };

    ghost value_of = { λ w. tt };

    fn pack(self) -> u64 {
        0
    }

    fn unpack(_word: u64) {}

    ghost packs_fit = { λ w h. below_word w (none_below w h) };

    ghost one_pack = { λ v w p q e. p ∙ sym q };
}

impl Half for () {
    ghost packs_half = { none_below };
}
