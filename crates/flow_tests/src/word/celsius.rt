//! A type of your own that fits a word: its packs are those of the number that it holds.
ghost use Rattle.std.specs.Int.{cast_signed};
ghost use Rattle.std.specs.Prelude.{◌^◌, ◌<◌};
ghost use Rattle.std.proofs.Common.{ap};
ghost use Rattle.flow_law.specs.flow.Packs.{below_word, signed_once};
ghost use mir.Syntax.{w32};

use flow_law::Packed;

/// A temperature in whole degrees.
#[derive(Clone, Copy, Debug, PartialEq, Eq)]
pub struct Celsius {
    pub degrees: i32,
}

impl Packed for Celsius {
    ghost packs = { λ w. w < 2 ^ 32 };

    ghost value_of = { λ w. record { degrees = cast_signed w32 w } };

    fn pack(self) -> u64 {
        self.degrees.pack()
    }

    fn unpack(word: u64) -> Celsius {
        Celsius {
            degrees: i32::unpack(word),
        }
    }

    ghost packs_fit = { below_word };

    ghost one_pack = { λ v w p q e. signed_once w32 v w p q (ap (λ c. c.degrees) e) };
}
