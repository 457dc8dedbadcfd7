//! Options and pairs that fit a word, because their parts fit half of one.
ghost use Rattle.std.specs.Prelude.{◌≡◌, ◌^◌, ◌<◌};
ghost use Rattle.flow_law.specs.flow.Packs.{packs_option, option_of, packs_pair, pair_of, option_fits, option_once, pair_fits, pair_once};

use super::packed::{Half, Packed};

impl<T: Half> Packed for Option<T> {
    ghost packs = { packs_option T.packs };

    ghost value_of = { option_of T.value_of };

    fn pack(self) -> u64 {
        match self {
            None => 0,
            Some(value) => value.pack() + 1,
        }
    }

    fn unpack(word: u64) -> Option<T> {
        if word == 0 {
            None
        } else {
            Some(T::unpack(word - 1))
        }
    }

    ghost packs_fit = { option_fits T.packs T.value_of T.packs_half };

    ghost one_pack = { option_once T.packs T.value_of T.one_pack };
}

impl<A: Half, B: Half> Packed for (A, B) {
    ghost packs = { packs_pair A.packs B.packs };

    ghost value_of = { pair_of A.value_of B.value_of };

    fn pack(self) -> u64 {
        let (first, second) = self;
        first.pack() * (1 << 32) + second.pack()
    }

    fn unpack(word: u64) -> (A, B) {
        (A::unpack(word / (1 << 32)), B::unpack(word % (1 << 32)))
    }

    ghost packs_fit = { pair_fits A.packs B.packs A.value_of B.value_of A.packs_half };

    ghost one_pack = { pair_once A.packs B.packs A.value_of B.value_of A.one_pack B.one_pack };
}
