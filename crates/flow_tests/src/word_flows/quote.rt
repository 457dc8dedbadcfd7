//! A type of your own of several words: a struct of two numbers.
ghost use Rattle.std.specs.Prelude.{◌≡◌, length, slice_index_or};
ghost use Rattle.std.proofs.Common.{ap};
ghost use Rattle.flow_law.specs.flow.Words.{two_fits, same_two};

use flow_law::Words;

/// A price in cents, and when it was made.
#[derive(Clone, Copy, PartialEq, Eq, Debug, Drop)]
pub struct Quote {
    pub cents: u64,
    pub nanos: u64,
}

impl Words for Quote {
    const WIDTH: usize = 2;

    ghost WIDTH = { 2 };

    ghost are_words = { λ ws. length ws ≡ 2 };

    ghost value_in = { λ ws. record { cents = slice_index_or ws 0 0; nanos = slice_index_or ws 1 0 } };

    fn words(self) -> [u64; 4] {
        [self.cents, self.nanos, 0, 0]
    }

    fn of_words(words: &[u64]) -> Quote {
        Quote {
            cents: words[0],
            nanos: words[1],
        }
    }

    ghost width_fits = { two_fits };

    ghost words_once = { λ v w p q e. same_two v w p q (ap (λ x. x.cents) e) (ap (λ x. x.nanos) e) };
}
