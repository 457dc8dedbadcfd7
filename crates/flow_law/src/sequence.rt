//! Lists, for contracts.
ghost use Rattle.std.specs.Prelude.{◌≡◌, List, []};

use std::marker::{Model, PhantomData};

/// A list in a type that only contracts use. No value of this type is made, so it stores no items and drops none.
#[derive(Drop)]
pub struct Sequence<T> {
    items: PhantomData<T>,
}

impl<T> Model for Sequence<T> {
    ghost Value = { List T };

    ghost view = { λ _. [] };
}
