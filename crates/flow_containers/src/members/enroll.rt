//! Adding a subscriber with its own first values.
ghost use Rattle.std.specs.Prelude.{◌≡◌, ◌<◌, ◌++◌, ◌∷◌, [], IfOk, MatchResult};
ghost use Rattle.flow_containers.specs.Members.{EntersAt};

use super::{Member, Members};
use crate::own_values::OwnValues;
use std::alloc::Allocator;

/// A subscriber's remaining own first values, and its position when it last moved.
#[derive(Drop)]
pub struct Row<T: Drop, A: Allocator> {
    pub own: OwnValues<T, A>,
    pub position: u64,
}

impl<T: Drop, A: Allocator> Members<Row<T, A>, A> {
    /// Adds a subscriber with its own first values, and returns its key. If memory is refused, returns the values.
    pub fn enroll(
        &mut self,
        number: u64,
        first: Vec<T, A>,
        position: u64,
    ) -> Result<usize, Vec<T, A>>
        requires { self.old.last < number }
        ensures key { IfOk result (λ key. EntersAt number key self.old.by_key self.new.by_key) }
        ensures added { MatchResult result
            (λ _key. (self.new.members ≡
            self.old.members ++
            record {
              number = number;
              row = record { own = first.items; position = position };
            } ∷ [])
            × (self.new.last ≡ number))
            (λ refused. (refused ≡ first) × (self.new ≡ self.old)) }
    {
        if self.slab.reserve(1).is_err() {
            return Err(first);
        }
        let row = Row {
            own: OwnValues::new(first),
            position,
        };
        let key = self.slab.insert_reserved(Member { number, row });
        self.last = number;
        Ok(key)
    }
}
