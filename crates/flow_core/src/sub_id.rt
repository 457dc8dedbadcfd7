//! Subscriptions by number.
ghost use Rattle.std.specs.Prelude.{◌≡◌};
ghost use Rattle.flow_core.specs.SubId.{number_of};

/// A subscription of a shared or state core, identified by its number. Two with the same number are equal, and a core
/// does not check which core issued the number.
#[derive(Clone, Copy, Debug)]
pub struct SubId {
    pub(crate) number: u64,
    /// The key under which the subscriber was last seen. A core looks there first.
    pub(crate) key: usize,
}

impl SubId {
    /// Returns the number that `subscribe` issued.
    pub fn number(self) -> u64
        ensures { result ≡ number_of self }
    {
        self.number
    }
}

impl PartialEq for SubId {
    ghost use Rattle.std.specs.Prelude.{nat_eq};
    ghost use Rattle.std.specs.Ordering.{on};
    ghost use Rattle.std.specs.Cmp.Rules.{comparing};
    ghost use borrow.Author.Rules.{rules};

    ghost eq = { on number_of nat_eq };

    ghost laws = { Prim.search (comparing, rules) };

    fn eq(&self, other: &SubId) -> bool {
        self.number == other.number
    }
}

impl Eq for SubId {
    ghost use Rattle.std.specs.Cmp.Rules.{comparing};
    ghost use borrow.Author.Rules.{rules};

    ghost laws = { Prim.search (comparing, rules) };
}
