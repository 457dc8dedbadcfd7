//! The subscribers of a flow, each under a key of a slab.
//!
//! A subscriber is found by its number. The key under which it was last seen is a hint: if the entry there has another
//! number, all entries are searched.
ghost use Rattle.std.specs.Prelude.{◌≡◌, ℕ, ◌+◌, ◌<◌, ◌≤◌, ◌++◌, [], ◌∷◌, length, Some, None, IfOk, IfSome, IfNone, IsSomeAnd, MatchResult, MatchOption, is_some, option_copied};
ghost use Rattle.std.specs.Option.{option_copied_mut};
ghost use Rattle.std.specs.Borrow.{sem};
ghost use Rattle.slab.specs.Slab.{get};
ghost use Rattle.flow_law.specs.laws.Laws.{RisesTo};
ghost use Rattle.flow_containers.specs.Members.{member_numbers, row_of, with_row, without_number, take_out, EntersAt, OthersStay};

mod enroll;

pub use enroll::Row;
use slab::Slab;
use std::alloc::Allocator;
use std::marker::Model;

/// One subscriber.
#[derive(Drop)]
pub struct Member<R> {
    /// The number that its `subscribe` issued.
    pub number: u64,
    /// What the flow keeps about it.
    pub row: R,
}

/// Subscribers, in the order of their numbers.
#[derive(Drop)]
pub struct Members<R: Drop, A: Allocator> {
    slab: Slab<Member<R>, A>,
    last: u64,
}

impl<R: Drop, A: Allocator> Model for Members<R, A> {
    ghost use Rattle.flow_containers.specs.Members.{Membership, membership_of, HasSoundNumbers};

    ghost Value = { Membership R };

    ghost view = { membership_of };

    ghost invariant = { HasSoundNumbers };
}

/// Returns the key of the subscriber of this number. Looks at the hint first, then at every entry.
fn key_of<R: Drop, A: Allocator>(
    slab: &Slab<Member<R>, A>,
    number: u64,
    hint: usize,
) -> Option<usize>
    ensures found { IfSome result (λ key.
        IsSomeAnd (get slab.now key) (λ member. member.number ≡ number)) }
    ensures absent { IfNone result ((key : ℕ) (member : Member R) →
        get slab.now key ≡ Some member → member.number ≡ number → ⊥) }
{
    if let Some(member) = slab.get(hint)
        && member.number == number
    {
        return Some(hint);
    }
    for (key, member) in slab.iter() {
        if member.number == number {
            return Some(key);
        }
    }
    None
}

impl<R: Drop, A: Allocator> Members<R, A> {
    ghost use Rattle.flow_containers.specs.MembersLends.{lends_row};

    /// Returns an empty list. Does not allocate.
    pub fn new(alloc: A) -> Self
        ensures empty { result.members ≡ [] }
        ensures last { result.last ≡ 0 }
        ensures keys { result.by_key ≡ [] }
    {
        Members {
            slab: Slab::new(alloc),
            last: 0,
        }
    }

    /// Returns the number of the subscriber that came last, or 0.
    pub fn last(&self) -> u64
        ensures { result ≡ self.now.last }
    {
        self.last
    }

    /// Returns the number of subscribers.
    pub fn len(&self) -> usize
        ensures value { result ≡ length self.now.members }
        // This holds for every list: a caller learns here that all numbers differ.
        ensures rising { RisesTo 0 (member_numbers self.now.members) self.now.last }
    {
        self.slab.len()
    }

    /// Returns what is kept about a subscriber.
    pub fn get(&self, number: u64, hint: usize) -> Option<&R>
        ensures { option_copied result ≡ row_of number self.now.members }
    {
        let key = key_of(&self.slab, number, hint)?;
        match self.slab.get(key) {
            Some(member) => Some(&member.row),
            None => None,
        }
    }

    /// Adds a subscriber, and returns its key. If memory is refused, returns the row.
    pub fn insert(&mut self, number: u64, row: R) -> Result<usize, R>
        requires { self.old.last < number }
        ensures key { IfOk result (λ key. EntersAt number key self.old.by_key self.new.by_key) }
        ensures added { MatchResult result
            (λ _key. (self.new.members ≡
            self.old.members ++ record { number = number; row = row } ∷ [])
            × (self.new.last ≡ number))
            (λ refused. (refused ≡ row) × (self.new ≡ self.old)) }
    {
        match self.slab.insert(Member { number, row }) {
            Ok(key) => {
                self.last = number;
                Ok(key)
            }
            Err(refused) => Err(refused.value.row),
        }
    }

    /// Returns a mutable reference to what is kept about a subscriber.
    pub fn get_mut(&mut self, number: u64, hint: usize) -> Option<&mut R>
        ensures* writes_back { sem 𝓛 (lends_row R.row A.row A.Allocator self.entry number result) }
        ensures value { option_copied_mut result ≡ row_of number self.old.members }
    {
        match key_of(&self.slab, number, hint) {
            Some(key) => match self.slab.get_mut(key) {
                Some(member) => Some(&mut member.row),
                None => None,
            },
            None => None,
        }
    }

    /// Replaces what is kept about a subscriber, if it is present.
    pub fn set(&mut self, number: u64, hint: usize, row: R)
        ensures members { self.new.members ≡ with_row number row self.old.members }
        ensures last { self.new.last ≡ self.old.last }
        ensures keys { self.new.by_key ≡ self.old.by_key }
    {
        if let Some(kept) = self.get_mut(number, hint) {
            *kept = row;
        }
    }

    /// Removes a subscriber, and returns what was kept about it.
    pub fn remove(&mut self, number: u64, hint: usize) -> Option<R>
        ensures value { result ≡ row_of number self.old.members }
        ensures members { self.new.members ≡ without_number number self.old.members }
        ensures one { self.new.members ≡ take_out number self.old.members }
        ensures last { self.new.last ≡ self.old.last }
        ensures others { OthersStay number self.old.by_key self.new.by_key }
    {
        let key = key_of(&self.slab, number, hint)?;
        Some(self.slab.remove(key).row)
    }
}
