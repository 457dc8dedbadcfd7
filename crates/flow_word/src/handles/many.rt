//! Callers with a thread each, and what they did, once these threads have ended.
ghost use Rattle.std.specs.Prelude.{◌≡◌, ◌∷◌, ℕ, ◌<◌, All, IfOk, length, map, slice_index_or, vec_len};
ghost use Rattle.flow_law.specs.history.Rounds.{OnlyMeets, MeetsInTurn, IsFinalValue};
ghost use Rattle.flow_law.specs.flow.StateFlow.{state_flow};
ghost use Rattle.flow_word.specs.Handles.{MakesMany, AreNextSeats};

use super::setter::WordSetter;
use flow_law::{OutOfMemory, Packed};
use std::alloc::Global;
use std::sync::Wait;

impl<T: Packed> WordSetter<T> {
    /// Makes `count` more callers through this one. Call it before their threads start.
    ///
    /// # Errors
    /// `OutOfMemory` if there is no memory for them. The seats that were made by then are dropped.
    pub fn others<R: Wait>(
        &mut self,
        rt: &R,
        alloc: Global,
        count: u32,
    ) -> Result<Vec<WordSetter<T>>, OutOfMemory>
        ensures flow { self.new.flow ≡ self.old.flow }
        ensures maker { IfOk result (λ _. MakesMany count self.old.token self.new.token) }
        ensures count { IfOk result (λ made. vec_len made ≡ count) }
        ensures made { IfOk result (λ made.
            AreNextSeats self.old.flow self.old.token count made.items) }
    {
        let mut made = Vec::new(alloc);
        for _count in 0..count {
            if made.push(self.another(rt)).is_err() {
                return Err(OutOfMemory);
            }
        }
        Ok(made)
    }

    /// Meets each of the others, one after the other.
    ///
    /// Each of them has then seen what this caller had seen before, and this caller has seen what each of them had
    /// seen.
    pub fn meet_all(&mut self, others: &mut [WordSetter<T>])
        requires { All (λ c. c.flow.table_id ≡ self.old.flow.table_id) others.old }
        ensures flow { self.new.flow ≡ self.old.flow }
        ensures meets { OnlyMeets self.old.token self.new.token }
        ensures count { length others.new ≡ length others.old }
        ensures flows { (i : ℕ) (d : _) → i < length others.old →
            (slice_index_or others.new i d).flow ≡ (slice_index_or others.old i d).flow }
        ensures met { (i : ℕ) (d : _) → i < length others.old →
            MeetsInTurn state_flow self.old.flow.first self.old.token.knows self.new.token.knows
            (slice_index_or others.old i d).token (slice_index_or others.new i d).token }
    {
        for k in 0..others.len() {
            let other = &mut others[k];
            self.meet(other);
        }
    }

    /// Returns the value after all that this caller and the others did, and after nothing else under their names. Call
    /// it once the threads of the others have ended.
    ///
    /// All meet, the value is read, and all meet again. Because of the first round, the read comes after all that they
    /// did; the second round shows that none of them has done more.
    pub fn final_value(&mut self, others: &mut [WordSetter<T>]) -> T
        requires { All (λ c. c.flow.table_id ≡ self.old.flow.table_id) others.old }
        ensures flow { self.new.flow ≡ self.old.flow }
        ensures value { IsFinalValue self.old.flow.first
            (self.old.token.knows ∷ map (λ c. c.token.knows) others.old) result }
    {
        self.meet_all(others);
        let value = self.value();
        self.meet_all(others);
        value
    }
}
