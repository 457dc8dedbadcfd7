//! Updates by a function of the value, through a handle.
ghost use Rattle.std.specs.Prelude.{◌≡◌};
ghost use Rattle.flow_law.specs.history.Updates.{Updates};

use super::setter::WordSetter;
use flow_law::Packed;
use std::sync::Wait;

impl<T: Packed> WordSetter<T> {
    /// Updates the value by a function of it.
    ///
    /// The function may be called several times: if the value is no longer the one that was read, because another
    /// caller set it in between, the update reads again. No other caller waits while the function runs.
    pub fn update<R: Wait, F: Fn(T) -> T>(&mut self, rt: &R, f: F)
        requires callable { F.IsAlwaysCallable f }
        ensures flow { self.new.flow ≡ self.old.flow }
        ensures updates { (read : _) × (set : _)
            × Updates self.old.flow.first (F.post f) self.old.token read set self.new.token }
    {
        self.flow.update(rt, &mut self.seat, f);
    }

    /// Updates the value as `update` does, and returns the previous value.
    pub fn get_and_update<R: Wait, F: Fn(T) -> T>(&mut self, rt: &R, f: F) -> T
        requires callable { F.IsAlwaysCallable f }
        ensures flow { self.new.flow ≡ self.old.flow }
        ensures updates { (set : _)
            × Updates self.old.flow.first (F.post f) self.old.token result set self.new.token }
    {
        self.flow.get_and_update(rt, &mut self.seat, f)
    }

    /// Updates the value as `update` does, and returns the new value.
    pub fn update_and_get<R: Wait, F: Fn(T) -> T>(&mut self, rt: &R, f: F) -> T
        requires callable { F.IsAlwaysCallable f }
        ensures flow { self.new.flow ≡ self.old.flow }
        ensures updates { (read : _)
            × Updates self.old.flow.first (F.post f) self.old.token read result self.new.token }
    {
        self.flow.update_and_get(rt, &mut self.seat, f)
    }
}
