//! Removing the sleepers that have something after a call, and waking them.
ghost use Rattle.std.specs.Prelude.{◌≡◌, ◌⊎◌, ℕ, []};
ghost use Rattle.std.specs.Bool.{OnTrue};
ghost use Rattle.flow_shared.specs.declared.core_call.Then.TheVariants.{Watch};
ghost use Rattle.flow_shared.specs.declared.core_call.Watching.TheVariants.{Ends, AllEnd};
ghost use Rattle.flow_shared.specs.Attended.{Attends, Rests, Lasts, Watches, without_reader, without_emitter, without_watcher};

use super::Attended;
use crate::core_call::{Then, Watching};
use flow_core::{ReaderCalls, Signs};
use flow_law::Touch;
use flow_sleepers::Woken;
use std::alloc::{Allocator, Global};

/// The sleepers that a call removed and that are woken after it has left the gate. It has no `Drop`: it ends by `wake`.
pub(crate) struct ToWake<A: Allocator = Global> {
    pub(crate) readers: Woken<A>,
    pub(crate) emitters: Woken<A>,
    pub(crate) watchers: Woken<A>,
}

impl<A: Allocator + Copy> ToWake<A> {
    /// Returns a list of no sleepers. Does not allocate.
    pub(crate) fn new(alloc: A) -> Self {
        ToWake {
            readers: Woken::new(alloc),
            emitters: Woken::new(alloc),
            watchers: Woken::new(alloc),
        }
    }

    /// Wakes the sleepers.
    pub(crate) fn wake(self) {
        let Self {
            readers,
            emitters,
            watchers,
        } = self;
        readers.wake();
        emitters.wake();
        watchers.wake();
    }
}

fn is_same(one: Option<u64>, other: Option<u64>) -> bool
    ensures { OnTrue result (one ≡ other) }
{
    match (one, other) {
        (Some(one), Some(other)) => one == other,
        (None, None) => true,
        _ => false,
    }
}

impl<S: ReaderCalls, A: Allocator + Copy> Attended<S, A> {
    /// Removes all readers.
    fn remove_readers(&mut self, woken: &mut ToWake<A>)
        ensures core { self.new.core ≡ self.old.core }
        ensures readers { self.new.readers ≡ [] }
        ensures emitters { self.new.emitters ≡ self.old.emitters }
        ensures woken { (self.old.readers ≡ []) ⊎ (woken.new.readers ≡ self.old.readers) }
    {
        if !self.readers.is_empty() {
            woken.readers.replace(self.readers.take_all());
        }
    }

    /// Removes all watchers.
    fn remove_watchers(&mut self, woken: &mut ToWake<A>)
        ensures core { self.new.core ≡ self.old.core }
        ensures readers { self.new.readers ≡ self.old.readers }
        ensures emitters { self.new.emitters ≡ self.old.emitters }
        ensures watchers { self.new.watchers ≡ [] }
        ensures woken { woken.new.watchers ≡ self.old.watchers }
    {
        woken.watchers.replace(self.watchers.take_all());
    }

    /// Removes the readers and the emitter that the call touched. The reader that it ended and the emitter are woken at
    /// once.
    pub(super) fn remove_touched(&mut self, touches: Touch, woken: &mut ToWake<A>)
        ensures core { self.new.core ≡ self.old.core }
        ensures readers { self.new.readers ≡ without_reader touches self.old.readers }
        ensures emitters { self.new.emitters ≡ without_emitter touches self.old.emitters }
    {
        match touches {
            Touch::NoSleeper => {}
            Touch::Subscriber(number) => self.readers.wake(number),
            Touch::Subscribers => self.remove_readers(woken),
            Touch::Emission(number) => self.emitters.wake(number),
        }
    }

    /// Removes all readers if they may have something now: if the core's mark has changed.
    fn remove_readers_if_due(&mut self, mark: u64, woken: &mut ToWake<A>)
        ensures core { self.new.core ≡ self.old.core }
        ensures readers { Rests S.sleeping S.stands_as
            self.old.core mark self.old.readers self.new.readers }
        ensures emitters { self.new.emitters ≡ self.old.emitters }
    {
        if self.core.signs().mark != mark {
            self.remove_readers(woken);
        }
    }

    /// Removes the emitters whose emissions have ended. `first` was the first emission that waited.
    fn remove_emitters_if_due(&mut self, first: Option<u64>, woken: &mut ToWake<A>)
        ensures core { self.new.core ≡ self.old.core }
        ensures readers { self.new.readers ≡ self.old.readers }
        ensures emitters { Lasts S.sleeping S.stands_as
            self.old.core first self.old.emitters self.new.emitters }
    {
        if self.emitters.is_empty() {
            return;
        }
        let now = self.core.signs().first_waiting;
        if is_same(now, first) {
            return;
        }
        match now {
            Some(number) => self.emitters.wake_below(number),
            None => woken.emitters.replace(self.emitters.take_all()),
        }
    }

    /// Removes all watchers if the number of subscribers differs from the one that they have seen.
    fn remove_watchers_if_due(&mut self, woken: &mut ToWake<A>)
        ensures core { self.new.core ≡ self.old.core }
        ensures readers { self.new.readers ≡ self.old.readers }
        ensures emitters { self.new.emitters ≡ self.old.emitters }
        ensures watchers { Watches S.sleeping S.stands_as
            self.old.core self.new.watchers self.new.watched }
    {
        if self.watchers.is_empty() {
            return;
        }
        if self.core.signs().subscribers == self.watched {
            return;
        }
        self.remove_watchers(woken);
    }

    /// Removes the sleepers that have something after a call. `before` is what the core's signs were.
    pub(super) fn remove_due(&mut self, before: Signs, woken: &mut ToWake<A>)
        ensures core { self.new.core ≡ self.old.core }
        ensures readers { Rests S.sleeping S.stands_as
            self.old.core before.mark self.old.readers self.new.readers }
        ensures emitters { Lasts S.sleeping S.stands_as
            self.old.core before.first_waiting self.old.emitters self.new.emitters }
        ensures watchers { Watches S.sleeping S.stands_as
            self.old.core self.new.watchers self.new.watched }
    {
        self.remove_readers_if_due(before.mark, woken);
        self.remove_emitters_if_due(before.first_waiting, woken);
        self.remove_watchers_if_due(woken);
    }

    /// Removes watchers, if that is what the caller does.
    pub(super) fn unwatch(&mut self, then: Then, woken: &mut ToWake<A>)
        ensures stays { (s : S.State) → Attends S.sleeping S.stands_as self.old s
            → Attends S.sleeping S.stands_as self.new s }
        ensures core { self.new.core ≡ self.old.core }
        ensures ends { (number : ℕ) → then ≡ Watch (Ends number)
            → self.new.watchers ≡ without_watcher number self.old.watchers }
        ensures all_end { (then ≡ Watch AllEnd)
            → (self.new.watchers ≡ []) × (woken.new.watchers ≡ self.old.watchers) }
    {
        match then {
            Then::Watch(Watching::Ends(number)) => self.watchers.wake(number),
            Then::Watch(Watching::AllEnd) => self.remove_watchers(woken),
            _ => {}
        }
    }
}
