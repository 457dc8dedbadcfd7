//! The threads of a crowd that emit.
ghost use Rattle.std.specs.Prelude.{◌≡◌, [], ◌+◌, ◌*◌, ◌<◌, ◌≤◌, ◌^◌, ℕ, IfSome, slice_index_or, vec_capacity, vec_len};
ghost use Rattle.flow_program.specs.Crowds.{HasSent, HasSentAs, WillEmit};

use crate::crowd::sending::send_all;
use flow_shared::Emitter;
use std::alloc::Global;
use std::snapshot::Snapshot;
use std::sync::Wait;
use std::thread::{Promise, PromisedHandle, Scope, Threads};

/// The promise of a thread that emits: it returns its emitter, through which it has sent `count` numbers, from `first`
/// on.
#[derive(Drop)]
pub struct EmitsAll {
    pub emitter: Snapshot<Emitter<u64>>,
    pub first: u64,
    pub count: u64,
}

impl Promise<Emitter<u64>> for EmitsAll {
    ghost use Rattle.flow_program.specs.Crowds.{HasSent};

    ghost kept_by = { λ p emitter. HasSent p.first p.count p.emitter.value emitter };
}

/// A thread that emits.
pub type EmittingThread = PromisedHandle<Emitter<u64>, EmitsAll>;

/// Emits `count` numbers, from `first` on, and returns the emitter.
fn emit_all<R: Wait>(rt: &R, emitter: Emitter<u64>, first: u64, count: u64) -> Emitter<u64>
    requires { first + count ≤ 2 ^ 64 }
    ensures { HasSent first count emitter result }
{
    let mut emitter = emitter;
    send_all(rt, &mut emitter, first, count);
    emitter
}

/// Starts a thread that emits `count` numbers, from `first` on. `None` if no thread can be made.
pub fn start_emitter<'s, E, R: Wait + Sync>(
    rt: &'s R,
    scope: &Scope<'s, E>,
    emitter: Emitter<u64>,
    first: u64,
    count: u64,
) -> Option<EmittingThread>
    requires { first + count ≤ 2 ^ 64 }
    ensures { IfSome result (λ thread. WillEmit emitter first count thread.promise) }
{
    let promise = EmitsAll {
        emitter: Snapshot::of(&emitter),
        first,
        count,
    };
    scope
        .spawn_with(promise, move || emit_all(rt, emitter, first, count))
        .ok()
}

/// Starts a thread for each emitter. The i-th of them, from 0, emits `values` numbers, from `i * values` on. `None` if
/// memory or a thread was refused: then the others are dropped.
pub fn start_emitters<'s, E, R: Wait + Sync>(
    rt: &'s R,
    alloc: Global,
    scope: &Scope<'s, E>,
    emitters: Vec<Emitter<u64>>,
    values: u64,
) -> Option<Vec<EmittingThread>>
    requires count { vec_len emitters < 2 ^ 32 }
    requires values { values < 2 ^ 32 }
    ensures count { IfSome result (λ threads. vec_len threads ≡ vec_len emitters) }
    ensures promised { IfSome result (λ threads. (i : ℕ) (d e : _) → i < vec_len emitters →
        WillEmit (slice_index_or emitters.items i e) (i * values) values
        (slice_index_or threads.items i d).promise) }
{
    let mut threads = Vec::with_capacity(alloc, emitters.len()).ok()?;
    let mut first = 0u64;
    for emitter in emitters {
        let thread = start_emitter(rt, scope, emitter, first, values)?;
        threads.push_reserved(thread);
        first += values;
    }
    Some(threads)
}

/// Waits until all threads have ended, and adds their emitters to a list that is empty and has room for them.
pub fn join_emitters<R: Threads>(
    rt: &R,
    threads: Vec<EmittingThread>,
    emitters: &mut Vec<Emitter<u64>>,
)
    requires empty { emitters.old.items ≡ [] }
    requires room { vec_len threads ≤ vec_capacity emitters.old }
    ensures count { vec_len emitters.new ≡ vec_len threads }
    ensures sent { (i : ℕ) (d t : _) → i < vec_len threads → HasSentAs
        (slice_index_or threads.items i t).promise (slice_index_or emitters.new.items i d) }
{
    for thread in threads {
        emitters.push_reserved(thread.join(rt));
    }
}
