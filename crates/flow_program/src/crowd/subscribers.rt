//! The subscribers of a crowd, and their threads.
ghost use Rattle.std.specs.Prelude.{◌≡◌, [], ◌+◌, ◌<◌, ◌≤◌, ℕ, IfSome, slice_index_or, vec_capacity, vec_len};
ghost use Rattle.flow_law.specs.history.Done.{done_by};
ghost use Rattle.flow_program.specs.Crowds.{HasTaken, HasTakenAs, IsMaker, IsNewSubscription, WillRead};

use crate::crowd::receiving::receive_all;
use flow_shared::{Emitter, Reader};
use std::alloc::Global;
use std::snapshot::Snapshot;
use std::sync::Wait;
use std::thread::{Promise, PromisedHandle, Scope, Threads};
use std::vec::IntoIter;

/// Subscribes `count` times. `None` if memory was refused.
pub fn subscribe_all<R: Wait>(
    rt: &R,
    alloc: Global,
    maker: &mut Emitter<u64>,
    count: u32,
) -> Option<Vec<Reader<u64>>>
    requires { IsMaker maker.old.token.knows }
    ensures flow { maker.new.flow ≡ maker.old.flow }
    ensures maker { IfSome result (λ readers. IsMaker maker.new.token.knows) }
    ensures made { IfSome result (λ readers.
        maker.new.token.knows.made ≡ maker.old.token.knows.made + count) }
    ensures count { IfSome result (λ readers. vec_len readers ≡ count) }
    ensures flows { IfSome result (λ readers. (i : ℕ) (d : _) → i < count →
        (slice_index_or readers.items i d).flow ≡ maker.old.flow) }
    ensures subscribed { IfSome result (λ readers. (i : ℕ) (d : _) → i < count →
        IsNewSubscription (done_by maker.new.token.knows) (maker.old.token.knows.made + i)
        (slice_index_or readers.items i d).subscription) }
{
    let mut readers = Vec::with_capacity(alloc, count as usize).ok()?;
    for _subscribed in 0..count {
        let Ok(reader) = maker.subscribe(rt) else {
            return None;
        };
        readers.push_reserved(reader);
    }
    Some(readers)
}

/// The promise of a thread that reads: it returns its reader, which has received `count` values, and these values.
#[derive(Drop)]
pub struct ReadsAll {
    pub reader: Snapshot<Reader<u64>>,
    pub count: u64,
}

impl Promise<(Reader<u64>, Vec<u64>)> for ReadsAll {
    ghost use Rattle.flow_program.specs.Crowds.{HasTaken};

    ghost kept_by = { λ p ended. HasTaken p.count p.reader.value ended.0 ended.1.items };
}

/// A thread that reads.
pub type Reading = PromisedHandle<(Reader<u64>, Vec<u64>), ReadsAll>;

/// Receives `count` values into a list that is empty and has room for them. Returns the reader and the list.
fn read_all<R: Wait>(
    rt: &R,
    reader: Reader<u64>,
    count: u64,
    list: Vec<u64>,
) -> (Reader<u64>, Vec<u64>)
    requires empty { list.items ≡ [] }
    requires room { count ≤ vec_capacity list }
    ensures { HasTaken count reader result.0 result.1.items }
{
    let mut reader = reader;
    let got = receive_all(rt, &mut reader, count, list);
    (reader, got)
}

/// Starts a thread that receives `count` values into this list, and returns the readers that have no thread yet. If no
/// thread can be made, these are dropped, and unsubscribe. The values are then received here, since the emitters also
/// wait for this subscriber.
fn start_subscriber<'s, E, R: Wait + Sync>(
    rt: &'s R,
    scope: &Scope<'s, E>,
    reader: Reader<u64>,
    count: u64,
    list: Vec<u64>,
    left: IntoIter<Reader<u64>>,
) -> Option<(Reading, IntoIter<Reader<u64>>)>
    requires empty { list.items ≡ [] }
    requires room { count ≤ vec_capacity list }
    ensures thread { IfSome result (λ started. WillRead reader count started.0.promise) }
    ensures left { IfSome result (λ started. started.1 ≡ left) }
{
    let promise = ReadsAll {
        reader: Snapshot::of(&reader),
        count,
    };
    match scope.spawn_with(promise, move || read_all(rt, reader, count, list)) {
        Ok(thread) => Some((thread, left)),
        Err(refused) => {
            drop(left);
            let _read = (refused.value)();
            None
        }
    }
}

/// Starts a thread for each subscriber, which receives `count` values. `None` if memory or a thread was refused: then
/// no subscriber is left without a thread.
pub fn start_subscribers<'s, E, R: Wait + Sync>(
    rt: &'s R,
    alloc: Global,
    scope: &Scope<'s, E>,
    readers: Vec<Reader<u64>>,
    count: u64,
) -> Option<Vec<Reading>>
    ensures count { IfSome result (λ threads. vec_len threads ≡ vec_len readers) }
    ensures promised { IfSome result (λ threads. (i : ℕ) (d r : _) → i < vec_len readers →
        WillRead (slice_index_or readers.items i r) count
        (slice_index_or threads.items i d).promise) }
{
    let mut threads = Vec::with_capacity(alloc, readers.len()).ok()?;
    let mut left = readers.into_iter();
    while let Some(reader) = left.next() {
        let list = Vec::with_capacity(alloc, count as usize).ok()?;
        let (thread, others) = start_subscriber(rt, scope, reader, count, list, left)?;
        threads.push_reserved(thread);
        left = others;
    }
    Some(threads)
}

/// Waits until all threads have ended, and adds their readers, and what each of them got, to two lists that are empty
/// and have room for them.
pub fn join_subscribers<R: Threads>(
    rt: &R,
    threads: Vec<Reading>,
    readers: &mut Vec<Reader<u64>>,
    got: &mut Vec<Vec<u64>>,
)
    requires readers { (readers.old.items ≡ []) × (vec_len threads ≤ vec_capacity readers.old) }
    requires lists { (got.old.items ≡ []) × (vec_len threads ≤ vec_capacity got.old) }
    ensures readers { vec_len readers.new ≡ vec_len threads }
    ensures lists { vec_len got.new ≡ vec_len threads }
    ensures taken { (i : ℕ) (d v t : _) → i < vec_len threads → HasTakenAs
        (slice_index_or threads.items i t).promise
        (slice_index_or readers.new.items i d) (slice_index_or got.new.items i v).items }
{
    for thread in threads {
        let (reader, list) = thread.join(rt);
        readers.push_reserved(reader);
        got.push_reserved(list);
    }
}
