//! The threads of a crowd, from their start to their end.
ghost use Rattle.std.specs.Prelude.{◌≡◌, [], ◌≤◌, IfSome, vec_capacity, vec_len};
ghost use Rattle.flow_program.specs.Crowds.{HaveRun};

use crate::crowd::callers::Callers;
use crate::crowd::emitters::{join_emitters, start_emitters};
use crate::crowd::size::CrowdSize;
use crate::crowd::subscribers::{join_subscribers, start_subscribers};
use flow_shared::{Emitter, Reader};
use std::alloc::Global;
use std::sync::Wait;
use std::thread::{Scope, Threads};

/// The callers of a crowd whose threads have ended, and what each of its subscribers got.
#[derive(Drop)]
pub struct Ended {
    pub emitters: Vec<Emitter<u64>>,
    pub readers: Vec<Reader<u64>>,
    pub got: Vec<Vec<u64>>,
}

/// Returns room for this many callers, and for the lists of the subscribers. `None` if memory was refused.
fn room_for(alloc: Global, emitters: usize, subscribers: usize) -> Option<Ended>
    ensures emitters { IfSome result
        (λ r. (r.emitters.items ≡ []) × (emitters ≤ vec_capacity r.emitters)) }
    ensures readers { IfSome result
        (λ r. (r.readers.items ≡ []) × (subscribers ≤ vec_capacity r.readers)) }
    ensures lists { IfSome result
        (λ r. (r.got.items ≡ []) × (subscribers ≤ vec_capacity r.got)) }
{
    let (Ok(emitters), Ok(readers), Ok(got)) = (
        Vec::with_capacity(alloc, emitters),
        Vec::with_capacity(alloc, subscribers),
        Vec::with_capacity(alloc, subscribers),
    ) else {
        return None;
    };
    Some(Ended {
        emitters,
        readers,
        got,
    })
}

/// Runs a thread for each caller of a crowd. Those that emit start first. If a thread cannot be made, the subscribers
/// without one are dropped, and no emitter waits for them.
pub fn run_threads<'s, E, R: Threads + Wait + Sync>(
    rt: &'s R,
    alloc: Global,
    scope: &Scope<'s, E>,
    callers: Callers,
    size: CrowdSize,
) -> Option<Ended>
    requires { vec_len callers.emitters ≡ size.emitters }
    ensures { IfSome result (λ r. HaveRun size
        callers.emitters.items callers.readers.items
        r.emitters.items r.readers.items r.got.items) }
{
    let Callers { emitters, readers } = callers;
    let emitting = start_emitters(rt, alloc, scope, emitters, u64::from(size.values))?;
    let reading = start_subscribers(rt, alloc, scope, readers, size.emitted())?;
    let room = room_for(alloc, emitting.len(), reading.len())?;
    let Ended {
        mut emitters,
        mut readers,
        mut got,
    } = room;
    join_emitters(rt, emitting, &mut emitters);
    join_subscribers(rt, reading, &mut readers, &mut got);
    Some(Ended {
        emitters,
        readers,
        got,
    })
}
