//! The callers of a crowd, before their threads start.
ghost use Rattle.std.specs.Prelude.{◌≡◌, IfSome};
ghost use Rattle.flow_law.specs.history.Growth.{first_knowledge};
ghost use Rattle.flow_program.specs.Crowds.{AreMade};

use crate::crowd::size::CrowdSize;
use crate::crowd::subscribers::subscribe_all;
use flow_shared::{Emitter, Reader};
use std::alloc::Global;
use std::sync::Wait;

/// The emitters and the subscribers of a crowd.
#[derive(Drop)]
pub struct Callers {
    pub emitters: Vec<Emitter<u64>>,
    pub readers: Vec<Reader<u64>>,
}

/// Makes all callers of a crowd through the first one of its flow. `None` if memory was refused.
pub fn callers_of<R: Wait>(
    rt: &R,
    alloc: Global,
    maker: &mut Emitter<u64>,
    size: CrowdSize,
) -> Option<Callers>
    requires { maker.old.token.knows ≡ first_knowledge }
    ensures flow { maker.new.flow ≡ maker.old.flow }
    ensures made { IfSome result (λ r. AreMade size maker.old.flow
        maker.new.token.knows r.emitters.items r.readers.items) }
{
    let Ok(emitters) = maker.others(rt, alloc, size.emitters) else {
        return None;
    };
    let readers = subscribe_all(rt, alloc, maker, size.subscribers)?;
    Some(Callers { emitters, readers })
}
