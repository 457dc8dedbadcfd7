//! The state of a screen: one thread sets it, and another one reads it until the page is ready.
ghost use Rattle.std.proofs.Common.{rules};

use flow_law::{FlowFault, FlowValue, Text};
use flow_shared::{Setter, StateFlow, StateReader};
use std::alloc::Global;
use std::sync::Wait;
use std::thread::{Threads, join};

#[derive(PartialEq, Drop)]
pub enum Screen {
    Loading,
    Ready(Text),
    Failed(u32),
}

impl FlowValue for Screen {
    ghost is_same = { ⟦<Screen as PartialEq>⟧.eq };

    fn try_copy(&self) -> Result<Screen, FlowFault> {
        match self {
            Screen::Loading => Ok(Screen::Loading),
            Screen::Ready(page) => Ok(Screen::Ready(page.try_copy()?)),
            Screen::Failed(code) => Ok(Screen::Failed(*code)),
        }
    }

    fn same(&self, other: &Screen) -> bool {
        *self == *other
    }

    ghost is_same_exact = { Prim.search rules };
}

/// Sets the states of a screen whose page loads at the second try.
fn load<R: Wait>(rt: &R, screen: &mut Setter<Screen>, page: Text) {
    screen.set(rt, Screen::Failed(503));
    screen.set(rt, Screen::Loading);
    screen.set(rt, Screen::Ready(page));
}

/// Waits until the page is ready, and returns it.
fn page_of<R: Wait>(rt: &R, screen: &mut StateReader<Screen>) -> Result<Text, FlowFault> {
    for _ in rt.forever() {
        if let Screen::Ready(page) = screen.changed(rt)? {
            return Ok(page);
        }
    }
    unreachable!()
}

/// Returns the page that the reading thread has seen.
pub fn show_page<R: Wait + Threads + Sync>(
    rt: &R,
    alloc: Global,
    page: Text,
) -> Result<Text, FlowFault> {
    let (flow, seat) = StateFlow::new(alloc, Screen::Loading, u64::MAX)?;
    let mut setter = flow.into_setter(alloc, seat)?;
    let mut reader = setter.subscribe(rt)?;
    let (shown, ()) = join(
        rt,
        || page_of(rt, &mut reader),
        || load(rt, &mut setter, page),
    );
    shown
}
