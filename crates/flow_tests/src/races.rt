//! Races that are run again and again until each of their ends was seen.
use std::process::Abort;

/// The greatest number of races.
const MOST_RACES: u32 = 10_000;

/// How many races ended in `true`, how many in `false`, and how many in all.
#[derive(Clone, Copy, Debug)]
pub struct WantedEnds {
    pub yes: u32,
    pub no: u32,
    pub all: u32,
}

/// One race ends in `true`.
pub const ONCE: WantedEnds = WantedEnds {
    yes: 1,
    no: 0,
    all: 1,
};

/// One race ends in `true` and one in `false`.
pub const EACH: WantedEnds = WantedEnds {
    yes: 1,
    no: 1,
    all: 2,
};

/// Runs races until at least as many ended as are wanted. Each race gets its number, from 0 on.
pub fn race_until<R: Abort, F: FnMut(u32) -> bool>(rt: &R, wanted: WantedEnds, mut race: F)
    requires { F.IsAlwaysCallable race }
{
    let mut yes = 0u32;
    let mut no = 0u32;
    for run in 0..MOST_RACES {
        if race(run) {
            yes = yes.wrapping_add(1);
        } else {
            no = no.wrapping_add(1);
        }
        if yes >= wanted.yes && no >= wanted.no && run.wrapping_add(1) >= wanted.all {
            return;
        }
    }
    panic!(rt; "{yes} races ended in true and {no} in false, and {wanted:?} were wanted");
}
