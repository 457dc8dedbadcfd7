//! Sharings over a word state that are run by one call, on a thread of their own.
use crate::flows::{new_word_reader, new_word_state};
use crate::sharing::beside::{Caller, Follows, SHORTLY, receives_twice, run_beside};
use crate::sharing::shared::{chain_of, share_into_word};
use flow_sharing::WordStop;
use flow_word::{WordReader, WordSetter};
use std::process::Abort;
use std::sync::Wait;
use std::time::Clock;

fn waits_for_last<R: Wait>(rt: &R, reader: &mut WordReader<i64>) -> bool {
    reader.wait_for(rt, |item| *item == 4) == 4
}

impl Caller for WordSetter<i64> {
    fn receives<R: Wait + Abort>(&mut self, rt: &R) -> bool {
        waits_for_last(rt, &mut new_word_reader(rt, self))
    }

    fn is_reset<R: Wait>(&mut self, _rt: &R) -> bool {
        self.value() == 0
    }
}

impl Follows<WordSetter<i64>> for WordStop<'_, i64> {
    fn follow<R: Wait + Clock + Abort>(&self, rt: &R, caller: &mut WordSetter<i64>) -> bool {
        let follows = receives_twice(rt, caller);
        self.ask();
        follows
    }
}

/// `stateIn` with `WhileSubscribed(stopTimeoutMillis = 3, replayExpirationMillis = 3)`: a subscriber receives the
/// chain's last item, and six milliseconds after it has gone the state is the initial one. The next subscriber starts
/// the chain anew.
#[test]
fn a_run_is_woken_by_subscribers_and_at_the_expiry(rt: HostRuntime) {
    let chain = chain_of(&rt, rt.alloc(), &[3, 3, 4]);
    let (flow, mut setter) = new_word_state(&rt, rt.alloc(), 0, u32::MAX);
    let mut sharing = share_into_word(&rt, &*flow, &mut setter, chain, SHORTLY);
    let stop = WordStop::new(&*flow);
    run_beside(&rt, &mut sharing, &stop, &mut setter);
}
