//! A chain as a stream.
ghost use Rattle.std.specs.Prelude.{◌≡◌, ◌≢◌, ◌⊎◌, ◌<◌, true, false, None, cond, [], List, Option, Result, IfSome, OnSome};
ghost use Rattle.futures.specs.Poll.{IfReady, OnPending};
ghost use Rattle.futures.specs.Runs.{After, Within};
ghost use Rattle.futures.specs.Task.{Covers, Keeps};
ghost use Rattle.flow_law.specs.declared.chain.End.{End};
ghost use Rattle.flow_operators.specs.Asking.{AskGives, IsFinal};
ghost use Rattle.flow_operators.specs.SameChain.{StaysChain};
ghost use Rattle.flow_operators.specs.Streams.{Streams, Over, OnFault};
ghost use Rattle.flow_operators.specs.Streams.{answer_in, is_stream_over, streamed_chain, streamed_rest};

use crate::cold::{Asked, Cold};
use flow_law::ChainFault;
use futures::Stream;
use futures::task::{Context, Poll};

/// A stream of a chain's items. A fault is the last item.
#[derive(Drop)]
pub struct Streamed<C> {
    chain: C,
    ended: bool,
}

impl<C: Cold> Streamed<C> {
    /// Makes a stream of the chain, from its beginning.
    pub fn new(mut chain: C) -> Self
        requires { C.CanAsk chain }
        ensures callable { ⟦<Streamed<C> as Stream>⟧.can_poll result }
        ensures stays { StaysChain C.Cold chain (streamed_chain result) }
        ensures rest { (m : C.Reading) → streamed_rest (λ c. C.rest c m) result ≡ C.whole chain m }
        ensures running { is_stream_over result ≡ false }
        ensures yields { (xs : List (Result C.Item ChainFault))
            (last : Option (Result C.Item ChainFault))
            → ⟦<Streamed<C> as Stream>⟧.yields result xs last
            → (m : C.Reading) → C.Reads chain m → Streams (C.whole chain m) xs last }
    {
        chain.rewind();
        Streamed {
            chain,
            ended: false,
        }
    }
}

impl<C: Cold> Stream for Streamed<C> {
    type Item = Result<C::Item, ChainFault>;

    ghost can_poll = { λ s. C.CanAsk s.chain };

    ghost yields = { λ s xs last. cond s.ended (Over xs last)
        ((m : C.Reading) → C.Reads s.chain m → Streams (C.rest s.chain m) xs last) };

    // The trait's clauses, and: a poll is one ask of the chain, and answers what the chain answered. It pends only if
    // it took a pending turn off the chain's run.
    fn poll_next(&mut self, cx: &mut Context<'_>) -> Poll<Option<Result<C::Item, ChainFault>>>
        requires { ⟦<Streamed<C> as Stream>⟧.can_poll self.old }
        ensures value { IfReady result (⟦<Streamed<C> as Stream>⟧.yields self.old []) }
        ensures rest { IfReady result (λ o. IfSome o (λ x.
            After (⟦<Streamed<C> as Stream>⟧.yields self.old) x
            (⟦<Streamed<C> as Stream>⟧.yields self.new))) }
        ensures goes { IfReady result (λ o.
            OnSome o (⟦<Streamed<C> as Stream>⟧.can_poll self.new)) }
        ensures again { OnPending result (⟦<Streamed<C> as Stream>⟧.can_poll self.new) }
        ensures same { OnPending result
            (Within (⟦<Streamed<C> as Stream>⟧.yields self.old)
            (⟦<Streamed<C> as Stream>⟧.yields self.new)) }
        ensures registered { OnPending result
            (Covers cx.new (⟦<Streamed<C> as Stream>⟧.needs self.new)) }
        ensures kept { Keeps cx.old cx.new }
        ensures stays { StaysChain C.Cold (streamed_chain self.old) (streamed_chain self.new) }
        ensures gives { (m : C.Reading) → C.Reads (streamed_chain self.old) m
            → AskGives (streamed_rest (λ c. C.rest c m) self.old) (answer_in result)
            (streamed_rest (λ c. C.rest c m) self.new) }
        ensures given { C.IsGiven (streamed_chain self.old)
            → OnFault result (λ fault. fault ≢ ChainFault.OutOfMemory) }
        ensures fewer { IsFinal (answer_in result) ⊎ C.bound.most_asks (streamed_chain self.new)
            < C.bound.most_asks (streamed_chain self.old) }
        ensures over { IsFinal (answer_in result) → is_stream_over self.new ≡ true }
        // After its last item the stream does not change, and neither does its chain.
        ensures end { is_stream_over self.old ≡ true
            → (result ≡ Poll.Ready None) × self.new ≡ self.old }
        // A fault is the chain's own last answer, also if it is `OutOfMemory`.
        ensures answered { OnFault result
            (λ fault. C.HasAnswered (streamed_chain self.new) (End.Failed fault)) }
    {
        if self.ended {
            return Poll::Ready(None);
        }
        match self.chain.ask() {
            Asked::Item(item) => Poll::Ready(Some(Ok(item))),
            Asked::Pending => cx.yield_now(),
            Asked::End => {
                self.ended = true;
                Poll::Ready(None)
            }
            Asked::Fault(fault) => {
                self.ended = true;
                Poll::Ready(Some(Err(fault)))
            }
        }
    }
}
