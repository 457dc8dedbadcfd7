//! A seat of a shared flow, from which handles and futures are made.
ghost use Rattle.std.specs.Prelude.{◌≡◌};
ghost use Rattle.std.specs.Arc.{arc_value};

use crate::future_emission::{EmissionFuture, FutureEmission};
use crate::future_reader::FutureSubscriber;
use crate::token::MakesTokens;
use flow_shared::{EmitFuture, Emitter, Seat, SharedFlow};
use flow_sleepers::one_more_owner;
use std::sync::{Arc, Wait};

/// A seat, and its flow.
#[derive(Drop)]
pub struct Seated<'a> {
    pub flow: &'a Arc<SharedFlow<i64>>,
    pub seat: Seat<i64>,
    /// Which of two futures the seat begins with: seats take turns.
    pub is_odd: bool,
    ghost of_flow: { seat.table_id ≡ (arc_value flow.now).table_id },
}

impl<'a> Seated<'a> {
    pub fn new(flow: &'a Arc<SharedFlow<i64>>, seat: Seat<i64>) -> Seated<'a>
        requires { seat.table_id ≡ (arc_value flow.now).table_id }
    {
        Seated {
            flow,
            seat,
            is_odd: false,
        }
    }

    /// Makes one more seat.
    fn another(&mut self) -> Seated<'a> {
        self.is_odd = !self.is_odd;
        Seated {
            flow: self.flow,
            seat: self.flow.seat(&mut self.seat),
            is_odd: self.is_odd,
        }
    }

    /// Binds the seat to its flow.
    pub fn into_emitter<R: Wait>(self, rt: &R) -> Emitter<i64> {
        let Seated {
            flow,
            seat,
            is_odd: _,
        } = self;
        Emitter::new(one_more_owner(rt, flow), seat)
    }

    /// Returns a future that emits a value.
    pub fn into_emitting<R: Wait>(self, rt: &R, value: i64) -> EmissionFuture<'a> {
        if self.is_odd {
            EmissionFuture::Sleeps(self.into_emitter(rt).into_send(value))
        } else {
            let Seated {
                flow,
                seat,
                is_odd: _,
            } = self;
            EmissionFuture::Asks(EmitFuture::new(flow, seat, value))
        }
    }
}

impl<'a> MakesTokens for Seated<'a> {
    type Caller = Emitter<i64>;

    type Subscriber = FutureSubscriber<'a>;

    type Emission = FutureEmission<'a>;

    fn caller<R: Wait>(&mut self, rt: &R) -> Emitter<i64> {
        self.another().into_emitter(rt)
    }

    fn subscriber<R: Wait>(&mut self, _rt: &R) -> FutureSubscriber<'a> {
        FutureSubscriber::Fresh(self.another())
    }

    fn emission<R: Wait>(&mut self, _rt: &R) -> FutureEmission<'a> {
        FutureEmission::Fresh(self.another())
    }
}
