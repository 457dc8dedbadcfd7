//! The configuration of a shared flow.
ghost use Rattle.std.specs.Prelude.{◌≡◌};

/// What an emission does if a subscriber is a full buffer behind (`BufferOverflow`). Without a subscriber the strategy
/// has no effect.
#[derive(Clone, Copy, Debug, PartialEq, Eq)]
pub enum Overflow {
    /// The emitter waits.
    Suspend,
    /// The oldest value is dropped: a subscriber that has not received it misses it.
    DropOldest,
    /// The new value is dropped.
    DropLatest,
}

/// The configuration of a shared flow: how many values it keeps, and how many numbers it may issue.
///
/// The flow keeps `replay` values for new subscribers and `extra` more for slow ones (`extraBufferCapacity`), at most
/// 65,536 together. Each subscription and each accepted value takes a number; the flow issues at most `limit` of them.
#[derive(Clone, Copy, Debug, PartialEq, Eq)]
pub struct Config {
    pub replay: u32,
    pub extra: u32,
    pub overflow: Overflow,
    pub limit: u64,
}

impl Config {
    /// Returns the defaults of `MutableSharedFlow()`: replay 0, no extra buffer, emitters wait, and no limit.
    pub const fn new() -> Self
        ensures { result ≡
            record {
              replay = 0;
              extra = 0;
              overflow = Overflow.Suspend;
              limit = 18446744073709551615;
            } }
    {
        Config {
            replay: 0,
            extra: 0,
            overflow: Overflow::Suspend,
            limit: u64::MAX,
        }
    }

    /// Sets how many values the flow keeps for new subscribers.
    pub const fn replay(self, replay: u32) -> Self
        ensures { result ≡ record self { replay = replay } }
    {
        Config { replay, ..self }
    }

    /// Sets how many more values the flow keeps for slow subscribers (`extraBufferCapacity`).
    pub const fn extra(self, extra: u32) -> Self
        ensures { result ≡ record self { extra = extra } }
    {
        Config { extra, ..self }
    }

    /// Sets what an emission does if a subscriber is a full buffer behind (`onBufferOverflow`).
    pub const fn overflow(self, overflow: Overflow) -> Self
        ensures { result ≡ record self { overflow = overflow } }
    {
        Config { overflow, ..self }
    }

    /// Sets how many numbers the flow may issue.
    pub const fn limit(self, limit: u64) -> Self
        ensures { result ≡ record self { limit = limit } }
    {
        Config { limit, ..self }
    }
}

impl Default for Config {
    ghost use Rattle.flow_law.specs.declared.config.Overflow.TheVariants.{Suspend};

    ghost is_default = { λ config.
        config ≡ record {
          replay = 0;
          extra = 0;
          overflow = Suspend;
          limit = 18446744073709551615;
        } };

    fn default() -> Self {
        Config::new()
    }
}
