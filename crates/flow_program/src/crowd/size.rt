//! The size of a crowd.
ghost use Rattle.std.specs.Prelude.{◌≡◌, ◌*◌};
ghost use Rattle.flow_program.specs.CrowdSizes.{crowd_size};

/// How many emitters and subscribers a crowd has, and how many values each emitter emits.
#[derive(Clone, Copy)]
pub struct CrowdSize {
    pub emitters: u32,
    pub subscribers: u32,
    /// How many values each emitter emits.
    pub values: u32,
}

impl CrowdSize {
    /// Returns the size of a crowd of 1 to 8 emitters, at most 8 subscribers, and at most 10,000 values from each
    /// emitter, or `None` if a number is out of that range.
    pub fn new(emitters: u32, subscribers: u32, values: u32) -> Option<CrowdSize>
        ensures { result ≡ crowd_size emitters subscribers values }
    {
        if 1 <= emitters && emitters <= 8 && subscribers <= 8 && values <= 10_000 {
            Some(CrowdSize {
                emitters,
                subscribers,
                values,
            })
        } else {
            None
        }
    }

    /// Returns how many values all emitters emit together.
    pub fn emitted(self) -> u64
        ensures { result ≡ self.emitters * self.values }
    {
        u64::from(self.emitters) * u64::from(self.values)
    }
}
