//! The settings of a service.
ghost use Rattle.std.proofs.Common.{rules};

use flow_law::{FlowFault, FlowValue, OutOfMemory, Text};
use std::alloc::Global;

#[derive(Debug, PartialEq, Drop)]
pub struct Settings {
    pub host: Text,
    pub path: Text,
    pub port: u32,
}

impl Settings {
    pub fn new(alloc: Global, host: &str, path: &str, port: u32) -> Result<Settings, OutOfMemory> {
        let (host, path) = (Text::from_str(alloc, host)?, Text::from_str(alloc, path)?);
        Ok(Settings { host, path, port })
    }

    /// The same settings with another port.
    pub fn at(&self, port: u32) -> Result<Settings, FlowFault> {
        let mut settings = self.try_copy()?;
        settings.port = port;
        Ok(settings)
    }
}

impl FlowValue for Settings {
    ghost is_same = { ⟦<Settings as PartialEq>⟧.eq };

    fn try_copy(&self) -> Result<Settings, FlowFault> {
        let (host, path) = (self.host.try_copy()?, self.path.try_copy()?);
        Ok(Settings {
            host,
            path,
            port: self.port,
        })
    }

    fn same(&self, other: &Settings) -> bool {
        *self == *other
    }

    ghost is_same_exact = { Prim.search rules };
}
