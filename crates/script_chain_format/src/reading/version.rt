//! The versions of the script format.
ghost use Rattle.std.specs.Prelude.{◌≡◌};
ghost use Rattle.serde_json.specs.View.{view};
ghost use Rattle.script_chain_format.specs.Members as members;

use crate::reading::members::u64_at;
use serde_json::Value;

/// A version of the script format.
#[derive(Clone, Copy)]
pub enum Version {
    /// Version 1: a script has one flow without a name, or none.
    One,
    /// Version 2: each flow of a script has a name.
    Two,
}

fn version_numbered(number: u64) -> Option<Version>
    ensures { result ≡ members.version_numbered number }
{
    if number == 1 {
        Some(Version::One)
    } else if number == 2 {
        Some(Version::Two)
    } else {
        None
    }
}

/// Returns the version under a script's key `version`, or `None` if that is neither of the whole numbers 1 and 2.
pub fn version_of(script: &Value) -> Option<Version>
    ensures { result ≡ members.version_of (view script.now) }
{
    version_numbered(u64_at(script, "version")?)
}
