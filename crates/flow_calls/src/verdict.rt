//! The statuses of verdicts.
ghost use Rattle.std.specs.Prelude.{◌≡◌};
ghost use Rattle.flow_calls.specs.Calls.{verdict_status};

use crate::giving::TOO_LONG;

/// No legal history explains the calls of a record.
const ILLEGAL: u32 = 5;

/// Returns the status of a call by that of `flow_judge`, where 1 is an illegal record.
pub fn status_of(judged: u8) -> u32
    ensures { result ≡ verdict_status judged }
{
    let status = u32::from(judged);
    if status == TOO_LONG {
        return ILLEGAL;
    }
    status
}
