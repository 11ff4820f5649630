//! How long a run took, as a clock tells it. No clause tells what a clock tells.
use std::time::Clock;

/// The milliseconds that a clock tells, if it does.
pub(crate) fn milliseconds<R: Clock>(rt: &R) -> Option<u64> {
    match rt.monotonic() {
        Ok(time) => u64::try_from(time.as_millis()).ok(),
        Err(_untold) => None,
    }
}

/// How many milliseconds have passed since then, if a clock told both times.
pub(crate) fn passed_since<R: Clock>(rt: &R, begun: Option<u64>) -> Option<u64> {
    match (begun, milliseconds(rt)) {
        (Some(begun), Some(ended)) => Some(ended.saturating_sub(begun)),
        _ => None,
    }
}
