//! The end of an ASCII string, looked for in sixteen bytes at once. Most strings have fewer: to look at these costs less than
//! the call, which is made for what is longer or stands near the end of the bytes, as the last strings of a block do.

ghost use Rattle.std.specs.Prelude.{◌<◌, ◌≤◌, ◌+◌, length, drop, slice_range, IfSome};
ghost use Rattle.fast_wire.specs.Plain.{IsPlain};

use fast_wire::{LANES, plain_ascii_end, stop_free_run};

/// The same as `plain_end`, found out by a call.
#[inline(never)]
fn plain_end_by_call(bytes: &[u8], at: usize) -> Option<usize>
    requires { at ≤ length bytes.now }
    ensures place { IfSome result (λ next. (at < next) × (next ≤ length bytes.now)) }
    ensures plain { IfSome result (λ next. IsPlain (drop at bytes.now)
        (slice_range bytes.now at next) (drop next bytes.now)) }
{
    plain_ascii_end(bytes, at)
}

/// Where the ASCII string that begins at a place ends within sixteen bytes, if its bytes are the shortest form of it, with
/// NULL and without; none of another one. Near the end of the bytes a call tells.
#[inline(always)]
pub(crate) fn short_plain_end(bytes: &[u8], at: usize) -> Option<usize>
    requires { at ≤ length bytes.now }
    ensures place { IfSome result (λ next. (at < next) × (next ≤ length bytes.now)) }
    ensures plain { IfSome result (λ next. IsPlain (drop at bytes.now)
        (slice_range bytes.now at next) (drop next bytes.now)) }
{
    if bytes.len() - at < LANES {
        return plain_end_by_call(bytes, at);
    }
    let run = stop_free_run(bytes, at);
    if run == LANES {
        return None;
    }
    if bytes[at] % 128 == 0 {
        None
    } else {
        Some(at + run + 1)
    }
}

/// The same of a string of any length.
#[inline(always)]
pub(crate) fn plain_end(bytes: &[u8], at: usize) -> Option<usize>
    requires { at ≤ length bytes.now }
    ensures place { IfSome result (λ next. (at < next) × (next ≤ length bytes.now)) }
    ensures plain { IfSome result (λ next. IsPlain (drop at bytes.now)
        (slice_range bytes.now at next) (drop next bytes.now)) }
{
    match short_plain_end(bytes, at) {
        Some(next) => Some(next),
        None => plain_end_by_call(bytes, at),
    }
}
