//! What one request adds to what is counted.
ghost use Rattle.std.specs.Prelude.{◌≡◌, ◌+◌, ◌<◌, ◌^◌, if◌then◌else◌};
ghost use Rattle.replay_steps.specs.Steps.{counted_more};

use crate::asked::Asked;
use replay_core::Replay;

// The number, if it is so.
fn if_so(so: bool, number: u64) -> u64
    ensures { result ≡ (if so then number else 0) }
{
    if so { number } else { 0 }
}

/// The counts after a request that was a hit, or a miss, and after which its object is held, or isn't.
pub(crate) fn counted_more(counts: Replay, asked: &Asked, is_hit: bool, is_held: bool) -> Replay
    requires hits { counts.hits + 1 < 2 ^ 64 }
    requires bytes { counts.bytes + asked.now.size < 2 ^ 128 }
    requires written { counts.written + asked.now.size < 2 ^ 128 }
    ensures { result ≡ counted_more counts asked.now is_hit is_held }
{
    let earns = asked.is_past && !asked.only_fills && is_hit;
    let writes = asked.is_past && (asked.only_fills || !is_hit) && is_held;
    Replay {
        hits: counts.hits + if_so(earns, 1),
        bytes: counts.bytes + u128::from(if_so(earns, asked.size)),
        written: counts.written + u128::from(if_so(writes, asked.size)),
    }
}
