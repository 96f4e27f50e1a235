//! The first flagged request whose object is too old.
ghost use Rattle.std.specs.Prelude.{◌≡◌, ◌-◌, ◌||◌, not, length, IfOk};
ghost use Rattle.bit_list.specs.Bits.{bits_of};
ghost use Rattle.cache_model.specs.Claim.{only_fills};
ghost use Rattle.judge_laws.specs.Flags.{is_flagged};
ghost use Rattle.ttl_judge.specs.Ages.{can_write, first_too_old};

use bit_list::BitList;
use bound_base::NoMemory;
use cache_rules::Trace;
use std::alloc::Global;

/// A flagged request whose object is too old to be a hit. Requests count from 0.
#[derive(Clone, Copy, Debug, PartialEq, Eq)]
pub struct TooOld {
    pub request: u32,
    /// The time since the object's last request that is not flagged or only fills, in the unit of the trace's times.
    pub age: u64,
}

// Whether request `t` can write its object: it only fills, or isn't flagged.
fn can_write(trace: &Trace, flags: &BitList, t: u32) -> bool
    ensures { result ≡ can_write trace.now.fills (bits_of flags.now) t }
{
    trace.only_fills(t) || !flags.get(t as usize)
}

/// The first flagged request whose object is older than the time to live, in the unit of the times, if there is one. Past the
/// end of the flags none is flagged.
///
/// The first request of an object has no earlier one, and is as old as the clock. It goes over the requests once, and takes 8
/// bytes for each object. The error says that memory ran out.
pub fn first_too_old(
    alloc: Global,
    trace: &Trace,
    times: &[u64],
    ttl: u64,
    flags: &BitList,
) -> Result<Option<TooOld>, NoMemory>
    requires one_time_each { length times.now ≡ length trace.now.objects }
    ensures { IfOk result (λ found. found ≡ first_too_old trace.now.fills trace.now.objects times.now ttl (bits_of flags.now)) }
{
    let mut clocks: Vec<u64> = vec![in alloc; 0; trace.objects() as usize]?;
    let mut clock: u64 = 0;
    for t in 0..trace.len() {
        clock = clock.max(times[t as usize]);
        let number = trace.request(t) as usize;
        let age = clock.saturating_sub(clocks[number]);
        if flags.get(t as usize) && age > ttl {
            return Ok(Some(TooOld { request: t, age }));
        }
        if can_write(trace, flags, t) {
            clocks[number] = clock;
        }
    }
    Ok(None)
}
