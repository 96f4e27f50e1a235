//! Room for more objects, in the counts and in the queues.
ghost use Rattle.std.specs.Prelude.{◌≡◌, ◌≤◌, ◌<◌, ◌^◌, OnOk};
ghost use Rattle.replay_tinylfu.specs.Queues.{HasSpace};

use crate::counts::Counts;
use crate::ring::Ring;
use bound_base::NoMemory;
use replay_queues::room_for;
use std::alloc::Global;

/// Makes room for an object of those numbered below `objects`. It takes constant time, amortized.
pub(crate) fn reach(
    counts: &mut Counts,
    ring: &mut Ring,
    alloc: Global,
    object: u32,
    objects: u32,
) -> Result<(), NoMemory>
    requires known { object < objects }
    requires few { objects ≤ 2 ^ 31 }
    requires counted { ring.old.objects ≤ counts.old.objects }
    requires within { counts.old.objects ≤ objects }
    ensures known { OnOk result (object < ring.new.objects) }
    ensures space { OnOk result (HasSpace ring.new) }
    ensures counted { ring.new.objects ≤ counts.new.objects }
    ensures within { counts.new.objects ≤ objects }
    ensures frequencies { counts.new.frequencies ≡ counts.old.frequencies }
    ensures segments { ring.new.segments ≡ ring.old.segments }
{
    let before = ring.objects();
    if object < before {
        return ring.reserve();
    }
    let more = room_for(object, before, objects).max(counts.objects());
    counts.grow(alloc, more)?;
    ring.grow(alloc, more)
}
