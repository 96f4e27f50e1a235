//! What is noted of requests of which some can be stale.
ghost use Rattle.std.specs.Prelude.{◌≡◌, ◌<◌, ◌+◌, ◌^◌, OnOk, if◌then◌else◌};
ghost use Rattle.freshness.specs.Seen.{HasRoomForOne, noted_of, nothing_noted, with_noted};

use bit_list::BitList;
use bound_base::NoMemory;
use std::alloc::Global;

/// How many requests of a trace had a time below the clock before them, and of each request whether it is stale and whether it
/// only fills the cache by its own mark. If no request can be stale, nothing is noted.
#[derive(Debug, Drop)]
pub struct StaleRequests {
    pub late: u64,
    pub stale: BitList,
    pub own: BitList,
}

/// One request, if it is counted.
pub(crate) fn one_if(counted: bool) -> u64
    ensures { result ≡ (if counted then 1 else 0) }
{
    u64::from(counted)
}

impl StaleRequests {
    /// Nothing is noted yet. It takes no memory.
    pub fn new(alloc: Global) -> Self
        ensures { noted_of result ≡ nothing_noted }
    {
        StaleRequests {
            late: 0,
            stale: BitList::new(alloc),
            own: BitList::new(alloc),
        }
    }

    /// Makes room for one more request.
    pub fn make_room(&mut self) -> Result<(), NoMemory>
        ensures noted { noted_of self.new ≡ noted_of self.old }
        ensures room { OnOk result (HasRoomForOne self.new) }
    {
        self.stale.make_room()?;
        self.own.make_room()?;
        Ok(())
    }

    /// Notes a request, for which there is room.
    pub fn push_reserved(&mut self, late: bool, stale: bool, own: bool)
        requires room { HasRoomForOne self.old }
        requires few { self.old.late + 1 < 2 ^ 64 }
        ensures { noted_of self.new ≡ with_noted (noted_of self.old) late stale own }
    {
        self.late += one_if(late);
        self.stale.push_reserved(stale);
        self.own.push_reserved(own);
    }
}
