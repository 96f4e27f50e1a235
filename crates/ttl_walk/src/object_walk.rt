//! What is kept of an object from request to request.
ghost use Rattle.std.specs.Prelude.{◌≡◌, ◌+◌, ◌≤◌, ◌<◌, ◌^◌, OnOk, OnErr};
ghost use Rattle.ttl_laws.specs.Runs.{Walk, nothing_walked};
ghost use Rattle.ttl_walk.specs.Kept.{StandsFor, latest_clock};
ghost use Rattle.ttl_walk.specs.Requests.{walk_on};

use crate::asked::Asked;
use crate::starts::{Candidate, first_worth, go_on, join, make_room};
use bound_base::NoMemory;
use std::alloc::Global;
use std::collections::VecDeque;
use std::marker::Model;

/// The greatest worth of an object so far, and the few of its starts that can still matter.
///
/// The level begins at 2^126, rises by each gain and falls by each price: a run is worth what the level is above the floor
/// of its start. From front to back the starts are no older and their floors rise. It takes 32 bytes for each start.
#[derive(Drop)]
pub struct ObjectWalk {
    level: u128,
    top: u128,
    starts: VecDeque<Candidate>,
}

impl Model for ObjectWalk {
    ghost use Rattle.ttl_walk.specs.Kept.{Kept, IsInOrder};

    ghost Value = { Kept };

    ghost view = { λ w. record { level = w.level; top = w.top; starts = w.starts.items } };

    ghost invariant = { λ w. IsInOrder (record { level = w.level; top = w.top; starts = w.starts.items }) };
}

// The level before any request.
const BASE: u128 = 1 << 126;

impl ObjectWalk {
    /// No request was walked. It takes no memory.
    pub fn new(alloc: Global) -> Self
        ensures walk { StandsFor result nothing_walked }
        ensures level { result.level ≡ 2 ^ 126 }
        ensures top { result.top ≡ 0 }
        ensures clock { latest_clock result ≡ 0 }
    {
        ObjectWalk {
            level: BASE,
            top: 0,
            starts: VecDeque::new(alloc),
        }
    }

    /// The greatest worth so far.
    pub fn top(&self) -> u128
        ensures { result ≡ self.now.top }
    {
        self.top
    }

    /// Walks the next request of the object, with this time to live. Each request joins the starts and leaves them once, so
    /// that this takes constant time on average.
    ///
    /// It can be called as long as the prices sum to at most 2^126, and the gains to less: the greatest worth is at most the
    /// sum of the gains.
    pub fn ask(&mut self, ttl: u64, asked: Asked) -> Result<(), NoMemory>
        requires clock { latest_clock self.old ≤ asked.clock }
        requires priced { self.old.top + asked.priced ≤ self.old.level }
        requires gain { self.old.level + asked.gain < 2 ^ 128 }
        ensures walk { OnOk result ((w : Walk) → StandsFor self.old w → StandsFor self.new (walk_on ttl w asked)) }
        ensures level { OnOk result (self.new.level + asked.priced ≡ self.old.level + asked.gain) }
        ensures top { OnOk result (self.new.top ≤ self.old.top + asked.gain) }
        ensures clock { OnOk result (latest_clock self.new ≡ asked.clock) }
        ensures err { OnErr result (self.new ≡ self.old) }
    {
        make_room(&mut self.starts)?;
        self.level = self.level - asked.priced + asked.gain;
        go_on(&mut self.starts, ttl, asked.clock, asked.fills);
        let floor = self.level - self.top;
        self.top = self.top.max(first_worth(&self.starts, self.level));
        join(
            &mut self.starts,
            Candidate {
                clock: asked.clock,
                floor,
            },
        );
        Ok(())
    }
}
