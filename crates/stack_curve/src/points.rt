//! What a curve says: LRU's hits at every number of slots.
ghost use Rattle.std.specs.Prelude.{◌≡◌};
ghost use Rattle.stack_curve.specs.Curves.{hits_with, hits_within};

use std::marker::Model;

/// LRU's hits at every number of slots, if each object takes one slot.
#[derive(Debug, Drop)]
pub struct Curve {
    pub(crate) size: u64,
    pub(crate) hits: Vec<u32>,
}

impl Model for Curve {
    ghost use Rattle.std.specs.Prelude.{◌<◌, length};
    ghost use Rattle.stack_curve.specs.Curves.{Points};

    ghost Value = { Points };

    ghost view = { λ c. record { size = c.size; hits = c.hits.items } };

    ghost invariant = { λ c. 0 < length c.hits.items };
}

impl Curve {
    /// The size of all objects, in bytes, and 0 if there are none.
    pub fn size(&self) -> u64
        ensures { result ≡ self.now.size }
    {
        self.size
    }

    // The hits at this many slots.
    fn at(&self, slots: u64) -> u64
        ensures { result ≡ hits_with self.now slots }
    {
        let most = self.hits.len() - 1;
        u64::from(self.hits[slots.min(most as u64) as usize])
    }

    /// LRU's hits in a cache of this many slots.
    pub fn hits(&self, slots: u32) -> u64
        ensures { result ≡ hits_with self.now slots }
    {
        self.at(u64::from(slots))
    }

    /// LRU's hits in a cache of this capacity, in bytes, and 0 if there are no objects.
    pub fn hits_at(&self, capacity: u64) -> u64
        ensures { result ≡ hits_within self.now capacity }
    {
        if self.size == 0 {
            0
        } else {
            self.at(capacity / self.size)
        }
    }
}
