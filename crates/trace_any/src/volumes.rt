//! The numbers of volumes.
ghost use Rattle.std.specs.Prelude.{◌≡◌, ◌+◌, ◌≤◌, ◌<◌, ◌^◌, ◌&&◌, ◌==◌, [], false, length, IfOk, OnOk, OnErr};
ghost use Rattle.std.specs.List.{list_any};
ghost use Rattle.std.specs.Str.{bytes_eq};
ghost use Rattle.trace_any.specs.Volumes.{same_volume, volume_number, with_volume};
ghost use Rattle.std.proofs.Common.{rules};
ghost use Rattle.std.specs.Cmp.Rules.{hashing, comparing};

use bound_base::NoMemory;
use indexmap::{Equivalent, IndexSet};
use std::alloc::Global;
use std::marker::Model;

// A volume as it is kept.
#[derive(Debug, Drop, PartialEq, Eq, Hash)]
struct VolumeKey {
    host: Vec<u8>,
    disk: u64,
}

// A volume as it is looked up.
#[derive(Clone, Copy, PartialEq, Eq, Hash)]
struct VolumeName<'a> {
    host: &'a [u8],
    disk: u64,
}

impl<'a> Equivalent<VolumeKey> for VolumeName<'a> {
    ghost equivalent = { λ q k. bytes_eq q.host.now k.host.items && q.disk == k.disk };

    ghost respects_hash = { Prim.search (hashing, rules) };

    ghost respects_eq = { Prim.search (comparing, rules) };

    fn equivalent(&self, key: &VolumeKey) -> bool {
        self.host == key.host.as_slice() && self.disk == key.disk
    }
}

/// The volumes so far, by the order of their first appearance.
#[derive(Drop)]
pub(crate) struct Volumes {
    keys: IndexSet<VolumeKey>,
}

impl Model for Volumes {
    ghost use Rattle.std.specs.Prelude.{List, map};
    ghost use Rattle.trace_any.specs.Volumes.{Volume};

    ghost Value = { List Volume };

    ghost view = { λ v. map (λ k. record { host = k.host.items; disk = k.disk }) v.keys.keys };
}

impl Volumes {
    /// No volume yet. It takes no memory.
    pub fn new(alloc: Global) -> Self
        ensures { result ≡ [] }
    {
        Volumes {
            keys: IndexSet::new(alloc),
        }
    }

    /// The number of a volume, from 1. A new one takes memory; a known one is looked up without any.
    #[inline(never)]
    pub fn number(&mut self, alloc: Global, host: &[u8], disk: u64) -> Result<u64, NoMemory>
        requires few { length self.old < 2 ^ 32 }
        ensures number { IfOk result (λ n. n ≡ volume_number self.old (record { host = host.now; disk = disk })) }
        ensures volumes { OnOk result (self.new ≡ with_volume self.old (record { host = host.now; disk = disk })) }
        ensures err { OnErr result (self.new ≡ self.old) }
        ensures err_only_if_new { OnErr result (list_any (same_volume (record { host = host.now; disk = disk })) self.old ≡ false) }
        ensures most { length self.new ≤ length self.old + 1 }
        ensures within { IfOk result (λ n. n ≤ length self.new) }
    {
        if let Some(index) = self.keys.get_index_of(VolumeName { host, disk }) {
            return Ok(index as u64 + 1);
        }
        let key = VolumeKey {
            host: Vec::from_slice(alloc, host)?,
            disk,
        };
        let (index, _) = self.keys.insert_full(key)?;
        Ok(index as u64 + 1)
    }
}
