//! What objects of different sizes share.
ghost use Rattle.std.specs.Prelude.{◌≡◌};
ghost use Rattle.freshness.specs.Seen.{id_of};

use cache_model::Object;

/// An id in a volume, whatever its size.
#[derive(Clone, Copy, Debug, PartialEq, Eq, Hash)]
pub struct Id {
    pub volume: u32,
    pub id: u64,
}

impl Id {
    /// The id of an object.
    pub fn of(object: Object) -> Id
        ensures { result ≡ id_of object }
    {
        Id {
            volume: object.volume,
            id: object.id,
        }
    }
}
