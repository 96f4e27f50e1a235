//! The entries of the objects: what is kept of each, by one look-up for an object that was requested before.
ghost use Rattle.std.specs.Prelude.{◌≡◌, Some, None, position, if◌then◌else◌, OnOk, OnErr};
ghost use Rattle.std.specs.List.{IsDistinct};
ghost use Rattle.std.specs.Map.{keys_of, lookup};
ghost use Rattle.indexmap.specs.IndexMap.{insert_entry};
ghost use Rattle.cache_model.specs.declared.objects.Object.{Object as Requested};
ghost use Rattle.cache_model.specs.Claim.{same_object};

use crate::summary::Seen;
use bound_base::NoMemory;
use cache_model::Object;
use indexmap::IndexMap;

/// The place of the entry of an object, and the entry, if it was requested before.
#[inline(always)]
pub(crate) fn find(
    entries: &IndexMap<Object, Seen>,
    object: &Object,
) -> (Option<usize>, Option<Seen>)
    ensures place { result.0 ≡ position (same_object object.now) (keys_of entries.now.entries) }
    ensures seen { result.1 ≡ lookup (same_object object.now) entries.now.entries }
{
    match entries.get_full(object) {
        Some((place, _, seen)) => (Some(place), Some(*seen)),
        None => (None, None),
    }
}

/// Makes this the entry of an object, if this is the place of the one that it has. A new object takes a second look-up.
#[inline(always)]
pub(crate) fn put(
    entries: &mut IndexMap<Object, Seen>,
    place: Option<usize>,
    object: Object,
    seen: Seen,
) -> Result<(), NoMemory>
    requires place { place ≡ position (same_object object) (keys_of entries.old.entries) }
    requires distinct { IsDistinct same_object (keys_of entries.old.entries) }
    ensures entries { OnOk result (entries.new.entries ≡ insert_entry same_object entries.old.entries object seen) }
    ensures looked_up { OnOk result ((y : Requested) → lookup (same_object y) entries.new.entries
        ≡ (if same_object object y then Some seen else lookup (same_object y) entries.old.entries)) }
    ensures distinct { OnOk result (IsDistinct same_object (keys_of entries.new.entries)) }
    ensures err { OnErr result (entries.new.entries ≡ entries.old.entries) }
    ensures err_only_if_new { OnErr result (lookup (same_object object) entries.old.entries ≡ None) }
{
    match place {
        Some(place) => entries[place] = seen,
        None => {
            entries.insert(object, seen)?;
        }
    }
    Ok(())
}
