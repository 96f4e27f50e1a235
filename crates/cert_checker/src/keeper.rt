//! What becomes of the requests and the records that pass.
ghost use Rattle.std.specs.Prelude.{◌≡◌, ◌<◌, ◌^◌, ◌++◌, ◌∷◌, [], List, length, true, OnOk};
ghost use Rattle.cache_model.specs.declared.certificates.Record.{Record as Entry};
ghost use Rattle.cache_rules.specs.Stored.{Making, made_more};
ghost use Rattle.cert_checker.specs.Summaries.{IsSized};

use bound_base::NoMemory;
use cache_model::Object;
use cert_format::Record;

/// Takes the requests that pass, each with its record.
pub(crate) trait Keeper {
    /// These requests, with their marks if they have any, and these records may be all that it was given: exactly if it
    /// keeps them.
    ghost has: { Self → Making → List Entry → Type 0 };

    /// Takes the next request, which counts or only fills the cache, and its record.
    fn keep(&mut self, object: Object, only: bool, entry: Record) -> Result<(), NoMemory>
        requires few { (given : Making) × (records : List Entry) × has self.old given records × (length given.requests.objects < 2 ^ 25)
            × (only ≡ true → given.marks ≡ true) }
        requires size { IsSized object }
        ensures { OnOk result ((given : Making) (records : List Entry) → has self.old given records
            → has self.new (made_more given object only) (records ++ entry ∷ [])) };
}
