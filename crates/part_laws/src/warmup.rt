//! The warm-up of a part behind its prelude.
ghost use Rattle.std.specs.Prelude.{◌≡◌, ◌+◌, ◌<◌, ◌^◌};
ghost use Rattle.part_laws.specs.Laws.{warmup_behind};

/// The warm-up with which a part is bounded behind a prelude of that number of requests: the prelude earns nothing,
/// nor do those requests of the part that fall into the warm-up of the trace. `before` is the number of the
/// trace's requests before the part.
pub fn warmup_behind(prelude: u32, before: u64, warmup: u32) -> u32
    requires { prelude + warmup < 2 ^ 32 }
    ensures { result ≡ warmup_behind prelude before warmup }
{
    let left = u64::from(warmup).saturating_sub(before);
    prelude + left as u32
}
