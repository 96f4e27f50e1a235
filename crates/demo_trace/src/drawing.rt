//! Drawing the requests.
ghost use Rattle.std.specs.Prelude.{◌≡◌, ◌≤◌, ◌^◌, All, IfOk};
ghost use Rattle.cache_rules.specs.Stored.{all_count};
ghost use Rattle.rand_pcg.specs.Pcg.{pcg32};
ghost use Rattle.demo_trace.specs.Lines.{IsWritable};
ghost use Rattle.demo_trace.specs.Requests.{demo_requests, object_drawn};

use bound_base::NoMemory;
use cache_model::Object;
use cache_rules::{Builder, Trace};
use rand_core::SeedableRng;
use rand_core::utils::NextWord;
use rand_pcg::Pcg32;
use std::alloc::Global;

// The object that the next two words ask for. The lesser of two remainders makes objects of low ids popular.
fn draw(generator: &mut Pcg32, objects: u32) -> Object
    requires { 1 ≤ objects }
    ensures object { result ≡ object_drawn objects (pcg32 generator.old).0 (pcg32 (pcg32 generator.old).1).0 }
    ensures generator { generator.new ≡ (pcg32 (pcg32 generator.old).1).1 }
    ensures writable { IsWritable result }
{
    let x = generator.next_word();
    let y = generator.next_word();
    let id = u64::from((x % objects).min(y % objects));
    Object {
        volume: 0,
        id,
        size: 1 + (id * 7919) % 4096,
    }
}

/// The requests of a demo: each is of one of `objects` objects, and has a size from 1 to 4096 bytes. The same seed
/// gives the same requests.
pub fn demo_trace(alloc: Global, seed: u64, requests: u32, objects: u32) -> Result<Trace, NoMemory>
    requires requests { requests ≤ 2 ^ 25 }
    requires objects { 1 ≤ objects }
    ensures requests { IfOk result (λ trace. trace ≡ all_count (demo_requests seed requests objects)) }
    ensures writable { IfOk result (λ trace. All IsWritable trace.objects) }
{
    let mut generator = Pcg32::seed_from_u64(seed);
    let mut trace = Builder::new(alloc)?;
    for _ in 0..requests {
        trace.push(draw(&mut generator, objects))?;
    }
    Ok(trace.finish())
}
