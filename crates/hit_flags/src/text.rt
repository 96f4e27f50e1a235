//! Flags as a text.
ghost use Rattle.std.specs.Prelude.{◌≡◌, ◌∷◌, [], length, IfOk};
ghost use Rattle.bit_list.specs.Bits.{bits_of};
ghost use Rattle.hit_flags.specs.Laws.{flag_byte, flags_text};

use bit_list::BitList;
use bound_base::NoMemory;
use std::alloc::Global;

// The line of a flag.
fn flag_line(flag: bool) -> &'static [u8]
    ensures { result.now ≡ flag_byte flag ∷ 10 ∷ [] }
{
    if flag { b"1\n" } else { b"0\n" }
}

/// A line for each of these flags, as `read_claims` reads them. Takes two bytes for each.
pub fn flags_text(alloc: Global, flags: &BitList, count: u32) -> Result<Vec<u8>, NoMemory>
    requires each { length (bits_of flags.now) ≡ count }
    ensures { IfOk result (λ text. text.items ≡ flags_text (bits_of flags.now)) }
{
    let mut text = Vec::new(alloc);
    text.reserve(2 * count as usize)?;
    for at in 0..count as usize {
        text.extend_from_slice(flag_line(flags.get(at)))?;
    }
    Ok(text)
}
