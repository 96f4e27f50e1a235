//! Copying the prefix of some bytes.
ghost use Rattle.std.specs.Prelude.{◌≡◌, length, min, take};

// Copies the prefix of the bytes into the beginning of the buffer, at most this many, and says how many.
pub(crate) fn copy_prefix(bytes: &[u8], buf: &mut [u8], most: usize) -> usize
    ensures count { result ≡ min (min (length bytes.now) (length buf.old)) most }
    ensures copied { take result buf.new ≡ take result bytes.now }
    ensures len { length buf.new ≡ length buf.old }
{
    let count = bytes.len().min(buf.len()).min(most);
    buf[..count].copy_from_slice(&bytes[..count]);
    count
}
