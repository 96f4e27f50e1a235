//! What a file is by its first bytes.
ghost use Rattle.std.specs.Prelude.{◌≡◌, is_some};
ghost use Rattle.bound_advice.specs.Oddities.{is_packed};

/// What a file may be that is no trace of lines.
#[derive(Clone, Copy, PartialEq, Eq)]
pub(crate) enum Looks {
    /// Packed by a program, which another unpacks.
    Packed {
        by: &'static str,
        unpack: &'static str,
    },
    /// Text in two bytes a letter.
    Wide,
    /// Bytes of 0, which no text has.
    Binary,
    /// A byte order mark, and then text.
    Marked,
    Certificate,
    Json,
    /// As none of these.
    Lines,
}

/// The program by which a file is packed, and the one that unpacks it.
pub(crate) fn packed_by(start: &[u8]) -> Option<(&'static str, &'static str)>
    ensures { is_some result ≡ is_packed start.now }
{
    if start.starts_with(b"\x1f\x8b") {
        Some(("gzip", "zcat"))
    } else if start.starts_with(b"\x28\xb5\x2f\xfd") {
        Some(("zstd", "zstd -dc"))
    } else if start.starts_with(b"\xfd7zXZ") {
        Some(("xz", "xz -dc"))
    } else if start.starts_with(b"BZh") {
        Some(("bzip2", "bzip2 -dc"))
    } else {
        None
    }
}

// Whether every second byte is 0, from the first or from the second on, as in text of two bytes a letter.
fn is_wide(start: &[u8]) -> bool {
    let zeros_from = |from: usize| start.iter().skip(from).step_by(2).all(|byte| *byte == 0);
    start.starts_with(b"\xff\xfe")
        || start.starts_with(b"\xfe\xff")
        || (start.len() >= 2 && (zeros_from(0) || zeros_from(1)))
}

/// What a file looks like.
pub(crate) fn looks_of(start: &[u8]) -> Looks {
    if let Some((by, unpack)) = packed_by(start) {
        Looks::Packed { by, unpack }
    } else if is_wide(start) {
        Looks::Wide
    } else if start.contains(&0) {
        Looks::Binary
    } else if start.starts_with(b"\xef\xbb\xbf") {
        Looks::Marked
    } else if start.starts_with(b"cache-bound-certificate") {
        Looks::Certificate
    } else if start.starts_with(b"{") || start.starts_with(b"[{") {
        Looks::Json
    } else {
        Looks::Lines
    }
}
