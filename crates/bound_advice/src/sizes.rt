//! Sizes with a suffix, as people write them.

// How many bytes a suffix stands for.
fn bytes_in(suffix: &str) -> Option<u64> {
    match suffix {
        "k" | "K" | "KiB" | "kib" => Some(1024),
        "kB" | "KB" | "kb" => Some(1000),
        "m" | "M" | "MiB" | "mib" => Some(1_048_576),
        "MB" | "mb" => Some(1_000_000),
        "g" | "G" | "GiB" | "gib" => Some(1_073_741_824),
        "GB" | "gb" => Some(1_000_000_000),
        "t" | "T" | "TiB" | "tib" => Some(1_099_511_627_776),
        "TB" | "tb" => Some(1_000_000_000_000),
        _ => None,
    }
}

/// How many bytes a number with a suffix stands for, as 8388608 for `8MiB`.
pub(crate) fn size_of(text: &str) -> Option<u64> {
    let end = text.find(|letter: char| !letter.is_ascii_digit())?;
    let (digits, suffix) = text.split_at(end);
    let number = digits.parse::<u64>().ok()?;
    number.checked_mul(bytes_in(suffix.trim_start())?)
}
