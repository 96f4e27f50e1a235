//! The fields of a line that are interpreted.
ghost use Rattle.std.specs.Prelude.{◌≡◌, ◌≤◌, ◌↔◌, [], drop, length, slice_index_or, IsSome, IfSome};
ghost use Rattle.trace_lines.specs.Lines.{fields};
ghost use Rattle.trace_msr.specs.Used.{fields_left};

use trace_lines::first_field;

/// The second to the sixth field.
#[derive(Clone, Copy)]
pub(crate) struct UsedFields<'a> {
    pub(crate) host: &'a [u8],
    pub(crate) disk: &'a [u8],
    pub(crate) action: &'a [u8],
    pub(crate) offset: &'a [u8],
    pub(crate) size: &'a [u8],
}

// The next field, and what stands after its comma if it has one. If no field is left it is empty.
fn next_field(left: Option<&[u8]>) -> (&[u8], Option<&[u8]>)
    ensures field { result.0.now ≡ slice_index_or (fields_left left.entry) 0 [] }
    ensures left { fields_left result.1 ≡ drop 1 (fields_left left.entry) }
{
    match left {
        Some(line) => first_field(line),
        None => (b"", None),
    }
}

/// The fields that are interpreted, or None if there are fewer than six. Takes time in the bytes up to the end of
/// the sixth.
pub(crate) fn used_fields(line: &[u8]) -> Option<UsedFields<'_>>
    ensures enough { IsSome result ↔ (6 ≤ length (fields line.now)) }
    ensures host { IfSome result (λ found. found.host.now ≡ slice_index_or (fields line.now) 1 []) }
    ensures disk { IfSome result (λ found. found.disk.now ≡ slice_index_or (fields line.now) 2 []) }
    ensures action { IfSome result (λ found. found.action.now ≡ slice_index_or (fields line.now) 3 []) }
    ensures offset { IfSome result (λ found. found.offset.now ≡ slice_index_or (fields line.now) 4 []) }
    ensures size { IfSome result (λ found. found.size.now ≡ slice_index_or (fields line.now) 5 []) }
{
    let (_, from_host) = first_field(line);
    let (host, from_disk) = next_field(from_host);
    let (disk, from_action) = next_field(from_disk);
    let (action, from_offset) = next_field(from_action);
    let (offset, from_size) = next_field(from_offset);
    let (size, _) = first_field(from_size?);
    Some(UsedFields {
        host,
        disk,
        action,
        offset,
        size,
    })
}
