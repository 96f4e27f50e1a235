//! The names of the files in which certificates are made.
ghost use Rattle.std.specs.Prelude.{◌≡◌, nat_eq};
ghost use Rattle.std.specs.List.{ends_with, list_any};
ghost use Rattle.bound_io.specs.Asides.{is_aside_name};

/// What the name of such a file ends with, after the path of its certificate: the first of these that is free.
pub(crate) const ENDINGS: [&str; 10] = [
    ".part", ".part1", ".part2", ".part3", ".part4", ".part5", ".part6", ".part7", ".part8",
    ".part9",
];

fn ends_in_any(path: &str, endings: &[&str]) -> bool
    ensures { result ≡ list_any (λ ending. ends_with nat_eq path.now ending.now) endings.now }
{
    endings
        .iter()
        .any(|ending| path.as_bytes().ends_with(ending.as_bytes()))
}

/// Whether a path ends as the names of these files do, so that another run may make its certificate there.
pub(crate) fn is_aside_name(path: &str) -> bool
    ensures { result ≡ is_aside_name path.now }
{
    ends_in_any(path, &ENDINGS)
}
