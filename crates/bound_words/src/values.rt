//! The values of operands.
ghost use Rattle.std.specs.Prelude.{◌≡◌, ◌≤◌, ◌^◌, if◌then◌else◌, IfSome};
ghost use Rattle.std.specs.Str.{bytes_eq};
ghost use Rattle.bound_terms.specs.declared.modes.Mode.TheVariants.{Flow};
ghost use Rattle.relaxation.specs.Denominators.{IsChoice};
ghost use Rattle.trace_any.specs.Readings.{IsLayout};
ghost use Rattle.trace_any.specs.declared.format.Layout.TheVariants.{Webcache, Msr, MarkedWebcache, MsrReads};
ghost use Rattle.bound_words.specs.Ranges.{IsModeInRange};
ghost use Rattle.bound_words.specs.Values.{block_of, capacity_of, count_of, denominator_of, drawn_of};
ghost use Rattle.bound_words.specs.Values.{flags_of, layout_of, long_count_of, mode_of, number_to, objective_of, reads_of, replaced_of};
ghost use Rattle.bound_words.specs.Values.{usual_denominator, version_of, whole_of, width_of, window_of, writes_of};
ghost use Rattle.cache_model.specs.declared.version.TheConstants.{CERT_VERSION, SHORT_VERSION};

use bound_base::read_u64;
use bound_terms::{Mode, Window};
use cache_model::SHORT_VERSION;
use cache_rules::Objective;
use relaxation::DenominatorChoice;
use trace_any::Layout;

/// The largest capacity, in bytes.
pub const MOST_CAPACITY: u64 = 1 << 56;

/// The largest block, in bytes.
pub(crate) const MOST_BLOCK: u64 = 1 << 48;

/// The most steps of a window.
pub(crate) const MOST_WINDOW: u64 = 1 << 25;

/// The most requests of a trace.
pub(crate) const MOST_REQUESTS: u64 = 1 << 25;

/// The most requests of a demo, and the most objects.
pub(crate) const MOST_DRAWN: u64 = 1 << 25;

/// The largest denominator.
pub const MOST_DENOMINATOR: u64 = 1 << 48;

/// The bytes of a block if no operand gives them.
pub(crate) const USUAL_BLOCK: u64 = 4096;

/// Whether a word is this one.
pub(crate) fn is(word: &str, other: &str) -> bool
    ensures { result ≡ bytes_eq word.now other.now }
{
    word == other
}

// A number from 1 to the most that is allowed.
fn number_to(most: u64, value: &str) -> Option<u64>
    ensures value { result ≡ number_to most value.now }
    ensures range { IfSome result (λ n. (1 ≤ n) × (n ≤ most)) }
{
    match read_u64(value.as_bytes()) {
        Ok(number) if number >= 1 && number <= most => Some(number),
        _ => None,
    }
}

pub(crate) fn capacity_of(value: &str) -> Option<u64>
    ensures value { result ≡ capacity_of value.now }
    ensures range { IfSome result (λ n. (1 ≤ n) × (n ≤ 2 ^ 56)) }
{
    number_to(MOST_CAPACITY, value)
}

pub(crate) fn block_of(value: &str) -> Option<u64>
    ensures value { result ≡ block_of value.now }
    ensures range { IfSome result (λ n. (1 ≤ n) × (n ≤ 2 ^ 48)) }
{
    number_to(MOST_BLOCK, value)
}

/// Whether only reads count, by a value.
pub(crate) fn reads_of(value: &str) -> Option<bool>
    ensures { result ≡ reads_of value.now }
{
    if is(value, "all") {
        Some(false)
    } else if is(value, "reads") {
        Some(true)
    } else {
        None
    }
}

/// Whether written bytes are counted, by a value.
pub(crate) fn writes_of(value: &str) -> Option<bool>
    ensures { result ≡ writes_of value.now }
{
    if is(value, "none") {
        Some(false)
    } else if is(value, "count") {
        Some(true)
    } else {
        None
    }
}

/// Whether flags are printed in place of the report, by a value.
pub(crate) fn flags_of(value: &str) -> Option<bool>
    ensures { result ≡ flags_of value.now }
{
    if is(value, "report") {
        Some(false)
    } else if is(value, "flags") {
        Some(true)
    } else {
        None
    }
}

/// Whether objects are replaced by others of their id, by a value.
pub(crate) fn replaced_of(value: &str) -> Option<bool>
    ensures { result ≡ replaced_of value.now }
{
    if is(value, "no") {
        Some(false)
    } else if is(value, "yes") {
        Some(true)
    } else {
        None
    }
}

// The layout webcache, with marks if only reads count.
fn webcache(reads: bool) -> Layout
    ensures { result ≡ if reads then MarkedWebcache else Webcache }
{
    if reads {
        Layout::MarkedWebcache
    } else {
        Layout::Webcache
    }
}

// The layout msr, with marks if only reads count.
fn msr(block: u64, reads: bool) -> Layout
    ensures { result ≡ if reads then MsrReads block else Msr block }
{
    if reads {
        Layout::MsrReads { block }
    } else {
        Layout::Msr { block }
    }
}

/// The layout that a value names, if a block has this many bytes, and if only reads count or all requests.
pub(crate) fn layout_of(value: &str, block: u64, reads: bool) -> Option<Layout>
    requires block { (1 ≤ block) × (block ≤ 2 ^ 48) }
    ensures value { result ≡ layout_of value.now block reads }
    ensures range { IfSome result IsLayout }
{
    if is(value, "webcache") {
        Some(webcache(reads))
    } else if is(value, "arc") {
        Some(Layout::Arc)
    } else if is(value, "msr") {
        Some(msr(block, reads))
    } else if is(value, "oracle") {
        Some(Layout::Oracle)
    } else {
        None
    }
}

pub(crate) fn objective_of(value: &str) -> Option<Objective>
    ensures { result ≡ objective_of value.now }
{
    if is(value, "object") {
        Some(Objective::Object)
    } else if is(value, "bytes") {
        Some(Objective::Bytes)
    } else {
        None
    }
}

/// How many steps a window has, if it is a number of them.
pub(crate) fn width_of(value: &str) -> Option<u32>
    ensures value { result ≡ width_of value.now }
    ensures range { IfSome result (λ n. (1 ≤ n) × (n ≤ 2 ^ 25)) }
{
    match number_to(MOST_WINDOW, value) {
        Some(width) => Some(width as u32),
        None => None,
    }
}

pub(crate) fn window_of(value: &str) -> Option<Window>
    ensures value { result ≡ window_of value.now }
    ensures in_range { IfSome result (λ window. IsModeInRange (Flow window)) }
{
    if is(value, "all") {
        Some(Window::All)
    } else {
        match width_of(value) {
            Some(width) => Some(Window::Steps(width)),
            None => None,
        }
    }
}

/// The mode that a value names, if the mode flow has this window.
pub(crate) fn mode_of(value: &str, window: Window) -> Option<Mode>
    requires { IsModeInRange (Flow window) }
    ensures value { result ≡ mode_of value.now window }
    ensures in_range { IfSome result IsModeInRange }
{
    if is(value, "flow") {
        Some(Mode::Flow { window })
    } else if is(value, "constant") {
        Some(Mode::Constant)
    } else if is(value, "infinite") {
        Some(Mode::Infinite)
    } else {
        None
    }
}

/// A denominator that is a number.
pub(crate) fn number_of(value: &str) -> Option<u64>
    ensures value { result ≡ number_to (2 ^ 48) value.now }
    ensures range { IfSome result (λ n. (1 ≤ n) × (n ≤ 2 ^ 48)) }
{
    number_to(MOST_DENOMINATOR, value)
}

pub(crate) fn denominator_of(value: &str) -> Option<DenominatorChoice>
    ensures value { result ≡ denominator_of value.now }
    ensures range { IfSome result IsChoice }
{
    if is(value, "auto") {
        Some(DenominatorChoice::Auto)
    } else if is(value, "exact") {
        Some(DenominatorChoice::Exact)
    } else {
        match number_of(value) {
            Some(number) => Some(DenominatorChoice::Given(number)),
            None => None,
        }
    }
}

/// A number of requests, which may be 0.
pub(crate) fn count_of(value: &str) -> Option<u32>
    ensures value { result ≡ count_of value.now }
    ensures range { IfSome result (λ n. n ≤ 2 ^ 25) }
{
    match read_u64(value.as_bytes()) {
        Ok(number) if number <= MOST_REQUESTS => Some(number as u32),
        _ => None,
    }
}

/// A number of requests of a trace of any length, which may be 0.
pub(crate) fn long_count_of(value: &str) -> Option<u32>
    ensures { result ≡ long_count_of value.now }
{
    match read_u64(value.as_bytes()) {
        Ok(number) if number < 1 << 32 => Some(number as u32),
        _ => None,
    }
}

pub(crate) fn version_of(value: &str) -> Option<u8>
    ensures value { result ≡ version_of value.now }
    ensures range { IfSome result (λ n. (CERT_VERSION ≤ n) × (n ≤ SHORT_VERSION)) }
{
    match number_to(u64::from(SHORT_VERSION), value) {
        Some(number) => Some(number as u8),
        None => None,
    }
}

/// A seed, or a time.
pub(crate) fn whole_of(value: &str) -> Option<u64>
    ensures { result ≡ whole_of value.now }
{
    match read_u64(value.as_bytes()) {
        Ok(number) => Some(number),
        Err(_) => None,
    }
}

/// How many requests or objects a demo has.
pub(crate) fn drawn_of(value: &str) -> Option<u32>
    ensures value { result ≡ drawn_of value.now }
    ensures range { IfSome result (λ n. (1 ≤ n) × (n ≤ 2 ^ 25)) }
{
    match number_to(MOST_DRAWN, value) {
        Some(number) => Some(number as u32),
        None => None,
    }
}

/// The denominator of a mode if none is given.
pub(crate) fn usual_denominator(mode: Mode) -> DenominatorChoice
    ensures value { result ≡ usual_denominator mode }
    ensures range { IsChoice result }
{
    match mode {
        Mode::Flow { .. } => DenominatorChoice::Auto,
        Mode::Constant => DenominatorChoice::Given(MOST_DENOMINATOR),
        Mode::Infinite => DenominatorChoice::Given(1),
    }
}
