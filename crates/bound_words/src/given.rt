//! What the operands of the command line give, and what is taken if they give nothing.
ghost use Rattle.std.specs.Prelude.{◌≡◌, ◌≤◌, ◌^◌, map, string_bytes, IfSome};
ghost use Rattle.bound_terms.specs.declared.modes.Mode.TheVariants.{Flow};
ghost use Rattle.relaxation.specs.Denominators.{IsChoice};
ghost use Rattle.trace_any.specs.Readings.{IsFormat};
ghost use Rattle.bound_words.specs.Ranges.{IsModeInRange};
ghost use Rattle.bound_words.specs.Given.{block_given, capacities_given, capacity_given, capacity_or_usual, delay_given, denominator_given, drawn_given, flags_given, format_given, fresh_given};
ghost use Rattle.bound_words.specs.Given.{idle_given, long_warmup_given, mode_given, number_given, objective_given, objects_given, policies_given, policy_given, reads_given, replaced_given, requests_given, seed_given, ttl_given, usual_mode};
ghost use Rattle.bound_words.specs.Given.{version_given, warmup_given, width_given, window_given, writes_given};
ghost use Rattle.cache_model.specs.declared.version.TheConstants.{CERT_VERSION, SHORT_VERSION};

use crate::capacities::CapacityList;
use crate::named::value_given;
use crate::policies::PolicyList;
use crate::values::{
    MOST_DENOMINATOR, USUAL_BLOCK, block_of, capacity_of, count_of, denominator_of, drawn_of,
    flags_of, layout_of, long_count_of, mode_of, number_of, objective_of, reads_of, replaced_of,
    usual_denominator, version_of, whole_of, width_of, window_of, writes_of,
};
use bound_terms::{Mode, Window};
use cache_model::CERT_VERSION;
use cache_rules::Objective;
use policy_model::PolicyName;
use relaxation::DenominatorChoice;
use trace_any::{Format, Freshness};

// What a demo is made of if no operand says it.
const USUAL_SEED: u64 = 1;

const USUAL_REQUESTS: u32 = 2000;

const USUAL_OBJECTS: u32 = 200;

const USUAL_CAPACITY: u64 = 65536;

fn block_given(operands: &[String]) -> u64
    ensures value { result ≡ block_given (map string_bytes operands.now) }
    ensures range { (1 ≤ result) × (result ≤ 2 ^ 48) }
{
    match value_given("block", operands) {
        Some(value) => block_of(value).unwrap_or(USUAL_BLOCK),
        None => USUAL_BLOCK,
    }
}

/// Whether only reads count.
pub(crate) fn reads_given(operands: &[String]) -> bool
    ensures { result ≡ reads_given (map string_bytes operands.now) }
{
    match value_given("count", operands) {
        Some(value) => reads_of(value).unwrap_or(false),
        None => false,
    }
}

// How long objects stay fresh after they were asked for, if it has an end.
fn idle_given(operands: &[String]) -> Option<u64>
    ensures { result ≡ idle_given (map string_bytes operands.now) }
{
    whole_of(value_given("idle", operands)?)
}

/// How long objects stay fresh after they were written, if it has an end.
pub(crate) fn ttl_given(operands: &[String]) -> Option<u64>
    ensures { result ≡ ttl_given (map string_bytes operands.now) }
{
    whole_of(value_given("ttl", operands)?)
}

// Whether objects are replaced by others of their id.
fn replaced_given(operands: &[String]) -> bool
    ensures { result ≡ replaced_given (map string_bytes operands.now) }
{
    match value_given("replace", operands) {
        Some(value) => replaced_of(value).unwrap_or(false),
        None => false,
    }
}

// How long objects stay fresh.
fn fresh_given(operands: &[String]) -> Freshness
    ensures { result ≡ fresh_given (map string_bytes operands.now) }
{
    Freshness {
        idle: idle_given(operands),
        ttl: ttl_given(operands),
        replace: replaced_given(operands),
    }
}

/// The form of the trace: its layout, with the block and the requests that count, and how long its objects stay fresh.
pub fn format_given(operands: &[String]) -> Option<Format>
    ensures value { result ≡ format_given (map string_bytes operands.now) }
    ensures range { IfSome result IsFormat }
{
    let value = value_given("format", operands)?;
    let layout = layout_of(value, block_given(operands), reads_given(operands))?;
    Some(Format {
        layout,
        fresh: fresh_given(operands),
    })
}

pub(crate) fn capacity_given(operands: &[String]) -> Option<u64>
    ensures value { result ≡ capacity_given (map string_bytes operands.now) }
    ensures range { IfSome result (λ n. (1 ≤ n) × (n ≤ 2 ^ 56)) }
{
    capacity_of(value_given("capacity", operands)?)
}

/// The capacities of a curve over them, or of a sweep.
pub(crate) fn capacities_given(operands: &[String]) -> Option<CapacityList<'_>>
    ensures { result ≡ capacities_given (map string_bytes operands.now) }
{
    CapacityList::of(value_given("capacities", operands)?)
}

pub(crate) fn objective_given(operands: &[String]) -> Objective
    ensures { result ≡ objective_given (map string_bytes operands.now) }
{
    match value_given("objective", operands) {
        Some(value) => objective_of(value).unwrap_or(Objective::Object),
        None => Objective::Object,
    }
}

fn window_given(operands: &[String]) -> Window
    ensures value { result ≡ window_given (map string_bytes operands.now) }
    ensures in_range { IsModeInRange (Flow result) }
{
    match value_given("window", operands) {
        Some(value) => window_of(value).unwrap_or(Window::All),
        None => Window::All,
    }
}

/// The steps of a block of a refinement.
pub(crate) fn width_given(operands: &[String]) -> Option<u32>
    ensures value { result ≡ width_given (map string_bytes operands.now) }
    ensures range { IfSome result (λ n. (1 ≤ n) × (n ≤ 2 ^ 25)) }
{
    width_of(value_given("window", operands)?)
}

// The mode if none is given: the flow, or one price if objects expire a time after they were written.
fn usual_mode(operands: &[String]) -> Mode
    ensures value { result ≡ usual_mode (map string_bytes operands.now) }
    ensures in_range { IsModeInRange result }
{
    if ttl_given(operands).is_some() {
        Mode::Constant
    } else {
        Mode::Flow {
            window: window_given(operands),
        }
    }
}

pub(crate) fn mode_given(operands: &[String]) -> Mode
    ensures value { result ≡ mode_given (map string_bytes operands.now) }
    ensures in_range { IsModeInRange result }
{
    let usual = usual_mode(operands);
    match value_given("mode", operands) {
        Some(value) => mode_of(value, window_given(operands)).unwrap_or(usual),
        None => usual,
    }
}

pub(crate) fn denominator_given(mode: Mode, operands: &[String]) -> DenominatorChoice
    ensures value { result ≡ denominator_given mode (map string_bytes operands.now) }
    ensures range { IsChoice result }
{
    match value_given("denominator", operands) {
        Some(value) => denominator_of(value).unwrap_or(usual_denominator(mode)),
        None => usual_denominator(mode),
    }
}

/// The denominator of a curve over capacities.
pub(crate) fn number_given(operands: &[String]) -> u64
    ensures value { result ≡ number_given (map string_bytes operands.now) }
    ensures range { (1 ≤ result) × (result ≤ 2 ^ 48) }
{
    match value_given("denominator", operands) {
        Some(value) => number_of(value).unwrap_or(MOST_DENOMINATOR),
        None => MOST_DENOMINATOR,
    }
}

pub(crate) fn policy_given(operands: &[String]) -> Option<PolicyName>
    ensures { result ≡ policy_given (map string_bytes operands.now) }
{
    PolicyName::named(value_given("policy", operands)?)
}

/// The policies that a sweep replays, if it is asked for some.
pub(crate) fn policies_given(operands: &[String]) -> Option<PolicyList<'_>>
    ensures { result ≡ policies_given (map string_bytes operands.now) }
{
    PolicyList::of(value_given("policies", operands)?)
}

pub(crate) fn warmup_given(operands: &[String]) -> u32
    ensures value { result ≡ warmup_given (map string_bytes operands.now) }
    ensures range { result ≤ 2 ^ 25 }
{
    match value_given("warmup", operands) {
        Some(value) => count_of(value).unwrap_or(0),
        None => 0,
    }
}

/// The warm-up of a sweep.
pub(crate) fn long_warmup_given(operands: &[String]) -> u32
    ensures { result ≡ long_warmup_given (map string_bytes operands.now) }
{
    match value_given("warmup", operands) {
        Some(value) => long_count_of(value).unwrap_or(0),
        None => 0,
    }
}

/// By how many requests an object may enter the cache late.
pub(crate) fn delay_given(operands: &[String]) -> u32
    ensures { result ≡ delay_given (map string_bytes operands.now) }
{
    match value_given("delay", operands) {
        Some(value) => long_count_of(value).unwrap_or(0),
        None => 0,
    }
}

pub(crate) fn version_given(operands: &[String]) -> u8
    ensures value { result ≡ version_given (map string_bytes operands.now) }
    ensures range { (CERT_VERSION ≤ result) × (result ≤ SHORT_VERSION) }
{
    match value_given("version", operands) {
        Some(value) => version_of(value).unwrap_or(CERT_VERSION),
        None => CERT_VERSION,
    }
}

/// Whether written bytes are counted.
pub(crate) fn writes_given(operands: &[String]) -> bool
    ensures { result ≡ writes_given (map string_bytes operands.now) }
{
    match value_given("writes", operands) {
        Some(value) => writes_of(value).unwrap_or(false),
        None => false,
    }
}

/// Whether flags are printed in place of the report.
pub(crate) fn flags_given(operands: &[String]) -> bool
    ensures { result ≡ flags_given (map string_bytes operands.now) }
{
    match value_given("print", operands) {
        Some(value) => flags_of(value).unwrap_or(false),
        None => false,
    }
}

pub(crate) fn seed_given(operands: &[String]) -> u64
    ensures { result ≡ seed_given (map string_bytes operands.now) }
{
    match value_given("seed", operands) {
        Some(value) => whole_of(value).unwrap_or(USUAL_SEED),
        None => USUAL_SEED,
    }
}

// The number of requests or of objects that an operand gives, and the usual one if none does.
fn drawn_given(name: &str, usual: u32, operands: &[String]) -> u32
    requires { (1 ≤ usual) × (usual ≤ 2 ^ 25) }
    ensures value { result ≡ drawn_given name.now usual (map string_bytes operands.now) }
    ensures range { (1 ≤ result) × (result ≤ 2 ^ 25) }
{
    match value_given(name, operands) {
        Some(value) => drawn_of(value).unwrap_or(usual),
        None => usual,
    }
}

pub(crate) fn requests_given(operands: &[String]) -> u32
    ensures value { result ≡ requests_given (map string_bytes operands.now) }
    ensures range { (1 ≤ result) × (result ≤ 2 ^ 25) }
{
    drawn_given("requests", USUAL_REQUESTS, operands)
}

pub(crate) fn objects_given(operands: &[String]) -> u32
    ensures value { result ≡ objects_given (map string_bytes operands.now) }
    ensures range { (1 ≤ result) × (result ≤ 2 ^ 25) }
{
    drawn_given("objects", USUAL_OBJECTS, operands)
}

/// The capacity of a demo, which has a usual one.
pub(crate) fn capacity_or_usual(operands: &[String]) -> u64
    ensures value { result ≡ capacity_or_usual (map string_bytes operands.now) }
    ensures range { (1 ≤ result) × (result ≤ 2 ^ 56) }
{
    capacity_given(operands).unwrap_or(USUAL_CAPACITY)
}
