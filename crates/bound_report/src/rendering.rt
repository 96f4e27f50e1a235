//! A report as a value, and its text.
ghost use Rattle.std.specs.Prelude.{◌≡◌, ◌++◌, IfOk, OnErr, OnOk};
ghost use Rattle.cache_model.specs.Texts.{text_of};
ghost use Rattle.bound_report.specs.Rendering.{counted_lines, idle_lines, late_lines, none_stale, rendered, stale_count_lines, stale_lines, ttl_lines};
ghost use Rattle.bound_report.specs.Rendering.{uncounted, warmup_lines};

use crate::report::{append, entry_line};
use bound_base::NoMemory;
use std::alloc::Global;

/// What is said of stale requests: `idle` is the time for which objects stay fresh after they were asked for, and `ttl` the time
/// for which they do after they were written, if these have ends, in the unit of the trace's times; `late` requests had a time below the clock before them; and `stale` of all requests were stale, which is known if one can be.
#[derive(Clone, Copy, Debug, PartialEq, Eq)]
pub struct StaleCounts {
    pub idle: Option<u64>,
    pub ttl: Option<u64>,
    pub late: u64,
    pub stale: Option<u32>,
}

impl StaleCounts {
    /// No request can be stale, and none was late.
    pub const fn none() -> Self
        ensures { result ≡ none_stale }
    {
        StaleCounts {
            idle: None,
            ttl: None,
            late: 0,
            stale: None,
        }
    }
}

/// How the requests of a trace count: the first `warmup` of them don't, and `counted` of the others do by their own marks,
/// which is known if the form of the trace has marks. `stale` is what is said of stale requests.
#[derive(Clone, Copy, Debug, PartialEq, Eq)]
pub struct Counting {
    pub warmup: u32,
    pub counted: Option<u32>,
    pub stale: StaleCounts,
}

impl Counting {
    /// No warm-up, no marks and no stale requests: every request counts.
    pub const fn every() -> Self
        ensures { result ≡ uncounted }
    {
        Counting {
            warmup: 0,
            counted: None,
            stale: StaleCounts::none(),
        }
    }
}

/// What a command reports.
pub trait Report {
    ghost use Rattle.std.specs.Prelude.{◌≡◌, ◌++◌, OnOk};
    ghost use Rattle.cache_model.specs.Texts.{text_of};
    ghost use Rattle.bound_report.specs.Rendering.{Lines};

    /// The lines.
    ghost lines: { Self → Lines };

    /// What has to hold of the numbers.
    ghost is_sound: { Self → Type 0 };

    /// Appends the lines up to that of the trace.
    /// If memory runs out, the text may hold some of them.
    fn append_front(&self, text: &mut Vec<u8>) -> Result<(), NoMemory>
        requires sound { is_sound self.now }
        ensures { OnOk result (text.new.items ≡ text.old.items ++ text_of (lines self.now).front) };

    /// Appends the line of the capacity, or what a curve has in its place. The lines of stale requests stand behind it.
    /// If memory runs out, the text may hold a part of it.
    fn append_head(&self, text: &mut Vec<u8>) -> Result<(), NoMemory>
        requires sound { is_sound self.now }
        ensures { OnOk result (text.new.items ≡ text.old.items ++ text_of (lines self.now).head) };

    /// Appends the lines behind that of the capacity.
    /// If memory runs out, the text may hold some of them.
    fn append_back(&self, text: &mut Vec<u8>) -> Result<(), NoMemory>
        requires sound { is_sound self.now }
        ensures { OnOk result (text.new.items ≡ text.old.items ++ text_of (lines self.now).back) };
}

// Appends how many requests count, if that is known.
fn append_counted(text: &mut Vec<u8>, counted: Option<u32>) -> Result<(), NoMemory>
    ensures { OnOk result (text.new.items ≡ text.old.items ++ text_of (counted_lines counted)) }
{
    match counted {
        Some(counted) => append(text, &entry_line(b"counted", u128::from(counted))),
        None => Ok(()),
    }
}

// Appends the time for which objects stay fresh after they were asked for, if it has an end.
fn append_idle(text: &mut Vec<u8>, idle: Option<u64>) -> Result<(), NoMemory>
    ensures { OnOk result (text.new.items ≡ text.old.items ++ text_of (idle_lines idle)) }
{
    match idle {
        Some(idle) => append(text, &entry_line(b"idle", u128::from(idle))),
        None => Ok(()),
    }
}

// Appends the time for which objects stay fresh after they were written, if it has an end.
fn append_ttl(text: &mut Vec<u8>, ttl: Option<u64>) -> Result<(), NoMemory>
    ensures { OnOk result (text.new.items ≡ text.old.items ++ text_of (ttl_lines ttl)) }
{
    match ttl {
        Some(ttl) => append(text, &entry_line(b"ttl", u128::from(ttl))),
        None => Ok(()),
    }
}

// Appends how many requests were late, if some were.
fn append_late(text: &mut Vec<u8>, late: u64) -> Result<(), NoMemory>
    ensures { OnOk result (text.new.items ≡ text.old.items ++ text_of (late_lines late)) }
{
    if late == 0 {
        return Ok(());
    }
    append(text, &entry_line(b"late", u128::from(late)))
}

// Appends how many requests were stale, if any can be.
fn append_stale(text: &mut Vec<u8>, stale: Option<u32>) -> Result<(), NoMemory>
    ensures { OnOk result (text.new.items ≡ text.old.items ++ text_of (stale_lines stale)) }
{
    match stale {
        Some(stale) => append(text, &entry_line(b"stale", u128::from(stale))),
        None => Ok(()),
    }
}

// Appends what is said of stale requests.
fn append_stale_counts(text: &mut Vec<u8>, counts: StaleCounts) -> Result<(), NoMemory>
    ensures { OnOk result (text.new.items ≡ text.old.items ++ text_of (stale_count_lines counts)) }
{
    append_idle(text, counts.idle)?;
    append_ttl(text, counts.ttl)?;
    append_late(text, counts.late)?;
    append_stale(text, counts.stale)
}

// Appends the warm-up, if there is one.
fn append_warmup(text: &mut Vec<u8>, warmup: u32) -> Result<(), NoMemory>
    ensures { OnOk result (text.new.items ≡ text.old.items ++ text_of (warmup_lines warmup)) }
{
    if warmup == 0 {
        return Ok(());
    }
    append(text, &entry_line(b"warmup", u128::from(warmup)))
}

/// The text of a report.
pub fn render<R: Report>(alloc: Global, report: &R, counting: Counting) -> Result<Vec<u8>, NoMemory>
    requires sound { R.is_sound report.now }
    ensures { IfOk result (λ text. text.items ≡ rendered counting (R.lines report.now)) }
{
    let mut text = Vec::new(alloc);
    report.append_front(&mut text)?;
    append_counted(&mut text, counting.counted)?;
    report.append_head(&mut text)?;
    append_stale_counts(&mut text, counting.stale)?;
    report.append_back(&mut text)?;
    append_warmup(&mut text, counting.warmup)?;
    Ok(text)
}
