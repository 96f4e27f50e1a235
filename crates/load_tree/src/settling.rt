//! Whether loads in levels fit below a limit, over a range of places.
ghost use Rattle.std.specs.Prelude.{◌≡◌, ℕ, ◌+◌, ◌/◌, ◌<◌, ◌≤◌, ◌^◌, false, length, slice_index, IsTrue};
ghost use Rattle.load_tree.specs.Levels.{IsLevels, load_at};
ghost use Rattle.load_tree.specs.Answers.{IsAnswer};

use crate::levels::{Level, WIDTH, most_of, most_of_group, most_of_other};

/// What the levels from one upward tell of a range of places.
#[derive(Clone, Copy, Debug, PartialEq, Eq)]
pub(crate) enum Answer {
    /// Each load is within the room.
    Fits,
    /// A load between the lowest and the highest place is over the room.
    Full,
    /// The loads between are within the room, and that of the lowest place or of the highest one is not.
    Open { low: u64, high: u64 },
}

/// A range of places, both of which are in it, and the room for each load.
#[derive(Clone, Copy, Debug, PartialEq, Eq)]
pub(crate) struct Query {
    pub(crate) low: usize,
    pub(crate) high: usize,
    pub(crate) room: u64,
}

// Whether one of the values from `from` to the one before `to`, with what is added, is over the room.
fn is_over(values: &[u64], from: usize, to: usize, added: u64, room: u64) -> bool
    requires within { to ≤ length values.now }
    requires small { (p : ℕ) → from ≤ p → p < to → slice_index values.now p + added < 2 ^ 64 }
    ensures over { IsTrue result → (p : ℕ) × (from ≤ p) × (p < to) × (room < slice_index values.now p + added) }
    ensures within { result ≡ false → (p : ℕ) → from ≤ p → p < to → slice_index values.now p + added ≤ room }
{
    from < to && most_of(values, from, to) + added > room
}

// What a level tells, if each load in the group of the lowest place is greater than the value there by one number,
// and in that of the highest place by another.
fn judge(values: &[u64], level: Level, query: Query, low_added: u64, high_added: u64) -> Answer
    requires order { query.low ≤ query.high }
    requires within { query.high < level.count }
    requires places { level.start + level.count ≤ length values.now }
    requires left { (t : ℕ) → t / 16 ≡ query.low / 16 → t < level.count →
        load_at level.height level.start level.count values.now t ≡ slice_index values.now (level.start + t) + low_added }
    requires right { (t : ℕ) → t / 16 ≡ query.high / 16 → t < level.count →
        load_at level.height level.start level.count values.now t ≡ slice_index values.now (level.start + t) + high_added }
    requires inner { (t : ℕ) → query.low / 16 < t / 16 → t / 16 < query.high / 16 →
        load_at level.height level.start level.count values.now t ≤ query.room }
    requires small { (t : ℕ) → t < level.count →
        load_at level.height level.start level.count values.now t < 2 ^ 64 }
    ensures { IsAnswer (load_at level.height level.start level.count values.now)
        query.low query.high query.room result }
{
    let start = level.start;
    let left_end = (query.low / WIDTH * WIDTH + WIDTH).min(query.high);
    let right_start = (query.high / WIDTH * WIDTH).max(left_end);
    if is_over(
        values,
        start + query.low + 1,
        start + left_end,
        low_added,
        query.room,
    ) {
        return Answer::Full;
    }
    if is_over(
        values,
        start + right_start,
        start + query.high,
        high_added,
        query.room,
    ) {
        return Answer::Full;
    }
    let low = values[start + query.low] + low_added;
    let high = values[start + query.high] + high_added;
    if low <= query.room && high <= query.room {
        Answer::Fits
    } else {
        Answer::Open { low, high }
    }
}

/// What the levels from this one upward tell of a range of its places. Takes time in the number of levels.
pub(crate) fn look(values: &[u64], level: Level, query: Query) -> Answer
    requires levels { IsLevels level.height level.start level.count values.now }
    requires order { query.low ≤ query.high }
    requires within { query.high < level.count }
    requires small { (t : ℕ) → t < level.count →
        load_at level.height level.start level.count values.now t < 2 ^ 64 }
    ensures { IsAnswer (load_at level.height level.start level.count values.now)
        query.low query.high query.room result }
{
    if level.height == 0 {
        return judge(values, level, query, 0, 0);
    }
    let left = query.low / WIDTH;
    let right = query.high / WIDTH;
    let above = Query {
        low: left,
        high: right,
        room: query.room,
    };
    match look(values, level.next(), above) {
        Answer::Open { low, high } => {
            let left_most = most_of_group(values, level, left);
            let right_most = most_of_other(values, level, left, left_most, right);
            let low_added = low - left_most;
            let high_added = high - right_most;
            judge(values, level, query, low_added, high_added)
        }
        settled => settled,
    }
}
