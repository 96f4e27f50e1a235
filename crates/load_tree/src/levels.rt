//! Loads in levels: each value of a level stands for a group of values of the level below.
//!
//! The lowest level has a value for each step. A value is at least the greatest of its group, and by what it is
//! greater, each load of its group is greater than the value that stands there. The levels stand one after another,
//! the lowest one first, and the highest one has one group.
ghost use Rattle.std.specs.Prelude.{◌≡◌, ℕ, ◌+◌, ◌-◌, ◌*◌, ◌/◌, ◌<◌, ◌≤◌, ◌^◌, length, slice_index};
ghost use Rattle.load_tree.specs.Levels.{greatest, groups_of, most_of_group, places_of, top_of};
ghost use Rattle.load_tree.specs.Ranges.{AddsOver, HasSmallRoom};

/// A level: that number of values from place `start` on, and how many levels are above it.
#[derive(Clone, Copy, Debug, PartialEq, Eq)]
pub(crate) struct Level {
    pub(crate) height: u32,
    pub(crate) start: usize,
    pub(crate) count: usize,
}

/// How many values a group has; the last one of a level may have fewer.
pub(crate) const WIDTH: usize = 16;

impl Level {
    /// The level above.
    pub(crate) fn next(self) -> Level
        requires higher { 0 < self.height }
        requires short { self.start + self.count < 2 ^ 63 }
        ensures height { self.height ≡ result.height + 1 }
        ensures start { result.start ≡ self.start + self.count }
        ensures count { result.count ≡ groups_of self.count }
    {
        Level {
            height: self.height - 1,
            start: self.start + self.count,
            count: (self.count + (WIDTH - 1)) / WIDTH,
        }
    }
}

/// How high levels over that number of values are, and how many values all have.
#[derive(Clone, Copy, Debug, PartialEq, Eq)]
pub(crate) struct Shape {
    pub(crate) height: u32,
    pub(crate) places: usize,
}

/// The levels over that number of values, of which the highest is one group.
pub(crate) fn shape_of(count: usize) -> Shape
    requires { count < 2 ^ 32 }
    ensures places { result.places ≡ places_of result.height count }
    ensures one_group { top_of result.height count ≤ 16 }
    ensures deep { result.height ≤ count }
    ensures few { 15 * result.places ≤ 17 * count }
{
    if count <= WIDTH {
        return Shape {
            height: 0,
            places: count,
        };
    }
    let above = shape_of((count + (WIDTH - 1)) / WIDTH);
    Shape {
        height: above.height + 1,
        places: count + above.places,
    }
}

/// The greatest of the values from `from` to the one before `to`, and 0 of none.
pub(crate) fn most_of(values: &[u64], from: usize, to: usize) -> u64
    requires order { from ≤ to }
    requires within { to ≤ length values.now }
    ensures { result ≡ greatest values.now from (to - from) }
{
    let mut most = 0;
    for place in from..to {
        most = most.max(values[place]);
    }
    most
}

/// The greatest value of a group of a level.
pub(crate) fn most_of_group(values: &[u64], level: Level, group: usize) -> u64
    requires within { level.start + level.count ≤ length values.now }
    requires group { 16 * group < level.count }
    ensures { result ≡ most_of_group values.now level.start level.count group }
{
    let first = group * WIDTH;
    let end = (first + WIDTH).min(level.count);
    most_of(values, level.start + first, level.start + end)
}

/// The greatest value of a group of a level, if that of one group, which may be the same, is known.
pub(crate) fn most_of_other(
    values: &[u64],
    level: Level,
    known: usize,
    most: u64,
    group: usize,
) -> u64
    requires within { level.start + level.count ≤ length values.now }
    requires group { 16 * group < level.count }
    requires most { most ≡ most_of_group values.now level.start level.count known }
    ensures { result ≡ most_of_group values.now level.start level.count group }
{
    if known == group {
        most
    } else {
        most_of_group(values, level, group)
    }
}

/// Adds the amount to the values from `from` to the one before `to`.
pub(crate) fn add_each(values: &mut [u64], from: usize, to: usize, amount: u64)
    requires order { from ≤ to }
    requires within { to ≤ length values.old }
    requires room { HasSmallRoom values.old from to amount }
    ensures { AddsOver values.old values.new from to amount }
{
    for place in from..to {
        values[place] += amount;
    }
}
