//! Groups by the places of capacities and by classes, in pages.
ghost use Rattle.std.specs.Prelude.{◌≡◌, ℕ, ◌+◌, ◌*◌, ◌/◌, ◌%◌, ◌<◌, ◌≤◌, ◌^◌, ◌++◌, length, replicate, false, IfOk, OnOk, OnErr};
ghost use Rattle.area_sums.specs.Groups.{no_group};
ghost use Rattle.area_sums.specs.PageLayout.{ArePages, page_size};

use crate::group::Group;
use bound_base::NoMemory;
use std::alloc::Global;

/// How many successive classes a page has, which take 2 KiB.
pub(crate) const PAGE: usize = 64;

/// Groups by the places of capacities and by classes. A page has the groups of successive classes at one place, and is made
/// when a span of these first comes. It takes one look-up of the number of a page to find a group.
#[derive(Drop)]
pub(crate) struct Pages {
    places: usize,
    // how many pages a place has numbers for so far
    rows: usize,
    // the number of each page, those of the first classes at all places first; page 0 is empty, and stands for no page
    numbers: Vec<u32>,
    groups: Vec<Group>,
    ghost paged: { ArePages places rows numbers.items groups.items },
}

// A page more, which is empty, and its number.
fn add_page(groups: &mut Vec<Group>) -> Result<u32, NoMemory>
    requires whole { length groups.old.items % page_size ≡ 0 }
    ensures number { IfOk result (λ number. number * page_size ≡ length groups.old.items) }
    ensures added { OnOk result (groups.new.items ≡ groups.old.items ++ replicate page_size no_group) }
    ensures err { OnErr result (groups.new.items ≡ groups.old.items) }
{
    let count = groups.len();
    let Ok(number) = u32::try_from(count / PAGE) else {
        return Err(NoMemory);
    };
    groups.resize(count + PAGE, Group::EMPTY)?;
    Ok(number)
}

impl Pages {
    ghost use Rattle.area_sums.specs.Pages.{HasMoreIn, HasPage, HasSameGroups, KeepsRows, group_in, position_of};

    /// No group, at so many places.
    pub(crate) fn new(alloc: Global, places: usize) -> Result<Self, NoMemory>
        ensures places { IfOk result (λ pages. pages.places ≡ places) }
        ensures rows { IfOk result (λ pages. pages.rows ≡ 0) }
        ensures none { IfOk result (λ pages. (place class : ℕ) → group_in pages place class ≡ no_group) }
    {
        Ok(Pages {
            places,
            rows: 0,
            numbers: Vec::new(alloc),
            groups: vec![in alloc; Group::EMPTY; PAGE]?,
        })
    }

    /// How many places there are.
    pub(crate) fn places(&self) -> usize
        ensures { result ≡ self.now.places }
    {
        self.places
    }

    /// How many classes there are, in whole pages, up to the greatest that has a page at a place.
    pub(crate) fn classes(&self) -> usize
        ensures { result ≡ self.now.rows * page_size }
    {
        self.rows * PAGE
    }

    /// How many pages a place has numbers for.
    pub(crate) fn rows(&self) -> usize
        ensures { result ≡ self.now.rows }
    {
        self.rows
    }

    /// Whether there is a page for a row of classes at a place. If not, none of them has a group there.
    pub(crate) fn has_page(&self, place: usize, row: usize) -> bool
        requires place { place < self.now.places }
        requires row { row < self.now.rows }
        ensures { result ≡ false → (class : ℕ) → row * page_size ≤ class → class < row * page_size + page_size → group_in self.now place class ≡ no_group }
    {
        self.numbers[row * self.places + place] > 0
    }

    // Where the number of the page of a place and a class stands.
    fn spot(&self, place: usize, class: u32) -> usize
        requires place { place < self.now.places }
        requires class { class / page_size < self.now.rows }
        ensures spot { result ≡ class / page_size * self.now.places + place }
        ensures within { result < length self.now.numbers.items }
    {
        class as usize / PAGE * self.places + place
    }

    // Where the group of a place and a class stands.
    fn position(&self, place: usize, class: u32) -> usize
        requires place { place < self.now.places }
        requires class { class / page_size < self.now.rows }
        ensures position { result ≡ position_of self.now place class }
        ensures within { result < length self.now.groups.items }
    {
        let number = self.numbers[self.spot(place, class)];
        number as usize * PAGE + class as usize % PAGE
    }

    /// The group of a place and a class.
    pub(crate) fn group(&self, place: usize, class: u32) -> Group
        requires place { place < self.now.places }
        requires class { class < self.now.rows * page_size }
        ensures { result ≡ group_in self.now place class }
    {
        self.groups[self.position(place, class)]
    }

    // Numbers for so many pages at each place.
    fn reach(&mut self, rows: usize) -> Result<(), NoMemory>
        requires more { self.old.rows ≤ rows }
        requires few { rows ≤ 2 ^ 26 }
        ensures places { self.new.places ≡ self.old.places }
        ensures rows { OnOk result (self.new.rows ≡ rows) }
        ensures same { HasSameGroups self.old self.new }
        ensures err { OnErr result (self.new.rows ≡ self.old.rows) }
    {
        let Some(count) = rows.checked_mul(self.places) else {
            return Err(NoMemory);
        };
        self.numbers.resize(count, 0)?;
        self.rows = rows;
        Ok(())
    }

    // A number for the page of a place and a class, if it has none.
    fn number_page(&mut self, place: usize, class: u32) -> Result<(), NoMemory>
        requires place { place < self.old.places }
        requires class { class / page_size < self.old.rows }
        ensures places { self.new.places ≡ self.old.places }
        ensures rows { self.new.rows ≡ self.old.rows }
        ensures same { HasSameGroups self.old self.new }
        ensures made { OnOk result (HasPage self.new place class) }
    {
        let spot = self.spot(place, class);
        if self.numbers[spot] == 0 {
            self.numbers[spot] = add_page(&mut self.groups)?;
        }
        Ok(())
    }

    /// Makes the page of a place and a class, if there is none. It is empty, so no group changes.
    pub(crate) fn make_page(&mut self, place: usize, class: u32) -> Result<(), NoMemory>
        requires place { place < self.old.places }
        ensures rows { KeepsRows class self.old self.new }
        ensures same { HasSameGroups self.old self.new }
        ensures made { OnOk result (HasPage self.new place class) }
    {
        let row = class as usize / PAGE;
        if self.rows <= row {
            self.reach(row + 1)?;
        }
        self.number_page(place, class)
    }

    /// Adds to the group of a place and a class.
    pub(crate) fn add(&mut self, place: usize, class: u32, more: Group)
        requires place { place < self.old.places }
        requires made { HasPage self.old place class }
        requires gain { (group_in self.old place class).gain + more.gain < 2 ^ 128 }
        requires area { (group_in self.old place class).area + more.area < 2 ^ 128 }
        ensures places { self.new.places ≡ self.old.places }
        ensures rows { self.new.rows ≡ self.old.rows }
        ensures added { HasMoreIn place class more self.old self.new }
    {
        let position = self.position(place, class);
        self.groups[position] = self.groups[position].plus(more);
    }
}
