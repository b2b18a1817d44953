// Opening and shutting areas, and questions about them.
ghost use Rattle.std.specs.Prelude.{◌≡◌, ◌+◌, ◌<◌, ◌≤◌, true, [], length, remove, slice_index_or, IfSome, IfOk, MatchOption, OnOk};
ghost use Rattle.std.specs.List.{slice_get};
ghost use Rattle.areas.specs.Area.{any, area_of, begins, crosses, holds, lawful};
ghost use Rattle.areas.specs.Ordered.{Added, Parted, found, index_of, inserted, without};
ghost use Rattle.areas.specs.Calls.{Within, left, open_answer, opened, shut_answer};

use super::{Areas, MOST};
use crate::area::Area;
use arrayvec::ArrayVec;
use refusal::{Refusal, Rule};
use store::tags::BYTES;

// Area `i` of a row, and none past the last.
fn at(list: &ArrayVec<Area, MOST>, i: usize) -> Option<Area>
    ensures { result ≡ slice_get list.now.items i }
{
    list.get(i).copied()
}

// Takes area `i` out, and leaves the others in their order.
fn take_out(list: &mut ArrayVec<Area, MOST>, i: usize) -> Area
    requires { i < length list.old.items }
    ensures value { result ≡ slice_index_or list.old.items i result }
    ensures items { list.new.items ≡ remove list.old.items i }
    ensures fewer { length list.new.items + 1 ≡ length list.old.items }
{
    list.remove(i)
}

// A start and a size stay two parameters of what is public, as callers have them.
impl Areas {
    pub fn new() -> Areas
        ensures { opened result ≡ [] }
    {
        Areas {
            list: ArrayVec::new(),
        }
    }

    pub fn count(&self) -> u8
        ensures { result ≡ length (opened self.now) }
    {
        self.list.len() as u8
    }

    // Area `i` by address, from 0.
    pub fn area(&self, i: u8) -> Option<Area>
        ensures value { result ≡ slice_get (opened self.now) i }
        ensures within { IfSome result Within }
    {
        at(&self.list, i as usize)
    }

    // The number of the area that begins at `start`.
    pub fn index_at(&self, start: u32) -> Option<u8>
        ensures { result ≡ index_of (begins start) (opened self.now) }
    {
        let found = self.list.binary_search_by_key(&start, |x| x.start);
        found.ok().map(|i| i as u8)
    }

    // The number of the area that has the byte at `address`.
    pub fn index_of(&self, address: u32) -> Option<u8>
        ensures { result ≡ index_of (holds address 1) (opened self.now) }
    {
        let i = self.last_below(address as u64 + 1)?;
        self.list[i].holds(address, 1).then_some(i as u8)
    }

    // Whether the `bytes` from `address` lie in one open area.
    pub fn lawful(&self, address: u32, bytes: u32) -> bool
        ensures value { result ≡ lawful (opened self.now) address bytes }
        ensures within { result ≡ true → address + bytes ≤ 4096 }
    {
        self.last_below(address as u64 + 1)
            .is_some_and(|i| self.list[i].holds(address, bytes))
    }

    // Opens an area, at its place by address.
    pub fn open(&mut self, start: u32, size: u32) -> Result<(), Refusal>
        ensures answer { result ≡ open_answer (opened self.old) start size }
        ensures areas { opened self.new ≡ left result (inserted (area_of start size) (opened self.old)) (opened self.old) }
        ensures law { OnOk result (Added (opened self.old) (area_of start size) (opened self.new)) }
    {
        let new = Area {
            start,
            length: size,
        };
        self.check_open(new)?;
        let place = self.count_below(start as u64 + 1);
        self.list.insert(place, new);
        Ok(())
    }

    // Shuts the area that begins at `start`, and answers it.
    pub fn shut(&mut self, start: u32) -> Result<Area, Refusal>
        ensures answer { result ≡ shut_answer (found start (opened self.old)) }
        ensures areas { opened self.new ≡ left result (without start (opened self.old)) (opened self.old) }
        ensures within { IfOk result (λ x. (x.start ≡ start) × Within x) }
    {
        let i = self.index_at(start).ok_or((Rule::AreaOpen, 0))?;
        Ok(take_out(&mut self.list, i as usize))
    }

    // Whether the area may be opened.
    fn check_open(&self, new: Area) -> Result<(), Refusal>
        ensures answer { result ≡ open_answer (opened self.now) new.start new.length }
        ensures room { OnOk result (length (opened self.now) < MOST) }
    {
        if new.length == 0 || new.end() > BYTES as u64 {
            return Err((Rule::AreaExtent, 0));
        }
        if self.is_crossed(new) {
            return Err((Rule::AreasApart, 0));
        }
        if self.list.is_full() {
            return Err((Rule::AreaRoom, 0));
        }
        Ok(())
    }

    // Whether an open area shares a byte with the new one.
    fn is_crossed(&self, new: Area) -> bool
        ensures { result ≡ any (crosses new.start new.length) (opened self.now) }
    {
        self.last_below(new.end())
            .is_some_and(|i| self.list[i].crosses(new.start, new.length))
    }

    // The number of the last area that begins below `limit`.
    fn last_below(&self, limit: u64) -> Option<usize>
        ensures { MatchOption result (Parted limit (opened self.now) 0) (λ i. Parted limit (opened self.now) (i + 1)) }
    {
        self.count_below(limit).checked_sub(1)
    }

    // How many areas begin below `limit`.
    fn count_below(&self, limit: u64) -> usize
        ensures { Parted limit (opened self.now) result }
    {
        self.list.partition_point(|x| (x.start as u64) < limit)
    }
}
