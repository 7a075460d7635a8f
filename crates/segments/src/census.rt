//! One pass over the rows: whether they are a map of the arena, and the figures of the live blocks and free runs.

ghost use Rattle.std.specs.Prelude.{◌≡◌, ◌+◌, ◌≤◌};
ghost use Rattle.model.specs.Quantities.{Config};
ghost use Rattle.segments.specs.Counting.{Bounded, Counted};
ghost use Rattle.segments.specs.Steps.{none_counted, follows_of, free_of, live_of};

use crate::row_list::RowList;
use model::{Segment, granules_with};

/// The figures of the rows counted: the granule where they end, and whether the last of them is free, which only the pass needs; the granules of the live
/// blocks and of the longest free run; and for each of owners 1 to 8 the number of its live blocks, and their granules.
// Two arrays and not one of pairs: each is compared with the quotas of its kind.
#[derive(Clone, Copy, Debug, PartialEq, Eq)]
pub struct Census {
    pub end: u32,
    pub after_free: bool,
    pub used: u32,
    pub longest: u32,
    pub blocks: [u32; 8],
    pub held: [u32; 8],
}

impl Census {
    // Before the first row.
    fn new() -> Census
        ensures { result ≡ none_counted }
    {
        Census {
            end: 0,
            after_free: false,
            used: 0,
            longest: 0,
            blocks: [0; 8],
            held: [0; 8],
        }
    }

    // Whether the row may follow those counted, in an arena of so many granules, if a guard has `guards` granules. Two numbers, since the record that has both
    // is the heap's, of a crate above.
    fn is_followed_by(&self, s: Segment, granules: u32, guards: u32) -> bool
        requires inside { self.now.end ≤ granules }
        requires guards { guards ≤ 1 }
        ensures { (c : Config) → c.granules ≡ granules → c.guards ≡ guards → result ≡ follows_of c self.now s }
    {
        if s.start != self.end || s.length < 1 || granules - self.end < s.length {
            return false;
        }
        if s.owner == 0 {
            return !self.after_free && s.requested == 0;
        }
        if 8 < s.owner || s.requested < 1 {
            return false;
        }
        granules_with(s.requested, guards) == s.length
    }

    // A free row counted.
    fn count_free(&mut self, length: u32)
        requires { self.old.end + length ≤ 4294967295 }
        ensures { self.new ≡ free_of self.old length }
    {
        self.end += length;
        self.after_free = true;
        self.longest = self.longest.max(length);
    }

    // A live block counted.
    fn count_block(&mut self, owner: u32, length: u32)
        requires owner { 1 ≤ owner }
        requires known { owner ≤ 8 }
        requires some { 1 ≤ length }
        requires fits { self.old.end + length ≤ 4294967295 }
        requires bounded { Bounded self.old.end self.old }
        ensures { self.new ≡ live_of self.old owner length }
    {
        let i = (owner - 1) as usize;
        self.end += length;
        self.after_free = false;
        self.used += length;
        self.blocks[i] += 1;
        self.held[i] += length;
    }
}

impl<'a> RowList<'a> {
    /// The figures of the rows if they are a map of the arena; `None` if they are not.
    pub fn take_census(&self, granules: u32, guards: u32) -> Option<Census>
        requires { guards ≤ 1 }
        ensures { (c : Config) → c.granules ≡ granules → c.guards ≡ guards → Counted c self.now result }
    {
        let mut k = Census::new();
        // By their numbers: `get` reads row i, as the contracts name it.
        for i in 0..self.len() {
            let s = self.get(i);
            if !k.is_followed_by(s, granules, guards) {
                return None;
            }
            if s.owner == 0 {
                k.count_free(s.length);
            } else {
                k.count_block(s.owner, s.length);
            }
        }
        if k.end != granules {
            return None;
        }
        Some(k)
    }
}
