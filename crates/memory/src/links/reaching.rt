// Which areas an area leads to, in marks that the caller lends.
ghost use Rattle.std.specs.Prelude.{◌≡◌, ℕ, ◌≤◌, ◌||◌, length, if◌then◌else◌, ◌==◌, nat_eq};
ghost use Rattle.search.specs.Marks.{Clear, marked};
ghost use Rattle.memory.specs.Links.{Reach, Shows, linked};

use crate::links::Links;
use refusal::{Refusal, Rule};
use search::Marks;
use store::halves::Cells;

// 1 for a node that is marked, or is the start.
fn flag(marks: &Marks<'_>, from: u8, node: u8) -> u32
    ensures { result ≡ (if nat_eq node from || marked marks.now.all.now node then 1 else 0) }
{
    if node == from || marks.is_marked(node) {
        1
    } else {
        0
    }
}

// A bit for each of the first `count` nodes.
fn bits(marks: &Marks<'_>, from: u8, count: u8) -> u32
    requires { count ≤ 32 }
    ensures { Shows (λ (i : ℕ). (i == from) || marked marks.now.all.now i) count result }
{
    // A loop: in a fold the closure would have to know that each sum fits, which the invariant says here.
    let mut all = 0;
    for i in (0..count).rev() {
        all = all * 2 + flag(marks, from, i);
    }
    all
}

impl<C: Cells> Links<'_, C> {
    // Bit `i` is 1 exactly if area `i`, by address, is the one that begins at `start` or can be reached from it.
    // Refused by 14 where there are fewer marks than a search needs, then by 26 where no area begins at `start`.
    pub fn reach(&self, start: u32, marks: &mut [u8]) -> Result<u32, Refusal>
        ensures answer { Reach (linked C.Cells.cells self.now) start (length marks.old) result }
        ensures clear { Clear marks.new }
    {
        // By the guard itself, whose search does not refuse after `check_len`: a work for `search` would be a type for this one call.
        let mut marks = Marks::over(marks);
        marks.check_len()?;
        let from = self.areas.index_at(start).ok_or((Rule::AreaOpen, 0))?;
        marks.follow(self, from)?;
        Ok(bits(&marks, from, self.areas.count()))
    }
}
