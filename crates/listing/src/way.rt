// One end of a listing: an index and a page for every level.
ghost use Rattle.std.specs.Prelude.{[], ◌≡◌, ◌≤◌};
ghost use Rattle.rules.specs.Listing.{begin_frames, end_frames, same_indices};
ghost use Rattle.listing.specs.Way.{frames_of, way_of};

use answer::Cursor;
use store::PageId;

// Document 01: "a height of at most 8", so an end has a place for each level below it.
pub const LEVELS: usize = 8;

// Two arrays beside each other, as a cursor has them, whose form document 01 gives and whose bytes C keeps in that order: an array of pairs would be
// taken apart and put together again at each step.
#[derive(Clone, Copy)]
pub struct Way {
    pub indices: [u64; LEVELS],
    pub pages: [PageId; LEVELS],
}

// The way that uses no level.
pub fn empty() -> Way
    ensures { result ≡ way_of [] }
{
    Way {
        indices: [0; LEVELS],
        pages: [PageId(0); LEVELS],
    }
}

// Whether the used indices of both ends are equal.
pub fn is_at_end(cursor: Cursor) -> bool
    requires { cursor.height ≤ 8 }
    ensures { result ≡ same_indices (begin_frames cursor) (end_frames cursor) }
{
    let height = cursor.height as usize;
    for level in (0..height).rev() {
        if cursor.begin_indices[level] != cursor.end_indices[level] {
            return false;
        }
    }
    true
}

// The used places as they are, and zero at all others. One by one, since `fill` makes each step of a listing call memset four times.
pub fn only_used(way: Way, height: usize) -> Way
    requires { height ≤ 8 }
    ensures { result ≡ way_of (frames_of height way) }
{
    let mut kept = way;
    for level in height..LEVELS {
        kept.indices[level] = 0;
        kept.pages[level] = PageId(0);
    }
    kept
}
