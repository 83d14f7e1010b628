// Nodes become pages: one page, or the parts of a split. Document 01: "Pages are written left to right."
ghost use Rattle.std.specs.Prelude.{◌≡◌, ◌+◌, ◌*◌, ◌-◌, ◌≤◌, ◌<◌, length};
ghost use Rattle.rules.specs.Page.{node_of};
ghost use Rattle.rules.specs.Node.{part_of};
ghost use Rattle.index.specs.Order.{DatomOrd};
ghost use Rattle.rules.specs.Tree.{split, settle};
ghost use Rattle.rules.specs.Store.{env_of};
ghost use Rattle.htree.specs.Told.{Ready, Puts, Tells};
ghost use Rattle.htree.specs.Split.{Parted};

use answer::Refusal;
use store::{Extent, PageId};

// What an insert into a page leaves in the area: how many midpoints, and how many pages past the count are written now.
#[derive(Clone, Copy)]
pub struct Placed {
    pub datoms: usize,
    pub written: u64,
}

// Why a page is not written, and how many pages past the count were written before it.
#[derive(Clone, Copy)]
pub struct Failed {
    pub refusal: Refusal,
    pub written: u64,
}

// An entry's answer tells why alone: pages past the count that no answer names count for nothing.
impl From<Failed> for Refusal {
    ghost from_gives = { λ failed refusal. refusal ≡ failed.refusal };

    fn from(failed: Failed) -> Refusal {
        failed.refusal
    }
}

// Datoms i..i+a and children i..=i+a of the node of n datoms in the area become the next page past the count.
pub fn put_part(
    store: &mut [u8],
    extent: Extent,
    c: usize,
    written: u64,
    level: usize,
    area: &[u8],
    m: usize,
    n: usize,
    i: usize,
    a: usize,
) -> Result<PageId, Failed>
    requires { Ready extent store.old c written × (40 * m + 8 ≤ length area.now) × (n ≤ m) × (i + a ≤ n) × (a ≤ c) }
    ensures { Puts extent store.old store.new written (part_of i a (node_of m level n area.now)) result }
{
    if 8 <= level {
        return Err(Failed {
            refusal: Refusal::TooTall,
            written,
        });
    }
    let size = extent.size as usize;
    let room = (store.len() / size) as u64 - extent.count;
    if room <= written {
        return Err(Failed {
            refusal: Refusal::NoRoom,
            written,
        });
    }
    let start = extent.count as usize * size;
    let at = written as usize * size;
    memory_store::writer::write_page(&mut store[start..], at, size, c, level, area, m, n, i, a);
    Ok(PageId(extent.count + written))
}

// Part p of a split, with k children from index i on: its page is written, its midpoint and page id go up to index p of the area.
fn split_part(
    store: &mut [u8],
    extent: Extent,
    c: usize,
    written: u64,
    level: usize,
    s: &mut [u8],
    m: usize,
    n: usize,
    p: usize,
    i: usize,
    k: usize,
) -> Result<PageId, Failed>
    requires { Ready extent store.old c written × (40 * m + 8 ≤ length s.old) × (n ≤ m) × (0 < k) × (i + k ≤ n) × (k ≤ c + 1) × (p ≤ i) }
    ensures { Parted extent store.old store.new written level m n p i k s.old s.new result }
{
    let id = put_part(store, extent, c, written, level, s, m, n, i, k - 1)?;
    node::put_midpoint(s, m, p, i + k - 1);
    node::put_child(s, m, p, id);
    Ok(id)
}

// The node of n datoms in the area, more than c, becomes as many pages as need be; what stands in the area then is the node of the
// midpoints between them, one level up.
pub fn split(
    store: &mut [u8],
    extent: Extent,
    c: usize,
    written: u64,
    level: usize,
    s: &mut [u8],
    m: usize,
    n: usize,
) -> Result<Placed, Failed>
    requires { Ready extent store.old c written × (40 * m + 8 ≤ length s.old) × (n ≤ m) × (c < n) }
    ensures { (t : DatomOrd) → Tells extent store.old store.new m s.new written result (split (env_of t extent store.old) (node_of m level n s.old)) }
{
    let pages = (n + (c - 1)) / c;
    let each = (n + 1) / pages;
    let more = (n + 1) % pages;
    let last = pages - 1;
    let mut i = 0;
    for p in 0..last {
        let k = node::share_of(each, more, p);
        split_part(
            store,
            extent,
            c,
            written + p as u64,
            level,
            s,
            m,
            n,
            p,
            i,
            k,
        )?;
        i += k;
    }
    let next = written + last as u64;
    let id = put_part(store, extent, c, next, level, s, m, n, i, n - i)?;
    node::put_child(s, m, last, id);
    Ok(Placed {
        datoms: last,
        written: next + 1,
    })
}

// The node of n datoms in the area is split if it is over c, else it becomes one page, and that page's id is what goes up.
pub fn settle(
    store: &mut [u8],
    extent: Extent,
    c: usize,
    written: u64,
    level: usize,
    s: &mut [u8],
    m: usize,
    n: usize,
) -> Result<Placed, Failed>
    requires { Ready extent store.old c written × (40 * m + 8 ≤ length s.old) × (n ≤ m) }
    ensures { (t : DatomOrd) → Tells extent store.old store.new m s.new written result (settle (env_of t extent store.old) (node_of m level n s.old)) }
{
    if c < n {
        return split(store, extent, c, written, level, s, m, n);
    }
    let id = put_part(store, extent, c, written, level, s, m, n, 0, n)?;
    node::put_child(s, m, 0, id);
    Ok(Placed {
        datoms: 0,
        written: written + 1,
    })
}
