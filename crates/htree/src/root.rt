// The top of an insert: the root.
ghost use Rattle.std.specs.Prelude.{◌≡◌, suc, ◌+◌, ◌*◌, ◌≤◌, length};
ghost use Rattle.index.specs.Order.{DatomOrd};
ghost use Rattle.rules.specs.Page.{children_of, node_of};
ghost use Rattle.rules.specs.Tree.{root_of, write_root};
ghost use Rattle.rules.specs.Store.{env_of};
ghost use Rattle.htree.specs.Told.{Ready};
ghost use Rattle.htree.specs.Root.{Roots};

use crate::place;
use crate::place::{Failed, Placed};
use store::{Extent, PageId};

// The root, and how many pages past the count are written.
#[derive(Clone, Copy)]
pub struct Rooted {
    pub root: PageId,
    pub written: u64,
}

// One child is the root; several are written as the root.
fn top(
    store: &mut [u8],
    extent: Extent,
    c: usize,
    written: u64,
    level: usize,
    s: &[u8],
    m: usize,
    n: usize,
) -> Result<Rooted, Failed>
    requires { Ready extent store.old c written × (40 * m + 8 ≤ length s.now) × (n ≤ m) × (n ≤ c) }
    ensures { (t : DatomOrd) → Roots extent store.old store.new written result (root_of (env_of t extent store.old) (children_of m (suc n) s.now) (node_of m level n s.now)) }
{
    if n == 0 {
        return Ok(Rooted {
            root: store::child_at(s, m, 0),
            written,
        });
    }
    let root = place::put_part(store, extent, c, written, level, s, m, n, 0, n)?;
    Ok(Rooted {
        root,
        written: written + 1,
    })
}

// The node of n datoms in the area becomes the top of the tree: while it has more than c midpoints they are split.
pub fn write_root(
    store: &mut [u8],
    extent: Extent,
    c: usize,
    written: u64,
    level: usize,
    s: &mut [u8],
    m: usize,
    n: usize,
) -> Result<Rooted, Failed>
    requires { Ready extent store.old c written × (40 * m + 8 ≤ length s.old) × (n ≤ m) × (level ≤ 8) }
    ensures { (t : DatomOrd) → Roots extent store.old store.new written result (write_root (env_of t extent store.old) n (node_of m level n s.old)) }
{
    let mut up = Placed { datoms: n, written };
    let mut high = level;
    // No count over a range: how many turns there are follows from what each split leaves.
    while c < up.datoms {
        up = place::split(store, extent, c, up.written, high, s, m, up.datoms)?;
        high += 1;
    }
    top(store, extent, c, up.written, high, s, m, up.datoms)
}
