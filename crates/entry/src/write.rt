// What is written of a batch that passed the checks. The batch is laid into the scratch, where the nodes are.
ghost use Rattle.std.specs.Prelude.{◌≡◌, ◌+◌, ◌*◌, ◌≤◌, length};
ghost use Rattle.datom.specs.Datom.{datoms_of};
ghost use Rattle.index.specs.Order.{DatomOrd, ord};
ghost use Rattle.rules.specs.Insert.{sort, fresh_tree};
ghost use Rattle.rules.specs.Tree.{fine, insert_tree};
ghost use Rattle.rules.specs.Store.{fetch_page, env_of};
ghost use Rattle.memory_store.specs.Readable.{node_at};
ghost use Rattle.htree.specs.Root.{Roots};
ghost use Rattle.entry.specs.Checks.{Roomy, Passed};
ghost use Rattle.entry.specs.Leaf.{Cleared};

use crate::check;
use htree::place::Failed;
use htree::root::Rooted;
use index::Order;
use store::{Extent, PageId};

// The n datoms at the front of the area become those of a leaf: no child beside any of them.
fn clear_children(s: &mut [u8], m: usize, n: usize)
    requires { (40 * m + 8 ≤ length s.old) × (n ≤ m) }
    ensures { Cleared m (n + 1) s.old s.new }
{
    for i in 0..n + 1 {
        node::put_child(s, m, i, PageId::max());
    }
}

// The n datoms at the front of the scratch, which ascend, become a tree.
fn leaf(
    store: &mut [u8],
    extent: Extent,
    c: usize,
    n: usize,
    s: &mut [u8],
) -> Result<Rooted, Failed>
    requires { Roomy extent store.old c n (length s.old) }
    ensures { (t : DatomOrd) → Roots extent store.old store.new 0 result (fresh_tree (env_of t extent store.old) (datoms_of n s.old)) }
{
    let m = check::room_for(c);
    clear_children(s, m, n);
    htree::root::write_root(store, extent, c, 0, 0, s, m, n)
}

// A batch that ascends becomes a tree.
pub fn fresh(
    store: &mut [u8],
    extent: Extent,
    c: usize,
    b: &[u8],
    n: usize,
    s: &mut [u8],
) -> Result<Rooted, Failed>
    requires { Passed extent store.old c b.now n (length s.old) }
    ensures { (t : DatomOrd) → Roots extent store.old store.new 0 result (fresh_tree (env_of t extent store.old) (datoms_of n b.now)) }
{
    store::put(s, 0, b);
    leaf(store, extent, c, n, s)
}

// A batch in any order becomes a tree: it is sorted in the scratch.
pub fn sorted(
    store: &mut [u8],
    extent: Extent,
    c: usize,
    b: &[u8],
    n: usize,
    s: &mut [u8],
    order: Order,
) -> Result<Rooted, Failed>
    requires { Passed extent store.old c b.now n (length s.old) }
    ensures { Roots extent store.old store.new 0 result (fresh_tree (env_of (ord order.entry) extent store.old) (sort (ord order.entry).cmp (datoms_of n b.now))) }
{
    store::put(s, 0, b);
    batch::sort::sort(s, n, order);
    leaf(store, extent, c, n, s)
}

// A batch that ascends goes in under a root of this level and count.
pub fn under(
    store: &mut [u8],
    extent: Extent,
    c: usize,
    root: PageId,
    level: usize,
    count: usize,
    b: &[u8],
    n: usize,
    s: &mut [u8],
    order: Order,
) -> Result<Rooted, Failed>
    requires { Passed extent store.old c b.now n (length s.old) × (fetch_page (ord order) extent store.old root ≡ fine (node_at extent store.old root level count)) }
    ensures { Roots extent store.old store.new 0 result (insert_tree (env_of (ord order.entry) extent store.old) level root (datoms_of n b.now)) }
{
    let m = check::room_for(c);
    store::put(s, 40 * m + 8, b);
    let up = htree::insert::insert_into(
        store,
        extent,
        c,
        0,
        level,
        root,
        Ok(count),
        s,
        m,
        n,
        order,
    )?;
    htree::root::write_root(store, extent, c, up.written, level + 1, s, m, up.datoms)
}
