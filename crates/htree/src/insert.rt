// Insert into a page, and flush: they call each other, the level falling at each call.
ghost use Rattle.std.specs.Prelude.{◌≡◌, ◌+◌, ◌*◌, ◌≤◌, ◌<◌, length};
ghost use Rattle.index.specs.Order.{ord};
ghost use Rattle.rules.specs.Page.{node_of};
ghost use Rattle.rules.specs.Tree.{fetch_at, flush, flush_all, insert_into};
ghost use Rattle.rules.specs.Store.{env_of};
ghost use Rattle.memory_store.specs.Opened.{opened_of};
ghost use Rattle.memory_store.specs.Pages.{order_of, read_from};
ghost use Rattle.htree.specs.Told.{Ready, Tells};
ghost use Rattle.htree.specs.Load.{Loads, batch_at};
ghost use Rattle.htree.specs.Flush.{insert_lower};

use crate::place;
use crate::place::{Failed, Placed};
use answer::{Fault, Refusal};
use index::Order;
use memory_store::found;
use memory_store::pages::Pages;
use store::{Extent, PageId};

// Page `page`, which was opened at this level, is merged into the area with the batch of n datoms that lies behind it: of so many datoms
// then, or what is wrong with the page.
fn load(
    pages: &Pages,
    level: usize,
    page: PageId,
    opened: Result<usize, Fault>,
    s: &mut [u8],
    m: usize,
    n: usize,
) -> Result<usize, Fault>
    requires { (pages.now.capacity + n ≤ m) × (40 * m + 8 + 32 * n ≤ length s.old) × (opened ≡ opened_of (fetch_at (read_from pages.now) level page)) }
    ensures { Loads (order_of pages.now) pages.now.extent pages.now.store.now level page s.old m n s.new result }
{
    let k = opened?;
    let part = pages.part(page);
    let behind = 40 * m + 8;
    node::merge(part, pages.capacity, k, s, m, behind, n, pages.order)?;
    Ok(k + n)
}

// Insert into page `page`, which the caller has opened at this level, the batch of n datoms that lies behind the area. What goes up
// stays in the area. The scratch behind the area is the next deeper call's.
#[cycle(drain_flush_insert_into)]
pub fn insert_into(
    store: &mut [u8],
    extent: Extent,
    c: usize,
    written: u64,
    level: usize,
    page: PageId,
    opened: Result<usize, Fault>,
    s: &mut [u8],
    m: usize,
    n: usize,
    order: Order,
) -> Result<Placed, Failed>
    requires { Ready extent store.old c written × ((level + 1) * c + n ≤ m) × ((level + 1) * (40 * m + 8) + 32 * m ≤ length s.old) × (opened ≡ opened_of (fetch_at (env_of (ord order) extent store.old) level page)) }
    ensures { Tells extent store.old store.new m s.new written result (insert_into (env_of (ord order.entry) extent store.old) level page (batch_at m n s.old)) }
{
    let pages = Pages::new(store, extent, order);
    let loaded = load(&pages, level, page, opened, s, m, n);
    let count = loaded.map_err(|fault| Failed {
        refusal: Refusal::Damaged(page, fault),
        written,
    })?;
    if level == 0 {
        return place::settle(store, extent, c, written, level, s, m, count);
    }
    let left = drain(store, extent, c, written, level, s, m, count, order)?;
    place::settle(store, extent, c, left.written, level, s, m, left.datoms)
}

// Flushes while the node of n datoms in the area is over c and has pending datoms. Each flush sends at least one datom down, so the
// datoms bound the turns.
#[cycle(drain_flush_insert_into)]
fn drain(
    store: &mut [u8],
    extent: Extent,
    c: usize,
    written: u64,
    level: usize,
    s: &mut [u8],
    m: usize,
    n: usize,
    order: Order,
) -> Result<Placed, Failed>
    requires { Ready extent store.old c written × (0 < level) × (level * c + n ≤ m) × ((level + 1) * (40 * m + 8) + 32 * m ≤ length s.old) }
    ensures { Tells extent store.old store.new m s.new written result (flush_all (env_of (ord order.entry) extent store.old) (insert_lower (ord order.entry) extent store.old level) n (node_of m level n s.old)) }
{
    let mut left = Placed { datoms: n, written };
    for turn in 0..n {
        if left.datoms <= c {
            return Ok(left);
        }
        if !node::has_pending(s, m, left.datoms) {
            return Ok(left);
        }
        left = flush(
            store,
            extent,
            c,
            left.written,
            level,
            s,
            m,
            left.datoms,
            order,
        )?;
    }
    Ok(left)
}

// Sends the longest pending span into the child that ends it; what comes back takes its place.
#[cycle(drain_flush_insert_into)]
fn flush(
    store: &mut [u8],
    extent: Extent,
    c: usize,
    written: u64,
    level: usize,
    s: &mut [u8],
    m: usize,
    n: usize,
    order: Order,
) -> Result<Placed, Failed>
    requires { Ready extent store.old c written × (0 < level) × (level * c + n ≤ m) × ((level + 1) * (40 * m + 8) + 32 * m ≤ length s.old) }
    ensures { Tells extent store.old store.new m s.new written result (flush (insert_lower (ord order.entry) extent store.old level) (node_of m level n s.old)) }
{
    let span = node::longest_pending_span(s, m, n);
    let from = span.from;
    let upto = span.upto;
    let child = store::child_at(s, m, upto);
    let lower = level - 1;
    let opened = found::open_at(store, extent, c, lower, child, order);
    let own = 40 * m + 8;
    node::move_span::<32>(s, 32 * from, own + own, upto - from);
    let back = insert_into(
        store,
        extent,
        c,
        written,
        lower,
        child,
        opened,
        &mut s[own..],
        m,
        upto - from,
        order,
    )?;
    node::splice(s, m, n, from, upto, back.datoms);
    Ok(Placed {
        datoms: n - (upto - from) + back.datoms,
        written: back.written,
    })
}
