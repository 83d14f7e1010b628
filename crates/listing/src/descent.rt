// The way down to level 0 past the datoms below a bound, or past none.
ghost use Rattle.std.specs.Prelude.{true, ◌≡◌, suc, ◌+◌, ◌*◌, ◌≤◌, length};
ghost use Rattle.datom.specs.Datom.{datoms_of};
ghost use Rattle.index.specs.Order.{ord};
ghost use Rattle.rules.specs.Page.{children_of, rising};
ghost use Rattle.rules.specs.Node.{rank_by};
ghost use Rattle.rules.specs.Tree.{at_level};
ghost use Rattle.memory_store.specs.Pages.{order_of, fetched_from};
ghost use Rattle.listing.specs.Descent.{test_of, next_from, placed_of, descent_of, down_of};

use crate::way::Way;
use answer::{Damage, Fault};
use datom::Datom;
use index::Order;
use memory_store::access;
use memory_store::pages::Pages;
use store::PageId;

// The index that is found in a page and the child that the way goes on to, if any.
#[derive(Clone, Copy)]
struct Place {
    index: usize,
    next: Option<PageId>,
}

// The index in a page of k datoms: that of the first which is not below the bound, or 0 where there is none.
fn index_in(part: &[u8], k: usize, seek: Option<Datom>, order: Order) -> usize
    requires { (32 * k ≤ length part.now) × (rising (ord order).cmp (datoms_of k part.now) ≡ true) }
    ensures { result ≡ rank_by (test_of (ord order.entry) seek) (datoms_of k part.now) }
{
    match seek {
        None => 0,
        Some(d) => access::first_not_below(part, k, d, order),
    }
}

// The first real child at or after an index. At level 0 a way ends, so the children there are not looked at.
fn next_from(part: &[u8], level: usize, c: usize, k: usize, index: usize) -> Option<PageId>
    requires { (k ≤ c) × (40 * c + 8 ≤ length part.now) }
    ensures { result ≡ next_from level index (children_of c (suc k) part.now) }
{
    if level == 0 {
        return None;
    }
    access::next_midpoint(part, c, k, index)
}

// Page `page`, which is to be of this level.
fn place_in(pages: &Pages, seek: Option<Datom>, level: usize, page: PageId) -> Result<Place, Fault>
    ensures { result ≡ placed_of (test_of (order_of pages.now) seek) level (at_level level (fetched_from pages.now page)) }
{
    let k = pages.open(level, page)?;
    let part = memory_store::fetch(pages.store, pages.extent, page);
    let index = index_in(part, k, seek, pages.order);
    let next = next_from(part, level, pages.capacity, k, index);
    Ok(Place { index, next })
}

// From page `page`, of this level, down to level 0. The places of the levels above stay as they are in `way`. A way that has no child to
// go on to is lost at page none, and none is missing.
pub fn descend(
    pages: &Pages,
    seek: Option<Datom>,
    level: usize,
    page: PageId,
    way: Way,
) -> Result<Way, Damage>
    requires { level ≤ 7 }
    ensures { result ≡ descent_of level way (down_of (order_of pages.now) pages.now.extent pages.now.store.now (test_of (order_of pages.now) seek) level page) }
{
    let mut filled = way;
    let mut p = page;
    for l in (0..level + 1).rev() {
        let placed = place_in(pages, seek, l, p);
        let place = placed.map_err(|fault| Damage { page: p, fault })?;
        filled.indices[l] = place.index as u64;
        filled.pages[l] = p;
        if 0 < l {
            let Some(child) = place.next else {
                return Err(Damage {
                    page: PageId::max(),
                    fault: Fault::Missing,
                });
            };
            p = child;
        }
    }
    Ok(filled)
}
