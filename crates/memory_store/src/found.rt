// A page as it is read during a call, by the parts of `Pages` one by one: `Pages` reads by it, and a flush, which writes to the store that it reads.
ghost use Rattle.std.specs.Prelude.{◌≡◌, false};
ghost use Rattle.store.specs.Size.{capacity};
ghost use Rattle.index.specs.Order.{ord};
ghost use Rattle.rules.specs.Tree.{fetch_at};
ghost use Rattle.rules.specs.Store.{bad_store, fetch_page, env_of};
ghost use Rattle.memory_store.specs.Reading.{told};
ghost use Rattle.memory_store.specs.Opened.{opened_of};

use crate::reader;
use crate::reader::Header;
use answer::Fault;
use index::Order;
use store::{Extent, PageId};

// The header of page `page` of a store in order, whose pages hold c datoms.
pub fn node_at(
    store: &[u8],
    extent: Extent,
    c: usize,
    page: PageId,
    order: Order,
) -> Result<Header, Fault>
    requires { (bad_store extent store.now ≡ false) × (c ≡ capacity extent.size) }
    ensures { told extent store.now page result ≡ fetch_page (ord order.entry) extent store.now page }
{
    if extent.count <= page.0 {
        return Err(Fault::Missing);
    }
    let part = crate::part_of(store, extent, page);
    Ok(reader::read_page(part, c, page, order)?)
}

// How many datoms page `page` has, which is to be of this level.
pub fn open_at(
    store: &[u8],
    extent: Extent,
    c: usize,
    level: usize,
    page: PageId,
    order: Order,
) -> Result<usize, Fault>
    requires { (bad_store extent store.now ≡ false) × (c ≡ capacity extent.size) }
    ensures { result ≡ opened_of (fetch_at (env_of (ord order.entry) extent store.now) level page) }
{
    let header = node_at(store, extent, c, page, order)?;
    if header.level != level {
        return Err(Fault::WrongLevel);
    }
    Ok(header.count)
}
