// A store in order, as a call reads it.
ghost use Rattle.std.specs.Prelude.{◌≡◌, ◌^◌, ◌<◌, false};
ghost use Rattle.store.specs.Size as size;
ghost use Rattle.rules.specs.Store.{bad_store};

use crate::found;
use crate::reader::Header;
use answer::{Fault, Refusal};
use index::Order;
use store::{Extent, PageId};

// The pages of a store in order, how many datoms one has room for, and the order of its datoms.
#[derive(Clone, Copy)]
pub struct Pages<'a> {
    pub store: &'a [u8],
    pub extent: Extent,
    pub capacity: usize,
    pub order: Order<'a>,
    pub ghost in_order: { bad_store extent store.now ≡ false },
    pub ghost sized: { capacity ≡ size.capacity extent.size },
    // Of every count, and said here since behind a reference the check does not know it.
    pub ghost counted: { extent.count < 2 ^ 64 },
}

impl<'a> Pages<'a> {
    ghost use Rattle.rules.specs.Tree.{fetch_at};
    ghost use Rattle.rules.specs.Store.{page_at};
    ghost use Rattle.memory_store.specs.Reading.{told};
    ghost use Rattle.memory_store.specs.Opened.{opened_of};
    ghost use Rattle.memory_store.specs.Pages.{fetched_from, read_from, AreOf, OpenedAs};

    // The pages of a store that is in order.
    pub fn new(store: &'a [u8], extent: Extent, order: Order<'a>) -> Pages<'a>
        requires { bad_store extent store.now ≡ false }
        ensures { AreOf store.now extent order.entry result }
    {
        let capacity = store::capacity_of(extent.size);
        Pages {
            store,
            extent,
            capacity,
            order,
        }
    }

    // The pages of a store, if it is in order.
    pub fn in_order(store: &'a [u8], extent: Extent, order: Order<'a>) -> Result<Pages<'a>, Refusal>
        ensures { OpenedAs store.now extent order.entry result }
    {
        if crate::is_bad(store, extent) {
            return Err(Refusal::BadStore);
        }
        Ok(Pages::new(store, extent, order))
    }

    // The page's own part of the store.
    pub fn part(&self, page: PageId) -> &'a [u8]
        requires { page.0 < self.now.extent.count }
        ensures { result.now ≡ page_at self.now.extent self.now.store.now page }
    {
        crate::part_of(self.store, self.extent, page)
    }

    // The page's header.
    pub fn header(&self, page: PageId) -> Result<Header, Fault>
        ensures { told self.now.extent self.now.store.now page result ≡ fetched_from self.now page }
    {
        found::node_at(self.store, self.extent, self.capacity, page, self.order)
    }

    // How many datoms page `page` has, which is to be of this level.
    pub fn open(&self, level: usize, page: PageId) -> Result<usize, Fault>
        ensures { result ≡ opened_of (fetch_at (read_from self.now) level page) }
    {
        found::open_at(
            self.store,
            self.extent,
            self.capacity,
            level,
            page,
            self.order,
        )
    }
}
