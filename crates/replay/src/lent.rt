// What the program lends the library, and the library's C entries over it.
ghost use Rattle.std.specs.Prelude.{◌≤◌};

use crate::record;
use florinwick::words;
use store::StoreRecord;

// The store: the largest is the tree of three levels, 619 pages of 8192 bytes.
pub const STORE: usize = 5242880;

// The scratch, as much as the largest pages need.
pub const SCRATCH: usize = 619584;

// The heap, as long as any of the recorded ones.
pub const HEAP: usize = 32768;

// The bytes of a cursor between calls.
pub type Cursor = [u8; 264];

// The four words of an answer.
#[derive(Clone, Copy)]
pub struct Answer(pub [u8; 32]);

impl Answer {
    pub fn number(self) -> u64 {
        store::word(&self.0, 0)
    }

    pub fn root(self) -> u64 {
        store::word(&self.0, 8)
    }

    pub fn pages(self) -> u64 {
        store::word(&self.0, 16)
    }

    pub fn detail(self) -> u64 {
        store::word(&self.0, 24)
    }
}

// More pages and more datoms of a listing than any record has.
pub const MOST: u64 = 1048576;

// How many bytes so many pages have; 0 for more than a store has.
pub fn bytes_of(size: u64, pages: u64) -> u64
    ensures { result ≤ 8589934592 }
{
    if 8192 < size || MOST < pages {
        return 0;
    }
    pages * size
}

// An empty store without a heap, by entity first.
pub fn empty(size: u64) -> StoreRecord {
    StoreRecord {
        size,
        count: 0,
        heap: 0,
        order: 0,
    }
}

// What is lent, and the store's record, which a call that writes changes. Such a call is lent the heap as it is the store, by `&mut`: behind
// one reference all loans are of one kind.
#[derive(Drop)]
pub struct Lent<'a> {
    pub store: &'a mut [u8],
    pub heap: &'a mut [u8],
    pub scratch: &'a mut [u8],
    pub stored: StoreRecord,
}

impl<'a> Lent<'a> {
    // With nothing in the store yet.
    pub fn new(
        store: &'a mut [u8; STORE],
        heap: &'a mut [u8],
        scratch: &'a mut [u8; SCRATCH],
    ) -> Lent<'a> {
        Lent {
            store,
            heap,
            scratch,
            stored: empty(0),
        }
    }

    // The store's record: page size, page count, heap length and order, a word each.
    fn block(&self) -> [u8; 32] {
        let mut bytes = [0u8; 32];
        store::put_word(&mut bytes, 0, self.stored.size);
        store::put_word(&mut bytes, 8, self.stored.count);
        store::put_word(&mut bytes, 16, self.stored.heap);
        store::put_word(&mut bytes, 24, self.stored.order);
        bytes
    }

    // So many pages more, after a call that wrote them.
    pub fn grow(&mut self, pages: u64) {
        self.stored.count = self.stored.count.wrapping_add(pages);
    }

    // The bytes of the n pages from this one on, as far as the store's pages go.
    pub fn pages(&self, id: u64, n: u64) -> &[u8] {
        let size = self.stored.size;
        record::part(self.store, bytes_of(size, id), bytes_of(size, n))
    }

    pub fn initialise(&mut self, batch: &[u8]) -> Answer {
        let mut area = [0u8; 32];
        let block = self.block();
        florinwick::florinwick_initialise(
            self.store,
            &mut *self.heap,
            &block,
            batch,
            self.scratch,
            &mut area,
        );
        Answer(area)
    }

    pub fn insert(&mut self, root: u64, batch: &[u8]) -> Answer {
        let mut area = [0u8; 32];
        let block = self.block();
        florinwick::florinwick_insert(
            self.store,
            &mut *self.heap,
            &block,
            root,
            batch,
            self.scratch,
            &mut area,
        );
        Answer(area)
    }

    pub fn insert_named(&mut self, root: u64, batch: &[u8]) -> Answer {
        let mut area = [0u8; 32];
        let block = self.block();
        florinwick::named::florinwick_insert_named(
            self.store,
            &mut *self.heap,
            &block,
            root,
            batch,
            self.scratch,
            &mut area,
        );
        Answer(area)
    }

    pub fn check(&self, root: u64) -> Answer {
        let mut area = [0u8; 32];
        let block = self.block();
        florinwick::florinwick_check(self.store, self.heap, &block, root, &mut area);
        Answer(area)
    }

    pub fn held(&self, root: u64, batch: &[u8]) -> Answer {
        let mut area = [0u8; 32];
        let block = self.block();
        florinwick::florinwick_held(self.store, self.heap, &block, root, batch, &mut area);
        Answer(area)
    }

    // Begins a listing from a lower bound up to an upper one; a refused one leaves the cursor.
    pub fn start(&self, root: u64, lower: &[u8], upper: &[u8], cursor: &mut Cursor) -> Answer {
        let mut area = [0u8; 32];
        let block = self.block();
        florinwick::list::florinwick_list_start(
            self.store, self.heap, &block, root, lower, upper, cursor, &mut area,
        );
        Answer(area)
    }

    // The next datom of a listing, if the answer's number is 0; 32 is its end.
    pub fn step(&self, cursor: &mut Cursor, datom: &mut [u8; 32]) -> Answer {
        let mut area = [0u8; 32];
        let block = self.block();
        florinwick::list::florinwick_list_step(
            self.store, self.heap, &block, cursor, datom, &mut area,
        );
        Answer(area)
    }

    // The next datom of a listing, none at its end, or the number of a refusal, by the numbers of the C interface.
    pub fn next_datom(&self, cursor: &mut Cursor) -> Result<Option<[u8; 32]>, u64> {
        let mut datom = [0u8; 32];
        match self.step(cursor, &mut datom).number() {
            0 => Ok(Some(datom)),
            words::ENDED => Ok(None),
            number => Err(number),
        }
    }
}
