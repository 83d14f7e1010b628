// A failover, told on a small store: a feed goes in, the replicator loses its connection and sends the last batch again, and the
// answer is Repeated with nothing written: the texts of the orders stand on the heap once more, and equal content is what counts. The README's first command runs it; what it prints is held to the file stdout.
#![tactic(auto)]

pub mod fills;
pub mod say;

ghost use Rattle.std.specs.Prelude.{◌≤◌};

use answer::Done;
use datom::{Aid, Datom, Eid, TidOp, Value};
use std::io;
use store::{PageId, StoreRecord};

// The store's record and the root that the last accepted batch led to.
#[derive(Clone, Copy)]
struct Stand {
    stored: StoreRecord,
    root: PageId,
}

// Before the first batch, in pages of 256 bytes.
fn nothing() -> Stand {
    Stand {
        stored: StoreRecord {
            size: 256,
            count: 0,
            heap: 0,
            order: 0,
        },
        root: PageId::max(),
    }
}

// Below every fill, and above every one.
fn lowest() -> Datom {
    Datom {
        entity: Eid::min(),
        attribute: Aid::min(),
        value: Value::min(),
        transaction_operation: TidOp(0),
    }
}

fn highest() -> Datom {
    Datom {
        entity: Eid::max(),
        attribute: Aid::max(),
        value: Value::max(),
        transaction_operation: TidOp(0xffff_ffff_ffff_ffff),
    }
}

// What the replicator lends the library, and where it stands. An insert is lent the heap as it is the store, by `&mut`: behind one
// reference all loans are of one kind.
#[derive(Drop)]
struct Replicator<'a> {
    store: &'a mut [u8],
    heap: &'a mut [u8],
    scratch: &'a mut [u8],
    stand: Stand,
}

impl Replicator<'_> {
    // Sends a batch, prints the receipt, and goes on from where that leads.
    fn send(&mut self, rt: &impl Print, batch: &[u8]) -> io::Result<()> {
        let Stand { stored, root } = self.stand;
        let answer = entry::insert(
            self.store,
            stored,
            root,
            batch,
            self.scratch,
            &mut *self.heap,
        );
        match answer {
            Ok(Done { root, pages }) => {
                let count = stored.count.wrapping_add(pages);
                let stored = StoreRecord { count, ..stored };
                self.stand = Stand { stored, root };
                say::done(rt, root, pages)
            }
            Err(refusal) => say::refused(rt, refusal),
        }
    }

    // Makes a batch of n fills, their texts behind what is used of the heap, and sends it.
    fn feed(&mut self, rt: &impl Print, first: u64, n: usize) -> io::Result<()>
        requires { n ≤ 8 }
    {
        let mut batch = [0u8; 256];
        let used = self.stand.stored.heap;
        self.stand.stored.heap = fills::put(&mut batch, self.heap, used, first, n);
        say::sending(rt, first, n, used)?;
        self.send(rt, fills::of(&batch, n))
    }

    // All fills under the root of a stand, in order.
    fn list(&self, rt: &impl Print, stand: Stand) -> io::Result<()> {
        let Stand { stored, root } = stand;
        let started = listing::begin::start(
            self.store,
            stored,
            root,
            lowest(),
            highest(),
            self.heap,
        );
        let mut cursor = started.cursor;
        say::listing(rt, root)?;
        for _ in 0..1000 {
            let stepped = listing::step::step(self.store, stored, cursor, self.heap);
            let Ok(Some(fill)) = stepped.answer else {
                break;
            };
            say::fill(rt, fill)?;
            cursor = stepped.cursor;
        }
        say::end_of_line(rt)
    }

    fn check(&self, rt: &impl Print) -> io::Result<()> {
        let Stand { stored, root } = self.stand;
        say::checked(rt, invariants::check(self.store, stored, root, self.heap))
    }
}

// The feed, and the last batch of it once more.
fn fail_over(rt: &impl Print, replicator: &mut Replicator) -> io::Result<()> {
    replicator.feed(rt, 7, 5)?;
    replicator.feed(rt, 12, 4)?;
    replicator.list(rt, replicator.stand)?;
    say::failover(rt)?;
    replicator.feed(rt, 12, 4)?;
    replicator.list(rt, replicator.stand)
}

// A batch that overlaps with it, and what is new in that alone.
fn go_on(rt: &impl Print, replicator: &mut Replicator) -> io::Result<()> {
    say::overlap(rt)?;
    replicator.feed(rt, 14, 4)?;
    say::fresh(rt)?;
    replicator.feed(rt, 16, 2)?;
    replicator.list(rt, replicator.stand)
}

fn main(rt: HostRuntime) -> io::Result<()> {
    let mut store = [0u8; 8192];
    let mut heap = [0u8; 1024];
    let mut scratch = [0u8; 62016];
    let mut replicator = Replicator {
        store: &mut store,
        heap: &mut heap,
        scratch: &mut scratch,
        stand: nothing(),
    };
    say::title(&rt)?;
    replicator.feed(&rt, 1, 6)?;
    let first = replicator.stand;
    fail_over(&rt, &mut replicator)?;
    go_on(&rt, &mut replicator)?;
    say::older(&rt)?;
    replicator.list(&rt, first)?;
    replicator.check(&rt)
}
