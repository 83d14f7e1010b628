// A record's call, made again, and its answer against the recorded one.
ghost use Rattle.std.specs.Prelude.{◌≤◌};

use crate::kind::Kind;
use crate::lent::{Answer, Cursor, Lent};
use crate::record::Record;
use crate::tally::{Place, Tally};
use crate::{lent, names, record};
use florinwick::words;
use index::Index;
use store::StoreRecord;

// Both oracles gave the answer.
const BOTH: u64 = 3;

// Bytes go into an area from byte `at` on, if it has room for them; whether it has.
fn put(area: &mut [u8], at: u64, bytes: &[u8]) -> bool {
    let Some(end) = at.checked_add(bytes.len() as u64) else {
        return false;
    };
    if (area.len() as u64) < end {
        return false;
    }
    store::put(area, at as usize, bytes);
    true
}

// Whether the record has this datom in place i. One that has a digest does not tell.
fn is_recorded(datom: &[u8; 32], recorded: Record, i: u64) -> bool
    requires { i ≤ 1048576 }
{
    recorded.word(12) == 0 || datom.as_slice() == recorded.part(104 + 32 * i, 32)
}

fn is_digest(digest: u64, recorded: Record) -> bool {
    recorded.word(12) != 0 || digest == recorded.word(13)
}

// What is lent, and what was counted of the records so far.
#[derive(Drop)]
pub struct Session<'a> {
    pub lent: Lent<'a>,
    pub tally: Tally,
}

impl Session<'_> {
    // The answer's words against root, pages written and the pages themselves, which the record has from this word on.
    fn is_written(&self, answer: Answer, recorded: Record, at: usize) -> bool
        requires { at ≤ 600 }
    {
        let written = self.lent.pages(self.lent.stored.count, answer.pages());
        answer.number() == 0
            && answer.root() == recorded.word(at)
            && answer.pages() == recorded.word(at + 1)
            && recorded.agrees(at + 2, written)
    }

    // A call that writes is counted, and the next one is handed the page count that it left.
    fn after(&mut self, answer: Answer, recorded: Record, at: usize, place: Place)
        requires { at ≤ 600 }
    {
        let is_same = self.is_written(answer, recorded, at);
        self.tally.settle(is_same, place);
        self.tally.add(Place::Pages, answer.pages());
        self.lent.grow(answer.pages());
    }

    fn initialise(&mut self, recorded: Record) {
        let n = recorded.word(2) % 129;
        let answer = self.lent.initialise(recorded.part(24, 32 * n));
        let at = 3 + 4 * (n as usize);
        self.after(answer, recorded, at, Place::Initialised);
    }

    // The Rust has no call that asks whether a batch is held: what it has put in is what is held.
    fn insert(&mut self, recorded: Record) {
        let n = recorded.word(3) % 129;
        let batch = recorded.part(32, 32 * n);
        let answer = self.lent.insert(recorded.word(2), batch);
        let at = 4 + 4 * (n as usize);
        self.after(answer, recorded, at, Place::Inserted);
        let held = self.lent.held(answer.root(), batch);
        self.tally.settle(held.number() == 0, Place::Held);
    }

    // The next n datoms of a listing against the recorded ones, and the end behind them.
    fn is_listed(&self, cursor: &mut Cursor, recorded: Record, n: u64) -> bool
        requires { n ≤ 1048576 }
    {
        let mut digest = 0;
        for i in 0..n {
            let Ok(Some(datom)) = self.lent.next_datom(cursor) else {
                return false;
            };
            if !is_recorded(&datom, recorded, i) {
                return false;
            }
            digest = record::digest(digest, &datom);
        }
        is_digest(digest, recorded) && matches!(self.lent.next_datom(cursor), Ok(None))
    }

    fn list(&mut self, recorded: Record) {
        let mut cursor = [0u8; 264];
        let lower = recorded.part(24, 32);
        let upper = recorded.part(56, 32);
        let answer = self.lent.start(recorded.word(2), lower, upper, &mut cursor);
        if answer.number() != 0 {
            self.tally.add(Place::Different, 1);
            return;
        }
        let n = recorded.word(11) % lent::MOST;
        let is_same = self.is_listed(&mut cursor, recorded, n);
        self.tally.settle(is_same, Place::Listed);
        self.tally.add(Place::Datoms, n);
    }

    // Sound is 0 with 0 for its page, Unsound 33 with the page of the first fault.
    fn check(&mut self, recorded: Record) {
        let answer = self.lent.check(recorded.word(2));
        let is_page = answer.detail() == recorded.word(4);
        match recorded.word(3) {
            0 => self
                .tally
                .settle(answer.number() == 0 && is_page, Place::Sound),
            fault => self.tally.settle(
                answer.number() == words::UNSOUND && fault == 1 && is_page,
                Place::Unsound,
            ),
        }
    }

    // The page of a record goes into the store: damage, or its repair.
    fn poke(&mut self, recorded: Record) {
        let size = self.lent.stored.size;
        let at = lent::bytes_of(size, recorded.word(1));
        let page = recorded.part(16, lent::bytes_of(size, 1));
        let is_put = put(self.lent.store, at, page);
        self.tally.settle(is_put, Place::Poked);
    }

    // The page count and all pages at the end of a history.
    fn end(&mut self, recorded: Record) {
        let count = self.lent.stored.count;
        let is_same = count == recorded.word(1)
            && record::digest(0, self.lent.pages(0, count)) == recorded.word(2);
        self.tally.settle(is_same, Place::Ended);
    }

    fn begin(&mut self, recorded: Record) {
        self.tally.add(Place::Histories, 1);
        self.lent.stored = lent::empty(recorded.word(1));
    }

    // The bytes of a record go into the heap, which then ends behind them if it ended before.
    fn lay(&mut self, recorded: Record) {
        let at = recorded.word(1);
        let bytes = recorded.behind(16);
        if !put(self.lent.heap, at, bytes) {
            self.tally.add(Place::Different, 1);
            return;
        }
        let end = at.saturating_add(bytes.len() as u64);
        self.lent.stored.heap = self.lent.stored.heap.max(end);
    }

    // What the store's record says from here on, true or not.
    fn say(&mut self, recorded: Record) {
        self.lent.stored = StoreRecord {
            size: recorded.word(1),
            count: recorded.word(2),
            heap: recorded.word(3),
            order: recorded.word(4),
        };
    }

    // An answer of the oracles is counted: whose it is, and those in a further order.
    fn count_oracles(&mut self, recorded: Record) {
        if recorded.word(1) == BOTH {
            self.tally.add(Place::ByBoth, 1);
        }
        let by = index::index_of(self.lent.stored.order);
        if matches!(by, Some(Index::Aevt)) {
            self.tally.add(Place::InAevt, 1);
        }
        if matches!(by, Some(Index::Avet)) {
            self.tally.add(Place::InAvet, 1);
        }
    }

    // One record.
    pub fn replay(&mut self, recorded: Record) {
        let Ok(kind) = Kind::try_from(recorded.word(0)) else {
            self.tally.add(Place::Different, 1);
            return;
        };
        if kind.is_of_oracles() {
            self.count_oracles(recorded);
        }
        match kind {
            Kind::Begin => self.begin(recorded),
            Kind::Initialise => self.initialise(recorded),
            Kind::Insert => self.insert(recorded),
            Kind::List => self.list(recorded),
            Kind::Check => self.check(recorded),
            Kind::Poke => self.poke(recorded),
            Kind::End => self.end(recorded),
            Kind::Named => {
                let is_same = names::is_answered(&mut self.lent, recorded);
                self.tally.settle(is_same, Place::Named);
            }
            Kind::Heap => self.lay(recorded),
            Kind::Stored => self.say(recorded),
            Kind::Empty => self.tally.add(Place::Different, 1),
        }
    }
}
