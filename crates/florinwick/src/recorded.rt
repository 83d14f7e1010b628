// The store's record as a C or C++ program lends it: page size, page count, heap length and order, a word each.
ghost use Rattle.std.specs.Prelude.{◌≡◌};
ghost use Rattle.florinwick.specs.Record.{record_in};

use store::StoreRecord;

// How many bytes a record has.
const BYTES: usize = 32;

// Bytes of another length are taken for a record that every call refuses: no page has size 0.
pub fn record_in(b: &[u8]) -> StoreRecord
    ensures { result ≡ record_in b.now }
{
    if b.len() != BYTES {
        return StoreRecord {
            size: 0,
            count: 0,
            heap: 0,
            order: 0,
        };
    }
    StoreRecord {
        size: store::word(b, 0),
        count: store::word(b, 8),
        heap: store::word(b, 16),
        order: store::word(b, 24),
    }
}
