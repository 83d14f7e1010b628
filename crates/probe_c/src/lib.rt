// The archive for the tests that link probe: its functions under the names that they declare, each with its clauses again. A crate is a library
// or a static library and not both, so the library, which has the proofs over it, is probe.
#![tactic(auto)]

ghost use Rattle.std.specs.Prelude.{◌≡◌};
ghost use Rattle.index.specs.Order.{index_of, order_in};
ghost use Rattle.answer.specs.Table.{fetch_words};
ghost use Rattle.rules.specs.Store.{fetch_answer};
ghost use Rattle.probe.specs.Seen.{nothing, in_good_order, seen, rule_of, level_of, count_of, word_of, child_of, next_of, first_of, order_of, wrote_of, rewritten};

// The number that a fetch answers: 0 for a page that is given, else document 01's.
#[unsafe(no_mangle)]
pub extern "C" fn probe_fetch(store: &[u8], size: u64, count: u64, page: u64) -> u64
    ensures { result ≡ (fetch_words (fetch_answer (record { size = size; count = count }) store.now (record { 0 = page }))).number }
{
    probe::probe_fetch(store, size, count, page)
}

// The first rule of document 01's "Readable" that the bytes break as page `id`, 1 to 7; 0 for a readable page; 2^64-1 where no page
// has that many bytes.
#[unsafe(no_mangle)]
pub extern "C" fn probe_rule(bytes: &[u8], id: u64, order: u64, heap: &[u8]) -> u64
    ensures { result ≡ in_good_order nothing (λ o. rule_of (seen (order_in o heap.now) bytes.now id)) (index_of order) }
{
    probe::probe_rule(bytes, id, order, heap)
}

// The level of a readable page.
#[unsafe(no_mangle)]
pub extern "C" fn probe_level(bytes: &[u8], id: u64, order: u64, heap: &[u8]) -> u64
    ensures { result ≡ in_good_order nothing (λ o. level_of (seen (order_in o heap.now) bytes.now id)) (index_of order) }
{
    probe::probe_level(bytes, id, order, heap)
}

// The number of its datoms.
#[unsafe(no_mangle)]
pub extern "C" fn probe_count(bytes: &[u8], id: u64, order: u64, heap: &[u8]) -> u64
    ensures { result ≡ in_good_order nothing (λ o. count_of (seen (order_in o heap.now) bytes.now id)) (index_of order) }
{
    probe::probe_count(bytes, id, order, heap)
}

// Word j of the datom at index i: 0 entity, 1 attribute, 2 value, 3 last word.
#[unsafe(no_mangle)]
pub extern "C" fn probe_word(
    bytes: &[u8],
    id: u64,
    i: usize,
    j: usize,
    order: u64,
    heap: &[u8],
) -> u64
    ensures { result ≡ in_good_order nothing (λ o. word_of i j (seen (order_in o heap.now) bytes.now id)) (index_of order) }
{
    probe::probe_word(bytes, id, i, j, order, heap)
}

// The child at index i.
#[unsafe(no_mangle)]
pub extern "C" fn probe_child(bytes: &[u8], id: u64, i: usize, order: u64, heap: &[u8]) -> u64
    ensures { result ≡ in_good_order nothing (λ o. child_of i (seen (order_in o heap.now) bytes.now id)) (index_of order) }
{
    probe::probe_child(bytes, id, i, order, heap)
}

// The first real child at or after an index.
#[unsafe(no_mangle)]
pub extern "C" fn probe_next(bytes: &[u8], id: u64, from: usize, order: u64, heap: &[u8]) -> u64
    ensures { result ≡ in_good_order nothing (λ o. next_of from (seen (order_in o heap.now) bytes.now id)) (index_of order) }
{
    probe::probe_next(bytes, id, from, order, heap)
}

// The index of the first datom that is not below the one whose 32 bytes are given.
#[unsafe(no_mangle)]
pub extern "C" fn probe_first(bytes: &[u8], id: u64, sought: &[u8], order: u64, heap: &[u8]) -> u64
    ensures { result ≡ in_good_order nothing (λ o. first_of (order_in o heap.now) sought.now (seen (order_in o heap.now) bytes.now id)) (index_of order) }
{
    probe::probe_first(bytes, id, sought, order, heap)
}

// How two datoms compare, each given by its 32 bytes: 0 below, 1 equal, 2 above.
#[unsafe(no_mangle)]
pub extern "C" fn probe_order(a: &[u8], b: &[u8], order: u64, heap: &[u8]) -> u64
    ensures { result ≡ in_good_order nothing (λ o. order_of (order_in o heap.now) a.now b.now) (index_of order) }
{
    probe::probe_order(a, b, order, heap)
}

// A readable page is written anew into a free one of the same length: 1 if so, and 0 with nothing changed if not.
#[unsafe(no_mangle)]
pub extern "C" fn probe_write(
    bytes: &[u8],
    id: u64,
    free: &mut [u8],
    order: u64,
    heap: &[u8],
) -> u64
    ensures { (result ≡ in_good_order 0 (λ o. wrote_of bytes.now free.old (seen (order_in o heap.now) bytes.now id)) (index_of order)) × (free.new ≡ in_good_order free.old (λ o. rewritten bytes.now free.old (seen (order_in o heap.now) bytes.now id)) (index_of order)) }
{
    probe::probe_write(bytes, id, free, order, heap)
}
