// The order that a store's record names, behind the refusals that the record itself brings: what every call asks that takes a heap.
#![tactic(auto)]

ghost use Rattle.std.specs.Prelude.{◌≡◌};
ghost use Rattle.ordered.specs.Ways.{ordered};

use answer::Refusal;
use index::Index;
use store::StoreRecord;

// The order to go by, or the first of the record's own refusals: 1 where the heap is not as the record says, or where the caller found its pages or
// its scratch bad, and 13 straight after it.
pub fn order_in(recorded: StoreRecord, bad: bool, heap: &[u8]) -> Result<Index, Refusal>
    ensures { result ≡ ordered recorded heap.now bad }
{
    if heap::is_bad(heap, recorded.heap) {
        return Err(Refusal::BadStore);
    }
    if bad {
        return Err(Refusal::BadStore);
    }
    index::index_of(recorded.order).ok_or(Refusal::BadOrder)
}
