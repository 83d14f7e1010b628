// What is checked of a batch before anything is written. The batch is a slice of bytes, 32 for each datom.
#![tactic(auto)]

pub mod sort;

ghost use Rattle.std.specs.Prelude.{◌≡◌, [], ◌+◌, ◌*◌, ◌≤◌, ℕ, Bool, length};
ghost use Rattle.datom.specs.declared.Datom.{Datom};
ghost use Rattle.datom.specs.Datom.{datom_at, datoms_of, formed_datom, stored_datom};
ghost use Rattle.index.specs.Order.{ord};
ghost use Rattle.answer.specs.declared.Refusal.{Refusal};
ghost use Rattle.answer.specs.declared.Refusal.TheVariants.{BadDatom, BadConstant};
ghost use Rattle.rules.specs.Insert.{form_fault, order_fault, has_same, twin_fault};
ghost use Rattle.batch.specs.Finding.{finding_of, counted};
ghost use Rattle.batch.specs.Steps.{Tells, failing_at};
ghost use Rattle.batch.specs.Twins.{earlier};

use answer::Refusal;
use datom::Datom;
use index::Order;

// The most datoms that a batch may have.
pub const MOST: usize = 128;

// How many datoms a batch has. Bytes that are no whole datoms, and more datoms than a batch may have, are both too many.
pub fn count_of(b: &[u8]) -> Result<usize, Refusal>
    ensures { result ≡ counted b.now }
{
    if b.len() % 32 != 0 {
        return Err(Refusal::TooMany);
    }
    let n = b.len() / 32;
    if MOST < n {
        return Err(Refusal::TooMany);
    }
    Ok(n)
}

// The index of the first of n datoms that fails a test.
fn first_failing<F: Fn(Datom) -> bool>(b: &[u8], n: usize, test: F) -> Option<usize>
    requires room { 32 * n ≤ length b.now }
    requires callable { F.IsAlwaysCallable test }
    ensures { (ok : Datom → Bool) (bad : ℕ → Refusal) → Tells (F.post test) ok → form_fault bad ok 0 (datoms_of n b.now) ≡ failing_at bad result }
{
    for i in 0..n {
        if !test(datom::datom_at(b, 32 * i)) {
            return Some(i);
        }
    }
    None
}

// The first datom that no batch may have, whatever the heap holds.
pub fn form_fault(b: &[u8], n: usize) -> Result<(), Refusal>
    requires { 32 * n ≤ length b.now }
    ensures { finding_of result ≡ form_fault BadDatom formed_datom 0 (datoms_of n b.now) }
{
    match first_failing(b, n, |d| d.is_formed()) {
        Some(i) => Err(Refusal::BadDatom(i)),
        None => Ok(()),
    }
}

// The first datom that names no valid constant of the heap, of a batch that is well formed.
pub fn constant_fault(b: &[u8], n: usize, heap: &[u8]) -> Result<(), Refusal>
    requires { 32 * n ≤ length b.now }
    ensures { finding_of result ≡ form_fault BadConstant (stored_datom heap.now) 0 (datoms_of n b.now) }
{
    match first_failing(b, n, |d| d.is_stored(heap)) {
        Some(i) => Err(Refusal::BadConstant(i)),
        None => Ok(()),
    }
}

// The first datom that is not above the one before it.
pub fn order_fault(b: &[u8], n: usize, order: Order) -> Result<(), Refusal>
    requires { 32 * n ≤ length b.now }
    ensures { finding_of result ≡ order_fault (ord order.entry).cmp (datoms_of n b.now) }
{
    if n == 0 {
        return Ok(());
    }
    let mut last = datom::datom_at(b, 0);
    for i in 1..n {
        let d = datom::datom_at(b, 32 * i);
        if !order.cmp(last, d).is_lt() {
            return Err(Refusal::OutOfOrder(i));
        }
        last = d;
    }
    Ok(())
}

// Whether the datom at index i is equal to an earlier one. The last of them is looked at first, as the rule does.
fn has_twin(b: &[u8], i: usize, order: Order) -> bool
    requires { 32 * i + 32 ≤ length b.now }
    ensures { result ≡ has_same (ord order.entry).cmp (datom_at b.now (32 * i)) (earlier i b.now) }
{
    let d = datom::datom_at(b, 32 * i);
    for j in (0..i).rev() {
        if order.cmp(datom::datom_at(b, 32 * j), d).is_eq() {
            return true;
        }
    }
    false
}

// The first datom that is equal to an earlier one. A batch is small enough to compare each with all before it.
pub fn twin_fault(b: &[u8], n: usize, order: Order) -> Result<(), Refusal>
    requires { 32 * n ≤ length b.now }
    ensures { finding_of result ≡ twin_fault (ord order.entry).cmp 0 [] (datoms_of n b.now) }
{
    for i in 0..n {
        if has_twin(b, i, order) {
            return Err(Refusal::OutOfOrder(i));
        }
    }
    Ok(())
}
