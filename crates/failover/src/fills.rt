// Batches of fills: fill k is entity k with attribute 1, the order text of k, asserted in transaction 2 k.
ghost use Rattle.std.specs.Prelude.{◌≤◌};

use answer::Stored;

// The word of a text for which the heap has no room: no batch may have it.
const NO_NAME: u64 = 0xffff_ffff_ffff_ffff;

// The text of an order: twelve bytes, more than a value holds itself.
fn text_of(number: u64) -> [u8; 12] {
    let mut text = *b"ORDER-000000";
    let mut rest = number;
    for digit in text[6..].iter_mut().rev() {
        *digit = b'0' + (rest % 10) as u8;
        rest /= 10;
    }
    text
}

fn put_words(batch: &mut [u8; 256], i: usize, number: u64, value: u64)
    requires { (i ≤ 7) × (number ≤ 999999) }
{
    let at = 32 * i;
    store::put_word(batch, at, number);
    store::put_word(batch, at + 8, 1);
    store::put_word(batch, at + 16, value);
    store::put_word(batch, at + 24, 2 * number + 1);
}

// Appends the text of a fill, puts the fill in its place, and says what is used of the heap then.
fn put_one(batch: &mut [u8; 256], heap: &mut [u8], used: u64, i: usize, k: u64) -> u64
    requires { i ≤ 7 }
{
    let number = k % 1000000;
    let (name, bytes) = match append::append_bytes(heap, used, &text_of(number)) {
        Ok(Stored { value, bytes }) => (value.0, bytes),
        Err(_) => (NO_NAME, 0),
    };
    put_words(batch, i, number, name);
    used.wrapping_add(bytes)
}

// Fill number first and the n - 1 after it, and what is used of the heap then.
pub fn put(batch: &mut [u8; 256], heap: &mut [u8], used: u64, first: u64, n: usize) -> u64
    requires { n ≤ 8 }
{
    let mut end = used;
    for i in 0..n {
        end = put_one(batch, heap, end, i, first.wrapping_add(i as u64));
    }
    end
}

// The bytes of n fills, of the at most eight that a batch has here.
pub fn of(batch: &[u8; 256], n: usize) -> &[u8]
    requires { n ≤ 8 }
{
    &batch[..32 * n]
}
