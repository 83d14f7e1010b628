// The answer's four words, into the caller's area.
ghost use Rattle.std.specs.Prelude.{◌≡◌};
ghost use Rattle.answer.specs.Table.{number_of, detail_of, answer_words, refused_words, named_answer, named_words, append_words, plain};
ghost use Rattle.florinwick.specs.Words.{WordsIn, words};

use answer::{Done, Refusal, Stored};
use store::PageId;

// How many bytes four words have.
pub const AREA: usize = 32;

// The numbers of include/florinwick.h beside those of the refusals: the C interface. That of an area which has another length than four words,
// which is BadStore's too; of a listing's end; of a check that finds a fault.
pub const NO_AREA: u64 = 1;

pub const ENDED: u64 = 32;

pub const UNSOUND: u64 = 33;

// The four words, into an area of their size.
pub fn put_words(area: &mut [u8; AREA], number: u64, root: u64, pages: u64, detail: u64)
    ensures { WordsIn (words number root pages detail) area.new }
{
    store::put_word(area, 0, number);
    store::put_word(area, 8, root);
    store::put_word(area, 16, pages);
    store::put_word(area, 24, detail);
}

// A number by itself, for a call with nothing more to say.
pub fn plain(area: &mut [u8; AREA], number: u64) -> u64
    ensures { (result ≡ number) × WordsIn (plain number) area.new }
{
    put_words(area, number, 0, 0, 0);
    number
}

// What a call has done, in two words, with its number 0.
fn put_done(area: &mut [u8; AREA], root: u64, pages: u64) -> u64
    ensures { (result ≡ 0) × WordsIn (words 0 root pages 0) area.new }
{
    put_words(area, 0, root, pages, 0);
    0
}

// A refusal's number, index or page, the root that the call was given, and the word where pages written would stand.
fn put_refusal(area: &mut [u8; AREA], root: u64, pages: u64, refusal: Refusal) -> u64
    ensures { (result ≡ number_of refusal) × WordsIn (words (number_of refusal) root pages (detail_of refusal)) area.new }
{
    let number = refusal.number();
    put_words(area, number, root, pages, refusal.detail());
    number
}

// A refusal and the root that the call was given.
pub fn refuse(area: &mut [u8; AREA], root: u64, refusal: Refusal) -> u64
    ensures { (result ≡ (refused_words root refusal).number) × WordsIn (refused_words root refusal) area.new }
{
    put_refusal(area, root, 0, refusal)
}

// The same, with the number of the fault that it names.
pub fn refuse_named(area: &mut [u8; AREA], root: u64, refusal: Refusal) -> u64
    ensures { (result ≡ (named_words root refusal).number) × WordsIn (named_words root refusal) area.new }
{
    put_refusal(area, root, refusal.fault(), refusal)
}

// An answer goes to the area, and its number back to the caller. A refused call's root is the one it was given.
pub fn tell(area: &mut [u8; AREA], root: PageId, a: Result<Done, Refusal>) -> u64
    ensures { (result ≡ (answer_words root a).number) × WordsIn (answer_words root a) area.new }
{
    match a {
        Ok(done) => put_done(area, done.root.0, done.pages),
        Err(refusal) => refuse(area, root.0, refusal),
    }
}

// The same, with the number of the fault that a refusal names.
pub fn tell_named(area: &mut [u8; AREA], root: PageId, a: Result<Done, Refusal>) -> u64
    ensures { (result ≡ (named_answer root a).number) × WordsIn (named_answer root a) area.new }
{
    match a {
        Ok(done) => put_done(area, done.root.0, done.pages),
        Err(refusal) => refuse_named(area, root.0, refusal),
    }
}

// An append's answer: the value that names the constant where a root would stand, and bytes in place of pages.
pub fn tell_append(area: &mut [u8; AREA], a: Result<Stored, Refusal>) -> u64
    ensures { (result ≡ (append_words a).number) × WordsIn (append_words a) area.new }
{
    match a {
        Ok(stored) => put_done(area, stored.value.0, stored.bytes),
        Err(refusal) => refuse(area, 0, refusal),
    }
}
