// Document 01's examples that are run and not proved, k and l: initialise d(0), d(1), .. and say what was written.
ghost use Rattle.std.specs.Prelude.{◌≤◌};

use crate::lent::{Answer, Lent};
use crate::record::Record;
use crate::{lent, record};
use std::io;

// Room for 129 datoms.
pub type Batch = [u8; 4128];

// The n datoms from d(from) on: entity k, attribute 1, value k, last word 3.
pub fn put_datoms(batch: &mut Batch, from: u64, n: u64)
    requires { (from ≤ 1000000) × (n ≤ 129) }
{
    for i in 0..n {
        put_datom(batch, i, from + i);
    }
}

fn put_datom(batch: &mut Batch, i: u64, k: u64)
    requires { i ≤ 128 }
{
    let at = 32 * (i as usize);
    store::put_word(batch, at, k);
    store::put_word(batch, at + 8, 1);
    store::put_word(batch, at + 16, k);
    store::put_word(batch, at + 24, 3);
}

pub fn first(batch: &Batch, n: u64) -> &[u8]
    requires { n ≤ 129 }
{
    record::part(batch, 0, 32 * n)
}

// A page of the store.
#[derive(Clone, Copy)]
pub struct Page<'a>(&'a [u8]);

impl<'a> Page<'a> {
    pub fn of(lent: &'a Lent, id: u64) -> Page<'a> {
        Page(lent.pages(id, 1))
    }

    // The byte so far behind the level's, which stands behind the datoms and the children; 0 past the page's end.
    fn header(self, place: usize) -> u8
        requires { place ≤ 1 }
    {
        let c = store::capacity_of(self.0.len() as u64).min(204);
        self.0.get(40 * c + 8 + place).copied().unwrap_or_default()
    }

    pub fn level(self) -> u8 {
        self.header(0)
    }

    pub fn count(self) -> u8 {
        self.header(1)
    }

    // The entity of its first datom.
    pub fn first(self) -> u64 {
        Record(self.0).word(0)
    }
}

// What the first n of d(0), d(1), .. make of an empty store.
pub fn initialise(lent: &mut Lent, size: u64, n: u64) -> Answer
    requires { n ≤ 129 }
{
    let mut batch = [0u8; 4128];
    put_datoms(&mut batch, 0, n);
    lent.stored = lent::empty(size);
    let answer = lent.initialise(first(&batch, n));
    lent.grow(answer.pages());
    answer
}

fn example(rt: &impl Print, lent: &mut Lent, size: u64, n: u64) -> io::Result<()>
    requires { n ≤ 129 }
{
    let answer = initialise(lent, size, n);
    print!(rt; "{size}-byte pages, {n} datoms: ")?;
    if answer.number() != 0 {
        return println!(rt; "refused, number {}", answer.number());
    }
    let root = Page::of(lent, answer.root());
    let leaves = (Page::of(lent, 0), Page::of(lent, 1));
    print!(rt;
        "{} pages, root {} at level {}; ",
        answer.pages(),
        answer.root(),
        root.level()
    )?;
    println!(rt;
        "page 0 has {} datoms, page 1 has {}, the root begins with d{}",
        leaves.0.count(),
        leaves.1.count(),
        root.first()
    )
}

// k: 128 datoms and 129; l: 14, 103 and 104.
pub fn run(rt: &impl Print, lent: &mut Lent) -> io::Result<()> {
    rt.write_all(b"\nexamples k and l\n")?;
    example(rt, lent, 256, 128)?;
    example(rt, lent, 256, 129)?;
    example(rt, lent, 568, 14)?;
    example(rt, lent, 4096, 103)?;
    example(rt, lent, 4096, 104)
}
