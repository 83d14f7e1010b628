// What the story says, on standard output.
use answer::{Flaw, Refusal};
use datom::Datom;
use std::io;
use store::PageId;

pub fn title(rt: &impl Print) -> io::Result<()> {
    println!(rt; "Florinwick: a failover, in 256-byte pages\n\nThe feed.")
}

pub fn sending(rt: &impl Print, first: u64, n: usize, used: u64) -> io::Result<()> {
    print!(rt; "  {n} fills from number {first} on, their texts at byte {used} of the heap: ")
}

pub fn done(rt: &impl Print, root: PageId, pages: u64) -> io::Result<()> {
    println!(rt; "Done, root {}, pages written: {pages}", root.0)
}

pub fn refused(rt: &impl Print, refusal: Refusal) -> io::Result<()> {
    print!(rt; "refused with number {}, ", refusal.number())?;
    match refusal {
        Refusal::Repeated(i) => {
            println!(rt; "Repeated, at place {i} of the batch; nothing is written")
        }
        _ => println!(rt; "detail {}", refusal.detail()),
    }
}

pub fn listing(rt: &impl Print, root: PageId) -> io::Result<()> {
    print!(rt; "  the fills under root {}:", root.0)
}

pub fn fill(rt: &impl Print, d: Datom) -> io::Result<()> {
    print!(rt; " {}", d.entity.0)
}

pub fn end_of_line(rt: &impl Print) -> io::Result<()> {
    println!(rt; "")
}

pub fn failover(rt: &impl Print) -> io::Result<()> {
    println!(rt;
        "\nThe failover. Did the last batch arrive? The replicator sends it again, its texts elsewhere on the heap."
    )
}

pub fn overlap(rt: &impl Print) -> io::Result<()> {
    println!(rt;
        "\nA batch that holds two of the last fills and two new ones goes in whole or not at all."
    )
}

pub fn fresh(rt: &impl Print) -> io::Result<()> {
    println!(rt; "\nThe two new ones alone.")
}

pub fn older(rt: &impl Print) -> io::Result<()> {
    println!(rt; "\nAn older root lists what it listed, and the check finds no fault.")
}

pub fn checked(rt: &impl Print, check: Result<(), Flaw>) -> io::Result<()> {
    match check {
        Ok(()) => println!(rt; "  the check: Sound"),
        Err(Flaw::Unsound(page, fault)) => {
            println!(rt;
                "  the check: Unsound, page {}, fault {}",
                page.0,
                fault.number()
            )
        }
        Err(Flaw::Refused(refusal)) => refused(rt, refusal),
    }
}
