// Replays the recorded answers of the Rust, plain and patched, through the library's C entries, and counts what agrees. The records
// come from standard input; docs/ORACLE.md says how they were made and what they hold.
#![tactic(auto)]

pub mod calls;
pub mod examples;
pub mod kind;
pub mod lent;
pub mod names;
pub mod record;
pub mod tally;
pub mod wide;

use calls::Session;
use lent::Lent;
use std::io;
use std::io::Read;
use tally::Tally;

// Nothing says that the input ends, so the records are counted up to a number that no run reaches.
fn replay_all<R: Read>(input: &mut R, session: &mut Session) -> io::Result<()> {
    let mut buffer = [0u8; 65536];
    for _ in 0..1000000 {
        let Some(recorded) = record::next(input, &mut buffer)? else {
            break;
        };
        session.replay(recorded);
    }
    Ok(())
}

fn main(rt: HostRuntime) -> io::Result<()> {
    let mut input = rt.stdin();
    let mut store = [0u8; lent::STORE];
    let mut heap = [0u8; lent::HEAP];
    let mut scratch = [0u8; lent::SCRATCH];
    let mut session = Session {
        lent: Lent::new(&mut store, &mut heap, &mut scratch),
        tally: Tally::default(),
    };
    replay_all(&mut input, &mut session)?;
    let tally = session.tally;
    print!(rt; "{tally}")?;
    let mut unused = [0u8; 0];
    let mut lent = Lent::new(&mut store, &mut unused, &mut scratch);
    examples::run(&rt, &mut lent)?;
    wide::run(&rt, &mut lent)
}
