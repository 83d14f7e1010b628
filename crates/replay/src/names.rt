// Calls that may name a fault, made again: their four words against the recorded ones. The Rust names no faults; these answers are of the
// model that is written to the documents (docs/ORACLE.md).
use crate::lent::{Answer, Cursor, Lent};
use crate::record::Record;

// The calls, by the number in a record's second word.
#[derive(Clone, Copy, PartialEq, Eq)]
enum Call {
    Check,
    ListStart,
    ListStep,
    Held,
    InsertNamed,
}

// A number that is no call.
#[derive(Clone, Copy)]
struct UnknownCall(u64);

impl TryFrom<u64> for Call {
    type Error = UnknownCall;

    fn try_from(number: u64) -> Result<Call, UnknownCall> {
        match number {
            1 => Ok(Call::Check),
            2 => Ok(Call::ListStart),
            3 => Ok(Call::ListStep),
            4 => Ok(Call::Held),
            5 => Ok(Call::InsertNamed),
            _ => Err(UnknownCall(number)),
        }
    }
}

// What a call is given stands behind its kind, the call, the root and the four words.
const GIVEN: usize = 56;

// A step from the recorded cursor, if the record has one.
fn step(lent: &Lent, recorded: Record) -> Option<Answer> {
    let mut cursor = Cursor::try_from(recorded.behind(GIVEN)).ok()?;
    let mut datom = [0u8; 32];
    Some(lent.step(&mut cursor, &mut datom))
}

fn start(lent: &Lent, root: u64, recorded: Record) -> Answer {
    let mut cursor = [0u8; 264];
    let lower = recorded.part(56, 32);
    let upper = recorded.part(88, 32);
    lent.start(root, lower, upper, &mut cursor)
}

// What a call answers; none for a call that is not known and for a step without a cursor.
fn answer(lent: &mut Lent, recorded: Record) -> Option<Answer> {
    let call = Call::try_from(recorded.word(1)).ok()?;
    let root = recorded.word(2);
    match call {
        Call::Check => Some(lent.check(root)),
        Call::ListStart => Some(start(lent, root, recorded)),
        Call::ListStep => step(lent, recorded),
        Call::Held => Some(lent.held(root, recorded.behind(GIVEN))),
        Call::InsertNamed => Some(lent.insert_named(root, recorded.behind(GIVEN))),
    }
}

// Whether a call answers with the recorded words.
pub fn is_answered(lent: &mut Lent, recorded: Record) -> bool {
    answer(lent, recorded).is_some_and(|told| told.0.as_slice() == recorded.part(24, 32))
}
