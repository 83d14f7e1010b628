// What a call may answer. specs/Table.antt gives each case the number and the four words of document 01's table.
#![tactic(auto)]

ghost use Rattle.std.specs.Prelude.{◌≡◌};
ghost use Rattle.answer.specs.Names.{rule_number, fault_number, fault_in};
ghost use Rattle.answer.specs.Table.{number_of, detail_of};
ghost use Rattle.answer.specs.Damage.{damaged};
ghost use Rattle.answer.specs.declared.Fault.TheVariants.{Breaks};
ghost use Rattle.answer.specs.declared.Flaw.TheVariants.{Unsound, Refused};

use datom::{Datom, Value};
use store::PageId;

// The rule of a readable page that is broken first, in the order in which they are tested.
#[derive(Clone, Copy)]
pub enum Rule {
    Level,
    Count,
    Form,
    Order,
    LeafChild,
    LastChild,
    ChildId,
}

impl Rule {
    pub fn number(self) -> u64
        ensures { result ≡ rule_number self }
    {
        match self {
            Rule::Level => 1,
            Rule::Count => 2,
            Rule::Form => 3,
            Rule::Order => 4,
            Rule::LeafChild => 5,
            Rule::LastChild => 6,
            Rule::ChildId => 7,
        }
    }
}

// What is wrong where a call is Damaged or a tree Unsound: the reader's own answer, or the name of the test that the page or the cursor
// fails. The page is none for a cursor that is too high and for one under which nothing is left.
#[derive(Clone, Copy)]
pub enum Fault {
    Breaks(Rule),
    Missing,
    WrongLevel,
    EqualDatoms,
    OutOfBounds,
    PastCount,
    TooHigh,
    NothingLeft,
}

impl Fault {
    pub fn number(self) -> u64
        ensures { result ≡ fault_number self }
    {
        match self {
            Fault::Breaks(rule) => rule.number(),
            Fault::Missing => 8,
            Fault::WrongLevel => 9,
            Fault::EqualDatoms => 10,
            Fault::OutOfBounds => 11,
            Fault::PastCount => 12,
            Fault::TooHigh => 13,
            Fault::NothingLeft => 14,
        }
    }
}

impl From<Rule> for Fault {
    ghost from_gives = { λ rule fault. fault ≡ Breaks rule };

    fn from(rule: Rule) -> Fault {
        Fault::Breaks(rule)
    }
}

// A page and what is wrong with it.
#[derive(Clone, Copy)]
pub struct Damage {
    pub page: PageId,
    pub fault: Fault,
}

// Why a call is refused, with the batch index or the page that it names.
#[derive(Clone, Copy)]
pub enum Refusal {
    BadStore,
    TooMany,
    BadDatom(usize),
    OutOfOrder(usize),
    NoPage,
    Repeated(usize),
    Damaged(PageId, Fault),
    TooTall,
    NoRoom,
    BadBound,
    BadConstant(usize),
    HeapFull,
    BadOrder,
    NotHeld(usize),
}

impl Refusal {
    pub fn number(self) -> u64
        ensures { result ≡ number_of self }
    {
        match self {
            Refusal::BadStore => 1,
            Refusal::TooMany => 2,
            Refusal::BadDatom(_) => 3,
            Refusal::OutOfOrder(_) => 4,
            Refusal::NoPage => 5,
            Refusal::Repeated(_) => 6,
            Refusal::Damaged(_, _) => 7,
            Refusal::TooTall => 8,
            Refusal::NoRoom => 9,
            Refusal::BadBound => 10,
            Refusal::BadConstant(_) => 11,
            Refusal::HeapFull => 12,
            Refusal::BadOrder => 13,
            Refusal::NotHeld(_) => 16,
        }
    }

    // The index or the page, 0 where there is neither.
    pub fn detail(self) -> u64
        ensures { result ≡ detail_of self }
    {
        match self {
            Refusal::BadDatom(i)
            | Refusal::OutOfOrder(i)
            | Refusal::Repeated(i)
            | Refusal::BadConstant(i)
            | Refusal::NotHeld(i) => i as u64,
            Refusal::Damaged(p, _) => p.0,
            Refusal::BadStore
            | Refusal::TooMany
            | Refusal::NoPage
            | Refusal::TooTall
            | Refusal::NoRoom
            | Refusal::BadBound
            | Refusal::HeapFull
            | Refusal::BadOrder => 0,
        }
    }

    // The number of the fault that it names, 0 where it names none.
    pub fn fault(self) -> u64
        ensures { result ≡ fault_in self }
    {
        match self {
            Refusal::Damaged(_, fault) => fault.number(),
            Refusal::BadStore
            | Refusal::TooMany
            | Refusal::BadDatom(_)
            | Refusal::OutOfOrder(_)
            | Refusal::NoPage
            | Refusal::Repeated(_)
            | Refusal::TooTall
            | Refusal::NoRoom
            | Refusal::BadBound
            | Refusal::BadConstant(_)
            | Refusal::HeapFull
            | Refusal::BadOrder
            | Refusal::NotHeld(_) => 0,
        }
    }
}

impl From<Damage> for Refusal {
    ghost from_gives = { λ damage refusal. refusal ≡ damaged damage };

    fn from(damage: Damage) -> Refusal {
        Refusal::Damaged(damage.page, damage.fault)
    }
}

// What an insert or an initialise has done: the new root, and how many pages are written past the count.
#[derive(Clone, Copy)]
pub struct Done {
    pub root: PageId,
    pub pages: u64,
}

// What an append has stored: the value that names the constant, and the bytes by which the heap has grown.
#[derive(Clone, Copy)]
pub struct Stored {
    pub value: Value,
    pub bytes: u64,
}

// A listing's place: the height, and for each end an index and a page for every level. Four lists, as document 01 has them and
// `rules/specs/Listing.frames_from` speaks of them, and no list of indices with their pages.
#[derive(Clone, Copy)]
pub struct Cursor {
    pub height: u64,
    pub begin_indices: [u64; 8],
    pub begin_pages: [PageId; 8],
    pub end_indices: [u64; 8],
    pub end_pages: [PageId; 8],
}

// Of the start of a listing. The cursor of a refused start has ended. It stands beside the answer and not in it, since a refusal gives one
// too: `rules/specs/Listing.refuse_start`.
#[derive(Clone, Copy)]
pub struct Started {
    pub answer: Result<(), Refusal>,
    pub cursor: Cursor,
}

// Of a step: the next datom, or none at the end. An ended or refused step returns its cursor as it was. It stands beside the answer, since
// `rules/specs/Listing.staying` gives it whatever the answer is and `history/specs/Statement.StepsAlong` goes on with it.
#[derive(Clone, Copy)]
pub struct Stepped {
    pub answer: Result<Option<Datom>, Refusal>,
    pub cursor: Cursor,
}

// Why a tree is not sound, or the check refused.
#[derive(Clone, Copy)]
pub enum Flaw {
    Unsound(PageId, Fault),
    Refused(Refusal),
}

impl From<Damage> for Flaw {
    ghost from_gives = { λ damage flaw. flaw ≡ Unsound damage.page damage.fault };

    fn from(damage: Damage) -> Flaw {
        Flaw::Unsound(damage.page, damage.fault)
    }
}

impl From<Refusal> for Flaw {
    ghost from_gives = { λ refusal flaw. flaw ≡ Refused refusal };

    fn from(refusal: Refusal) -> Flaw {
        Flaw::Refused(refusal)
    }
}
