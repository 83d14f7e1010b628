// What was replayed, counted.
use std::fmt;

// What is counted.
#[derive(Clone, Copy)]
pub enum Place {
    Histories,
    Ended,
    Initialised,
    Inserted,
    Pages,
    Held,
    Listed,
    Datoms,
    Sound,
    Unsound,
    Poked,
    Named,
    ByBoth,
    InAevt,
    InAvet,
    Different,
}

#[derive(Clone, Copy, Default)]
pub struct Tally {
    histories: u64,
    ended: u64,
    initialised: u64,
    inserted: u64,
    pages: u64,
    held: u64,
    listed: u64,
    datoms: u64,
    sound: u64,
    unsound: u64,
    poked: u64,
    named: u64,
    by_both: u64,
    in_aevt: u64,
    in_avet: u64,
    different: u64,
}

impl Tally {
    // The count of a place.
    fn at(&mut self, place: Place) -> &mut u64 {
        match place {
            Place::Histories => &mut self.histories,
            Place::Ended => &mut self.ended,
            Place::Initialised => &mut self.initialised,
            Place::Inserted => &mut self.inserted,
            Place::Pages => &mut self.pages,
            Place::Held => &mut self.held,
            Place::Listed => &mut self.listed,
            Place::Datoms => &mut self.datoms,
            Place::Sound => &mut self.sound,
            Place::Unsound => &mut self.unsound,
            Place::Poked => &mut self.poked,
            Place::Named => &mut self.named,
            Place::ByBoth => &mut self.by_both,
            Place::InAevt => &mut self.in_aevt,
            Place::InAvet => &mut self.in_avet,
            Place::Different => &mut self.different,
        }
    }

    // n more at a place.
    pub fn add(&mut self, place: Place, n: u64) {
        let count = self.at(place);
        *count = count.wrapping_add(n);
    }

    // One more at this place if what was answered is what was recorded, and else one more that differs.
    pub fn settle(&mut self, is_same: bool, place: Place) {
        self.add(if is_same { place } else { Place::Different }, 1);
    }
}

impl fmt::Display for Tally {
    fn fmt<W: fmt::Write>(&self, f: &mut fmt::Formatter<W>) -> fmt::Result {
        writeln!(f, "{} histories begun", self.histories)?;
        writeln!(f, "{} histories ended with the recorded store", self.ended)?;
        writeln!(f, "{} initialise", self.initialised)?;
        writeln!(f, "{} insert", self.inserted)?;
        writeln!(
            f,
            "{} pages of these, byte for byte or by digest",
            self.pages
        )?;
        writeln!(
            f,
            "{} batches of insert, held at the root that they led to",
            self.held
        )?;
        writeln!(f, "{} listings", self.listed)?;
        writeln!(f, "{} datoms of these", self.datoms)?;
        writeln!(f, "{} checks, Sound", self.sound)?;
        writeln!(f, "{} checks, Unsound at the recorded page", self.unsound)?;
        writeln!(f, "{} pages damaged or repaired", self.poked)?;
        writeln!(
            f,
            "{} answers that may name a fault, all four words, by the model",
            self.named
        )?;
        writeln!(
            f,
            "{} answers by both oracles, the others by the patched one",
            self.by_both
        )?;
        writeln!(f, "{} answers by attribute, entity, value", self.in_aevt)?;
        writeln!(f, "{} answers by attribute, value, entity", self.in_avet)?;
        writeln!(f, "{} differ", self.different)
    }
}
