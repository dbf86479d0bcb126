// Where a transaction stands.
ghost use Rattle.std.specs.Prelude.{◌<◌};

use calls::{Lsn, Place};

// A record of the log, by its number.
#[derive(Clone, Copy)]
pub struct Record {
    pub number: Lsn,
    ghost exists: { 0 < number.num },
}

// In the log, or at a place, or nowhere.
#[derive(Clone, Copy)]
pub enum Stand {
    Logged(Record),
    Live(Place),
    Nowhere,
}
