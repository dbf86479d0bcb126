// Where each thing stands in the lent words, and how many there are of it, as docs/LAYOUT.md gives them. The places have names
// here alone; that the code puts each thing where the rules' Layout has it is what the contracts of the code say.
#![tactic(auto)]

// How many words there are.
pub const WORDS: usize = 1410;
// How many places for live transactions, how many objects, how many entries a chain has room for and records the log.
pub const PLACES: usize = 32;

pub const OBJECTS: usize = 32;

pub const CHAIN_ROOM: usize = 8;

pub const LOG_ROOM: usize = 512;

// The next transaction number, the count of records, and the log.
pub const NEXT: usize = 0;

pub const LOG_COUNT: usize = 1;

pub const LOG: usize = 2;
// The live transactions' numbers and sets, by place.
pub const NUMBER: usize = 514;

pub const ACCESSED: usize = 546;

pub const WRITTEN: usize = 578;

pub const PREPARED: usize = 610;

pub const DEPENDS: usize = 642;
// The stable versions, the holders and the working values, by object.
pub const STABLE_VALUE: usize = 674;

pub const STABLE_WRITER: usize = 706;

pub const STABLE_NUMBER: usize = 738;

pub const HOLDER: usize = 770;

pub const WORKING: usize = 802;
// The counts of saved and of queued entries, by object.
pub const SAVED_COUNT: usize = 834;

pub const QUEUED_COUNT: usize = 866;
// The chains: entry j of object i at 8 i + j.
pub const CHAIN_VALUE: usize = 898;

pub const CHAIN_WRITER: usize = 1154;
