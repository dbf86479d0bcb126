// The test of the objects: stable version, chain and holder.
ghost use Rattle.std.specs.Prelude.{◌≡◌, ◌+◌, ◌≤◌, ◌<◌, length};
ghost use Rattle.rules.specs.Tables.{place_count, object_count, chain_room, log_room};
ghost use Rattle.rules.specs.Layout.{word_count};
ghost use Rattle.tables.specs.Tells.{Tells};
ghost use Rattle.tables.specs.Test.{count_in, writer_in, LoggedTest, Linked, SeatTest, OtherWriter, EntryTest, PastChain, StableTest, HolderTest, ChainTest, ObjectTest, ObjectsTest};
ghost use Rattle.tables.specs.Parted.{Parted};
ghost use Rattle.tables.specs.Standing.{Standing, StandingBefore, AtEntry, number_of, seat_of};

use crate::index::Index;
use crate::places;
use crate::stands::{Record, Stand};
use calls::{Lsn, NO_RECORD, NOBODY, Object, Place, Txn};

// Looks up where a transaction stands. One that is logged has no place, so the places are not scanned for it.
fn standing(index: &Index, x: Txn) -> Stand
    requires { Parted index.now }
    ensures { Standing index.now.words.now x.num result }
{
    if let Some(found) = index.logged(x) {
        return Stand::Logged(found);
    }
    match places::seat(index.words, x) {
        Some(place) => Stand::Live(place),
        None => Stand::Nowhere,
    }
}

// Looks up where the writer of a stable version stands, which has no place.
fn stable_standing(words: &[u64], o: Object) -> Stand
    requires { length words.now ≡ word_count }
    ensures { StandingBefore words.now o.num 0 result }
{
    let number = Lsn {
        num: words[layout::STABLE_NUMBER + o.num],
    };
    if number == NO_RECORD {
        Stand::Nowhere
    } else {
        Stand::Logged(Record { number })
    }
}

// Whether a logged entry is saved and above what stands before it, which is logged too.
fn logged_sound(j: usize, saved: u64, last: Stand, here: Record) -> bool
    ensures { Tells result (LoggedTest j saved (number_of last) here.number.num) }
{
    let rises = match last {
        Stand::Logged(last) => last.number < here.number,
        _ => j == 0,
    };
    rises && (j as u64) < saved
}

// Whether the transaction at a place depends on what stands before, if that is at a place too.
fn linked(words: &[u64], last: Stand, here: Place) -> bool
    requires { length words.now ≡ word_count }
    ensures { Tells result (Linked words.now (seat_of last) here.num) }
{
    match last {
        Stand::Live(last) => sets::has(words[layout::DEPENDS + here.num], last.num),
        _ => true,
    }
}

// Whether the transaction at a place has the object in the set whose words begin at `set`, has prepared it or not, as
// asked, and depends on what stands before it.
fn seat_sound(
    words: &[u64],
    set: usize,
    prepared: bool,
    o: Object,
    last: Stand,
    here: Place,
) -> bool
    requires { (length words.now ≡ word_count) × (set + place_count ≤ word_count) }
    ensures { Tells result (SeatTest words.now set prepared o.num (seat_of last) here.num) }
{
    sets::has(words[set + here.num], o.num)
        && sets::has(words[layout::PREPARED + here.num], o.num) == prepared
        && linked(words, last, here)
}

// Whether none of the earlier entries of the chain has the writer of this one.
fn other_writer(words: &[u64], o: Object, j: usize) -> bool
    requires { (length words.now ≡ word_count) × (j < chain_room) }
    ensures { Tells result (OtherWriter words.now o.num j) }
{
    let x = lookups::writer_at(words, o, j);
    lookups::wrote_none(words, o, j, x)
}

// Whether an entry is sound, by where its writer and what stands before it stand.
fn entry_sound(words: &[u64], o: Object, j: usize, last: Stand, here: Stand) -> bool
    requires { AtEntry words.now o.num j last here }
    ensures { Tells result (EntryTest words.now o.num j) }
{
    if !other_writer(words, o, j) {
        return false;
    }
    match here {
        Stand::Logged(here) => logged_sound(j, words[layout::SAVED_COUNT + o.num], last, here),
        Stand::Live(here) => seat_sound(words, layout::WRITTEN, true, o, last, here),
        Stand::Nowhere => false,
    }
}

// Whether a free object has no working value, or its holder is sound.
fn holder_sound(words: &[u64], o: Object, last: Stand) -> bool
    requires { length words.now ≡ word_count }
    ensures { Tells result (HolderTest words.now o.num (seat_of last)) }
{
    let x = lookups::holder(words, o);
    if x == NOBODY {
        return words[layout::WORKING + o.num] == 0;
    }
    match places::seat(words, x) {
        Some(here) => seat_sound(words, layout::ACCESSED, false, o, last, here),
        None => false,
    }
}

// Whether the entries of a chain are sound, one after another, and then the holder.
fn chain_sound(index: &Index, o: Object, n: usize) -> bool
    requires { Parted index.now × (n ≤ chain_room) }
    ensures { Tells result (ChainTest index.now.words.now o.num n) }
{
    let words = index.words;
    let mut last = stable_standing(words, o);
    for j in 0..n {
        let here = standing(index, lookups::writer_at(words, o, j));
        if !entry_sound(words, o, j, last, here) {
            return false;
        }
        last = here;
    }
    holder_sound(words, o, last)
}

// Whether the words of a chain from entry n on are 0. They are gathered and tested once, both columns in one loop: two folds over
// parts of at most eight words each cost a call on tables with chains an eighth more.
fn zero_from(words: &[u64], o: Object, n: usize) -> bool
    requires { (length words.now ≡ word_count) × (n ≤ chain_room) }
    ensures { Tells result (PastChain words.now o.num n) }
{
    let mut all: u64 = 0;
    for j in n..layout::CHAIN_ROOM {
        all |= words[layout::CHAIN_VALUE + (layout::CHAIN_ROOM * o.num + j)]
            | words[layout::CHAIN_WRITER + (layout::CHAIN_ROOM * o.num + j)];
    }
    all == 0
}

// Whether the words past a chain's end are 0. Most chains are empty: for those it is one loop of fixed length.
fn past_zero(words: &[u64], o: Object, n: usize) -> bool
    requires { (length words.now ≡ word_count) × (n ≤ chain_room) }
    ensures { Tells result (PastChain words.now o.num n) }
{
    if n == 0 {
        zero_from(words, o, 0)
    } else {
        zero_from(words, o, n)
    }
}

// Whether a stable version is all zeros, or its transaction is the one that the record of its log number names.
fn stable_sound(words: &[u64], o: Object) -> bool
    requires { (length words.now ≡ word_count) × (count_in words.now ≤ log_room) }
    ensures { Tells result (StableTest words.now o.num) }
{
    let number = Lsn {
        num: words[layout::STABLE_NUMBER + o.num],
    };
    if number == NO_RECORD {
        return words[layout::STABLE_VALUE + o.num] == 0
            && words[layout::STABLE_WRITER + o.num] == 0;
    }
    // The record of a number is the word before LOG + it.
    number.num <= words[layout::LOG_COUNT]
        && words[number.num as usize + 1] == words[layout::STABLE_WRITER + o.num]
}

// Whether an object is sound: its counts, the words past its chain, its stable version, its chain and its holder.
fn object_sound(index: &Index, o: Object) -> bool
    requires { Parted index.now }
    ensures { Tells result (ObjectTest index.now.words.now o.num) }
{
    let words = index.words;
    let saved = words[layout::SAVED_COUNT + o.num];
    let queued = words[layout::QUEUED_COUNT + o.num];
    // Each by itself first, so that the sum does not wrap.
    if saved > 8 || queued > 8 || saved + queued > 8 {
        return false;
    }
    let n = (saved + queued) as usize;
    past_zero(words, o, n) && stable_sound(words, o) && chain_sound(index, o, n)
}

// Whether every object is sound.
pub fn objects_sound(index: &Index) -> bool
    requires { Parted index.now }
    ensures { Tells result (ObjectsTest index.now.words.now) }
{
    for o in 0..layout::OBJECTS {
        if !object_sound(index, Object { num: o }) {
            return false;
        }
    }
    true
}
