// The test of the places of live transactions.
ghost use Rattle.std.specs.Prelude.{◌≡◌, ◌<◌, length};
ghost use Rattle.rules.specs.Tables.{place_count};
ghost use Rattle.rules.specs.Layout.{word_count};
ghost use Rattle.tables.specs.Tells.{Tells};
ghost use Rattle.tables.specs.Test.{count_in, seat_in, IsSeat, used_in, SetsTest, FreeTest, UsedTest, PlaceTest, PlacesTest};
ghost use Rattle.tables.specs.Parted.{Full, AtPlace};

use crate::index::Index;
use calls::{NOBODY, Place, Txn};

// The lowest place of a transaction.
pub fn seat(words: &[u64], x: Txn) -> Option<Place>
    requires { length words.now ≡ word_count }
    ensures { IsSeat result (seat_in words.now x.num) }
{
    if x == NOBODY {
        return None;
    }
    lookups::seat(words, x)
}

// The set of the places that transactions have.
fn used_places(words: &[u64]) -> u64
    requires { length words.now ≡ word_count }
    ensures { result ≡ used_in words.now }
{
    let mut used: u64 = 0;
    for q in 0..layout::PLACES {
        if words[layout::NUMBER + q] != 0 {
            // The place is new to the set: `sets::with` would test that again.
            used += 1 << q;
        }
    }
    used
}

// Whether a live transaction's sets lie within each other as they should, and it does not depend on itself.
fn sets_sound(accessed: u64, written: u64, prepared: u64, depends: u64, used: u64, p: Place) -> bool
    ensures { Tells result (SetsTest accessed written prepared depends used p.num) }
{
    accessed < 1 << layout::OBJECTS
        && written & accessed == written
        && prepared & accessed == prepared
        && depends & used == depends
        && !sets::has(depends, p.num)
}

// Whether the sets of a free place are empty.
fn free_sound(words: &[u64], p: Place) -> bool
    requires { length words.now ≡ word_count }
    ensures { Tells result (FreeTest words.now p.num) }
{
    let objects = words[layout::ACCESSED + p.num]
        | words[layout::WRITTEN + p.num]
        | words[layout::PREPARED + p.num];
    objects | words[layout::DEPENDS + p.num] == 0
}

// Whether a transaction's number was given out, is no earlier place's and is not logged, and its sets are sound.
fn used_sound(index: &Index, used: u64, p: Place) -> bool
    requires { AtPlace index.now used }
    ensures { Tells result (UsedTest index.now.words.now p.num) }
{
    let words = index.words;
    let x = Txn {
        num: words[layout::NUMBER + p.num],
    };
    x.num < words[layout::NEXT]
        && seat(words, x) == Some(p)
        && index.logged(x).is_none()
        && sets_sound(
            words[layout::ACCESSED + p.num],
            words[layout::WRITTEN + p.num],
            words[layout::PREPARED + p.num],
            words[layout::DEPENDS + p.num],
            used,
            p,
        )
}

// Whether a place is sound.
fn place_sound(index: &Index, used: u64, p: Place) -> bool
    requires { AtPlace index.now used }
    ensures { Tells result (PlaceTest index.now.words.now p.num) }
{
    let words = index.words;
    if words[layout::NUMBER + p.num] == 0 {
        free_sound(words, p)
    } else {
        used_sound(index, used, p)
    }
}

// Whether every place is sound.
pub fn places_sound(index: &Index) -> bool
    requires { Full index.now }
    ensures { Tells result (PlacesTest index.now.words.now) }
{
    let used = used_places(index.words);
    for p in 0..layout::PLACES {
        if !place_sound(index, used, Place { num: p }) {
            return false;
        }
    }
    true
}
