// Looking into the tables that sound words hold: who is live and where, who is logged and under which number, which places
// are free, who holds an object and what its latest version is, who falls with a transaction.
#![tactic(auto, using(crate::proofs::Fitting::bounds))]

ghost use Rattle.std.specs.Prelude.{◌≡◌, Bool, ℕ, cond, ◌+◌, ◌*◌, ◌^◌, ◌≤◌, ◌<◌, T, length};
ghost use Rattle.rules.specs.Sets.{width, collect};
ghost use Rattle.rules.specs.Tables.{place_count, chain_room, object, place_of as place_in, log_number as number_in, latest as latest_of};
ghost use Rattle.rules.specs.Falls.{and_dependents as one_round, fallen as fallen_in};
ghost use Rattle.rules.specs.Steps.{free_places as free_in};
ghost use Rattle.rules.specs.Layout.{number_at, holder_at, chain_writer_at, word_count, sound_words, unpack, word};
ghost use Rattle.lent.specs.Held.{held};
ghost use Rattle.calls.specs.Meaning.{txn_of, lsn_of, object_of};
ghost use Rattle.lookups.specs.Entries.{entry_of, entry_words, wrote_none};
ghost use Rattle.lookups.specs.Places.{seat_number, live_place};
ghost use Rattle.lookups.specs.Rounds.{AnswersAs, joins_in};
ghost use Rattle.lookups.specs.Scans.{first_at};

mod seated;

use calls::{Lsn, Object, Place, Txn};
use lent::Tables;
pub use seated::Seated;

// A version: its value and the transaction that wrote it.
#[derive(Clone, Copy)]
pub struct Entry {
    pub value: u64,
    pub writer: Txn,
}

// The first of the `count` words from `from` on that is x, counted from 0, or `count` where none is. It takes the whole words, so
// that its contract says where in the tables it looks.
fn scan(words: &[u64], from: usize, count: usize, x: u64) -> usize
    requires { from + count ≤ length words.now }
    ensures { result ≡ first_at words.now from count x }
{
    words[from..from + count]
        .iter()
        .position(|w| *w == x)
        .unwrap_or(count)
}

// The place of that number; none where it is 32.
fn place(p: usize) -> Option<Place>
    requires { p ≤ place_count }
    ensures { seat_number result ≡ p }
{
    if p < layout::PLACES {
        Some(Place { num: p })
    } else {
        None
    }
}

// The lowest place with the number x; the words need not be sound.
pub fn seat(words: &[u64], x: Txn) -> Option<Place>
    requires { length words.now ≡ word_count }
    ensures { seat_number result ≡ first_at words.now number_at place_count x.num }
{
    place(scan(words, layout::NUMBER, layout::PLACES, x.num))
}

// The place of a live transaction. The number 0 has the lowest free place.
pub fn place_of(t: &Tables, x: Txn) -> Option<Place>
    ensures { seat_number result ≡ place_in (held t.now).live (txn_of x) }
{
    seat(t.words, x)
}

// The place of a transaction that is live: the number 0 names nobody.
pub fn live_place(t: &Tables, x: Txn) -> Option<Place>
    ensures { seat_number result ≡ live_place (held t.now).live (txn_of x) }
{
    let nobody = x == calls::NOBODY;
    if nobody {
        return None;
    }
    place_of(t, x)
}

// The log number of a logged transaction, or one past the last record where it is not logged, as the
// rules' `log_number` has it.
pub fn log_number(t: &Tables, x: Txn) -> Lsn
    ensures { lsn_of result ≡ number_in (held t.now).log (txn_of x) }
{
    let count = t.words[layout::LOG_COUNT] as usize;
    let number = 1 + scan(t.words, layout::LOG, count, x.num) as u64;
    Lsn { num: number }
}

// The set, and place p above all its members where p passes.
fn and_place(s: u64, p: usize, passes: bool) -> u64
    requires { (s < 2 ^ p) × (p < width) }
    ensures { result ≡ s + cond passes (2 ^ p) 0 }
{
    if passes { s + (1 << p) } else { s }
}

// The set of the places that pass a test. It grows in a whole word: in 32 bits a round of dependents took 50 ns, not 35.
fn places_where<F: Fn(Place) -> bool>(passes: F) -> u32
    requires { F.IsAlwaysCallable passes }
    ensures { (test : ℕ → Bool) → AnswersAs (F.post passes) test → result ≡ collect place_count test }
{
    let mut set: u64 = 0;
    for p in 0..32 {
        set = and_place(set, p, passes(Place { num: p }));
    }
    set as u32
}

// The set of free places.
pub fn free_places(t: &Tables) -> u32
    ensures { result ≡ free_in (held t.now) }
{
    places_where(|p| t.words[layout::NUMBER + p.num] == 0)
}

// The version whose value and transaction stand at the given places.
fn entry_at(words: &[u64], value: usize, writer: usize) -> Entry
    requires { (value < length words.now) × (writer < length words.now) }
    ensures { entry_of result ≡ entry_words words.now value writer }
{
    Entry {
        value: words[value],
        writer: Txn { num: words[writer] },
    }
}

// Who holds an object; the words need not be sound.
pub fn holder(words: &[u64], o: Object) -> Txn
    requires { length words.now ≡ word_count }
    ensures word { result.num ≡ word words.now (holder_at + o.num) }
    ensures sound { T (sound_words words.now) → txn_of result ≡ (object (unpack words.now) (object_of o)).holder }
{
    let i = o.num;
    Txn {
        num: words[layout::HOLDER + i],
    }
}

// Who wrote entry j of an object's chain; the words need not be sound.
pub fn writer_at(words: &[u64], o: Object, j: usize) -> Txn
    requires { (length words.now ≡ word_count) × (j < chain_room) }
    ensures { result.num ≡ word words.now (chain_writer_at + (chain_room * o.num + j)) }
{
    let i = o.num;
    Txn {
        num: words[layout::CHAIN_WRITER + (8 * i + j)],
    }
}

// Whether none of the first n entries of an object's chain is of transaction x; the words need not be sound.
pub fn wrote_none(words: &[u64], o: Object, n: usize, x: Txn) -> bool
    requires { (length words.now ≡ word_count) × (n ≤ chain_room) }
    ensures { result ≡ wrote_none words.now o.num n (txn_of x) }
{
    for j in 0..n {
        let writer = writer_at(words, o, j);
        if writer == x {
            return false;
        }
    }
    true
}

// An object's latest version: the chain's last entry, queued or saved, else the stable version.
pub fn latest(t: &Tables, o: Object) -> Entry
    ensures { entry_of result ≡ latest_of (object (held t.now) (object_of o)) }
{
    let i = o.num;
    let count = (t.words[layout::SAVED_COUNT + i] + t.words[layout::QUEUED_COUNT + i]) as usize;
    if count == 0 {
        entry_at(t.words, layout::STABLE_VALUE + i, layout::STABLE_WRITER + i)
    } else {
        let last = 8 * i + (count - 1);
        entry_at(
            t.words,
            layout::CHAIN_VALUE + last,
            layout::CHAIN_WRITER + last,
        )
    }
}

// Whether place p is one of the set, or its transaction depends on one of it.
fn joins(t: &Tables, s: u64, p: Place) -> bool
    requires { s < 2 ^ width }
    ensures { result ≡ joins_in (held t.now).live s p.num }
{
    sets::has(s, p.num) || sets::meets(t.words[layout::DEPENDS + p.num], s)
}

// The set, and the places of whoever depends on one of it.
fn and_dependents(t: &Tables, s: u32) -> u32
    ensures { result ≡ one_round (held t.now).live s }
{
    let s = s as u64;
    places_where(|p| joins(t, s, p))
}

// The places of those that fall with the transaction at place p.
pub fn fallen(t: &Tables, p: Place) -> u32
    ensures { result ≡ fallen_in (held t.now).live p.num }
{
    let mut s = 1 << p.num;
    // A round that adds nothing is the last: those after it would add nothing either.
    for _ in 0..32u32 {
        let next = and_dependents(t, s);
        if next == s {
            return s;
        }
        s = next;
    }
    s
}
