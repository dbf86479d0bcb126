// The words of one object: who falls with a set of places, its lock, its chain's entries, its stable version. Values and writers
// of entries are columns of the lent words, so no slice of entries. An entry's index is a loop's or a count, and has no type.
ghost use Rattle.std.specs.Prelude.{◌≡◌, ◌+◌, ◌<◌, ◌≤◌, ◌^◌, length};
ghost use Rattle.rules.specs.Tables.{chain_room};
ghost use Rattle.rules.specs.Layout.{saved_count_at, word_count, word};
ghost use Rattle.ends_laws.specs.Objects.{unlock as unlocked_words};
ghost use Rattle.ends_laws.specs.Entries.{value_place, writer_place, put_entry, clear as cleared, slide as slid, trim as trimmed};
ghost use Rattle.ends_laws.specs.Scans.{sits_in, falls_in, first_fall as first_fall_in};
ghost use Rattle.ends_laws.specs.Cuts.{keep_saved as saved_kept, cut_chain as chain_cut};
ghost use Rattle.ends_laws.specs.Undo.{unlock_fallen as fallen_unlocked, no_entries as no_entries_in, undo_chain as undone_chain, undo_object as undone_object};
ghost use Rattle.ends_laws.specs.Settle.{settle_number as settle_number_in, put_stable as stable_put, settle_object as settled_object};

use calls::{Lsn, NOBODY, Object, Txn};
use lookups::Entry;

// Whether the place with the number x is one of f.
fn sits(words: &[u64], f: u64, x: Txn) -> bool
    requires { length words.now ≡ word_count }
    ensures { result ≡ sits_in words.now f x.num }
{
    match lookups::seat(words, x) {
        Some(p) => sets::has(f, p.num),
        None => false,
    }
}

// Whether the transaction x is one of those at the places f.
fn falls(words: &[u64], f: u64, x: Txn) -> bool
    requires { length words.now ≡ word_count }
    ensures { result ≡ falls_in words.now f x.num }
{
    // Nearly every lock is free: no place is searched for its holder.
    x != NOBODY && sits(words, f, x)
}

// The first entry of object o's chain whose writer is one of those at the places f, or 8 where there is none:
// the least of it and a count is taken, so it is no Option.
fn first_fall(words: &[u64], f: u64, o: Object) -> usize
    requires { length words.now ≡ word_count }
    ensures { result ≡ first_fall_in words.now f o.num }
{
    // `(0..8).find(..).unwrap_or(8)` says the same; its proof did not close.
    for j in 0..8 {
        let writer = lookups::writer_at(words, o, j);
        if falls(words, f, writer) {
            return j;
        }
    }
    8
}

// Frees the lock of object o.
fn unlock(words: &mut [u64], o: Object)
    requires { length words.old ≡ word_count }
    ensures { words.new ≡ unlocked_words o.num words.old }
{
    let i = o.num;
    words[layout::HOLDER + i] = 0;
    words[layout::WORKING + i] = 0;
}

// Entry j of object o's chain.
fn entry_at(words: &[u64], o: Object, j: usize) -> Entry
    requires { (length words.now ≡ word_count) × (j < chain_room) }
    ensures { (result.value ≡ word words.now (value_place o.num j))
        × (result.writer.num ≡ word words.now (writer_place o.num j)) }
{
    Entry {
        value: words[layout::CHAIN_VALUE + (8 * o.num + j)],
        writer: lookups::writer_at(words, o, j),
    }
}

// Sets entry j of object o's chain.
fn set_entry(words: &mut [u64], o: Object, j: usize, entry: Entry)
    requires { (length words.old ≡ word_count) × (j < chain_room) }
    ensures { words.new ≡ put_entry o.num j entry.value entry.writer.num words.old }
{
    let i = o.num;
    words[layout::CHAIN_VALUE + (8 * i + j)] = entry.value;
    words[layout::CHAIN_WRITER + (8 * i + j)] = entry.writer.num;
}

// Clears the entries of object o's chain from n on.
fn clear(words: &mut [u64], o: Object, n: usize)
    requires { length words.old ≡ word_count }
    ensures { words.new ≡ cleared o.num n words.old }
{
    // `fill` of `[at + n.min(8)..at + 8]`, once for the values and once for the writers, is no plainer: n may pass the room.
    let no_entry = Entry {
        value: 0,
        writer: NOBODY,
    };
    for j in n..8 {
        set_entry(words, o, j, no_entry);
    }
}

// Cuts object o's chain to so many saved and so many queued entries.
fn trim(words: &mut [u64], o: Object, saved: u64, queued: u64)
    requires { (length words.old ≡ word_count) × (saved + queued < 2 ^ 64) }
    ensures { words.new ≡ trimmed o.num saved queued words.old }
{
    let i = o.num;
    words[layout::SAVED_COUNT + i] = saved;
    words[layout::QUEUED_COUNT + i] = queued;
    clear(words, o, (saved + queued) as usize);
}

// Frees the lock of object o and leaves it its first n entries, as saved ones.
pub fn keep_saved(words: &mut [u64], o: Object, n: u64)
    requires { length words.old ≡ word_count }
    ensures { words.new ≡ saved_kept o.num n words.old }
{
    unlock(words, o);
    trim(words, o, n, 0);
}

// Frees the lock of object o if one of those at the places f holds it.
fn unlock_fallen(words: &mut [u64], f: u64, o: Object)
    requires { length words.old ≡ word_count }
    ensures { words.new ≡ fallen_unlocked f o.num words.old }
{
    let x = lookups::holder(words, o);
    if falls(words, f, x) {
        unlock(words, o);
    }
}

// Leaves object o the first n entries of its chain.
fn cut_chain(words: &mut [u64], o: Object, n: u64)
    requires { length words.old ≡ word_count }
    ensures { words.new ≡ chain_cut o.num n words.old }
{
    let i = o.num;
    let saved = words[layout::SAVED_COUNT + i].min(n);
    let queued = words[layout::QUEUED_COUNT + i].min(n - saved);
    trim(words, o, saved, queued);
}

// Whether object o's chain is empty.
fn no_entries(words: &[u64], o: Object) -> bool
    requires { length words.now ≡ word_count }
    ensures { result ≡ no_entries_in words.now o.num }
{
    let i = o.num;
    words[layout::SAVED_COUNT + i] == 0 && words[layout::QUEUED_COUNT + i] == 0
}

// Those at the places f lose object o's chain from the first of them on.
fn undo_chain(words: &mut [u64], f: u64, o: Object)
    requires { length words.old ≡ word_count }
    ensures { words.new ≡ undone_chain f o.num words.old }
{
    // Nearly every chain is empty or loses nothing: of an empty one no entry is looked at, and neither is written.
    if no_entries(words, o) {
        return;
    }
    let kept = first_fall(words, f, o);
    let cut = kept < 8;
    if cut {
        cut_chain(words, o, kept as u64);
    }
}

// Those at the places f lose object o's lock and its chain from the first of them on.
pub fn undo_object(words: &mut [u64], f: u64, o: Object)
    requires { length words.old ≡ word_count }
    ensures { words.new ≡ undone_object f o.num words.old }
{
    undo_chain(words, f, o);
    unlock_fallen(words, f, o);
}

// How many entries of object o leave: the saved ones before the first whose writer is live. In sound tables those are
// the leading logged ones.
pub fn settle_number(words: &[u64], o: Object) -> u64
    requires { length words.now ≡ word_count }
    ensures { result ≡ settle_number_in words.now o.num }
{
    let i = o.num;
    let all_places = 4_294_967_295;
    let first = first_fall(words, all_places, o) as u64;
    words[layout::SAVED_COUNT + i].min(first)
}

// Moves the entries of object o's chain down by k.
fn slide(words: &mut [u64], o: Object, k: usize)
    requires { (length words.old ≡ word_count) × (k ≤ chain_room) }
    ensures { words.new ≡ slid o.num k words.old }
{
    let left = 8 - k;
    // `copy_within(at + k..at + 8, at)`, once for the values and once for the writers, is no plainer.
    for j in 0..left {
        let entry = entry_at(words, o, j + k);
        set_entry(words, o, j, entry);
    }
}

// Entry k - 1 of object o becomes its stable version, under the log number n, and its saved entries are k fewer.
fn put_stable(words: &mut [u64], o: Object, k: usize, n: Lsn)
    requires { (length words.old ≡ word_count) × (0 < k) × (k ≤ chain_room)
        × (k ≤ word words.old (saved_count_at + o.num)) }
    ensures { words.new ≡ stable_put o.num k n.num words.old }
{
    let i = o.num;
    let last = entry_at(words, o, k - 1);
    let saved = words[layout::SAVED_COUNT + i];
    words[layout::STABLE_VALUE + i] = last.value;
    words[layout::STABLE_WRITER + i] = last.writer.num;
    words[layout::STABLE_NUMBER + i] = n.num;
    words[layout::SAVED_COUNT + i] = saved - k as u64;
}

// Entry k - 1 of object o becomes its stable version, under the log number n; its first k entries leave.
pub fn settle_object(words: &mut [u64], o: Object, k: usize, n: Lsn)
    requires { (length words.old ≡ word_count) × (0 < k) × (k ≤ chain_room)
        × (k ≤ word words.old (saved_count_at + o.num)) }
    ensures { words.new ≡ settled_object o.num k n.num words.old }
{
    put_stable(words, o, k, n);
    slide(words, o, k);
    clear(words, o, 8 - k);
}
