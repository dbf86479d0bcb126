// The test of the log: its records, and the words past them.
ghost use Rattle.std.specs.Prelude.{◌≡◌, ◌+◌, ◌≤◌, ◌<◌, length, T};
ghost use Rattle.rules.specs.Tables.{log_room};
ghost use Rattle.rules.specs.Layout.{word_count};
ghost use Rattle.tables.specs.Tells.{Tells};
ghost use Rattle.tables.specs.Test.{AllZero, count_in, RecordTest, RecordsTest, PastLog};
ghost use Rattle.tables.specs.Parted.{Indexed};

use crate::index::Index;
use calls::{NOBODY, Txn};

// Whether the next record's transaction was given out and no earlier record names it; a sound record goes into the index. The
// words come beside the index that has them: read out of it for each record, a call on a full log takes a third longer.
fn record_sound(words: &[u64], index: &mut Index) -> bool
    requires { (index.old.words.now ≡ words.now) × (index.old.count < log_room) }
    ensures says { Tells result (RecordTest words.now index.old.count) }
    ensures indexed { T result → Indexed words.now (index.old.count + 1) index.new }
{
    let x = Txn {
        num: words[layout::LOG + index.count],
    };
    let sound = x != NOBODY && x.num < words[layout::NEXT] && index.find(x).is_none();
    if sound {
        index.insert(x);
    }
    sound
}

// Whether every record is sound, by an index that each goes into once it is tested.
pub fn records_sound(words: &[u64], index: &mut Index) -> bool
    requires { Indexed words.now 0 index.old × (count_in words.now ≤ log_room) }
    ensures says { Tells result (RecordsTest words.now) }
    ensures indexed { T result → Indexed words.now (count_in words.now) index.new }
{
    let count = words[layout::LOG_COUNT] as usize;
    for _ in 0..count {
        if !record_sound(words, index) {
            return false;
        }
    }
    true
}

// Whether each of the words is 0. They are gathered and tested once, so that several go at a time.
fn all_zero(words: &[u64]) -> bool
    ensures { Tells result (AllZero words.now) }
{
    words.iter().fold(0, |all, w| all | *w) == 0
}

// Whether the words past the last record are 0.
pub fn past_zero(words: &[u64]) -> bool
    requires { (length words.now ≡ word_count) × (count_in words.now ≤ log_room) }
    ensures { Tells result (PastLog words.now) }
{
    let count = words[layout::LOG_COUNT] as usize;
    all_zero(&words[layout::LOG + count..layout::LOG + layout::LOG_ROOM])
}
