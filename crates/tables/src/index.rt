// An index of the log by transaction number. The records are parted into buckets by their number's remainder.
ghost use Rattle.std.specs.Prelude.{◌≡◌, ◌+◌, ◌<◌, length};
ghost use Rattle.rules.specs.Tables.{log_room};
ghost use Rattle.rules.specs.Layout.{word_count};
ghost use Rattle.tables.specs.Index.{key, bucket_of, number_among, IndexOf};
ghost use Rattle.tables.specs.Test.{number_in, IsRecord};

use crate::stands::Record;
use calls::{Lsn, Txn};

// The first `count` records of the words. Of each bucket one more than its last record's place, and of each record the same of
// the one before it in its bucket. 0 stands for none, and no Option: one of a `u16` would double the words that each test of
// the tables clears.
#[derive(Drop)]
pub struct Index<'a> {
    pub count: usize,
    head: [u16; 1024],
    before: [u16; 512],
    pub words: &'a [u64],
    ghost indexed: { IndexOf words.now count head before },
}

// The bucket of a transaction number.
fn bucket(x: Txn) -> usize
    ensures { result ≡ bucket_of x.num }
{
    (x.num % 1024) as usize
}

impl<'a> Index<'a> {
    ghost use Rattle.tables.specs.Parted.{Full, Indexed};

    // The index of no records.
    pub fn of(words: &'a [u64]) -> Index<'a>
        requires { length words.now ≡ word_count }
        ensures { Indexed words.now 0 result }
    {
        Index {
            words,
            count: 0,
            head: [0; 1024],
            before: [0; 512],
        }
    }

    // Puts the next record into the index, by its transaction.
    pub fn insert(&mut self, x: Txn)
        requires { (self.old.count < log_room) × (x.num ≡ key self.old.words.now self.old.count) }
        ensures { Indexed self.old.words.now (self.old.count + 1) self.new }
    {
        let i = self.count;
        let b = bucket(x);
        self.before[i] = self.head[b];
        self.head[b] = (i + 1) as u16;
        self.count = i + 1;
    }

    // The record in the index that names a transaction, down its bucket from the last record.
    pub fn find(&self, x: Txn) -> Option<Record>
        ensures { IsRecord result (number_among self.now.words.now self.now.count x.num) }
    {
        let words = self.words;
        let b = bucket(x);
        let mut at = self.head[b] as usize;
        // Along links, so no `for`.
        while at > 0 {
            // Record `at` is the word before LOG + at.
            if words[at + 1] == x.num {
                let number = Lsn { num: at as u64 };
                return Some(Record { number });
            }
            at = self.before[at - 1] as usize;
        }
        None
    }

    // The record that names a transaction.
    pub fn logged(&self, x: Txn) -> Option<Record>
        requires { Full self.now }
        ensures { IsRecord result (number_in self.now.words.now x.num) }
    {
        self.find(x)
    }
}
