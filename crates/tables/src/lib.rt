// The test of lent words: whether they hold sound tables. The words are the lent slice, as document 01 names it, so their length
// is a clause; what a standing says is said of certain words, so that is a clause too and no field.
#![tactic(auto)]

ghost use Rattle.std.specs.Prelude.{◌≡◌};
ghost use Rattle.rules.specs.Layout.{sound_words};
ghost use Rattle.tables.specs.Tells.{Tells};
ghost use Rattle.tables.specs.Test.{CountsTest, RestTest};

mod index;
mod log;
mod objects;
mod places;
mod stands;

use index::Index;

// Whether there are as many words as there should be, and the next number and the count of records are in range.
fn counts_sound(words: &[u64]) -> bool
    ensures { Tells result (CountsTest words.now) }
{
    words.len() == layout::WORDS
        && words[layout::NEXT] > 0
        && words[layout::NEXT] <= 1000000
        && words[layout::LOG_COUNT] <= 512
}

// Whether the log, the places and the objects are sound, for words of the right count whose counts are in range.
fn rest_sound(words: &[u64]) -> bool
    requires { CountsTest words.now }
    ensures { Tells result (RestTest words.now) }
{
    let mut index = Index::of(words);
    log::records_sound(words, &mut index)
        && log::past_zero(words)
        && places::places_sound(&index)
        && objects::objects_sound(&index)
}

// Whether the words hold sound tables. Linear in the words: an index of the log by number answers what each chain entry
// and each live transaction asks of it.
pub fn sound(words: &[u64]) -> bool
    ensures { result ≡ sound_words words.now }
{
    counts_sound(words) && rest_sound(words)
}
