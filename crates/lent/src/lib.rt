// Lent words that hold sound tables, to be read. Whoever makes one has tested the words, or proves them sound. What writes
// the words takes them as they were lent: in the middle of a call they need not be sound. docs/LAYOUT.md says where each thing
// stands in them.
#![tactic(auto)]

ghost use Rattle.std.specs.Prelude.{T};
ghost use Rattle.rules.specs.Layout.{sound_words};

// The tables that the words hold.
#[derive(Clone, Copy)]
pub struct Tables<'a> {
    pub words: &'a [u64],
    ghost sound: { T (sound_words words.now) },
}
