// What the builder writes: the definitions, what is proved of them, and the size that code and definitions share.

#![tactic(auto)]

ghost use Rattle.std.specs.Prelude.{[], ◌∷◌, ◌≡◌};
ghost use Rattle.build_rules.specs.Words.{max_words};

use words_rules::{BUCKET_WORDS, HEAD_WORDS};

// How many words the longest histogram of the builder has.
pub const MAX_WORDS: usize = HEAD_WORDS + BUCKET_WORDS * ((65536 + 7) / 8);

// It is that of the definition.
pub fn sizes() -> [usize; 1]
    ensures { result ≡ max_words ∷ [] }
{
    [MAX_WORDS]
}
