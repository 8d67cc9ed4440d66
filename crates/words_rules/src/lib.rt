// The words of a histogram: the definitions, what is proved of them, and the types and sizes that code and definitions share.

#![tactic(auto)]

ghost use Rattle.std.specs.Prelude.{[], ◌∷◌, ◌≡◌};
ghost use Rattle.words_rules.specs.Words.{head_words, bucket_words};

pub const HEAD_WORDS: usize = 4;

pub const BUCKET_WORDS: usize = 5;

// They are those of the definitions.
pub fn sizes() -> [usize; 2]
    ensures { result ≡ head_words ∷ bucket_words ∷ [] }
{
    [HEAD_WORDS, BUCKET_WORDS]
}

// What the head words hold: d, theta, q as qn/qd, and the number of buckets.
#[derive(Clone, Copy, Debug, PartialEq, Eq)]
pub struct Head {
    pub entries: u32,
    pub theta: u32,
    pub qn: u32,
    pub qd: u32,
    pub buckets: u32,
}

// A decoded bucket, as specs/Decoded.antt has it: the widths and the classes are two lists there, and the flag is a bit of the words. It says that the
// eighth bucketlet is the free one, and not the first; the total is its code, which goes back into the words as it is.
#[derive(Clone, Copy, Debug, PartialEq, Eq)]
pub struct Bucket {
    pub widths: [u32; 8],
    pub classes: [u32; 8],
    pub start: u32,
    pub flag: bool,
    pub total: u32,
}
