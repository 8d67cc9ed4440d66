// What a list of words says: its head, and the span and the content of each of its buckets. Past the end of the list each word reads 0,
// so that every call has an answer for every list and every number. Each takes the list and a number, as docs/CALLS.md names them.

// `as` stands where the library has no `From`, between usize and sized numbers, and where a number is proved to fit: `try_from` adds an error that never comes.

#![tactic(auto)]

ghost use Rattle.std.specs.Prelude.{◌≡◌, ◌<◌};
ghost use Rattle.words_rules.specs.Words.{bucket_words, word, place, entries, buckets, head_of, packed_at, start, end, span};
ghost use Rattle.words_rules.specs.Decoded.{bucket_at};

use words_rules::{BUCKET_WORDS, Bucket, HEAD_WORDS, Head};

// Word i.
pub fn word_at(words: &[u32], i: usize) -> u32
    ensures { result ≡ word words.now i }
{
    words.get(i).copied().unwrap_or(0)
}

// The number of entries, d.
pub fn entry_count(words: &[u32]) -> u32
    ensures { result ≡ entries words.now }
{
    word_at(words, 0)
}

pub fn bucket_count(words: &[u32]) -> u32
    ensures { result ≡ buckets words.now }
{
    word_at(words, 3)
}

// What the head words hold.
pub fn head_at(words: &[u32]) -> Head
    ensures { result ≡ head_of words.now }
{
    words_fields::head_of([
        entry_count(words),
        word_at(words, 1),
        word_at(words, 2),
        bucket_count(words),
    ])
}

// Word j of bucket b. A number of a bucket that is not below the list's length is past its end, and its place may not fit.
fn bucket_word(words: &[u32], b: usize, j: usize) -> u32
    requires { j < bucket_words }
    ensures { result ≡ word words.now (place b j) }
{
    if b < words.len() {
        word_at(words, HEAD_WORDS + BUCKET_WORDS * b + j)
    } else {
        0
    }
}

// The words of bucket b, of which some may be past the end.
fn packed_or_zeros(words: &[u32], b: usize) -> [u32; BUCKET_WORDS]
    ensures { result ≡ packed_at words.now b }
{
    std::array::from_fn(|j| bucket_word(words, b, j))
}

// The words of bucket b. Where all are in the list, one test serves them.
pub fn packed_at(words: &[u32], b: usize) -> [u32; BUCKET_WORDS]
    ensures { result ≡ packed_at words.now b }
{
    if b < words.len()
        && let Some(rest) = words.get(HEAD_WORDS + BUCKET_WORDS * b..)
        && let Some(&packed) = rest.first_chunk()
    {
        return packed;
    }
    packed_or_zeros(words, b)
}

// The entry with which bucket b starts.
pub fn start_at(words: &[u32], b: usize) -> u32
    ensures { result ≡ start words.now b }
{
    words_fields::start_of(bucket_word(words, b, 0))
}

// The entry before which bucket b ends: the next one's start, of the last the number of entries.
pub fn end_at(words: &[u32], b: usize) -> u32
    ensures { result ≡ end words.now b }
{
    let buckets = bucket_count(words) as usize;
    if b < buckets && b + 1 < buckets {
        return start_at(words, b + 1);
    }
    entry_count(words)
}

// The number of entries of bucket b; 0 where it would end before it starts.
pub fn span_at(words: &[u32], b: usize) -> u32
    ensures { result ≡ span words.now b }
{
    end_at(words, b).saturating_sub(start_at(words, b))
}

// The total code of bucket b, which one word holds.
#[tactic(auto, unfolding(words_rules::specs::Decoded::decode))]
pub fn total_at(words: &[u32], b: usize) -> u32
    ensures { result ≡ (bucket_at words.now b).total }
{
    words_fields::total_of(bucket_word(words, b, 2))
}

// Bucket b, decoded.
pub fn bucket_at(words: &[u32], b: usize) -> Bucket
    ensures { result ≡ bucket_at words.now b }
{
    words_fields::decode(packed_at(words, b), end_at(words, b))
}
