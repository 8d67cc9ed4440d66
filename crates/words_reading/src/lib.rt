// Whether a list of words is a histogram: sentences 7, 24 and 8 to 12, each tested over all buckets before the next.

// `as` stands where the library has no `From`, between usize and sized numbers, and where a number is proved to fit: `try_from` adds an error that never comes.

#![tactic(auto)]

ghost use Rattle.std.specs.Prelude.{◌≡◌, IfOk};
ghost use Rattle.refusals.specs.Answers.{fault_of};
ghost use Rattle.words_rules.specs.Reading.{head_fault, large_q_fault, length_fault, word_fault, start_fault, width_fault, code_fault, read_fault, Readable};

use refusals::Refusal;
use words_rules::{BUCKET_WORDS, HEAD_WORDS};

// 7, from the length and the head words alone. Of the third only bits 19 to 0 may be set.
#[tactic(auto, unfolding(words_rules::specs::Reading::head_fault))]
fn head_fault(words: &[u32]) -> bool
    ensures { result ≡ head_fault words.now }
{
    words.len() < HEAD_WORDS
        || words::word_at(words, 2) >> 20 != 0
        || !words_faults::head_good(words::head_at(words))
}

// 24, from the head words alone.
#[tactic(auto, unfolding(words_rules::specs::Reading::large_q_fault))]
fn large_q_fault(words: &[u32]) -> bool
    ensures { result ≡ large_q_fault words.now }
{
    let head = words::head_at(words);
    list_faults::q_large(head.qn, head.qd)
}

// 8
#[tactic(auto, unfolding(words_rules::specs::Reading::length_fault))]
fn length_fault(words: &[u32]) -> bool
    ensures { result ≡ length_fault words.now }
{
    words.len() != HEAD_WORDS + BUCKET_WORDS * (words::bucket_count(words) as usize)
}

// 9
fn word_fault(words: &[u32]) -> bool
    ensures { result ≡ word_fault words.now }
{
    let buckets = words::bucket_count(words) as usize;
    (0..buckets).any(|b| words_faults::words_broken(words::packed_at(words, b)))
}

// 10. A loop, since a closure that carried the least start on would get no proof. Buckets are packed words, and are asked for by number.
#[tactic(auto, using(crate::proofs::StartSteps::first_start, crate::proofs::StartSteps::start_within, crate::proofs::StartSteps::start_after))]
fn start_fault(words: &[u32]) -> bool
    ensures { result ≡ start_fault words.now }
{
    if words::start_at(words, 0) != 0 {
        return true;
    }
    let entries = words::entry_count(words);
    let buckets = words::bucket_count(words) as usize;
    let mut least = 0;
    for b in 0..buckets {
        let start = words::start_at(words, b);
        if !(least..entries).contains(&start) {
            return true;
        }
        least = start + 1;
    }
    false
}

// 11
fn width_fault(words: &[u32]) -> bool
    ensures { result ≡ width_fault words.now }
{
    let buckets = words::bucket_count(words) as usize;
    (0..buckets).any(|b| {
        let listed = words_fields::listed_sum(words::packed_at(words, b));
        words_faults::widths_broken(words::span_at(words, b), listed)
    })
}

// 12
fn code_fault(words: &[u32]) -> bool
    ensures { result ≡ code_fault words.now }
{
    let buckets = words::bucket_count(words) as usize;
    // not by `words::bucket_at`, which would put each bucket into memory
    (0..buckets).any(|b| {
        let packed = words::packed_at(words, b);
        words_faults::codes_broken(words_fields::decode(packed, words::end_at(words, b)))
    })
}

// The first sentence of 7, 24 and 8 to 12 that is true of a list; none is where it is a histogram.
#[tactic(auto, unfolding(laws::specs::Refusal::refusal))]
pub fn read_fault(words: &[u32]) -> Result<(), Refusal>
    ensures { fault_of result ≡ read_fault words.now }
{
    if head_fault(words) {
        return Err(Refusal::Head);
    }
    if large_q_fault(words) {
        return Err(Refusal::LargeQ);
    }
    if length_fault(words) {
        return Err(Refusal::WordCount);
    }
    if word_fault(words) {
        return Err(Refusal::BucketWord);
    }
    if start_fault(words) {
        return Err(Refusal::Start);
    }
    if width_fault(words) {
        return Err(Refusal::Width);
    }
    if code_fault(words) {
        return Err(Refusal::Code);
    }
    Ok(())
}

// Words that are a histogram.
#[derive(Clone, Copy, Debug, PartialEq, Eq)]
pub struct Histogram<'a> {
    pub words: &'a [u32],
    ghost readable: { Readable words.now },
}

impl<'a> Histogram<'a> {
    pub fn read(words: &'a [u32]) -> Result<Histogram<'a>, Refusal>
        ensures fault { fault_of result ≡ read_fault words.now }
        ensures words { IfOk result (λ h. h.words.now ≡ words.now) }
    {
        read_fault(words)?;
        Ok(Histogram { words })
    }
}
