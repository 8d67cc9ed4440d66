// The bucket of an entry: the place of its words in the caller's own list, and those words themselves.

// `as` stands where the library has no `From`, between usize and sized numbers, and where a number is proved to fit: `try_from` adds an error that never comes.

#![tactic(auto)]

ghost use Rattle.std.specs.Prelude.{◌≡◌, ◌+◌, ◌*◌};
ghost use Rattle.refusals.specs.Answers.{fault_of, reply_of};
ghost use Rattle.words_rules.specs.Finding.{find_fault, bucket_by_halving, find_reply, found};

use refusals::Refusal;
use words_rules::{BUCKET_WORDS, HEAD_WORDS};

// The first sentence of 7, 24, 8 to 12 and 15 that is true of a list and an entry.
#[tactic(auto, using(words_rules::proofs::EntryLaws::fault_of_list, words_rules::proofs::EntryLaws::fault_of_entry, words_rules::proofs::EntryLaws::no_find_fault))]
pub fn find_fault(words: &[u32], entry: u32) -> Result<(), Refusal>
    ensures { fault_of result ≡ find_fault words.now entry }
{
    words_reading::read_fault(words)?;
    if words::entry_count(words) <= entry {
        return Err(Refusal::Entry);
    }
    Ok(())
}

// What halving comes to where it looks for the last bucket that does not start after the entry: the entry's bucket, if find_fault passes. Nothing is
// tested here. Halved by hand: std's partition_point promises a place in sorted lists alone, and this call answers every list as defined.
#[tactic(auto, using(crate::proofs::HalvingSteps::all_between, crate::proofs::HalvingSteps::turn_up, crate::proofs::HalvingSteps::turn_down))]
pub fn bucket_of(words: &[u32], entry: u32) -> usize
    ensures { result ≡ bucket_by_halving words.now entry }
{
    let mut low: usize = 0;
    let mut high = words::bucket_count(words) as usize;
    while low + 1 < high {
        let middle = low + (high - low) / 2;
        if words::start_at(words, middle) <= entry {
            low = middle;
        } else {
            high = middle;
        }
    }
    low
}

// The place of the first word of the entry's bucket.
#[tactic(auto, using(crate::proofs::PlaceLaws::by_halving))]
pub fn find_place(words: &[u32], entry: u32) -> Result<usize, Refusal>
    ensures { reply_of result ≡ find_reply words.now entry }
{
    find_fault(words, entry)?;
    Ok(HEAD_WORDS + BUCKET_WORDS * bucket_of(words, entry))
}

// The words of the entry's bucket; the empty part at the list's start where find_fault refuses. Either begins in the caller's own
// list, at the place that is replied, four bytes a word.
#[tactic(auto, using(crate::proofs::PlaceLaws::by_reply))]
pub fn find(words: &[u32], entry: u32) -> &[u32]
    ensures part { result.now ≡ found words.now entry }
    ensures place { (result.ref_ptr.0 ≡ words.entry.ref_ptr.0) × (result.ref_ptr.1 ≡ words.entry.ref_ptr.1 + 4 * (find_reply words.now entry).value) }
{
    match find_place(words, entry) {
        Ok(at) => &words[at..at + BUCKET_WORDS],
        Err(_) => &words[..0],
    }
}
