// The words of a histogram, written into a list that has room for the longest.

ghost use Rattle.std.specs.Prelude.{◌≤◌, length};
ghost use Rattle.build_rules.specs.Words.{max_words};
ghost use Rattle.builder.specs.Private.Filling.{Bodied, Whole};

use super::input::Input;
use words_rules::{BUCKET_WORDS, HEAD_WORDS, Head};

impl Input<'_> {
    // The words of all buckets, after the place of the head words. Answers the number of buckets.
    fn put_buckets(&self, words: &mut [u32]) -> usize
        requires { max_words ≤ length words.old }
        ensures { Bodied self.now.freqs.now self.now.q words.old words.new result }
    {
        let mut b: usize = 0;
        let mut start: usize = 0;
        // No `for`: where the next bucket starts comes from the one before it.
        while start < self.freqs.len() {
            let placed = self.bucket_from(start);
            let packed = words_packing::encode(placed.bucket);
            let at = HEAD_WORDS + BUCKET_WORDS * b;
            words[at..at + BUCKET_WORDS].copy_from_slice(&packed);
            start = placed.next;
            b += 1;
        }
        b
    }

    // The whole histogram. Answers the number of its words.
    pub(crate) fn put_words(&self, words: &mut [u32]) -> usize
        requires { max_words ≤ length words.old }
        ensures { Whole self.now.freqs.now self.now.q words.new result }
    {
        let b = self.put_buckets(words);
        let head = Head {
            entries: self.freqs.len() as u32,
            theta: self.q.theta as u32,
            qn: self.q.qn as u32,
            qd: self.q.qd as u32,
            buckets: b as u32,
        };
        let packed = words_packing::encode_head(head);
        words[..HEAD_WORDS].copy_from_slice(&packed);
        HEAD_WORDS + BUCKET_WORDS * b
    }
}
