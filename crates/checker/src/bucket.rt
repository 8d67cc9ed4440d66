// What fails first in a bucket, and in all of them.

ghost use Rattle.std.specs.Prelude.{◌≡◌, ◌<◌};
ghost use Rattle.counts_rules.specs.Form.{base};
ghost use Rattle.counts_rules.specs.Class.{class_number};
ghost use Rattle.words_rules.specs.Words.{buckets};
ghost use Rattle.check_rules.specs.Failing.{bucketlet_verdict};
ghost use Rattle.check_rules.specs.Checking.{total_verdict, bucket_verdict, buckets_verdict};
ghost use Rattle.checker.specs.Private.Searching.{Checkable, Classed, Totalled, verdict_of};

use super::range::{Bucketlet, Compared, count_of};
use check_rules::{Failing, Sort};
use list_rules::Quality;

/// A list and a histogram that has no fault for it, with the histogram's quality.
#[derive(Clone, Copy, Debug)]
pub(crate) struct Matched<'a> {
    pub freqs: &'a [u32],
    pub words: &'a [u32],
    pub quality: Quality,
    ghost checkable: { Checkable freqs.now words.now quality },
}

impl Matched<'_> {
    // What fails first of a bucketlet, given by its class. One of width 0 is empty and has no range.
    #[tactic(auto, using(check_rules::proofs::RangeLaws::empty_verdict))]
    fn check_bucketlet(&self, start: usize, width: usize, class: u32) -> Result<(), Failing>
        requires { Classed self.now.freqs.now start width class }
        ensures { verdict_of result ≡ bucketlet_verdict self.now.quality self.now.freqs.now start width (class_number base class) }
    {
        if width == 0 {
            return Ok(());
        }
        let Ok(number) = counts::number_of_class(class) else {
            unreachable!()
        };
        let bucketlet = Bucketlet {
            freqs: self.freqs,
            quality: self.quality,
            start,
            width,
            number: u64::from(number),
        };
        bucketlet.check()
    }

    // Whether the total of the bucket from start to end is within a factor q of its true count.
    #[tactic(auto, using(counts::proofs::CallLaws::total_number_lem, laws::proofs::SumsLaws::part_le, counts_rules::proofs::TotalLaws::number_small))]
    fn check_total(&self, start: usize, end: usize, code: u32) -> Result<(), Failing>
        requires { Totalled self.now.freqs.now start end code }
        ensures { verdict_of result ≡ total_verdict self.now.quality self.now.freqs.now start end code }
    {
        let Ok(total) = counts::number_of_total(code) else {
            unreachable!()
        };
        let compared = Compared {
            quality: self.quality,
            count: count_of(&self.freqs[start..end]),
            x: u64::from(total),
            w: 1,
        };
        if !compared.is_near() {
            return Err(Failing {
                start: start as u32,
                end: end as u32,
                sort: Sort::Bucket,
            });
        }
        Ok(())
    }

    // The bucketlets of bucket b in order, then its total.
    fn check_bucket(&self, b: usize) -> Result<(), Failing>
        requires { b < buckets self.now.words.now }
        ensures { verdict_of result ≡ bucket_verdict self.now.quality self.now.freqs.now self.now.words.now b }
    {
        let bucket = words::bucket_at(self.words, b);
        let start = bucket.start as usize;
        let mut at = start;
        for (width, class) in bucket.widths.iter().zip(&bucket.classes) {
            self.check_bucketlet(at, *width as usize, *class)?;
            at += *width as usize;
        }
        self.check_total(start, at, bucket.total)
    }

    // All buckets in order.
    pub(crate) fn check(&self) -> Result<(), Failing>
        ensures { verdict_of result ≡ buckets_verdict self.now.quality self.now.freqs.now self.now.words.now }
    {
        let buckets = words::bucket_count(self.words) as usize;
        // Buckets are packed words, and are asked for by number.
        for b in 0..buckets {
            self.check_bucket(b)?;
        }
        Ok(())
    }
}
