// What fails first inside a bucketlet.

ghost use Rattle.std.specs.Prelude.{◌≡◌, ◌≤◌, length};
ghost use Rattle.laws.specs.Sums.{sum};
ghost use Rattle.counts_rules.specs.Limit.{limit};
ghost use Rattle.list_rules.specs.Limits.{max_entries};
ghost use Rattle.fit.specs.Fit.{near, fits};
ghost use Rattle.check_rules.specs.Failing.{count_good, sort_of, bucketlet_verdict};
ghost use Rattle.checker.specs.Private.Searching.{Comparable, Searchable, FirstStart, fails, verdict_of};

use check_rules::{Failing, Sort};
use list_rules::Quality;

// The true count of a part of the list.
pub(crate) fn count_of(part: &[u32]) -> u64
    requires { length part.now ≤ max_entries }
    ensures { result ≡ sum part.now }
{
    part.iter().map(|frequency| u64::from(*frequency)).sum()
}

/// A true count and an estimate, x / w, to be held against each other.
#[derive(Clone, Copy, Debug, PartialEq, Eq)]
pub(crate) struct Compared {
    pub quality: Quality,
    pub count: u64,
    pub x: u64,
    pub w: u64,
    ghost comparable: { Comparable quality count x w },
}

impl Compared {
    // Whether neither is more than q times the other.
    pub(crate) fn is_near(self) -> bool
        ensures { result ≡ near self.quality self.count self.x self.w }
    {
        let q = self.quality;
        let scaled = self.count * self.w;
        if q.qn * self.x < q.qd * scaled {
            return false;
        }
        q.qd * self.x <= q.qn * scaled
    }

    // Whether both are at most theta, or they are near.
    fn does_fit(self) -> bool
        ensures { result ≡ fits self.quality self.count self.x self.w }
    {
        let theta = self.quality.theta;
        if self.count <= theta && self.x <= theta * self.w {
            return true;
        }
        self.is_near()
    }
}

/// A bucketlet inside the list, with the number that stands for each of its entries.
#[derive(Clone, Copy, Debug)]
pub(crate) struct Bucketlet<'a> {
    pub freqs: &'a [u32],
    pub quality: Quality,
    pub start: usize,
    pub width: usize,
    pub number: u64,
    ghost searchable: { Searchable freqs.now quality start width number },
}

impl Bucketlet<'_> {
    // Whether a range of n entries is good: it fits, or it is the whole bucketlet and meets the second half.
    fn is_good(&self, count: u64, n: usize) -> bool
        requires { (count ≤ limit) × (n ≤ self.now.width) }
        ensures { result ≡ count_good self.now.quality count n self.now.number self.now.width }
    {
        let compared = Compared {
            quality: self.quality,
            count,
            x: n as u64 * self.number,
            w: self.width as u64,
        };
        if n != self.width {
            return compared.does_fit();
        }
        compared.is_near()
    }

    fn sort_of(&self, n: usize) -> Sort
        ensures { result ≡ sort_of n self.now.width }
    {
        if n == self.width {
            Sort::Bucketlet
        } else {
            Sort::Part
        }
    }

    // The first start of a failing range; the width if none fails. If the whole fails, this is the first start of all; else the whole is near, and another
    // range fails exactly if it does not fit. One entry has no other range.
    fn first_start(&self) -> usize
        ensures { FirstStart self.now.width (fails self.now.quality self.now.freqs.now self.now.start self.now.width self.now.number) 0 result }
    {
        let count = count_of(&self.freqs[self.start..self.start + self.width]);
        if !self.is_good(count, self.width) {
            return 0;
        }
        if self.width < 2 {
            return self.width;
        }
        self.first_unfit(count)
    }

    // The first failing range, by start and then by end. The loops are left by a label (docs/DECISIONS.md, "How each place is written").
    pub(crate) fn check(&self) -> Result<(), Failing>
        ensures { verdict_of result ≡ bucketlet_verdict self.now.quality self.now.freqs.now self.now.start self.now.width self.now.number }
    {
        let end = self.start + self.width;
        'search: {
            // By number: it is where a part of the list begins, and the answer names it.
            for start in self.first_start()..self.width {
                let mut count: u64 = 0;
                for (i, frequency) in self.freqs[self.start + start..end].iter().enumerate() {
                    count += u64::from(*frequency);
                    let n = i + 1;
                    if !self.is_good(count, n) {
                        break 'search Err(Failing {
                            start: (self.start + start) as u32,
                            end: (self.start + start + n) as u32,
                            sort: self.sort_of(n),
                        });
                    }
                }
            }
            Ok(())
        }
    }
}
