// A bucket from its first entry on.

ghost use Rattle.std.specs.Prelude.{◌≡◌, not, ◌^◌, ◌≤◌, ◌<◌, length, get_or, sum_by};
ghost use Rattle.laws.specs.Sums.{sum};
ghost use Rattle.counts_rules.specs.Limit.{limit};
ghost use Rattle.counts_rules.specs.Form.{base};
ghost use Rattle.counts_rules.specs.Class.{class_of};
ghost use Rattle.counts_rules.specs.Total.{total_code};
ghost use Rattle.words_rules.specs.Limits.{max_width};
ghost use Rattle.build_rules.specs.Bucket.{first_free, limits_of, width_within};
ghost use Rattle.builder.specs.Private.Laying.{placed};

use super::bucketlet::Bucketlet;
use super::input::Input;
use words_rules::Bucket;

// A bucket, and the entry where the next one starts.
#[derive(Clone, Copy, Debug, PartialEq, Eq)]
pub(crate) struct Placed {
    pub bucket: Bucket,
    pub next: usize,
}

// Whether the eighth bucketlet is the free one.
fn is_eighth_free(first: u32) -> bool
    ensures { result ≡ not (first_free first) }
{
    first <= 511
}

// The limit of the width of bucketlet k, where the first has the width given.
fn width_limit(k: usize, first: u32) -> usize
    requires { k < 8 }
    ensures { result ≡ get_or (limits_of first) k 0 }
{
    match k {
        0 => 4095,
        7 if is_eighth_free(first) => 4095,
        _ => 511,
    }
}

// The true count of a bucketlet's entries. That it fits is said in std's words, as `sum` asks it.
#[tactic(auto, using(laws::proofs::SumsLaws::sum_is_by))]
fn count_of(entries: &[u32]) -> u32
    requires { sum_by (λ n. n) entries.now < 2 ^ 32 }
    ensures { result ≡ sum entries.now }
{
    entries.iter().sum()
}

// The class of a bucketlet by its count, which is 0 if it is empty.
fn class_for(count: u32) -> u32
    requires { count ≤ limit }
    ensures { result ≡ class_of base count }
{
    counts::class_of(count).unwrap()
}

fn code_for(total: u32) -> u32
    requires { total ≤ limit }
    ensures { result ≡ total_code total }
{
    counts::code_of_total(total).unwrap()
}

impl Input<'_> {
    // The width at entry a, which stops at the end of the list.
    fn width_within(&self, a: usize, most: usize) -> usize
        requires { (a ≤ length self.now.freqs.now) × (most ≤ max_width) }
        ensures { result ≡ width_within self.now.q self.now.freqs.now (length self.now.freqs.now) a most }
    {
        let left = self.freqs.len() - a;
        let bucketlet = Bucketlet {
            freqs: self.freqs,
            first: a,
            most: most.min(left),
            q: self.q,
        };
        bucketlet.grow()
    }

    // The bucket at entry a.
    pub(crate) fn bucket_from(&self, a: usize) -> Placed
        requires { a < length self.now.freqs.now }
        ensures { result ≡ placed self.now.q self.now.freqs.now (length self.now.freqs.now) a }
    {
        let mut widths = [0u32; 8];
        let mut classes = [0u32; 8];
        let mut total: u32 = 0;
        let mut at = a;
        // By number: the limit of a width goes by it, and two arrays are filled.
        for k in 0..8usize {
            let most = width_limit(k, widths[0]);
            let w = self.width_within(at, most);
            let count = count_of(&self.freqs[at..at + w]);
            widths[k] = w as u32;
            classes[k] = class_for(count);
            total += count;
            at += w;
        }
        let first = widths[0];
        Placed {
            bucket: Bucket {
                widths,
                classes,
                start: a as u32,
                flag: is_eighth_free(first),
                total: code_for(total),
            },
            next: at,
        }
    }
}
