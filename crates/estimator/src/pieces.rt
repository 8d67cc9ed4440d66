// What the buckets and bucketlets that a range meets give to its estimate.

ghost use Rattle.std.specs.Prelude.{◌≡◌, true, ◌+◌, ◌^◌, ◌≤◌, ◌<◌};
ghost use Rattle.counts_rules.specs.Form.{base, used_class};
ghost use Rattle.counts_rules.specs.Class.{class_number};
ghost use Rattle.counts_rules.specs.Total.{total_number, valid_code};
ghost use Rattle.words_rules.specs.Words.{buckets};
ghost use Rattle.words_rules.specs.Decoded.{bucket_at};
ghost use Rattle.estimate_rules.specs.Fraction.{plus, sum_of};
ghost use Rattle.estimate_rules.specs.Exact.{piece, bucketlet_piece, total_at, bucket_piece, exact};
ghost use Rattle.estimator.specs.Private.Adding.{Addable};

use super::question::Question;
use super::ranges::Range;
use super::sum::Sum;
use estimate_rules::Fraction;
use words_reading::Histogram;

fn class_number(class: u32) -> u64
    requires { used_class class ≡ true }
    ensures { result ≡ class_number base class }
{
    let Ok(number) = counts::number_of_class(class) else {
        unreachable!()
    };
    u64::from(number)
}

fn total_number(code: u32) -> u64
    requires { valid_code code ≡ true }
    ensures { result ≡ total_number code }
{
    u64::from(counts::number_of_total(code).unwrap())
}

// What a bucketlet at a, of width w, that stands for s gives.
#[tactic(auto, using(estimate_rules::proofs::ExactLaws::piece_none, estimate_rules::proofs::ExactLaws::piece_whole, estimate_rules::proofs::ExactLaws::piece_cut))]
fn piece_of(range: Range, a: u32, w: u32, s: u64) -> Fraction
    requires { (a + w < 2 ^ 32) × (s ≤ 2 ^ 31) }
    ensures { result ≡ piece range.x range.y a w s }
{
    let span = Range { x: a, y: a + w };
    let n = range.overlap(span);
    if n == 0 {
        return Fraction::whole(0);
    }
    if range.holds(span) {
        return Fraction::whole(s);
    }
    Fraction {
        whole: 0,
        top: u64::from(n) * s,
        bottom: u64::from(w),
    }
}

// A sum and what a bucketlet at a, of width w and of a class, adds to it: nothing if the range holds no entry of it.
#[tactic(auto, using(estimate_rules::proofs::ExactLaws::piece_none, estimate_rules::proofs::FractionLaws::plus_nothing, counts_rules::proofs::BaseLaws::number_small))]
fn with_piece(sum: Sum, range: Range, a: u32, w: u32, class: u32) -> Sum
    requires { Addable sum.fraction range.x range.y a w class }
    ensures { result.fraction ≡ plus sum.fraction (piece range.x range.y a w (class_number base class)) }
{
    if range.overlap(Range { x: a, y: a + w }) == 0 {
        return sum;
    }
    sum.plus(piece_of(range, a, w, class_number(class)))
}

// The number that the total of bucket b stands for.
pub(crate) fn bucket_total(histogram: Histogram, b: usize) -> u64
    requires { b < buckets histogram.words.now }
    ensures { result ≡ total_at histogram.entry.words.now b }
{
    total_number(words::total_at(histogram.words, b))
}

// What the bucketlets of bucket b give.
fn bucketlets_piece(histogram: Histogram, range: Range, b: usize) -> Fraction
    requires { b < buckets histogram.words.now }
    ensures { result ≡ sum_of 8 (bucketlet_piece range.x range.y (bucket_at histogram.entry.words.now b)) }
{
    let bucket = words::bucket_at(histogram.words, b);
    let mut sum = Sum::nothing();
    let mut a = bucket.start;
    for (w, class) in bucket.widths.iter().zip(&bucket.classes) {
        sum = with_piece(sum, range, a, *w, *class);
        a += *w;
    }
    sum.fraction
}

// What bucket b gives: its total if the range holds it, else what its bucketlets give.
#[tactic(auto, using(estimate_rules::proofs::ExactLaws::bucket_whole, estimate_rules::proofs::ExactLaws::bucket_parts))]
pub(crate) fn bucket_piece(histogram: Histogram, range: Range, b: usize) -> Fraction
    requires { b < buckets histogram.words.now }
    ensures { result ≡ bucket_piece histogram.entry.words.now range.x range.y b }
{
    let bucket = Range {
        x: words::start_at(histogram.words, b),
        y: words::end_at(histogram.words, b),
    };
    if range.holds(bucket) {
        return Fraction::whole(bucket_total(histogram, b));
    }
    bucketlets_piece(histogram, range, b)
}

// The sum that estimates a range that isn't empty, not yet rounded: the buckets before that of its first entry give nothing, nor do those after that
// of its last.
pub(crate) fn exact_of(asked: Question) -> Sum
    requires { asked.range.x < asked.range.y }
    ensures { result.fraction ≡ exact asked.entry.histogram.words.now asked.entry.range.x asked.entry.range.y }
{
    let first = finder::bucket_of(asked.histogram.words, asked.range.x);
    let last = finder::bucket_of(asked.histogram.words, asked.range.y - 1);
    let mut sum = Sum::nothing();
    // Buckets are packed words, and are asked for by number.
    for b in first..=last {
        sum = sum.plus(bucket_piece(asked.histogram, asked.range, b));
    }
    sum
}
