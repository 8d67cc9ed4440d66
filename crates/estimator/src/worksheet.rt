// A worksheet of ranges. Each costs two searches by halving and its two cut buckets; for the buckets between them there are the running totals.

ghost use Rattle.std.specs.Prelude.{◌≡◌, false, ◌<◌};
ghost use Rattle.estimate_rules.specs.Exact.{exact};
ghost use Rattle.estimate_rules.specs.Asking.{estimate};
ghost use Rattle.estimate_rules.specs.Ranges.{some_refused};
ghost use Rattle.estimate_rules.specs.Worksheet.{short_fault, ranges_fault};
ghost use Rattle.estimator.specs.Private.Sheets.{WithTotals};

use super::pieces::bucket_piece;
use super::question::Question;
use super::ranges::Ranges;
use super::running;
use super::sum::Sum;
use estimate_rules::Fraction;
use refusals::Refusal;
use words_reading::Histogram;

// 21: whether a word is left over, or 14 would refuse one of the ranges.
#[tactic(auto, unfolding(estimate_rules::specs::Worksheet::ranges_fault))]
fn ranges_fault(words: &[u32], sheet: Ranges) -> bool
    ensures { result ≡ ranges_fault words.now sheet.entry.words.now }
{
    sheet.has_left_over() || sheet.some_refused(words)
}

// 19: whether there are too few running totals, or places for the answers.
#[tactic(auto, unfolding(estimate_rules::specs::Worksheet::short_fault))]
fn short_fault(words: &[u32], totals: &[u64], sheet: Ranges, lent: usize) -> bool
    ensures { result ≡ short_fault words.now totals.now sheet.entry.words.now lent }
{
    running::is_short(words, totals.len()) || lent < sheet.count()
}

// The sum that estimates a range that isn't empty, not yet rounded: what the buckets of its two ends give, and the totals of those between.
fn exact_by(asked: Question, totals: &[u64]) -> Sum
    requires { WithTotals asked.histogram.words.now totals.now × (asked.range.x < asked.range.y) }
    ensures { result.fraction ≡ exact asked.entry.histogram.words.now asked.entry.range.x asked.entry.range.y }
{
    let first = finder::bucket_of(asked.histogram.words, asked.range.x);
    let last = finder::bucket_of(asked.histogram.words, asked.range.y - 1);
    let sum = Sum {
        fraction: bucket_piece(asked.histogram, asked.range, first),
    };
    if first == last {
        return sum;
    }
    let between = Fraction::whole(totals[last] - totals[first + 1]);
    sum.plus(between)
        .plus(bucket_piece(asked.histogram, asked.range, last))
}

// The estimate, 0 if the range is empty. As Question::estimate, but for what gives the sum: as a closure that would need two `requires`, longer than this.
#[tactic(auto, using(estimate_rules::proofs::Proved::estimate_empty, estimate_rules::proofs::AskingLaws::estimate_some))]
fn estimate_by(asked: Question, totals: &[u64]) -> u64
    requires { WithTotals asked.histogram.words.now totals.now }
    ensures { result ≡ estimate asked.entry.histogram.words.now asked.entry.range.x asked.entry.range.y }
{
    if asked.range.x == asked.range.y {
        return 0;
    }
    exact_by(asked, totals).rounded()
}

// A histogram, its running totals, and ranges within its list.
#[derive(Clone, Copy, Debug)]
pub(crate) struct Worksheet<'a> {
    pub(crate) histogram: Histogram<'a>,
    pub(crate) totals: &'a [u64],
    pub(crate) ranges: Ranges<'a>,
    ghost right: { WithTotals histogram.words.now totals.now },
    ghost in_list: { some_refused histogram.words.now ranges.words.now ≡ false },
}

impl<'a> Worksheet<'a> {
    ghost use Rattle.std.specs.Prelude.{◌++◌, ◌≤◌, length, drop, IfOk};
    ghost use Rattle.refusals.specs.Answers.{fault_of};
    ghost use Rattle.estimate_rules.specs.Ranges.{range_count};
    ghost use Rattle.estimate_rules.specs.Worksheet.{worksheet_fault, worksheet_answers};

    // With so many places lent for the answers. Refused with 7, 24, 8 to 12, 19, 20 or 21.
    #[tactic(auto, using(estimate_rules::proofs::WorksheetLaws::sheet_read, estimate_rules::proofs::WorksheetLaws::sheet_short, estimate_rules::proofs::WorksheetLaws::sheet_totals, estimate_rules::proofs::WorksheetLaws::sheet_ranges, estimate_rules::proofs::WorksheetLaws::sheet_none, estimate_rules::proofs::WorksheetLaws::totals_enough, estimate_rules::proofs::WorksheetLaws::sheet_in_list, refusals::proofs::NumberLaws::numbered))]
    pub(crate) fn read(
        words: &'a [u32],
        totals: &'a [u64],
        sheet: &'a [u32],
        lent: usize,
    ) -> Result<Worksheet<'a>, Refusal>
        ensures fault { fault_of result ≡ worksheet_fault words.now totals.now sheet.now lent }
        ensures parts { IfOk result (λ s. (s.histogram.words.now ≡ words.now) × (s.ranges.words.now ≡ sheet.now)) }
    {
        let histogram = Histogram::read(words)?;
        let ranges = Ranges { words: sheet };
        if short_fault(words, totals, ranges, lent) {
            return Err(Refusal::Places);
        }
        if running::totals_fault(histogram, totals) {
            return Err(Refusal::Totals);
        }
        if ranges_fault(words, ranges) {
            return Err(Refusal::Worksheet);
        }
        Ok(Worksheet {
            histogram,
            totals,
            ranges,
        })
    }

    // Writes the estimates of all ranges into the first places. Answers how many they are.
    pub(crate) fn put_answers(self, out: &mut [u64]) -> usize
        requires { range_count self.ranges.words.now ≤ length out.old }
        ensures value { result ≡ range_count self.entry.ranges.words.now }
        ensures out_after { let s = self.entry in out.new ≡ worksheet_answers s.histogram.words.now s.ranges.words.now ++ drop result out.old }
    {
        let count = self.ranges.count();
        // Ranges are lent as words, two a range, and are asked for by number.
        for i in 0..count {
            let asked = Question {
                histogram: self.histogram,
                range: self.ranges.at(i),
            };
            out[i] = estimate_by(asked, self.totals);
        }
        count
    }
}
