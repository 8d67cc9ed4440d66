// A search of several ranges. Its histogram is read once, and a bucket between the ends of a range is looked at once, since the ranges lie apart.

ghost use Rattle.std.specs.Prelude.{◌≡◌, ◌≤◌, false};
ghost use Rattle.estimate_rules.specs.Ranges.{range_count, some_refused};
ghost use Rattle.estimate_rules.specs.Search.{max_ranges, count_fault, order_fault};

use super::question::Question;
use super::ranges::Ranges;
use refusals::Refusal;
use words_reading::Histogram;

// 22: whether there is no range, more than sixteen, or a word left over.
#[tactic(auto, unfolding(estimate_rules::specs::Search::count_fault))]
fn count_fault(ranges: Ranges) -> bool
    ensures { result ≡ count_fault ranges.entry.words.now }
{
    let count = ranges.count();
    count == 0 || 16 < count || ranges.has_left_over()
}

// 23: whether a range starts before the one ahead of it ends.
fn order_fault(ranges: Ranges) -> bool
    ensures { result ≡ order_fault ranges.entry.words.now }
{
    // Ranges are lent as words, two a range, and are asked for by number.
    for i in 1..ranges.count() {
        if ranges.at(i).x < ranges.at(i - 1).y {
            return true;
        }
    }
    false
}

// A histogram and ranges within its list, few enough for the sum of their estimates.
#[derive(Clone, Copy, Debug)]
pub(crate) struct Search<'a> {
    pub(crate) histogram: Histogram<'a>,
    pub(crate) ranges: Ranges<'a>,
    ghost in_list: { some_refused histogram.words.now ranges.words.now ≡ false },
    ghost few: { range_count ranges.words.now ≤ max_ranges },
}

impl<'a> Search<'a> {
    ghost use Rattle.std.specs.Prelude.{IfOk};
    ghost use Rattle.refusals.specs.Answers.{fault_of};
    ghost use Rattle.estimate_rules.specs.Search.{search_fault, search_estimate};

    // Refused with 7, 24, 8 to 12, 14, 22 or 23.
    #[tactic(auto, using(estimate_rules::proofs::SearchLaws::search_read, estimate_rules::proofs::SearchLaws::search_ranges, estimate_rules::proofs::SearchLaws::search_count, estimate_rules::proofs::SearchLaws::search_order, estimate_rules::proofs::SearchLaws::search_none, estimate_rules::proofs::SearchLaws::most_ranges, refusals::proofs::NumberLaws::numbered))]
    pub(crate) fn read(words: &'a [u32], ranges: &'a [u32]) -> Result<Search<'a>, Refusal>
        ensures fault { fault_of result ≡ search_fault words.now ranges.now }
        ensures parts { IfOk result (λ s. (s.histogram.words.now ≡ words.now) × (s.ranges.words.now ≡ ranges.now)) }
    {
        let histogram = Histogram::read(words)?;
        let ranges = Ranges { words: ranges };
        if ranges.some_refused(words) {
            return Err(Refusal::Range);
        }
        if count_fault(ranges) {
            return Err(Refusal::RangeCount);
        }
        if order_fault(ranges) {
            return Err(Refusal::RangeOrder);
        }
        Ok(Search { histogram, ranges })
    }

    // The sum of the estimates of all ranges.
    pub(crate) fn estimate(self) -> u64
        ensures { result ≡ search_estimate self.entry.histogram.words.now self.entry.ranges.words.now }
    {
        let mut sum: u64 = 0;
        // Ranges are lent as words, two a range, and are asked for by number.
        for i in 0..self.ranges.count() {
            let asked = Question {
                histogram: self.histogram,
                range: self.ranges.at(i),
            };
            let n = asked.estimate();
            sum += n;
        }
        sum
    }
}
