// A range that is asked for.

ghost use Rattle.std.specs.Prelude.{◌≤◌};
ghost use Rattle.words_rules.specs.Words.{entries};

use super::pieces::exact_of;
use super::ranges::Range;
use refusals::Refusal;
use words_reading::Histogram;

// A histogram and a range within its list.
#[derive(Clone, Copy, Debug)]
pub(crate) struct Question<'a> {
    pub(crate) histogram: Histogram<'a>,
    pub(crate) range: Range,
    ghost ordered: { range.x ≤ range.y },
    ghost within: { range.y ≤ entries histogram.words.now },
}

impl<'a> Question<'a> {
    ghost use Rattle.std.specs.Prelude.{◌≡◌, IfOk};
    ghost use Rattle.refusals.specs.Answers.{fault_of};
    ghost use Rattle.estimate_rules.specs.Asking.{ask_fault, estimate};

    // Refused with 7, 24, 8 to 12 or 14.
    #[tactic(auto, using(estimate_rules::proofs::AskingLaws::list_first, estimate_rules::proofs::AskingLaws::range_refused, estimate_rules::proofs::AskingLaws::range_passed, estimate_rules::proofs::AskingLaws::range_says, refusals::proofs::NumberLaws::numbered))]
    pub(crate) fn read(words: &'a [u32], x: u32, y: u32) -> Result<Question<'a>, Refusal>
        ensures fault { fault_of result ≡ ask_fault words.now x y }
        ensures parts { IfOk result (λ q. (q.histogram.words.now ≡ words.now) × (q.range.x ≡ x) × (q.range.y ≡ y)) }
    {
        let histogram = Histogram::read(words)?;
        let range = Range { x, y };
        if range.is_fault(words) {
            return Err(Refusal::Range);
        }
        Ok(Question { histogram, range })
    }

    // The estimate, 0 if the range is empty.
    #[tactic(auto, using(estimate_rules::proofs::Proved::estimate_empty, estimate_rules::proofs::AskingLaws::estimate_some))]
    pub(crate) fn estimate(self) -> u64
        ensures { result ≡ estimate self.entry.histogram.words.now self.entry.range.x self.entry.range.y }
    {
        if self.range.x == self.range.y {
            return 0;
        }
        exact_of(self).rounded()
    }
}
