// The running totals of a histogram: written, and compared with those that are lent.

ghost use Rattle.std.specs.Prelude.{◌≡◌, ◌++◌, ◌≤◌, length, drop, IfOk};
ghost use Rattle.refusals.specs.Answers.{fault_of};
ghost use Rattle.estimate_rules.specs.Running.{total_places, running_totals, totals_short, fill_fault};
ghost use Rattle.estimate_rules.specs.Worksheet.{totals_fault};

use super::pieces::bucket_total;
use refusals::Refusal;
use words_reading::Histogram;

// 19: whether so many places are too few for the running totals.
pub(crate) fn is_short(words: &[u32], lent: usize) -> bool
    ensures { result ≡ totals_short words.now lent }
{
    lent < words::bucket_count(words) as usize + 1
}

// The histogram, if so many lent places are enough for its running totals. Refused with 7, 24, 8 to 12 or 19.
#[tactic(auto, using(estimate_rules::proofs::WorksheetLaws::fill_read, estimate_rules::proofs::WorksheetLaws::fill_short, estimate_rules::proofs::WorksheetLaws::fill_none, refusals::proofs::NumberLaws::numbered))]
pub(crate) fn read_with_places(words: &[u32], lent: usize) -> Result<Histogram<'_>, Refusal>
    ensures fault { fault_of result ≡ fill_fault words.now lent }
    ensures words { IfOk result (λ h. h.words.now ≡ words.now) }
{
    let histogram = Histogram::read(words)?;
    if is_short(words, lent) {
        return Err(Refusal::Places);
    }
    Ok(histogram)
}

// Writes the running totals into the first places. Answers how many they are.
pub(crate) fn put_totals(histogram: Histogram, out: &mut [u64]) -> usize
    requires { total_places histogram.words.now ≤ length out.old }
    ensures value { result ≡ total_places histogram.entry.words.now }
    ensures out_after { out.new ≡ running_totals histogram.entry.words.now ++ drop (total_places histogram.entry.words.now) out.old }
{
    let buckets = words::bucket_count(histogram.words) as usize;
    let mut sum: u64 = 0;
    // Buckets are packed words, and are asked for by number.
    for b in 0..buckets {
        out[b] = sum;
        sum += bucket_total(histogram, b);
    }
    out[buckets] = sum;
    buckets + 1
}

// 20: whether one of the places needed does not hold its running total.
#[tactic(auto, using(crate::proofs::SheetLaws::place_right))]
pub(crate) fn totals_fault(histogram: Histogram, totals: &[u64]) -> bool
    requires { total_places histogram.words.now ≤ length totals.now }
    ensures { result ≡ totals_fault histogram.entry.words.now totals.now }
{
    let buckets = words::bucket_count(histogram.words) as usize;
    let mut right: u64 = 0;
    // Buckets are packed words, and are asked for by number.
    for b in 0..buckets {
        if totals[b] != right {
            return true;
        }
        right += bucket_total(histogram, b);
    }
    totals[buckets] != right
}
