// The estimator: from a histogram and a range, the estimated count; from a histogram and a search of several ranges, the sum of theirs; and from a
// histogram, its running totals and a worksheet of ranges, those of all its ranges.

// `as` stands where the library has no `From`, between usize and sized numbers, and where a number is proved to fit: `try_from` adds an error that never comes.

#![tactic(auto)]

mod pieces;
mod question;
mod ranges;
mod running;
mod search;
mod sum;
mod worksheet;

ghost use Rattle.std.specs.Prelude.{◌≡◌, length};
ghost use Rattle.refusals.specs.Answers.{fault_of, reply_of};
ghost use Rattle.estimate_rules.specs.Asking.{ask_fault, estimate_reply};
ghost use Rattle.estimate_rules.specs.Search.{search_reply};
ghost use Rattle.estimate_rules.specs.Running.{fill_reply, totals_filled};
ghost use Rattle.estimate_rules.specs.Worksheet.{worksheet_reply, worksheet_answered};

use question::Question;
use refusals::Refusal;
use running::{put_totals, read_with_places};
use search::Search;
use worksheet::Worksheet;

// 7, 24, 8 to 12 and 14: the first of these sentences that is true of a list and a range.
pub fn ask_fault(words: &[u32], x: u32, y: u32) -> Result<(), Refusal>
    ensures { fault_of result ≡ ask_fault words.now x y }
{
    Question::read(words, x, y)?;
    Ok(())
}

// The estimate of the range from x to y, 0 if it is empty.
#[tactic(auto, using(estimate_rules::proofs::AskingLaws::asked_refused, estimate_rules::proofs::AskingLaws::asked_answered, refusals::proofs::NumberLaws::numbered))]
pub fn estimate(words: &[u32], x: u32, y: u32) -> Result<u64, Refusal>
    ensures { reply_of result ≡ estimate_reply words.now x y }
{
    Ok(Question::read(words, x, y)?.estimate())
}

// The sum of the estimates of one to sixteen ranges, two words a range. The histogram is tested once. Refused with 7, 24, 8 to 12, 14, 22 or 23.
#[tactic(auto, using(estimate_rules::proofs::SearchLaws::search_refused, estimate_rules::proofs::SearchLaws::search_answered, refusals::proofs::NumberLaws::numbered))]
pub fn estimate_search(words: &[u32], ranges: &[u32]) -> Result<u64, Refusal>
    ensures { reply_of result ≡ search_reply words.now ranges.now }
{
    Ok(Search::read(words, ranges)?.estimate())
}

// Writes the running totals into the first places that are lent, and answers how many they are. Refused with 7, 24, 8 to 12 or 19, it writes nothing.
#[tactic(auto, using(estimate_rules::proofs::WorksheetLaws::fill_refused, estimate_rules::proofs::WorksheetLaws::fill_answered, estimate_rules::proofs::WorksheetLaws::fill_room, crate::proofs::LentLaws::totals_kept, crate::proofs::LentLaws::totals_put, refusals::proofs::NumberLaws::numbered))]
pub fn fill_totals(words: &[u32], out: &mut [u64]) -> Result<usize, Refusal>
    ensures reply { reply_of result ≡ fill_reply words.now (length out.old) }
    ensures out_after { out.new ≡ totals_filled words.now out.old }
{
    let histogram = read_with_places(words, out.len())?;
    Ok(put_totals(histogram, out))
}

// Writes the estimates of a worksheet's ranges, two words a range, into the first places that are lent, and answers how many they are. The histogram and
// the running totals are tested once. Refused with 7, 24, 8 to 12, 19, 20 or 21, it writes nothing.
#[tactic(auto, using(estimate_rules::proofs::WorksheetLaws::sheet_refused, estimate_rules::proofs::WorksheetLaws::sheet_answered, estimate_rules::proofs::WorksheetLaws::sheet_room, crate::proofs::LentLaws::answers_kept, crate::proofs::LentLaws::answers_put, refusals::proofs::NumberLaws::numbered))]
pub fn answer_worksheet(
    words: &[u32],
    totals: &[u64],
    sheet: &[u32],
    out: &mut [u64],
) -> Result<usize, Refusal>
    ensures reply { reply_of result ≡ worksheet_reply words.now totals.now sheet.now (length out.old) }
    ensures out_after { out.new ≡ worksheet_answered words.now totals.now sheet.now out.old }
{
    let sheet = Worksheet::read(words, totals, sheet, out.len())?;
    Ok(sheet.put_answers(out))
}
