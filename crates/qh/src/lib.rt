// The calls for programs in C and Rust, under their plain names: a list goes in as pointer and length, an answer comes out as a struct by value.
// Where a call is refused, all of its answer but the refusal's number is 0.

#![tactic(auto)]

ghost use Rattle.std.specs.Prelude.{◌≡◌, length};
ghost use Rattle.counts.specs.Reply.{class_reply, class_meaning, total_reply, total_meaning};
ghost use Rattle.words_rules.specs.Finding.{find_reply};
ghost use Rattle.build_rules.specs.Building.{build_reply, written};
ghost use Rattle.check_rules.specs.Checking.{check_reply};
ghost use Rattle.estimate_rules.specs.Asking.{estimate_reply};
ghost use Rattle.estimate_rules.specs.Search.{search_reply};
ghost use Rattle.estimate_rules.specs.Running.{fill_reply, totals_filled};
ghost use Rattle.estimate_rules.specs.Worksheet.{worksheet_reply, worksheet_answered};
ghost use Rattle.journal_rules.specs.Replaying.{replay_reply, replayed};
ghost use Rattle.sheet_rules.specs.Sheet.{sheet, filled};
ghost use Rattle.qh.specs.Results.{PartsOf, coded_out, built_out, estimate_out, filled_out, answered_out, found_out, replayed_out, verdict_struct};

use check_rules::Verdict;
use refusals::Refusal;
use sheet_rules::SHEET_BYTES;

// The structs stay apart though seven hold the same: an exported function takes no struct with type parameters, and each has the names of the header.

#[repr(C)]
#[derive(Clone, Copy, Debug, PartialEq, Eq)]
pub struct QhCoded {
    pub refusal: u32,
    pub value: u32,
}

#[repr(C)]
#[derive(Clone, Copy, Debug, PartialEq, Eq)]
pub struct QhBuilt {
    pub refusal: u32,
    pub words: usize,
}

// accepted is 1 or 0; sort is that of what fails first, 1 for a bucketlet, 2 for a part of one, 3 for a bucket.
#[repr(C)]
#[derive(Clone, Copy, Debug, Default, PartialEq, Eq)]
pub struct QhVerdict {
    pub refusal: u32,
    pub accepted: u32,
    pub sort: u32,
    pub start: u32,
    pub end: u32,
}

#[repr(C)]
#[derive(Clone, Copy, Debug, PartialEq, Eq)]
pub struct QhEstimate {
    pub refusal: u32,
    pub estimate: u64,
}

#[repr(C)]
#[derive(Clone, Copy, Debug, PartialEq, Eq)]
pub struct QhFilled {
    pub refusal: u32,
    pub places: usize,
}

#[repr(C)]
#[derive(Clone, Copy, Debug, PartialEq, Eq)]
pub struct QhAnswered {
    pub refusal: u32,
    pub answers: usize,
}

#[repr(C)]
#[derive(Clone, Copy, Debug, PartialEq, Eq)]
pub struct QhFound {
    pub refusal: u32,
    pub at: usize,
}

#[repr(C)]
#[derive(Clone, Copy, Debug, PartialEq, Eq)]
pub struct QhReplayed {
    pub refusal: u32,
    pub sum: u32,
}

// The number of a refusal, or 0, and what is answered, or 0 beside a refusal.
fn parts<T: Default>(answer: Result<T, Refusal>) -> (u32, T)
    ensures { PartsOf answer T.is_default result }
{
    match answer {
        Ok(value) => (0, value),
        Err(refusal) => (refusal.number(), T::default()),
    }
}

// The class of a count, or 16.
#[unsafe(no_mangle)]
pub extern "C" fn qh_class_of(count: u32) -> QhCoded
    ensures { coded_out result ≡ class_reply count }
{
    let (refusal, value) = parts(counts::class_of(count));
    QhCoded { refusal, value }
}

// The number that a class stands for, or 17.
#[unsafe(no_mangle)]
pub extern "C" fn qh_number_of_class(class: u32) -> QhCoded
    ensures { coded_out result ≡ class_meaning class }
{
    let (refusal, value) = parts(counts::number_of_class(class));
    QhCoded { refusal, value }
}

// The code of a total, or 16.
#[unsafe(no_mangle)]
pub extern "C" fn qh_code_of_total(total: u32) -> QhCoded
    ensures { coded_out result ≡ total_reply total }
{
    let (refusal, value) = parts(counts::code_of_total(total));
    QhCoded { refusal, value }
}

// The number that a total code stands for, or 17.
#[unsafe(no_mangle)]
pub extern "C" fn qh_number_of_total(code: u32) -> QhCoded
    ensures { coded_out result ≡ total_meaning code }
{
    let (refusal, value) = parts(counts::number_of_total(code));
    QhCoded { refusal, value }
}

// Writes the histogram into the first words that are lent and answers how many they are; refused with 1, 3, 4, 5, 24 or 6, it writes nothing.
#[unsafe(no_mangle)]
pub extern "C" fn qh_build(freqs: &[u32], theta: u32, qn: u32, qd: u32, out: &mut [u32]) -> QhBuilt
    ensures reply { built_out result ≡ build_reply freqs.now theta qn qd (length out.old) }
    ensures out_after { out.new ≡ written freqs.now theta qn qd out.old }
{
    let (refusal, words) = parts(builder::build(freqs, theta, qn, qd, out));
    QhBuilt { refusal, words }
}

// Whether a histogram is accepted for a list, and else what fails first; refused with 1, 3, 7, 24 or 8 to 13.
#[unsafe(no_mangle)]
pub extern "C" fn qh_check(freqs: &[u32], words: &[u32]) -> QhVerdict
    ensures { result ≡ verdict_struct (check_reply freqs.now words.now) }
{
    match checker::check(freqs, words) {
        Err(refusal) => QhVerdict {
            refusal: refusal.number(),
            ..QhVerdict::default()
        },
        Ok(Verdict::Accepted) => QhVerdict {
            accepted: 1,
            ..QhVerdict::default()
        },
        Ok(Verdict::Fails(failing)) => QhVerdict {
            sort: failing.sort.number(),
            start: failing.start,
            end: failing.end,
            ..QhVerdict::default()
        },
    }
}

// The estimated count of the entries from x up to y, without y; refused with 7, 24, 8 to 12 or 14.
#[unsafe(no_mangle)]
pub extern "C" fn qh_estimate(words: &[u32], x: u32, y: u32) -> QhEstimate
    ensures { estimate_out result ≡ estimate_reply words.now x y }
{
    let (refusal, estimate) = parts(estimator::estimate(words, x, y));
    QhEstimate { refusal, estimate }
}

// The sum of the estimates of one to sixteen ranges, two words a range; refused with 7, 24, 8 to 12, 14, 22 or 23.
#[unsafe(no_mangle)]
pub extern "C" fn qh_estimate_search(words: &[u32], ranges: &[u32]) -> QhEstimate
    ensures { estimate_out result ≡ search_reply words.now ranges.now }
{
    let (refusal, estimate) = parts(estimator::estimate_search(words, ranges));
    QhEstimate { refusal, estimate }
}

// Writes the running totals of a histogram into the first places that are lent and answers how many they are; refused with 7, 24, 8 to 12 or 19, it
// writes nothing.
#[unsafe(no_mangle)]
pub extern "C" fn qh_fill_totals(words: &[u32], out: &mut [u64]) -> QhFilled
    ensures reply { filled_out result ≡ fill_reply words.now (length out.old) }
    ensures out_after { out.new ≡ totals_filled words.now out.old }
{
    let (refusal, places) = parts(estimator::fill_totals(words, out));
    QhFilled { refusal, places }
}

// Writes the estimates of a worksheet's ranges, two words a range, into the first places that are lent and answers how many they are; refused with
// 7, 24, 8 to 12, 19, 20 or 21, it writes nothing.
#[unsafe(no_mangle)]
pub extern "C" fn qh_answer_worksheet(
    words: &[u32],
    totals: &[u64],
    sheet: &[u32],
    out: &mut [u64],
) -> QhAnswered
    ensures reply { answered_out result ≡ worksheet_reply words.now totals.now sheet.now (length out.old) }
    ensures out_after { out.new ≡ worksheet_answered words.now totals.now sheet.now out.old }
{
    let (refusal, answers) = parts(estimator::answer_worksheet(words, totals, sheet, out));
    QhAnswered { refusal, answers }
}

// Where in the list the words of the entry's bucket begin; refused with 7, 24, 8 to 12 or 15.
#[unsafe(no_mangle)]
pub extern "C" fn qh_find(words: &[u32], entry: u32) -> QhFound
    ensures { found_out result ≡ find_reply words.now entry }
{
    let (refusal, at) = parts(finder::find_place(words, entry));
    QhFound { refusal, at }
}

// Replays the lines of a journal, each an entry and a change to its frequency, over a list and answers the sum of the list afterwards; refused with 1,
// 3, 25, 26 or 27, it writes nothing.
#[unsafe(no_mangle)]
pub extern "C" fn qh_replay_journal(
    freqs: &mut [u32],
    entries: &[u32],
    changes: &[i32],
) -> QhReplayed
    ensures reply { replayed_out result ≡ replay_reply freqs.old entries.now changes.now }
    ensures freqs_after { freqs.new ≡ replayed freqs.old entries.now changes.now }
{
    let (refusal, sum) = parts(journal::replay(freqs, entries, changes));
    QhReplayed { refusal, sum }
}

// Fills the first bytes that are lent with what the exam sheet prints for an input and answers how many they are; a refusal is printed too.
#[unsafe(no_mangle)]
pub extern "C" fn qh_sheet(input: &[u8], out: &mut [u8; SHEET_BYTES]) -> usize
    ensures value { result ≡ length (sheet input.now) }
    ensures out_after { out.new ≡ filled out.old (sheet input.now) }
{
    let printed = sheet_text::put_sheet(input, out);
    printed.length
}
