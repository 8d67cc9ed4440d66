// Lists and words that the checker is given: accepted, refused, or the first that fails.

use super::lists::{TENS, TENS_WORDS, ZEROS_WORDS, with, zeros_under};
use super::report::{fault, report};
use check_rules::{Failing, Sort, Verdict};
use refusals::Refusal;
use std::io::Stdout;

fn fails(sort: Sort, start: u32, end: u32) -> Result<Verdict, Refusal> {
    Ok(Verdict::Fails(Failing { start, end, sort }))
}

// The number of the sort of what fails, its start and its end; 0 where nothing does.
fn failing(answer: Result<Verdict, Refusal>) -> [u32; 3] {
    match answer {
        Ok(Verdict::Fails(failing)) => [failing.sort.number(), failing.start, failing.end],
        _ => [0; 3],
    }
}

pub(crate) fn check(
    out: &Stdout,
    what: &str,
    freqs: &[u32],
    words: &[u32],
    expected: Result<Verdict, Refusal>,
) {
    let got = checker::check(freqs, words);
    report(out, what, fault(expected), fault(got));
    let [sort, start, end] = failing(expected);
    let [got_sort, got_start, got_end] = failing(got);
    report(out, "  sort", sort, got_sort);
    report(out, "  start", start, got_start);
    report(out, "  end", end, got_end)
}

// The list and the words of each case, and what comes.
fn check_all(out: &Stdout, cases: &[(&str, &[u32], &[u32], Result<Verdict, Refusal>)]) {
    for &(what, freqs, words, expected) in cases {
        check(out, what, freqs, words, expected);
    }
}

fn checks(out: &Stdout) {
    check_all(
        out,
        &[
            ("four tens", &TENS, &TENS_WORDS, Ok(Verdict::Accepted)),
            (
                "10, 10, 10, 100",
                &[10, 10, 10, 100],
                &TENS_WORDS,
                fails(Sort::Bucketlet, 0, 4),
            ),
            (
                "a total that is far off",
                &TENS,
                &with(TENS_WORDS, 6, 0x80000FE0),
                fails(Sort::Bucket, 0, 4),
            ),
        ],
    )
}

// Words that no longer occur: class 0 stands for them alone.
fn zeros(out: &Stdout) {
    check_all(
        out,
        &[
            ("three zeros", &[0; 3], &ZEROS_WORDS, Ok(Verdict::Accepted)),
            (
                "and one of them found again",
                &[0, 1, 0],
                &ZEROS_WORDS,
                fails(Sort::Bucketlet, 0, 3),
            ),
            (
                "three zeros with the total 1",
                &[0; 3],
                &with(ZEROS_WORDS, 6, 0x80000020),
                fails(Sort::Bucket, 0, 3),
            ),
            (
                "four tens as class 0",
                &TENS,
                &with(TENS_WORDS, 5, 0x80000000),
                fails(Sort::Part, 0, 1),
            ),
            (
                "0, 5, 7 as class 0, with theta 10",
                &[0, 5, 7],
                &zeros_under(10, 0x80000180),
                fails(Sort::Bucketlet, 0, 3),
            ),
        ],
    )
}

// The list is looked at first, then the words, and last whether their numbers of entries agree.
fn refusals(out: &Stdout) {
    check_all(
        out,
        &[
            ("no entry", &[], &TENS_WORDS, Err(Refusal::ListLength)),
            (
                "five entries for four",
                &[10; 5],
                &TENS_WORDS,
                Err(Refusal::OtherList),
            ),
            (
                "five entries, and class 63",
                &[10; 5],
                &with(TENS_WORDS, 5, 0xBF000000),
                Err(Refusal::Code),
            ),
            (
                "q 8/1",
                &TENS,
                &with(TENS_WORDS, 2, 8 * 1024 + 1),
                Ok(Verdict::Accepted),
            ),
            (
                "q 9/1, and five entries",
                &[10; 5],
                &with(TENS_WORDS, 2, 9 * 1024 + 1),
                Err(Refusal::LargeQ),
            ),
            (
                "a large sum, and q 124/100",
                &[1073741823, 1],
                &with(TENS_WORDS, 2, 124 * 1024 + 100),
                Err(Refusal::Sum),
            ),
            (
                "a large sum, and q 9/1",
                &[1073741823, 1],
                &with(TENS_WORDS, 2, 9 * 1024 + 1),
                Err(Refusal::Sum),
            ),
        ],
    )
}

pub(crate) fn run(out: &Stdout) {
    checks(out);
    zeros(out);
    refusals(out)
}
