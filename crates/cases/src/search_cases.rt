// Searches of several ranges, nearly all in four tens.

use super::lists::{TENS_WORDS, TWO_WORDS, with};
use super::report::report_reply;
use refusals::Refusal;
use std::io::Stdout;

fn search(out: &Stdout, cases: &[(&str, &[u32], &[u32], Result<u64, Refusal>)]) {
    for &(what, words, ranges, expected) in cases {
        let got = estimator::estimate_search(words, ranges);
        report_reply(out, what, "  estimate", expected, got);
    }
}

fn ask(out: &Stdout, cases: &[(&str, &[u32], Result<u64, Refusal>)]) {
    for &(what, ranges, expected) in cases {
        search(out, &[(what, &TENS_WORDS, ranges, expected)]);
    }
}

// As the single call answers.
fn one_range(out: &Stdout) {
    ask(
        out,
        &[
            ("a search of 1 to 3", &[1, 3], Ok(17)),
            ("0 to 4", &[0, 4], Ok(40)),
            ("2 to 2", &[2, 2], Ok(0)),
        ],
    )
}

fn several(out: &Stdout) {
    ask(
        out,
        &[
            ("0 to 2 and 2 to 4", &[0, 2, 2, 4], Ok(34)),
            (
                "0 to 1, 1 to 2 and 3 to 4, each 17/2 rounded up",
                &[0, 1, 1, 2, 3, 4],
                Ok(27),
            ),
            (
                "three empty ranges and one that isn't",
                &[0, 0, 0, 3, 3, 3, 4, 4],
                Ok(26),
            ),
        ],
    )
}

// 14 is said of each range, and first.
fn outside(out: &Stdout) {
    ask(
        out,
        &[
            ("0 to 5 and a word", &[0, 5, 7], Err(Refusal::Range)),
            ("3 to 2 and 2 to 4", &[3, 2, 2, 4], Err(Refusal::Range)),
            (
                "0 to 3, 2 to 5 and a word",
                &[0, 3, 2, 5, 7],
                Err(Refusal::Range),
            ),
        ],
    )
}

fn numbers(out: &Stdout) {
    ask(
        out,
        &[
            ("no range", &[], Err(Refusal::RangeCount)),
            ("a word", &[5], Err(Refusal::RangeCount)),
            (
                "0 to 3, 2 to 4 and a word",
                &[0, 3, 2, 4, 7],
                Err(Refusal::RangeCount),
            ),
        ],
    )
}

fn orders(out: &Stdout) {
    ask(
        out,
        &[
            ("0 to 3 and 2 to 4", &[0, 3, 2, 4], Err(Refusal::RangeOrder)),
            ("3 to 3 and 2 to 4", &[3, 3, 2, 4], Err(Refusal::RangeOrder)),
            ("0 to 4 and 2 to 2", &[0, 4, 2, 2], Err(Refusal::RangeOrder)),
            (
                "0 to 1, 2 to 4 and 3 to 4",
                &[0, 1, 2, 4, 3, 4],
                Err(Refusal::RangeOrder),
            ),
        ],
    )
}

// 0 to 4, and then empty ranges.
fn sixteen_ranges() -> [u32; 32] {
    let mut ranges = [4u32; 32];
    ranges[0] = 0;
    ranges
}

// Empty ranges, and 4 to 5 at last.
fn broken_last() -> [u32; 34] {
    let mut ranges = [4u32; 34];
    ranges[33] = 5;
    ranges
}

fn sixteen(out: &Stdout) {
    ask(
        out,
        &[
            ("sixteen ranges", &sixteen_ranges(), Ok(40)),
            (
                "sixteen ranges and a word",
                &[4; 33],
                Err(Refusal::RangeCount),
            ),
            ("seventeen ranges", &[4; 34], Err(Refusal::RangeCount)),
            (
                "seventeen ranges, the last from 4 to 5",
                &broken_last(),
                Err(Refusal::Range),
            ),
        ],
    )
}

// The words are looked at first.
fn words_first(out: &Stdout) {
    search(
        out,
        &[
            ("no word and no range", &[], &[], Err(Refusal::Head)),
            (
                "q 9/1 and no range",
                &with(TENS_WORDS, 2, 9 * 1024 + 1),
                &[],
                Err(Refusal::LargeQ),
            ),
            (
                "class 63 and no range",
                &with(TENS_WORDS, 5, 0xBF000000),
                &[],
                Err(Refusal::Code),
            ),
        ],
    )
}

fn two_buckets(out: &Stdout) {
    search(
        out,
        &[(
            "2 to 4, 4 to 7 and 7 to 10 of two buckets",
            &TWO_WORDS,
            &[2, 4, 4, 7, 7, 10],
            Ok(33),
        )],
    )
}

pub(crate) fn run(out: &Stdout) {
    one_range(out);
    several(out);
    outside(out);
    numbers(out);
    orders(out);
    sixteen(out);
    words_first(out);
    two_buckets(out)
}
