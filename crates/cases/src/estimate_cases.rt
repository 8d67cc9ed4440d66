// Ranges that the estimator is asked for, and how far off an estimate may be where the checker accepts the words.

use super::check_cases::check;
use super::lists::{TENS_WORDS, ZEROS_WORDS, with};
use super::report::report_reply;
use check_rules::Verdict;
use refusals::Refusal;
use std::io::Stdout;

fn ask(out: &Stdout, cases: &[(&str, &[u32], u32, u32, Result<u64, Refusal>)]) {
    for &(what, words, x, y, expected) in cases {
        let got = estimator::estimate(words, x, y);
        report_reply(out, what, "  estimate", expected, got);
    }
}

fn estimates(out: &Stdout) {
    ask(
        out,
        &[
            ("1 to 3", &TENS_WORDS, 1, 3, Ok(17)),
            ("0 to 3", &TENS_WORDS, 0, 3, Ok(26)),
            ("0 to 4", &TENS_WORDS, 0, 4, Ok(40)),
            ("2 to 2", &TENS_WORDS, 2, 2, Ok(0)),
            ("4 to 4", &TENS_WORDS, 4, 4, Ok(0)),
        ],
    )
}

// Of words that no longer occur the estimate is 1.
fn zeros(out: &Stdout) {
    ask(
        out,
        &[
            ("0 to 3 of three zeros", &ZEROS_WORDS, 0, 3, Ok(1)),
            ("1 to 2", &ZEROS_WORDS, 1, 2, Ok(1)),
            ("1 to 1", &ZEROS_WORDS, 1, 1, Ok(0)),
        ],
    )
}

// The words are looked at before the range.
fn refusals(out: &Stdout) {
    ask(
        out,
        &[
            ("4 to 5", &TENS_WORDS, 4, 5, Err(Refusal::Range)),
            ("5 to 5", &TENS_WORDS, 5, 5, Err(Refusal::Range)),
            ("3 to 2", &TENS_WORDS, 3, 2, Err(Refusal::Range)),
            (
                "0 to the largest number",
                &TENS_WORDS,
                0,
                4294967295,
                Err(Refusal::Range),
            ),
            (
                "4 to 5 of a list with class 63",
                &with(TENS_WORDS, 5, 0xBF000000),
                4,
                5,
                Err(Refusal::Code),
            ),
            (
                "4 to 5 of a list with q 9/1",
                &with(TENS_WORDS, 2, 9 * 1024 + 1),
                4,
                5,
                Err(Refusal::LargeQ),
            ),
            ("an empty list", &[], 0, 0, Err(Refusal::Head)),
        ],
    )
}

// 11, 11, 11, 1: the total of four is below the sum of three.
fn lower(out: &Stdout) {
    let words = [
        4u32, 1, 0xC02, 1, 0x40000201, 0x88208040, 0x80000440, 0xC0040201, 0xC0000000,
    ];
    ask(
        out,
        &[
            ("11, 11, 11", &words, 0, 3, Ok(36)),
            ("11, 11, 11, 1", &words, 0, 4, Ok(34)),
        ],
    )
}

// Two cuts that are off in the same direction, each excused by theta. With q 5/4 and k 3 the count may be 3.75 times the estimate.
fn both_cuts(out: &Stdout) {
    let spikes = [
        19u32, 98, 0x1404, 1, 0x40000209, 0x8E38E000, 0x800009C2, 0xC0041200, 0xC0000000,
    ];
    check(
        out,
        "eight ones, 90, 116, 90, eight ones",
        &[1, 1, 1, 1, 1, 1, 1, 1, 90, 116, 90, 1, 1, 1, 1, 1, 1, 1, 1],
        &spikes,
        Ok(Verdict::Accepted),
    );
    ask(
        out,
        &[("296 at 2.6 times the estimate", &spikes, 8, 11, Ok(114))],
    )
}

fn worse(out: &Stdout) {
    let mut freqs = [1u32; 121];
    freqs[59..62].copy_from_slice(&[18083, 18261, 18083]);
    let words = [
        121u32, 18142, 0x1404, 1, 0x4000023C, 0x9D75D000, 0x80000D49, 0xC0047800, 0xC0000000,
    ];
    check(
        out,
        "59 ones, 18083, 18261, 18083, 59 ones",
        &freqs,
        &words,
        Ok(Verdict::Accepted),
    );
    ask(
        out,
        &[("54427 at 3.6 times the estimate", &words, 59, 62, Ok(15096))],
    )
}

pub(crate) fn run(out: &Stdout) {
    estimates(out);
    zeros(out);
    refusals(out);
    lower(out);
    both_cuts(out);
    worse(out)
}
