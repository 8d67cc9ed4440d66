// Lists that the builder is given, and what it makes of them.

use super::check_cases::check;
use super::lists::{ONE_BUCKET, TENS, TENS_WORDS, ZEROS_WORDS};
use super::report::{fault, report, report_each, report_reply};
use check_rules::Verdict;
use refusals::Refusal;
use std::io::Stdout;

// The old contents of a lent list.
const OLD: u32 = 0xABABABAB;

// The words lent: more than two buckets need.
const LENT: usize = 16;

// The words of 65,536 zeros: nine buckets.
const ONLY_ZEROS: usize = 49;

// Theta, qn and qd. Without names: each case of a table stands on a line, in the order in which the calls take them.
#[derive(Clone, Copy)]
struct Quality(u32, u32, u32);

fn build(
    freqs: &[u32],
    Quality(theta, qn, qd): Quality,
    out: &mut [u32],
) -> Result<usize, Refusal> {
    builder::build(freqs, theta, qn, qd, out)
}

// Lists that are refused, or the number of words that come. The first word that is not written keeps its contents.
fn case(out: &Stdout, cases: &[(&str, &[u32], Quality, Result<usize, Refusal>)]) {
    for &(what, freqs, quality, expected) in cases {
        let mut lent = [OLD; LENT];
        report_reply(
            out,
            what,
            "  words",
            expected,
            build(freqs, quality, &mut lent),
        );
        if expected.is_ok() {
            report(out, "  the word past them", OLD, lent[ONE_BUCKET]);
        } else {
            report(out, "  the first word", OLD, lent[0]);
        }
    }
}

// The words of lists of one bucket.
fn list(out: &Stdout, cases: &[(&str, &[u32], Quality, &[u32])]) {
    for &(what, freqs, quality, words) in cases {
        let mut lent = [OLD; LENT];
        report(out, what, 0, fault(build(freqs, quality, &mut lent)));
        report_each(out, "  word", words, &lent);
        report(out, "  the word past them", OLD, lent[ONE_BUCKET]);
    }
}

// The widths of one bucket.
fn widths(out: &Stdout, cases: &[(&str, &[u32], Quality, usize, [u32; 8])]) {
    for &(what, freqs, quality, bucket, expected) in cases {
        let mut lent = [OLD; LENT];
        report(out, what, 0, fault(build(freqs, quality, &mut lent)));
        report_each(
            out,
            "  width",
            &expected,
            &words::bucket_at(&lent, bucket).widths,
        );
    }
}

fn examples(out: &Stdout) {
    list(
        out,
        &[
            ("four tens", &TENS, Quality(1, 3, 2), &TENS_WORDS),
            (
                "1 and 100",
                &[1, 100],
                Quality(1, 3, 2),
                &[
                    2, 1, 0xC02, 1, 0x40000201, 0x81380000, 0x80000CA0, 0xC0040000, 0xC0000000,
                ],
            ),
        ],
    )
}

// Words that no longer occur.
fn zeros(out: &Stdout) {
    list(
        out,
        &[("three zeros", &[0; 3], Quality(1, 3, 2), &ZEROS_WORDS)],
    );
    let freqs = [0, 0, 5, 0, 100];
    let quality = Quality(5, 3, 2);
    widths(
        out,
        &[(
            "0, 0, 5, 0, 100",
            &freqs,
            quality,
            0,
            [4, 1, 0, 0, 0, 0, 0, 0],
        )],
    );
    let mut lent = [OLD; ONE_BUCKET];
    report(
        out,
        "  built once more",
        0,
        fault(build(&freqs, quality, &mut lent)),
    );
    let bucket = words::bucket_at(&lent, 0);
    report_each(out, "  the class of bucketlet", &[5, 14], &bucket.classes)
}

fn only_zeros(out: &Stdout) {
    let all = [0u32; 65536];
    let mut words = [OLD; ONLY_ZEROS];
    let got = build(&all, Quality(1, 5, 4), &mut words);
    report_reply(out, "65,536 zeros", "  words", Ok(49), got);
    check(out, "  checked", &all, &words, Ok(Verdict::Accepted))
}

fn stored_q(out: &Stdout) {
    list(
        out,
        &[(
            "q 6/4 is stored as given",
            &[10],
            Quality(1, 6, 4),
            &[
                1, 1, 0x1804, 1, 0x40000201, 0x87000000, 0x80000140, 0xC0000000, 0xC0000000,
            ],
        )],
    )
}

fn limits_of_theta_and_q(out: &Stdout) {
    case(
        out,
        &[
            ("q 5/4", &TENS, Quality(1, 5, 4), Ok(9)),
            ("q 124/100", &TENS, Quality(1, 124, 100), Err(Refusal::Q)),
            ("q 1000/800", &TENS, Quality(1, 1000, 800), Ok(9)),
            ("q 1001/800", &TENS, Quality(1, 1001, 800), Err(Refusal::Q)),
            ("q 3/0", &TENS, Quality(1, 3, 0), Err(Refusal::Q)),
            (
                "q of the largest numbers",
                &TENS,
                Quality(1, 4294967295, 4294967295),
                Err(Refusal::Q),
            ),
            ("theta 0", &TENS, Quality(0, 3, 2), Err(Refusal::Theta)),
            (
                "theta 0 and q 124/100",
                &TENS,
                Quality(0, 124, 100),
                Err(Refusal::Theta),
            ),
            ("theta 1,048,575", &TENS, Quality(1048575, 3, 2), Ok(9)),
            (
                "theta 1,048,576",
                &TENS,
                Quality(1048576, 3, 2),
                Err(Refusal::Theta),
            ),
        ],
    )
}

// A larger q is taken for a slip, once its parts are within their limits.
fn slips_in_q(out: &Stdout) {
    case(
        out,
        &[
            ("q 8/1", &TENS, Quality(1, 8, 1), Ok(9)),
            ("q 80/10", &TENS, Quality(1, 80, 10), Ok(9)),
            ("q 1000/125", &TENS, Quality(1, 1000, 125), Ok(9)),
            ("q 9/1", &TENS, Quality(1, 9, 1), Err(Refusal::LargeQ)),
            ("q 15/1", &TENS, Quality(1, 15, 1), Err(Refusal::LargeQ)),
            (
                "q 1000/124",
                &TENS,
                Quality(1, 1000, 124),
                Err(Refusal::LargeQ),
            ),
            ("q 1001/1", &TENS, Quality(1, 1001, 1), Err(Refusal::Q)),
            ("q 9/0", &TENS, Quality(1, 9, 0), Err(Refusal::Q)),
            (
                "q 9/1 and theta 0",
                &TENS,
                Quality(0, 9, 1),
                Err(Refusal::Theta),
            ),
            (
                "q 9/1 and an empty list",
                &[],
                Quality(1, 9, 1),
                Err(Refusal::ListLength),
            ),
        ],
    )
}

fn limits_of_the_list(out: &Stdout) {
    case(
        out,
        &[
            (
                "an empty list and theta 0",
                &[],
                Quality(0, 3, 2),
                Err(Refusal::ListLength),
            ),
            (
                "a frequency of 0 and theta 0",
                &[5, 0],
                Quality(0, 3, 2),
                Err(Refusal::Theta),
            ),
            (
                "a frequency of 0 and a large sum",
                &[4294967295, 0],
                Quality(1, 3, 2),
                Err(Refusal::Sum),
            ),
            (
                "a sum of 1,073,741,823",
                &[536870912, 536870911],
                Quality(1, 3, 2),
                Ok(9),
            ),
            (
                "one more",
                &[536870912, 536870912],
                Quality(1, 3, 2),
                Err(Refusal::Sum),
            ),
            (
                "the largest frequency",
                &[4294967295],
                Quality(1, 3, 2),
                Err(Refusal::Sum),
            ),
            (
                "65,537 entries",
                &[1; 65537],
                Quality(1, 3, 2),
                Err(Refusal::ListLength),
            ),
            (
                "65,537 entries of 0",
                &[0; 65537],
                Quality(1, 3, 2),
                Err(Refusal::ListLength),
            ),
        ],
    )
}

// Four tens, whose histogram has nine words, with a list lent for it.
fn lent(to: &Stdout, what: &str, out: &mut [u32], expected: Result<usize, Refusal>) {
    report_reply(
        to,
        what,
        "  words",
        expected,
        build(&TENS, Quality(1, 3, 2), out),
    )
}

fn lengths(out: &Stdout) {
    let mut eight = [OLD; 8];
    lent(
        out,
        "eight words lent for nine",
        &mut eight,
        Err(Refusal::Room),
    );
    report(out, "  the first word", OLD, eight[0]);
    report(out, "  the last word", OLD, eight[7]);
    lent(out, "no word lent", &mut [], Err(Refusal::Room));
    let slip = build(&TENS, Quality(1, 9, 1), &mut []);
    report(out, "no word lent, and q 9/1", 24, fault(slip));
    let mut nine = [OLD; 9];
    lent(out, "nine words lent", &mut nine, Ok(9));
    report(out, "  the first word", 4, nine[0]);
    report(out, "  the last word", 0xC0000000, nine[8]);
    let mut twelve = [OLD; 12];
    lent(out, "twelve words lent", &mut twelve, Ok(9));
    report(out, "  word 8", 0xC0000000, twelve[8]);
    report(out, "  word 9", OLD, twelve[9]);
    report(out, "  word 11", OLD, twelve[11])
}

fn early_failures(out: &Stdout) {
    widths(
        out,
        &[
            (
                "4, 12, 6: width 3 fits again",
                &[4, 12, 6],
                Quality(2, 2, 1),
                0,
                [1, 2, 0, 0, 0, 0, 0, 0],
            ),
            (
                "1, 1, 3, 1: doubling and halving would take width 4",
                &[1, 1, 3, 1],
                Quality(2, 2, 1),
                0,
                [2, 2, 0, 0, 0, 0, 0, 0],
            ),
        ],
    )
}

fn equal_entries(out: &Stdout) {
    let tens = [10u32; 7673];
    let quality = Quality(1, 2, 1);
    widths(
        out,
        &[
            (
                "511 equal entries",
                &tens[..511],
                quality,
                0,
                [511, 0, 0, 0, 0, 0, 0, 0],
            ),
            (
                "512 equal entries",
                &tens[..512],
                quality,
                0,
                [512, 0, 0, 0, 0, 0, 0, 0],
            ),
            (
                "7,673 equal entries",
                &tens,
                quality,
                0,
                [4095, 511, 511, 511, 511, 511, 511, 511],
            ),
            (
                "7,673 equal entries, the last bucket",
                &tens,
                quality,
                1,
                [1, 0, 0, 0, 0, 0, 0, 0],
            ),
        ],
    )
}

fn narrow_then_wide(out: &Stdout) {
    let mut narrow = [5000u32; 4103];
    narrow[..7].copy_from_slice(&[1, 100, 1, 100, 1, 100, 1]);
    let quality = Quality(1, 5, 4);
    widths(
        out,
        &[
            (
                "seven narrow bucketlets and a wide one",
                &narrow,
                quality,
                0,
                [1, 1, 1, 1, 1, 1, 1, 4095],
            ),
            (
                "and what is left",
                &narrow,
                quality,
                1,
                [1, 0, 0, 0, 0, 0, 0, 0],
            ),
        ],
    )
}

// The word that holds the flag.
fn flag(out: &Stdout, what: &str, freqs: &[u32], expected: u32) {
    let mut words = [OLD; ONE_BUCKET];
    let got = build(freqs, Quality(1, 2, 1), &mut words);
    report(out, what, 0, fault(got));
    report(out, "  word 4", expected, words[4])
}

// The free bucketlet is the eighth up to a width of 511, and the first above.
fn flags(out: &Stdout) {
    let tens = [10u32; 512];
    flag(out, "511 equal entries", &tens[..511], 0x400003FF);
    flag(out, "512 equal entries", &tens, 0x40000000)
}

pub(crate) fn run(out: &Stdout) {
    examples(out);
    zeros(out);
    only_zeros(out);
    stored_q(out);
    limits_of_theta_and_q(out);
    slips_in_q(out);
    limits_of_the_list(out);
    lengths(out);
    early_failures(out);
    equal_entries(out);
    narrow_then_wide(out);
    flags(out)
}
