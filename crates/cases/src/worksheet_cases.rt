// Running totals that are filled in, and worksheets that are answered with them.

use super::lists::{TENS_WORDS, TWO_WORDS, bad_class, with};
use super::report::{report, report_each, report_reply};
use refusals::Refusal;
use std::io::Stdout;

// The old contents of a lent list.
const OLD: u64 = 0xABABABABABABABAB;

// The running totals of TWO_WORDS.
const TOTALS: [u64; 3] = [0, 40, 168];

fn totals(out: &Stdout) {
    let mut lent = [OLD; 4];
    let got = estimator::fill_totals(&TWO_WORDS, &mut lent);
    report_reply(out, "running totals of 40 and 128", "  places", Ok(3), got);
    report_each(out, "  place", &TOTALS, &lent);
    report(out, "  the place past them", OLD, lent[3])
}

// Two places are lent, and where that is refused the first keeps its contents.
fn fill(out: &Stdout, cases: &[(&str, &[u32], Result<usize, Refusal>)]) {
    for &(what, words, expected) in cases {
        let mut lent = [OLD; 2];
        let got = estimator::fill_totals(words, &mut lent);
        report_reply(out, what, "  places", expected, got);
        if expected.is_err() {
            report(out, "  the first place", OLD, lent[0]);
        }
    }
}

fn fillings(out: &Stdout) {
    fill(
        out,
        &[
            (
                "two places for the running totals of four tens",
                &TENS_WORDS,
                Ok(2),
            ),
            ("two places for three", &TWO_WORDS, Err(Refusal::Places)),
            ("no word", &[], Err(Refusal::Head)),
            (
                "q 9/1 and two places for three",
                &with(TWO_WORDS, 2, 9 * 1024 + 1),
                Err(Refusal::LargeQ),
            ),
            (
                "class 63 and two places for three",
                &bad_class(),
                Err(Refusal::Code),
            ),
        ],
    )
}

fn answers(out: &Stdout) {
    let mut lent = [OLD; 5];
    let sheet = [2, 10, 0, 10, 3, 5, 4, 4];
    let got = estimator::answer_worksheet(&TWO_WORDS, &TOTALS, &sheet, &mut lent);
    report_reply(out, "a worksheet of four ranges", "  answers", Ok(4), got);
    let answers = [
        ("  2 to 10", 135),
        ("  0 to 10", 168),
        ("  3 to 5", 7),
        ("  4 to 4", 0),
        ("  the place past them", OLD),
    ];
    for ((what, expected), got) in answers.iter().zip(&lent) {
        report(out, *what, *expected, *got);
    }
}

// With room for two answers: the words, the running totals and the worksheet of each case, and what comes.
fn ask(out: &Stdout, cases: &[(&str, &[u32], &[u64], &[u32], Result<usize, Refusal>)]) {
    for &(what, words, totals, sheet, expected) in cases {
        let mut lent = [OLD; 2];
        let got = estimator::answer_worksheet(words, totals, sheet, &mut lent);
        report_reply(out, what, "  answers", expected, got);
        if expected.is_err() {
            report(out, "  the first place", OLD, lent[0]);
        }
    }
}

fn lengths(out: &Stdout) {
    ask(
        out,
        &[
            ("an empty worksheet", &TWO_WORDS, &TOTALS, &[], Ok(0)),
            ("two ranges", &TWO_WORDS, &TOTALS, &[2, 10, 10, 10], Ok(2)),
            (
                "three ranges",
                &TWO_WORDS,
                &TOTALS,
                &[2, 10, 0, 10, 3, 5],
                Err(Refusal::Places),
            ),
            (
                "two ranges and a word",
                &TWO_WORDS,
                &TOTALS,
                &[2, 10, 0, 10, 3],
                Err(Refusal::Worksheet),
            ),
            (
                "three ranges and a word",
                &TWO_WORDS,
                &TOTALS,
                &[2, 10, 0, 10, 3, 5, 4],
                Err(Refusal::Places),
            ),
            (
                "two running totals for three",
                &TWO_WORDS,
                &[0, 40],
                &[2, 10],
                Err(Refusal::Places),
            ),
            (
                "two running totals, one of them wrong",
                &TWO_WORDS,
                &[1, 40],
                &[2, 10],
                Err(Refusal::Places),
            ),
        ],
    )
}

fn wrong_totals(out: &Stdout) {
    ask(
        out,
        &[
            (
                "a place past the running totals",
                &TWO_WORDS,
                &[0, 40, 168, 5],
                &[2, 10],
                Ok(1),
            ),
            (
                "a wrong first running total",
                &TWO_WORDS,
                &[1, 40, 168],
                &[2, 10],
                Err(Refusal::Totals),
            ),
            (
                "a wrong middle one",
                &TWO_WORDS,
                &[0, 41, 168],
                &[2, 10],
                Err(Refusal::Totals),
            ),
            (
                "a wrong last one",
                &TWO_WORDS,
                &[0, 40, 167],
                &[2, 10],
                Err(Refusal::Totals),
            ),
            (
                "a wrong one and 10 to 2",
                &TWO_WORDS,
                &[0, 40, 167],
                &[10, 2],
                Err(Refusal::Totals),
            ),
        ],
    )
}

fn ranges(out: &Stdout) {
    ask(
        out,
        &[
            (
                "10 to 2 at last",
                &TWO_WORDS,
                &TOTALS,
                &[2, 10, 10, 2],
                Err(Refusal::Worksheet),
            ),
            (
                "10 to 11 at last",
                &TWO_WORDS,
                &TOTALS,
                &[2, 10, 10, 11],
                Err(Refusal::Worksheet),
            ),
            (
                "11 to 11 at first",
                &TWO_WORDS,
                &TOTALS,
                &[11, 11, 2, 10],
                Err(Refusal::Worksheet),
            ),
        ],
    )
}

// The words are looked at first.
fn words_first(out: &Stdout) {
    ask(
        out,
        &[
            ("no word", &[], &[], &[2, 10, 3], Err(Refusal::Head)),
            (
                "q 9/1 and no running totals",
                &with(TWO_WORDS, 2, 9 * 1024 + 1),
                &[],
                &[2, 10, 3],
                Err(Refusal::LargeQ),
            ),
            (
                "class 63 and no running totals",
                &bad_class(),
                &[],
                &[2, 10, 3],
                Err(Refusal::Code),
            ),
        ],
    )
}

pub(crate) fn run(out: &Stdout) {
    totals(out);
    fillings(out);
    answers(out);
    lengths(out);
    wrong_totals(out);
    ranges(out);
    words_first(out)
}
