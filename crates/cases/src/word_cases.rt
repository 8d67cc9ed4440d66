// Lists of words that are no histograms, beside some that are; the search for an entry's bucket; a bucket decoded and encoded again.

use super::lists::{ONE_BUCKET, TENS_WORDS, TWO_WORDS, ZEROS_WORDS, bad_class, gaps, wide, with};
use super::report::{fault, report};
use refusals::Refusal;
use std::io::Stdout;

fn read(out: &Stdout, cases: &[(&str, &[u32], Result<(), Refusal>)]) {
    for &(what, words, expected) in cases {
        report(
            out,
            what,
            fault(expected),
            fault(words_reading::read_fault(words)),
        );
    }
}

// The number of an entry's search, and the first word of what it hands back, or how many words that has.
fn find(out: &Stdout, cases: &[(&str, &[u32], u32, Result<(), Refusal>, u32)]) {
    for &(what, words, entry, expected, word) in cases {
        report(
            out,
            what,
            fault(expected),
            fault(finder::find_fault(words, entry)),
        );
        match finder::find(words, entry) {
            [first, _, _, _, _] => report(out, "  its first word", word, *first),
            part => report(out, "  words handed back", 0, part.len()),
        }
    }
}

fn heads(out: &Stdout) {
    read(
        out,
        &[
            ("four tens", &TENS_WORDS, Ok(())),
            (
                "q 124/100",
                &with(TENS_WORDS, 2, 124 * 1024 + 100),
                Err(Refusal::Head),
            ),
            ("q 5/4", &with(TENS_WORDS, 2, 5 * 1024 + 4), Ok(())),
            (
                "a bit above q",
                &with(TENS_WORDS, 2, 0x100C02),
                Err(Refusal::Head),
            ),
            (
                "five buckets of four entries",
                &with(TENS_WORDS, 3, 5),
                Err(Refusal::Head),
            ),
            (
                "two buckets in nine words",
                &with(TENS_WORDS, 3, 2),
                Err(Refusal::WordCount),
            ),
        ],
    )
}

fn slips_in_q(out: &Stdout) {
    read(
        out,
        &[
            ("q 8/1", &with(TENS_WORDS, 2, 8 * 1024 + 1), Ok(())),
            (
                "q 1000/125",
                &with(TENS_WORDS, 2, 1000 * 1024 + 125),
                Ok(()),
            ),
            (
                "q 9/1",
                &with(TENS_WORDS, 2, 9 * 1024 + 1),
                Err(Refusal::LargeQ),
            ),
            (
                "q 1000/124",
                &with(TENS_WORDS, 2, 1000 * 1024 + 124),
                Err(Refusal::LargeQ),
            ),
            (
                "q 1001/1",
                &with(TENS_WORDS, 2, 1001 * 1024 + 1),
                Err(Refusal::Head),
            ),
        ],
    )
}

// 24 stands between 7 and 8.
fn shortened_slips(out: &Stdout) {
    let words = with(TENS_WORDS, 2, 9 * 1024 + 1);
    read(
        out,
        &[
            ("q 9/1 in three words", &words[..3], Err(Refusal::Head)),
            ("q 9/1 in eight words", &words[..8], Err(Refusal::LargeQ)),
        ],
    );
    find(
        out,
        &[(
            "entry 4 of four tens with q 9/1",
            &words,
            4,
            Err(Refusal::LargeQ),
            0,
        )],
    )
}

fn lengths(out: &Stdout) {
    let mut longer = [0; ONE_BUCKET + 1];
    longer[..ONE_BUCKET].copy_from_slice(&TENS_WORDS);
    read(
        out,
        &[
            ("an empty list", &[], Err(Refusal::Head)),
            ("three words", &longer[..3], Err(Refusal::Head)),
            ("a word too few", &longer[..8], Err(Refusal::WordCount)),
            ("a word too many", &longer, Err(Refusal::WordCount)),
        ],
    )
}

fn order(out: &Stdout) {
    read(
        out,
        &[
            (
                "class 63 in the first bucket",
                &bad_class(),
                Err(Refusal::Code),
            ),
            (
                "and a wrong kind in the last",
                &with(bad_class(), 13, 0x80000000),
                Err(Refusal::BucketWord),
            ),
            (
                "and a bit outside its fields instead",
                &with(bad_class(), 13, 0xC8000000),
                Err(Refusal::BucketWord),
            ),
            (
                "and a start equal to d instead",
                &with(bad_class(), 9, 0x40002801),
                Err(Refusal::Start),
            ),
            (
                "and listed widths above the span instead",
                &with(bad_class(), 9, 0x40001007),
                Err(Refusal::Width),
            ),
        ],
    )
}

fn spans(out: &Stdout) {
    read(
        out,
        &[
            (
                "a start equal to the one before",
                &with(TWO_WORDS, 9, 0x40000001),
                Err(Refusal::Start),
            ),
            (
                "a start of 83,033",
                &with(TWO_WORDS, 9, 0x45116401),
                Err(Refusal::Start),
            ),
            (
                "listed widths one above the span",
                &with(TWO_WORDS, 4, 0x40000202),
                Err(Refusal::Width),
            ),
            ("a free width of 4,095", &wide(4096, 0x403FFE01), Ok(())),
            (
                "a free width of 4,096",
                &wide(4097, 0x40400201),
                Err(Refusal::Width),
            ),
        ],
    )
}

fn codes(out: &Stdout) {
    read(
        out,
        &[
            ("empty bucketlets", &gaps(0x80240420), Ok(())),
            (
                "a class where the width is 0",
                &gaps(0x80242420),
                Err(Refusal::Code),
            ),
            (
                "a free bucketlet of width 1 with class 0",
                &with(TENS_WORDS, 4, 0x40000203),
                Ok(()),
            ),
            (
                "class 2",
                &with(TENS_WORDS, 5, 0x82000000),
                Err(Refusal::Code),
            ),
            (
                "code 0 beside class 11",
                &with(TENS_WORDS, 6, 0x80000000),
                Err(Refusal::Code),
            ),
            ("code 0 of three zeros", &ZEROS_WORDS, Ok(())),
            (
                "code 32 of three zeros",
                &with(ZEROS_WORDS, 6, 0x80000020),
                Ok(()),
            ),
            (
                "the first bucketlet free",
                &with(TENS_WORDS, 4, 0x40000000),
                Ok(()),
            ),
            (
                "a total code with shift 24",
                &with(TENS_WORDS, 6, 0x80000038),
                Err(Refusal::Code),
            ),
        ],
    )
}

fn finds(out: &Stdout) {
    find(
        out,
        &[
            ("entry 3 of ten", &TWO_WORDS, 3, Ok(()), 0x40000201),
            ("entry 4", &TWO_WORDS, 4, Ok(()), 0x40001001),
            ("entry 9", &TWO_WORDS, 9, Ok(()), 0x40001001),
            (
                "entry 10, which is d",
                &TWO_WORDS,
                10,
                Err(Refusal::Entry),
                0,
            ),
            (
                "entry 10 of a list with a bad class",
                &bad_class(),
                10,
                Err(Refusal::Code),
                0,
            ),
            ("an entry of an empty list", &[], 0, Err(Refusal::Head), 0),
        ],
    )
}

// A bucket that was decoded and encoded again, and one past the end.
fn again(out: &Stdout) {
    let words = words_packing::encode(words::bucket_at(&TWO_WORDS, 1));
    report(
        out,
        "word 0 of bucket 1 again",
        TWO_WORDS[ONE_BUCKET],
        words[0],
    );
    for k in 1..words_rules::BUCKET_WORDS {
        report(
            out,
            format_args!("word {k}"),
            TWO_WORDS[ONE_BUCKET + k],
            words[k],
        );
    }
    let past = words::bucket_at(&TWO_WORDS, usize::MAX);
    report(
        out,
        "the free width of a bucket past the end",
        10,
        past.widths[0],
    )
}

pub(crate) fn run(out: &Stdout) {
    heads(out);
    slips_in_q(out);
    shortened_slips(out);
    lengths(out);
    order(out);
    spans(out);
    codes(out);
    finds(out);
    again(out)
}
