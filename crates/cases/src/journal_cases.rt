// Journals that are replayed, nearly all over 5 and 7.

use super::report::{report, report_reply};
use refusals::Refusal;
use std::io::Stdout;

// Over a list, of which the first and the last frequency are then these.
fn over(
    out: &Stdout,
    what: &str,
    freqs: &mut [u32],
    entries: &[u32],
    changes: &[i32],
    expected: Result<u64, Refusal>,
    [first, last]: [u32; 2],
) {
    let got = journal::replay(freqs, entries, changes).map(|sum| u64::from(sum));
    report_reply(out, what, "  sum", expected, got);
    if let (Some(got_first), Some(got_last)) = (freqs.first(), freqs.last()) {
        report(out, "  the first frequency", first, *got_first);
        report(out, "  the last", last, *got_last);
    }
}

// What 5 and 7 become; a refusal leaves them.
fn replay(out: &Stdout, cases: &[(&str, &[u32], &[i32], Result<[u32; 2], Refusal>)]) {
    for &(what, entries, changes, expected) in cases {
        let sum = expected.map(|[first, last]| u64::from(first) + u64::from(last));
        over(
            out,
            what,
            &mut [5, 7],
            entries,
            changes,
            sum,
            expected.unwrap_or([5, 7]),
        );
    }
}

fn journals(out: &Stdout) {
    replay(
        out,
        &[
            ("no lines", &[], &[], Ok([5, 7])),
            (
                "3 more, 8 less and 7 less",
                &[0, 0, 1],
                &[3, -8, -7],
                Ok([0, 0]),
            ),
            ("6 more, then 6 less", &[0, 0], &[6, -6], Ok([5, 7])),
            ("up to the limit", &[0], &[1073741811], Ok([1073741816, 7])),
        ],
    )
}

// A bound is broken after some line.
fn bounds(out: &Stdout) {
    replay(
        out,
        &[
            (
                "6 less, then 6 more",
                &[0, 0],
                &[-6, 6],
                Err(Refusal::JournalChange),
            ),
            (
                "8 less after 1 more",
                &[0, 1],
                &[1, -8],
                Err(Refusal::JournalChange),
            ),
            (
                "past the limit",
                &[0],
                &[1073741812],
                Err(Refusal::JournalChange),
            ),
            (
                "past the limit, and back",
                &[0, 1],
                &[1073741812, -1],
                Err(Refusal::JournalChange),
            ),
            (
                "the least change",
                &[1],
                &[-2147483648],
                Err(Refusal::JournalChange),
            ),
            (
                "the largest change",
                &[1],
                &[2147483647],
                Err(Refusal::JournalChange),
            ),
        ],
    )
}

// Each refusal before the next.
fn orders(out: &Stdout) {
    replay(
        out,
        &[
            (
                "entry 2 after 6 less",
                &[0, 2],
                &[-6, 1],
                Err(Refusal::JournalEntry),
            ),
            (
                "two entries, one change",
                &[0, 2],
                &[-6],
                Err(Refusal::JournalLength),
            ),
            (
                "one entry, two changes",
                &[2],
                &[-6, 1],
                Err(Refusal::JournalLength),
            ),
        ],
    );
    let ends = [1, 1073741823];
    over(
        out,
        "a large sum",
        &mut [1, 1073741823],
        &[2],
        &[],
        Err(Refusal::Sum),
        ends,
    );
    over(
        out,
        "no frequency",
        &mut [],
        &[2],
        &[],
        Err(Refusal::ListLength),
        [0, 0],
    )
}

// Lines of 1 more for entry 1.
fn limits(out: &Stdout) {
    let entries = [1u32; 65537];
    let changes = [1i32; 65537];
    replay(
        out,
        &[
            (
                "65,536 lines",
                &entries[..65536],
                &changes[..65536],
                Ok([5, 65543]),
            ),
            (
                "65,537 lines",
                &entries,
                &changes,
                Err(Refusal::JournalLength),
            ),
            (
                "65,537 entries, 65,536 changes",
                &entries,
                &changes[..65536],
                Err(Refusal::JournalLength),
            ),
        ],
    );
    over(
        out,
        "65,536 lines over 65,536 entries",
        &mut [1; 65536],
        &entries[..65536],
        &changes[..65536],
        Ok(131072),
        [1, 1],
    )
}

pub(crate) fn run(out: &Stdout) {
    journals(out);
    bounds(out);
    orders(out);
    limits(out)
}
