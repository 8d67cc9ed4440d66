// Counts and their codes, and numbers that are neither.

use super::report::{say, verdict};
use refusals::Refusal;
use std::fmt;
use std::io::Stdout;

// A number, or the number of a refusal.
#[derive(Clone, Copy, PartialEq)]
struct Answer(Result<u32, Refusal>);

impl fmt::Display for Answer {
    fn fmt<W: fmt::Write>(&self, f: &mut fmt::Formatter<W>) -> fmt::Result {
        match self.0 {
            Ok(number) => write!(f, "{number}"),
            Err(refusal) => write!(f, "refused {}", refusal.number()),
        }
    }
}

fn calls<F: Fn(u32) -> Result<u32, Refusal>>(
    out: &Stdout,
    what: &str,
    call: F,
    cases: &[(u32, Result<u32, Refusal>)],
)
    requires { F.IsAlwaysCallable call }
{
    for &(input, expected) in cases {
        let came = Answer(call(input));
        let expected = Answer(expected);
        let said = verdict(expected == came);
        say(
            out,
            format_args!("{what} {input}: expected {expected}, came {came}, {said}"),
        );
    }
}

fn classes(out: &Stdout) {
    calls(
        out,
        "class of",
        counts::class_of,
        &[
            (0, Ok(0)),
            (1, Ok(1)),
            (2, Ok(3)),
            (5, Ok(5)),
            (10, Ok(7)),
            (11, Ok(8)),
            (100, Ok(14)),
            (819993059, Ok(61)),
            (819993060, Ok(62)),
            (1073741823, Ok(62)),
            (1073741824, Err(Refusal::Count)),
            (4294967295, Err(Refusal::Count)),
        ],
    )
}

fn numbers(out: &Stdout) {
    calls(
        out,
        "number of class",
        counts::number_of_class,
        &[
            (0, Ok(0)),
            (1, Ok(1)),
            (2, Err(Refusal::Reading)),
            (3, Ok(2)),
            (5, Ok(4)),
            (7, Ok(8)),
            (8, Ok(12)),
            (11, Ok(34)),
            (14, Ok(93)),
            (62, Ok(970228872)),
            (63, Err(Refusal::Reading)),
            (64, Err(Refusal::Reading)),
            (4294967295, Err(Refusal::Reading)),
        ],
    )
}

fn codes(out: &Stdout) {
    calls(
        out,
        "code of total",
        counts::code_of_total,
        &[
            (0, Ok(0)),
            (1, Ok(32)),
            (127, Ok(4064)),
            (128, Ok(2049)),
            (1000, Ok(4003)),
            (1073741823, Ok(4087)),
            (1073741824, Err(Refusal::Count)),
            (4294967295, Err(Refusal::Count)),
        ],
    )
}

fn totals(out: &Stdout) {
    calls(
        out,
        "number of code",
        counts::number_of_total,
        &[
            (0, Ok(0)),
            (31, Err(Refusal::Reading)),
            (32, Ok(1)),
            (33, Err(Refusal::Reading)),
            (2017, Err(Refusal::Reading)),
            (2049, Ok(128)),
            (2072, Err(Refusal::Reading)),
            (4003, Ok(1003)),
            (4064, Ok(127)),
            (4087, Ok(1068827891)),
            (4096, Err(Refusal::Reading)),
            (4128, Err(Refusal::Reading)),
            (4294967295, Err(Refusal::Reading)),
        ],
    )
}

pub(crate) fn run(out: &Stdout) {
    classes(out);
    numbers(out);
    codes(out);
    totals(out)
}
