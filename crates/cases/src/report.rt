// What a case prints: what it is, the figure expected, the figure that came, and whether they are the same.

use refusals::Refusal;
use std::fmt::Display;
use std::io::Stdout;

// What standard output does not take is missing from what is printed, which is compared; the next line is still tried.
pub(crate) fn say<T: Display + Drop>(out: &Stdout, line: T) {
    let _said = println!(out; "{line}").is_ok();
}

pub(crate) fn verdict(right: bool) -> &'static str {
    if right { "ok" } else { "WRONG" }
}

pub(crate) fn report<W: Display + Drop, T: Copy + Display + PartialEq>(
    out: &Stdout,
    what: W,
    expected: T,
    got: T,
) {
    let said = verdict(expected == got);
    say(
        out,
        format_args!("{what}: expected {expected}, got {got}, {said}"),
    );
}

// Each figure of the first list, with its place after what it is.
pub(crate) fn report_each<T: Copy + Display + PartialEq>(
    out: &Stdout,
    what: &str,
    expected: &[T],
    got: &[T],
) {
    for (k, (expected, got)) in expected.iter().zip(got).enumerate() {
        report(out, format_args!("{what} {k}"), *expected, *got);
    }
}

// The number that a call is refused with, or 0.
pub(crate) fn fault<T: Copy>(answer: Result<T, Refusal>) -> u32 {
    answer.err().map_or(0, Refusal::number)
}

// A refusal's number and the figure, of which one is 0.
pub(crate) fn report_reply<T: Copy + Default + Display + PartialEq>(
    out: &Stdout,
    what: &str,
    value: &str,
    expected: Result<T, Refusal>,
    got: Result<T, Refusal>,
) {
    report(out, what, fault(expected), fault(got));
    report(
        out,
        value,
        expected.unwrap_or_default(),
        got.unwrap_or_default(),
    )
}
