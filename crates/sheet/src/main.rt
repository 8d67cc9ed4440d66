// The exam sheet: reads numbers from standard input and prints their exam sheet.

#![tactic(auto)]

ghost use Rattle.std.specs.Prelude.{◌≤◌, length, IfOk};

use refusals::Refusal;
use sheet_rules::{MAX_INPUT, SHEET_BYTES};
use sheet_text::SheetError;
use std::fmt::Display;
use std::io;
use std::io::{IsTerminal, Read, Stderr, Stdin};

// Reads until the input ends, the space is full or a read fails, and answers how many bytes were put at the start of the space.
fn read_all(input: &mut Stdin, space: &mut [u8]) -> io::Result<usize>
    ensures { IfOk result (λ n. n ≤ length space.new) }
{
    let mut count: usize = 0;
    // The library's `read_to_end` asks for memory.
    while count < space.len() {
        let read = input.read(&mut space[count..])?;
        if read == 0 {
            break;
        }
        count += read;
    }
    Ok(count)
}

// What standard error does not take is lost, since there is nowhere else to say it; the next line is still tried.
fn say<T: Display + Drop>(err: &Stderr, line: T) {
    let _said = println!(err; "{line}").is_ok();
}

// Someone who starts the program without input should know what it waits for.
fn say_awaited(err: &Stderr) {
    say(
        err,
        "sheet: waiting on standard input for theta, qn, qd and the frequencies, one number per line; sheet takes no arguments.",
    );
    say(
        err,
        "The first three numbers are always taken as theta, qn and qd. Ctrl-D at the start of a line ends the input.",
    );
}

// How an input looks, for one that stops being so at a line.
fn say_input(err: &Stderr, line: usize) {
    let sentence = Refusal::Input;
    say(err, format_args!("sheet: {sentence}"));
    say(
        err,
        format_args!(
            "It stops being so at line {line}: that line is not such a number, has no line feed at its end, is missing, or is one too many."
        ),
    );
    say(
        err,
        "Carriage returns, spaces, tabs, commas, decimal points, signs, headings, blank lines and byte order marks are not allowed.",
    );
    say(
        err,
        "sheet reads standard input and takes no arguments, as in: sheet <list.txt",
    );
    say(
        err,
        "For theta 1, q 3/2 and the frequencies 1 and 100 the input is",
    );
    say(err, "1\n3\n2\n1\n100");
}

// What the builder says of a list, and what mends it.
fn say_list(err: &Stderr, refusal: Refusal) {
    say(err, format_args!("sheet: {refusal}"));
    match refusal {
        Refusal::Theta => say(err, "It is the first number: 1 to 1,048,575."),
        Refusal::Q => say(
            err,
            "It is qn/qd, the second and the third number: each 1 to 1,000, and q from 5/4 to 8.",
        ),
        Refusal::LargeQ => say(
            err,
            "It is qn/qd, the second and the third number: qn may be at most 8 times qd. For 1.5 they are 15 and 10, or 3 and 2.",
        ),
        _ => (),
    }
}

fn say_refused(err: &Stderr, error: SheetError) {
    match error {
        SheetError::Input(fault) => say_input(err, fault.line),
        SheetError::List(refusal) => say_list(err, refusal),
    }
}

fn main(rt: HostRuntime) {
    let mut input = rt.stdin();
    let err = rt.stderr();
    if input.is_terminal() {
        say_awaited(&err);
    }
    // One byte more than the longest input: where it is filled, no byte that follows changes what is printed.
    let mut space = [0u8; MAX_INPUT + 1];
    let Ok(n) = read_all(&mut input, &mut space) else {
        say(&err, "sheet: standard input cannot be read");
        return;
    };
    let mut out = [0u8; SHEET_BYTES];
    let printed = sheet_text::put_sheet(&space[..n], &mut out);
    let length = printed.length;
    if rt.stdout().write_all(&out[..length]).is_err() {
        say(&err, "sheet: standard output cannot be written");
    }
    if let Some(error) = printed.refused {
        say_refused(&err, error);
    }
}
