// The lines of the exam sheet, each as its bytes.

#![tactic(auto)]

ghost use Rattle.std.specs.Prelude.{◌≡◌, ◌+◌, ◌-◌, ◌*◌, ◌≤◌, ◌<◌, [], ◌∷◌, ◌++◌, length};
ghost use Rattle.sheet_rules.specs.Limits.{max_digits, line_bytes};
ghost use Rattle.sheet_rules.specs.Text.{digits, decimal, places};
ghost use Rattle.sheet_rules.specs.Lines.{head_line, bucket_line, bucketlet_line, refused_line};
ghost use Rattle.sheet_lines.specs.Private.Pattern.{filled_in};

use sheet_rules::LINE_BYTES;
use std::marker::Model;
use words_rules::Head;

// A pattern has this byte where a number stands.
const MARK: u8 = b'#';

/// The bytes of a line. They stand in an array, since no memory is asked for.
#[derive(Clone, Copy, Debug, PartialEq, Eq)]
pub struct Line {
    bytes: [u8; LINE_BYTES],
    len: usize,
}

// Clauses see the bytes; what stands after them is 0, so that equal lines are equal arrays.
impl Model for Line {
    ghost use Rattle.std.specs.Prelude.{List, ℕ, length, take};
    ghost use Rattle.laws.specs.Padded.{padded};
    ghost use Rattle.sheet_rules.specs.Limits.{line_bytes};
    ghost use Rattle.sheet_lines.specs.Private.Held.{Held};

    ghost Value = { List ℕ };

    ghost view = { λ l. take l.len l.bytes };

    ghost invariant = { λ l. Held l.bytes l.len };

    ghost inverse = { λ text. record { bytes = padded line_bytes text; len = length text } };

    ghost inverse_ok = { λ l h i. record { bytes = h.all i; len = h.front i } };
}

impl Line {
    fn new() -> Line
        ensures { result ≡ [] }
    {
        Line {
            bytes: [0u8; LINE_BYTES],
            len: 0,
        }
    }

    pub fn as_bytes(&self) -> &[u8]
        ensures bytes { result.now ≡ self.now }
        ensures short { length result.now ≤ line_bytes }
    {
        &self.bytes[..self.len]
    }

    fn push(&mut self, byte: u8)
        requires { length self.old < line_bytes }
        ensures { self.new ≡ self.old ++ byte ∷ [] }
    {
        self.bytes[self.len] = byte;
        self.len += 1;
    }

    fn push_number(&mut self, n: u32)
        requires { length self.old + max_digits ≤ line_bytes }
        ensures text { self.new ≡ self.old ++ decimal n }
        ensures short { length self.new ≤ length self.old + max_digits }
    {
        let end = self.len + digit_count(n);
        put_digits(&mut self.bytes[self.len..end], n);
        self.len = end;
    }
}

#[tactic(auto, using(crate::proofs::DigitLaws::places_is))]
fn digit_count(n: u32) -> usize
    ensures { result ≡ places n }
{
    n.max(1).ilog10() as usize + 1
}

// Puts the last digits of n, as many as there are places. The library's formatting does not promise that a number is written where there is room.
fn put_digits(places: &mut [u8], n: u32)
    ensures { places.new ≡ digits (length places.old) n }
{
    let mut rest = n;
    for i in (0..places.len()).rev() {
        places[i] = b'0' + (rest % 10) as u8;
        rest /= 10;
    }
}

// A pattern with the numbers in the place of its marks.
fn line_of(pattern: &[u8], numbers: &[u32]) -> Line
    requires { length pattern.now + (max_digits - 1) * length numbers.now ≤ line_bytes }
    ensures { result ≡ filled_in pattern.now numbers.now }
{
    let mut line = Line::new();
    let mut left = numbers;
    for byte in pattern {
        match left.split_first() {
            Some((number, others)) if *byte == MARK => {
                line.push_number(*number);
                left = others;
            }
            _ => line.push(*byte),
        }
    }
    line
}

// d, theta, q and the number of buckets.
#[tactic(auto, using(crate::proofs::PatternLaws::head_pattern))]
pub fn head_line(head: Head) -> Line
    ensures { result ≡ head_line head.entries head.theta head.qn head.qd head.buckets }
{
    let numbers = [head.entries, head.theta, head.qn, head.qd, head.buckets];
    line_of(b"codes # theta # q #/# buckets #\n", &numbers)
}

// A bucket's start, end, total code and number.
#[tactic(auto, using(crate::proofs::PatternLaws::bucket_pattern))]
pub fn bucket_line(start: u32, end: u32, code: u32, number: u32) -> Line
    ensures { result ≡ bucket_line start end code number }
{
    let numbers = [start, end, code, number];
    line_of(b"bucket # # total # #\n", &numbers)
}

// A bucketlet's start, end, class and number.
#[tactic(auto, using(crate::proofs::PatternLaws::bucketlet_pattern))]
pub fn bucketlet_line(start: u32, end: u32, class: u32, number: u32) -> Line
    ensures { result ≡ bucketlet_line start end class number }
{
    let numbers = [start, end, class, number];
    line_of(b"# # code # count #\n", &numbers)
}

// A refusal's number.
#[tactic(auto, using(crate::proofs::PatternLaws::refused_pattern))]
pub fn refused_line(number: u32) -> Line
    ensures { result ≡ refused_line number }
{
    let numbers = [number];
    line_of(b"refused #\n", &numbers)
}
