// Why a call is turned away: the numbered sentences, and what a test or a call answers with them.

#![tactic(auto)]

ghost use Rattle.std.specs.Prelude.{◌≡◌};
ghost use Rattle.refusals.specs.Numbers.{number_of};

use std::error::Error;
use std::fmt;

/// The sentences of which the first that is true is answered. The number 2 has none.
#[derive(Clone, Copy, Debug, PartialEq, Eq)]
pub enum Refusal {
    ListLength = 1,
    Sum = 3,
    Theta = 4,
    Q = 5,
    Room = 6,
    Head = 7,
    WordCount = 8,
    BucketWord = 9,
    Start = 10,
    Width = 11,
    Code = 12,
    OtherList = 13,
    Range = 14,
    Entry = 15,
    Count = 16,
    Reading = 17,
    Input = 18,
    Places = 19,
    Totals = 20,
    Worksheet = 21,
    RangeCount = 22,
    RangeOrder = 23,
    LargeQ = 24,
    JournalLength = 25,
    JournalEntry = 26,
    JournalChange = 27,
}

impl Refusal {
    pub fn number(self) -> u32
        ensures { result ≡ number_of self }
    {
        self as u32
    }
}

impl fmt::Display for Refusal {
    fn fmt<W: fmt::Write>(&self, f: &mut fmt::Formatter<W>) -> fmt::Result {
        f.write_str(match self {
            Refusal::ListLength => "The frequency list has no entry or more than 65,536.",
            Refusal::Sum => "The frequencies sum to more than 1,073,741,823.",
            Refusal::Theta => "Theta is outside its limits.",
            Refusal::Q => "q is outside its limits.",
            Refusal::Room => "The lent word list is shorter than the histogram.",
            Refusal::Head =>
                "There are fewer than four words, or a head word breaks its layout or limits.",
            Refusal::WordCount => "The length is not 4 plus 5 times the buckets.",
            Refusal::BucketWord =>
                "A bucket word has a wrong kind or a set bit outside its fields.",
            Refusal::Start =>
                "The first start is not 0, or a start is not above the one before it, or not below d.",
            Refusal::Width =>
                "The listed widths exceed their bucket, or the free width is above 4,095.",
            Refusal::Code =>
                "A class is 2 or 63, a width is 0 and its class is not, or a total code is not valid; code 0 is valid exactly when all eight classes are 0.",
            Refusal::OtherList => "The frequency list is not d long.",
            Refusal::Range => "x is above y, or y is above d.",
            Refusal::Entry => "The entry is not below d.",
            Refusal::Count => "A count to be coded, as class or total, is above 1,073,741,823.",
            Refusal::Reading =>
                "A class to be read is 2, 63 or above, or a total code to be read is not valid.",
            Refusal::Input =>
                "The input is not theta, qn, qd and 1 to 4,096 frequencies: decimal numbers below 4,294,967,296 without leading zeros, one a line, each line ended by a line feed.",
            Refusal::Places =>
                "The list of running totals has fewer places than the buckets plus one, or that of answers fewer than half the worksheet's length, rounded down.",
            Refusal::Totals =>
                "A running total is not the sum of what the totals of the buckets before its place stand for.",
            Refusal::Worksheet =>
                "The worksheet's length is odd, or in one of its ranges x is above y, or y is above d.",
            Refusal::RangeCount =>
                "The search has no range, more than sixteen, or a word left over.",
            Refusal::RangeOrder => "A range of the search starts before the one ahead of it ends.",
            Refusal::LargeQ => "q is above 8.",
            Refusal::JournalLength =>
                "The journal has more than 65,536 lines, or not as many changes as entries.",
            Refusal::JournalEntry => "A line of the journal has an entry that is not below d.",
            Refusal::JournalChange =>
                "After a line of the journal a frequency is below 0, or the frequencies sum to more than 1,073,741,823.",
        })
    }
}

impl Error for Refusal {}
