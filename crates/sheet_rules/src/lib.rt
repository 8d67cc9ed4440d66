// The exam sheet: what its input is and what is printed for it, what is proved of that, and the sizes that code and definitions share.

#![tactic(auto)]

ghost use Rattle.std.specs.Prelude.{[], ◌∷◌, ◌≡◌};
ghost use Rattle.sheet_rules.specs.Limits.{max_frequencies, least_numbers, most_numbers, max_input, max_sheet_words, line_bytes, sheet_bytes};

use words_rules::{BUCKET_WORDS, HEAD_WORDS};

pub const MAX_FREQUENCIES: usize = 4096;

// An input's numbers: theta, qn and qd, then the frequencies.
pub const LEAST_NUMBERS: usize = 3 + 1;

pub const MOST_NUMBERS: usize = 3 + MAX_FREQUENCIES;

// The longest input's bytes: ten digits and a line feed a line.
pub const MAX_INPUT: usize = (10 + 1) * MOST_NUMBERS;

// How many words the histogram of the longest list has. Not by div_ceil: Rattle takes no call in a constant's value yet.
pub const MAX_SHEET_WORDS: usize = HEAD_WORDS + BUCKET_WORDS * ((MAX_FREQUENCIES + 7) / 8);

// The bytes that are lent for a line and for a sheet.
pub const LINE_BYTES: usize = 80;

pub const SHEET_BYTES: usize = 163840;

// They are those of the definitions.
pub fn sizes() -> [usize; 7]
    ensures { result ≡ max_frequencies ∷ least_numbers ∷ most_numbers ∷ max_input ∷ max_sheet_words ∷ line_bytes ∷ sheet_bytes ∷ [] }
{
    [
        MAX_FREQUENCIES,
        LEAST_NUMBERS,
        MOST_NUMBERS,
        MAX_INPUT,
        MAX_SHEET_WORDS,
        LINE_BYTES,
        SHEET_BYTES,
    ]
}
