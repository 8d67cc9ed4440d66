// The numbers of the exam sheet's input.

#![tactic(auto)]

mod line;

ghost use Rattle.std.specs.Prelude.{◌≡◌, ◌+◌, ◌≤◌, length, get_or, drop};
ghost use Rattle.sheet_rules.specs.Limits.{max_frequencies, most_numbers};
ghost use Rattle.sheet_input.specs.Numbers.{input_numbers};

use line::first_number;
use refusals::Refusal;
use sheet_rules::{LEAST_NUMBERS, MOST_NUMBERS};
use std::error::Error;
use std::fmt;
use std::marker::Model;

/// An input that is not as described, and the line where it stops being so, counted from 1.
#[derive(Clone, Copy, Debug, PartialEq, Eq)]
pub struct InputFault {
    pub line: usize,
}

impl fmt::Display for InputFault {
    fn fmt<W: fmt::Write>(&self, f: &mut fmt::Formatter<W>) -> fmt::Result {
        write!(
            f,
            "{} It stops being so at line {}.",
            Refusal::Input,
            self.line
        )
    }
}

impl Error for InputFault {}

impl From<InputFault> for Refusal {
    ghost use Rattle.std.specs.Prelude.{◌≡◌};
    ghost use Rattle.refusals.specs.declared.Refusal.TheVariants.{Input};

    ghost from_gives = { λ _ e. e ≡ Input };

    fn from(_fault: InputFault) -> Refusal {
        Self::Input
    }
}

/// The numbers of an input: theta, qn and qd, then 1 to 4,096 frequencies. They stand in an array, since no memory is asked for.
#[derive(Clone, Copy, Debug, PartialEq, Eq)]
pub struct Numbers {
    values: [u32; MOST_NUMBERS],
    count: usize,
}

// Clauses see the numbers; what stands after them is 0, so that equal numbers are equal arrays.
impl Model for Numbers {
    ghost use Rattle.std.specs.Prelude.{List, ℕ, length, take};
    ghost use Rattle.laws.specs.Padded.{padded};
    ghost use Rattle.sheet_rules.specs.Limits.{most_numbers};
    ghost use Rattle.sheet_input.specs.Private.Held.{Held};

    ghost Value = { List ℕ };

    ghost view = { λ n. take n.count n.values };

    ghost invariant = { λ n. Held n.values n.count };

    ghost inverse = { λ ns. record { values = padded most_numbers ns; count = length ns } };

    ghost inverse_ok = { λ n h i. record { values = h.all i; count = h.front i } };
}

impl Numbers {
    pub fn as_slice(&self) -> &[u32]
        ensures { result.now ≡ self.now }
    {
        &self.values[..self.count]
    }

    pub fn theta(&self) -> u32
        ensures { result ≡ get_or self.now 0 0 }
    {
        self.values[0]
    }

    pub fn qn(&self) -> u32
        ensures { result ≡ get_or self.now 1 0 }
    {
        self.values[1]
    }

    pub fn qd(&self) -> u32
        ensures { result ≡ get_or self.now 2 0 }
    {
        self.values[2]
    }

    pub fn frequencies(&self) -> &[u32]
        ensures list { result.now ≡ drop 3 self.now }
        ensures few { length result.now ≤ max_frequencies }
    {
        &self.values[3..self.count]
    }
}

fn fault_after(lines: usize) -> InputFault
    requires { lines ≤ most_numbers }
    ensures { result ≡ record { line = lines + 1 } }
{
    InputFault { line: lines + 1 }
}

/// The numbers of an input, or where it stops being as described.
pub fn numbers_of(input: &[u8]) -> Result<Numbers, InputFault>
    ensures { result ≡ input_numbers input.now }
{
    let mut values = [0u32; MOST_NUMBERS];
    let mut count: usize = 0;
    let mut rest = input;
    // No `for`: what goes on is the rest, which is shorter by a line each time.
    while !rest.is_empty() {
        let (value, next) = first_number(rest).ok_or(fault_after(count))?;
        if count == MOST_NUMBERS {
            return Err(fault_after(count));
        }
        values[count] = value;
        count += 1;
        rest = next;
    }
    if count < LEAST_NUMBERS {
        return Err(fault_after(count));
    }
    Ok(Numbers { values, count })
}
