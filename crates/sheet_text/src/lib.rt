// What the exam sheet prints for an input.

#![tactic(auto)]

mod printing;

ghost use Rattle.std.specs.Prelude.{◌≡◌, cond, length};
ghost use Rattle.sheet_rules.specs.Input.{as_described, fault_line};
ghost use Rattle.sheet_rules.specs.Sheet.{sheet_fault, sheet, filled};
ghost use Rattle.sheet_text.specs.Printed.{error_number, number_of, line_of};
ghost use Rattle.sheet_text.specs.Private.Printing.{Outcome};

use printing::Sheet;
use refusals::Refusal;
use sheet_input::InputFault;
use sheet_rules::{MAX_SHEET_WORDS, SHEET_BYTES};
use std::error::Error;
use std::fmt;

/// Why an input is refused: it is not as described, or the builder refuses its list.
#[derive(Clone, Copy, Debug, PartialEq, Eq)]
pub enum SheetError {
    Input(InputFault),
    List(Refusal),
}

impl SheetError {
    pub fn number(self) -> u32
        ensures { result ≡ error_number self }
    {
        match self {
            SheetError::Input(_) => Refusal::Input.number(),
            SheetError::List(refusal) => refusal.number(),
        }
    }
}

impl fmt::Display for SheetError {
    fn fmt<W: fmt::Write>(&self, f: &mut fmt::Formatter<W>) -> fmt::Result {
        match self {
            SheetError::Input(fault) => write!(f, "{fault}"),
            SheetError::List(refusal) => write!(f, "{refusal}"),
        }
    }
}

impl Error for SheetError {}

impl From<InputFault> for SheetError {
    ghost use Rattle.std.specs.Prelude.{◌≡◌};
    ghost use Rattle.sheet_text.specs.declared.SheetError.TheVariants.{Input};

    ghost from_gives = { λ fault e. e ≡ Input fault };

    fn from(fault: InputFault) -> SheetError {
        Self::Input(fault)
    }
}

impl From<Refusal> for SheetError {
    ghost use Rattle.std.specs.Prelude.{◌≡◌};
    ghost use Rattle.sheet_text.specs.declared.SheetError.TheVariants as at;

    ghost from_gives = { λ refusal e. e ≡ at.List refusal };

    fn from(refusal: Refusal) -> SheetError {
        Self::List(refusal)
    }
}

/// How many bytes are printed, and why the input is refused, if it is: a refusal is printed too.
#[derive(Clone, Copy, Debug, PartialEq, Eq)]
pub struct Printed {
    pub length: usize,
    pub refused: Option<SheetError>,
}

// Puts the sheet of an input that is not refused, and nothing of another.
fn put_input(input: &[u8], sheet: &mut Sheet) -> Result<(), SheetError>
    requires { sheet.old.at ≡ 0 }
    ensures same_lender { sheet.new.out.ghost_name ≡ sheet.old.out.ghost_name }
    ensures outcome { Outcome input.now sheet.old.out.now sheet.new.out.now sheet.new.at result }
{
    let numbers = sheet_input::numbers_of(input)?;
    let mut words = [0u32; MAX_SHEET_WORDS];
    let n = builder::build(
        numbers.frequencies(),
        numbers.theta(),
        numbers.qn(),
        numbers.qd(),
        &mut words,
    )?;
    sheet.put_histogram(&words[..n]);
    Ok(())
}

// Fills the first bytes of `out` with what is printed for an input; those after them are as they were.
pub fn put_sheet(input: &[u8], out: &mut [u8; SHEET_BYTES]) -> Printed
    ensures length { result.length ≡ length (sheet input.now) }
    ensures refused { number_of result.refused ≡ sheet_fault input.now }
    ensures line { line_of result.refused ≡ cond (as_described input.now) 0 (fault_line input.now) }
    ensures out_after { out.new ≡ filled out.old (sheet input.now) }
{
    let mut sheet = Sheet::new(out);
    match put_input(input, &mut sheet) {
        Ok(()) => Printed {
            length: sheet.len(),
            refused: None,
        },
        Err(error) => {
            sheet.put(sheet_lines::refused_line(error.number()));
            Printed {
                length: sheet.len(),
                refused: Some(error),
            }
        }
    }
}
