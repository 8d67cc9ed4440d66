// One line of the input.

ghost use Rattle.std.specs.Prelude.{◌≡◌, ◌+◌, ◌-◌, ◌*◌, eqb, take};
ghost use Rattle.std.specs.List.{position};
ghost use Rattle.sheet_rules.specs.Limits.{max_digits};
ghost use Rattle.sheet_rules.specs.Input.{line_feed, leading_zero};
ghost use Rattle.sheet_input.specs.Private.Lines.{small_number, number_of, FirstNumber};

// How many digits a number has at most.
const MAX_DIGITS: usize = 10;

// A number with one digit more, if the byte is a digit and the number below 2^32.
fn with_digit(number: u32, byte: u8) -> Option<u32>
    ensures { result ≡ small_number byte (10 * number + (byte - 48)) }
{
    if !byte.is_ascii_digit() {
        return None;
    }
    number.checked_mul(10)?.checked_add(u32::from(byte - b'0'))
}

fn is_zero_led(line: &[u8]) -> bool
    ensures { result ≡ leading_zero line.now }
{
    line.len() > 1 && line[0] == b'0'
}

// The number that a line is, without its line feed.
#[tactic(auto, using(crate::proofs::NumberLaws::no_bytes, crate::proofs::NumberLaws::zero_led, crate::proofs::NumberLaws::read_is))]
fn number_of(line: &[u8]) -> Option<u32>
    ensures { result ≡ number_of line.now }
{
    if line.is_empty() || is_zero_led(line) {
        return None;
    }
    let mut number: u32 = 0;
    for byte in line {
        number = with_digit(number, *byte)?;
    }
    Some(number)
}

// Where the first line ends, if it is no longer than a number may be: of a longer one no more bytes are read.
fn line_end(input: &[u8]) -> Option<usize>
    ensures { result ≡ position (λ c. eqb c line_feed) (take (max_digits + 1) input.now) }
{
    input
        .iter()
        .take(MAX_DIGITS + 1)
        .position(|byte| *byte == b'\n')
}

// The number of the first line, and what follows its line feed; none if it is no number or has no line feed.
#[tactic(auto, using(crate::proofs::LineLaws::no_near_end, crate::proofs::LineLaws::near_broken, crate::proofs::LineLaws::near_number))]
pub(crate) fn first_number(input: &[u8]) -> Option<(u32, &[u8])>
    ensures { FirstNumber input.now result }
{
    let end = line_end(input)?;
    let number = number_of(&input[..end])?;
    Some((number, &input[end + 1..]))
}
