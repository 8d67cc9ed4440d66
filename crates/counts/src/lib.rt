// The coding of counts: the class and the total code of a count, and the numbers that they stand for.

#![tactic(auto)]

ghost use Rattle.std.specs.Prelude.{◌≡◌, cond, ◌≤◌, leb, eqb};
ghost use Rattle.counts_rules.specs.Limit.{limit, countable};
ghost use Rattle.counts_rules.specs.Form.{base, used_class};
ghost use Rattle.counts_rules.specs.Class.{class_of};
ghost use Rattle.counts_rules.specs.Total.{highest_bit, shift, middle, valid_fields, valid_code};
ghost use Rattle.counts_tables.specs.Entries.{start_of};
ghost use Rattle.refusals.specs.Answers.{reply_of};
ghost use Rattle.counts.specs.Reply.{class_reply, class_meaning, total_reply, total_meaning};

use refusals::Refusal;

// The largest count that is coded.
const LIMIT: u32 = 1073741823;

// The whole part of (√2 - 1) · 2^32: the C of the paper's Figure 3.
const SQRT_2_LESS_1: u32 = 1779033703;

// Whether a count can be coded, as class or total.
fn is_countable(count: u32) -> bool
    ensures { result ≡ countable count }
{
    count <= LIMIT
}

// The place of a count's highest set bit, counted from 0.
fn highest_bit(count: u32) -> u32
    requires { 1 ≤ count }
    ensures { (result ≡ highest_bit count) × (result ≤ 31) }
{
    31 - count.leading_zeros()
}

// 1 if a count is in a class or above it, else 0.
fn reached(class: u32, count: u32) -> u32
    ensures { (result ≡ cond (leb (start_of class) count) 1 0) × (result ≤ 1) }
{
    u32::from(counts_tables::class_start(class) <= count)
}

// The class of a count from 1 up. Two classes make less than one power of two, so it is at most three classes above that of the power; counting those that
// are reached needs no loop.
fn class_search(count: u32) -> u32
    requires { (1 ≤ count) × (count ≤ limit) }
    ensures { result ≡ class_of base count }
{
    let least = 2 * highest_bit(count) + 1;
    least + reached(least + 1, count) + reached(least + 2, count) + reached(least + 3, count)
}

// The class of a count, or 16.
#[tactic(auto, using(crate::proofs::CountLaws::no_class), unfolding(crate::specs::Reply::class_reply))]
pub fn class_of(count: u32) -> Result<u32, Refusal>
    ensures { reply_of result ≡ class_reply count }
{
    if !is_countable(count) {
        return Err(Refusal::Count);
    }
    if count == 0 {
        return Ok(0);
    }
    Ok(class_search(count))
}

// Whether a class is one that counts have.
pub fn is_used_class(class: u32) -> bool
    ensures { result ≡ used_class class }
{
    class != 2 && class < 63
}

// The number that a class stands for, or 17.
#[tactic(auto, using(crate::proofs::CountLaws::number_in), unfolding(crate::specs::Reply::class_meaning))]
pub fn number_of_class(class: u32) -> Result<u32, Refusal>
    ensures { reply_of result ≡ class_meaning class }
{
    if !is_used_class(class) {
        return Err(Refusal::Reading);
    }
    Ok(counts_tables::class_number(class))
}

// Total codes take the steps of the paper's Figure 3, with its k as 7 and its s as 5; docs/PAPER.md has what is corrected.

// The place of a total's highest set bit less 6, or 0 below 128.
#[tactic(auto, using(crate::proofs::CountLaws::not_shifted))]
fn shift_of(total: u32) -> u32
    ensures { result ≡ shift total }
{
    if total < 128 {
        return 0;
    }
    highest_bit(total) - 6
}

// The code of a total, or 16: its highest seven bits above the shift that they had.
#[tactic(auto, unfolding(crate::specs::Reply::total_reply))]
pub fn code_of_total(total: u32) -> Result<u32, Refusal>
    ensures { reply_of result ≡ total_reply total }
{
    if !is_countable(total) {
        return Err(Refusal::Count);
    }
    let shift = shift_of(total);
    let bits = total >> shift;
    Ok((bits << 5) | shift)
}

// The least bits under a shift.
fn least_bits(shift: u32) -> u32
    ensures { result ≡ cond (eqb shift 0) 0 64 }
{
    if shift == 0 { 0 } else { 64 }
}

// Whether the two fields are those of a valid total code.
#[tactic(auto, using(crate::proofs::CountLaws::bits_too_large, crate::proofs::CountLaws::shift_too_large))]
fn is_valid(bits: u32, shift: u32) -> bool
    ensures { result ≡ valid_fields bits shift }
{
    if 127 < bits {
        return false;
    }
    if 23 < shift {
        return false;
    }
    least_bits(shift) <= bits
}

// Whether a code is a valid total code.
pub fn is_total_code(code: u32) -> bool
    ensures { result ≡ valid_code code }
{
    is_valid(code >> 5, code & 31)
}

// The middle of a shift. Shift 0 has a branch of its own, since a word of 32 bits cannot be moved by 32.
fn middle_of(shift: u32) -> u32
    requires { shift ≤ 23 }
    ensures { result ≡ middle shift }
{
    match shift {
        0 => 0,
        _ => SQRT_2_LESS_1 >> (32 - shift),
    }
}

// The number that a total code stands for, or 17.
#[tactic(auto, unfolding(crate::specs::Reply::total_meaning))]
pub fn number_of_total(code: u32) -> Result<u32, Refusal>
    ensures { reply_of result ≡ total_meaning code }
{
    if !is_total_code(code) {
        return Err(Refusal::Reading);
    }
    let shift = code & 31;
    let bits = code >> 5;
    Ok((bits << shift) | middle_of(shift))
}
