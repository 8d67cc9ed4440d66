// The lending journal: its lines are replayed over a frequency list that is lent.

// `as` stands where the library has no `From`, between usize and sized numbers, and where a number is proved to fit: `try_from` adds an error that never comes.

#![tactic(auto)]

mod lines;
mod list;

ghost use Rattle.std.specs.Prelude.{◌≡◌, length};
ghost use Rattle.laws.specs.Refusal.{refusal};
ghost use Rattle.refusals.specs.Answers.{fault_of, reply_of};
ghost use Rattle.journal_rules.specs.Replaying.{outside_fault, lines_fault, replay_reply, replayed};
ghost use Rattle.journal.specs.Private.Testing.{earlier_sentences, Tested};

use lines::replay_lines;
use list::{put_changed, sum_of};
use refusals::Refusal;

// How many entries the longest list has.
const MAX_ENTRIES: usize = 65536;

// Entries and changes stay two parameters, as they are lent: of a struct that borrows them a clause would have to say `lines.entry.entries.now`.

// 25: whether there are too many lines, or entries and changes are not as many; by the lengths alone.
#[tactic(auto, using(journal_rules::proofs::ReplayLaws::many_lines, crate::proofs::FaultLaws::few_lines))]
fn lines_fault(entries: &[u32], changes: &[i32]) -> bool
    ensures { result ≡ lines_fault entries.now changes.now }
{
    65536 < entries.len() || entries.len() != changes.len()
}

// 26: whether a line's entry is outside the list.
fn outside_fault(freqs: &[u32], entries: &[u32]) -> bool
    ensures { result ≡ outside_fault freqs.now entries.now }
{
    entries.iter().any(|entry| freqs.len() <= *entry as usize)
}

// 1, 3, 25 or 26 if that sentence is true and none before it is.
#[tactic(auto, using(crate::proofs::TestedLaws::list_refused))]
fn earlier_fault(freqs: &[u32], entries: &[u32], changes: &[i32]) -> Result<(), Refusal>
    ensures { fault_of result ≡ refusal (earlier_sentences freqs.now entries.now changes.now) }
{
    list_faults::list_fault(freqs)?;
    if lines_fault(entries, changes) {
        return Err(Refusal::JournalLength);
    }
    if outside_fault(freqs, entries) {
        return Err(Refusal::JournalEntry);
    }
    Ok(())
}

// Replays the lines over a copy, and changes the list only if all of them pass.
fn replay_over(
    freqs: &mut [u32],
    copy: &mut [u32],
    entries: &[u32],
    changes: &[i32],
) -> Result<u32, Refusal>
    requires { Tested freqs.old entries.now changes.now × (length copy.old ≡ length freqs.old) }
    ensures reply { reply_of result ≡ replay_reply freqs.old entries.now changes.now }
    ensures freqs_after { freqs.new ≡ replayed freqs.old entries.now changes.now }
{
    copy.copy_from_slice(freqs);
    let sum = sum_of(freqs);
    let moved = replay_lines(copy, entries, changes, sum).ok_or(Refusal::JournalChange)?;
    put_changed(copy, entries, freqs);
    Ok(moved)
}

// Replays the lines of a journal, each an entry and a change to its frequency, over a list, and answers the list's sum afterwards. Not a word of the list is
// written before all lines have passed. Refused with 1, 3, 25, 26 or 27, it writes nothing.
#[tactic(auto, using(crate::proofs::TestedLaws::refused_reply))]
pub fn replay(freqs: &mut [u32], entries: &[u32], changes: &[i32]) -> Result<u32, Refusal>
    ensures reply { reply_of result ≡ replay_reply freqs.old entries.now changes.now }
    ensures freqs_after { freqs.new ≡ replayed freqs.old entries.now changes.now }
{
    earlier_fault(freqs, entries, changes)?;
    let n = freqs.len();
    let mut copy = [0u32; MAX_ENTRIES];
    replay_over(freqs, &mut copy[..n], entries, changes)
}
