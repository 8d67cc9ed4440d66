// Whether a histogram is one for a frequency list: the refusals of calls that take both, and the theta and q that such a call goes by.

// `as` stands where the library has no `From`, between usize and sized numbers, and where a number is proved to fit: `try_from` adds an error that never comes.

#![tactic(auto)]

ghost use Rattle.std.specs.Prelude.{◌≡◌};
ghost use Rattle.refusals.specs.Answers.{fault_of};
ghost use Rattle.fit.specs.Accepted.{check_fault, quality_of};

use list_rules::Quality;
use refusals::Refusal;

// 1, 3, 7, 24 and 8 to 13: the first of these sentences that is true.
#[tactic(auto, using(fit::proofs::FaultLaws::fault_of_list, fit::proofs::FaultLaws::fault_of_words, fit::proofs::FaultLaws::fault_of_length, fit::proofs::FaultLaws::no_fault))]
pub fn check_fault(freqs: &[u32], words: &[u32]) -> Result<(), Refusal>
    ensures { fault_of result ≡ check_fault freqs.now words.now }
{
    list_faults::list_fault(freqs)?;
    words_reading::read_fault(words)?;
    if freqs.len() != words::entry_count(words) as usize {
        return Err(Refusal::OtherList);
    }
    Ok(())
}

// The histogram's own theta and q.
pub fn quality_of(words: &[u32]) -> Quality
    ensures { result ≡ quality_of words.now }
{
    let head = words::head_at(words);
    Quality::new(head.theta, head.qn, head.qd)
}
