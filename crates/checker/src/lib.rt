// The checker: whether a histogram is accepted for a frequency list, and else what fails first.

// `as` stands where the library has no `From`, between usize and sized numbers, and where a number is proved to fit: `try_from` adds an error that never comes.

#![tactic(auto)]

mod bound;
mod bucket;
mod range;

ghost use Rattle.std.specs.Prelude.{◌≡◌};
ghost use Rattle.check_rules.specs.Reply.{answer_of};
ghost use Rattle.check_rules.specs.Checking.{check_reply};

use bucket::Matched;
use check_rules::Verdict;
use refusals::Refusal;

// Whether the histogram is accepted for the list, and else what fails first.
pub fn check(freqs: &[u32], words: &[u32]) -> Result<Verdict, Refusal>
    ensures { answer_of result ≡ check_reply freqs.now words.now }
{
    check_faults::check_fault(freqs, words)?;
    let quality = check_faults::quality_of(words);
    let matched = Matched {
        freqs,
        words,
        quality,
    };
    Ok(match matched.check() {
        Ok(()) => Verdict::Accepted,
        Err(failing) => Verdict::Fails(failing),
    })
}
