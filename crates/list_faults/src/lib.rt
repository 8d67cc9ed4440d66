// What a frequency list, theta and q are held to: sentences 1, 3, 4, 5 and 24.

#![tactic(auto)]

ghost use Rattle.std.specs.Prelude.{◌≡◌, ◌≤◌, length};
ghost use Rattle.laws.specs.Sums.{sum};
ghost use Rattle.laws.specs.Refusal.{refusal};
ghost use Rattle.list_rules.specs.Limits.{max_entries, entries_good, theta_good, q_good, q_large};
ghost use Rattle.list_rules.specs.Frequencies.{list_fault};
ghost use Rattle.list_rules.specs.Quality.{quality_sentences, input_sentences};
ghost use Rattle.refusals.specs.Answers.{fault_of};

use refusals::Refusal;

// Of d, the number of entries.
pub fn entries_good(entries: u32) -> bool
    ensures { result ≡ entries_good entries }
{
    (1..=65536).contains(&entries)
}

pub fn theta_good(theta: u32) -> bool
    ensures { result ≡ theta_good theta }
{
    (1..=1048575).contains(&theta)
}

// qn and qd are tested before they are multiplied.
pub fn q_good(qn: u32, qd: u32) -> bool
    ensures { result ≡ q_good qn qd }
{
    let parts = 1..=1000;
    parts.contains(&qn) && parts.contains(&qd) && 5 * qd <= 4 * qn
}

// Whether q is above 8: builder and readers both ask here. 8 times any qd has room in 64 bits.
pub fn q_large(qn: u32, qd: u32) -> bool
    ensures { result ≡ q_large qn qd }
{
    8 * u64::from(qd) < u64::from(qn)
}

// The sum of at most 65,536 frequencies.
fn sum_of(freqs: &[u32]) -> u64
    requires { length freqs.now ≤ max_entries }
    ensures { result ≡ sum freqs.now }
{
    freqs.iter().map(|frequency| u64::from(*frequency)).sum()
}

// 1 or 3 if that sentence is true of the list and none before it is. The first is decided by the length alone.
#[tactic(auto, unfolding(laws::specs::Refusal::refusal, list_rules::specs::Frequencies::entries_fault, list_rules::specs::Frequencies::sum_fault))]
pub fn list_fault(freqs: &[u32]) -> Result<(), Refusal>
    ensures { fault_of result ≡ list_fault freqs.now }
{
    if !(1..=65536).contains(&freqs.len()) {
        return Err(Refusal::ListLength);
    }
    if 1073741823 < sum_of(freqs) {
        return Err(Refusal::Sum);
    }
    Ok(())
}

// 4, 5 or 24 if that sentence is true of theta and q and none before it is.
#[tactic(auto, unfolding(laws::specs::Refusal::refusal))]
pub fn quality_fault(theta: u32, qn: u32, qd: u32) -> Result<(), Refusal>
    ensures { fault_of result ≡ refusal (quality_sentences theta qn qd) }
{
    if !theta_good(theta) {
        return Err(Refusal::Theta);
    }
    if !q_good(qn, qd) {
        return Err(Refusal::Q);
    }
    if q_large(qn, qd) {
        return Err(Refusal::LargeQ);
    }
    Ok(())
}

// 1, 3, 4, 5 and 24: the first of these sentences that is true of what the builder is given.
#[tactic(auto, unfolding(laws::specs::Refusal::refusal, list_rules::specs::Frequencies::entries_fault, list_rules::specs::Frequencies::sum_fault))]
pub fn input_fault(freqs: &[u32], theta: u32, qn: u32, qd: u32) -> Result<(), Refusal>
    ensures { fault_of result ≡ refusal (input_sentences freqs.now theta qn qd) }
{
    list_fault(freqs)?;
    quality_fault(theta, qn, qd)
}
