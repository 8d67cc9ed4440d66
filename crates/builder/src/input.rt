// What a histogram is built from.

ghost use Rattle.std.specs.Prelude.{◌≡◌, IfOk};
ghost use Rattle.laws.specs.Refusal.{refusal};
ghost use Rattle.list_rules.specs.Quality.{quality, input_sentences};
ghost use Rattle.list_rules.specs.Private.Sound.{Sound};
ghost use Rattle.refusals.specs.Answers.{fault_of};

use list_rules::Quality;
use refusals::Refusal;

// A frequency list, theta and q, each within its limits.
#[derive(Clone, Copy, Debug)]
pub(crate) struct Input<'a> {
    pub freqs: &'a [u32],
    pub q: Quality,
    ghost sound: { Sound freqs.now q },
}

impl<'a> Input<'a> {
    // Refused with 1, 3, 4, 5 or 24.
    pub(crate) fn read(freqs: &'a [u32], theta: u32, qn: u32, qd: u32) -> Result<Input<'a>, Refusal>
        ensures fault { fault_of result ≡ refusal (input_sentences freqs.now theta qn qd) }
        ensures input { IfOk result (λ i. (i.freqs.now ≡ freqs.now) × (i.q ≡ quality theta qn qd)) }
    {
        list_faults::input_fault(freqs, theta, qn, qd)?;
        let q = Quality::new(theta, qn, qd);
        Ok(Input { freqs, q })
    }
}
