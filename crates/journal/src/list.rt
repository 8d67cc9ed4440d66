// The list, added up before the lines are replayed, and changed after them.

ghost use Rattle.std.specs.Prelude.{◌≡◌, ◌≤◌};
ghost use Rattle.laws.specs.Sums.{sum};
ghost use Rattle.counts_rules.specs.Limit.{limit};
ghost use Rattle.journal.specs.Private.Changing.{ElseSame};

pub(crate) fn sum_of(freqs: &[u32]) -> u32
    requires { sum freqs.now ≤ limit }
    ensures { result ≡ sum freqs.now }
{
    freqs.iter().sum()
}

// Writes the frequencies of the lines' entries into a list that is the same elsewhere.
pub(crate) fn put_changed(copy: &[u32], entries: &[u32], freqs: &mut [u32])
    requires { ElseSame copy.now entries.now freqs.old 0 }
    ensures { freqs.new ≡ copy.now }
{
    for entry in entries {
        let at = *entry as usize;
        freqs[at] = copy[at];
    }
}
