// Lines replayed one after the other, as long as each keeps both bounds.

ghost use Rattle.std.specs.Prelude.{◌≡◌, ◌<◌, length};
ghost use Rattle.laws.specs.Sums.{sum};
ghost use Rattle.journal.specs.Private.Changing.{changed_by, line_changed, line_left, lines_changed, LinesLeft, Replayable};

// What a count and the change to it come to, if that is neither below 0 nor above the limit. The library's `checked_add_signed` and `try_from` ask for the sign
// first, and a line takes half as long again by either.
fn with_change(count: u32, change: i32) -> Option<u32>
    ensures { result ≡ changed_by count change }
{
    let moved = i64::from(count) + i64::from(change);
    if !(0..=1073741823).contains(&moved) {
        return None;
    }
    Some(moved as u32)
}

// Replays one line over a list with the sum `old`. Answers its sum after the line, if both bounds hold. Frequency and sum are both held to both bounds: a
// frequency is above the limit only where the sum is, and the sum below 0 only where a frequency is.
fn replay_line(freqs: &mut [u32], entry: u32, change: i32, old: u32) -> Option<u32>
    requires { (entry < length freqs.old) × (old ≡ sum freqs.old) }
    ensures value { result ≡ line_changed freqs.old entry change }
    ensures freqs_after { freqs.new ≡ line_left freqs.old entry change }
{
    let at = entry as usize;
    let frequency = with_change(freqs[at], change)?;
    let new = with_change(old, change)?;
    freqs[at] = frequency;
    Some(new)
}

// Replays all lines over a list with the sum `old`. Answers its sum after them, if both bounds hold after each.
pub(crate) fn replay_lines(
    freqs: &mut [u32],
    entries: &[u32],
    changes: &[i32],
    old: u32,
) -> Option<u32>
    requires { Replayable freqs.old entries.now changes.now × (old ≡ sum freqs.old) }
    ensures value { result ≡ lines_changed freqs.old entries.now changes.now }
    ensures lines_left { LinesLeft freqs.old entries.now changes.now freqs.new }
{
    let mut sum = old;
    // no zip: that a change with sign fits its 32 bits is known to a proof only where it is read by its place
    for (i, entry) in entries.iter().enumerate() {
        sum = replay_line(freqs, *entry, changes[i], sum)?;
    }
    Some(sum)
}
