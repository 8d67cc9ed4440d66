// The greatest fraction of a bucketlet's heavy ranges, kept while the bucketlet grows. Above a line that rises by this fraction the end of a range is higher
// than its start exactly if the range exceeds it. So where the lowest heavy start is no lower than the end, no heavy range with that end exceeds it, and
// nothing is searched: the end has cost one comparison, and each start becomes heavy once.

ghost use Rattle.std.specs.Prelude.{◌≡◌, ◌≤◌};
ghost use Rattle.build_bounds.specs.Private.Growing.{Between, fraction_of, Small, above, greater, lower_of, Startable, start_of, Advancing, Advanced, Searchable, Found, Widenable, Widened};

use super::bucketlet::Bucketlet;
use build_bounds::{Bound, Kept, Over, Point, Ratio};

// What follows of ratios, no method: an open method of the crate of the laws, where their type stands, may not ask that the numbers are small.

// The fraction of the range between two points.
fn fraction(over: Over, start: Point, end: Point) -> Ratio
    requires { (start.at ≤ end.at) × (start.count ≤ end.count) }
    ensures { result ≡ fraction_of over start end }
{
    let count = end.count - start.count;
    let length = (end.at - start.at) as u64;
    match over {
        Over::Length => Ratio {
            top: count,
            bottom: length,
        },
        Over::Count => Ratio {
            top: length,
            bottom: count,
        },
    }
}

fn is_above(f: Ratio, p: Ratio) -> bool
    requires { Small f × Small p }
    ensures { result ≡ above f p }
{
    p.top * f.bottom < f.top * p.bottom
}

// The lower of two starts, the second being the later one.
fn lower_of(over: Over, p: Ratio, lowest: Point, next: Point) -> Point
    requires { Between p lowest next }
    ensures { result ≡ lower_of over p lowest next }
{
    let f = fraction(over, lowest, next);
    if is_above(f, p) { lowest } else { next }
}

// The greater of two ratios.
pub(crate) fn greater_of(p: Ratio, f: Ratio) -> Ratio
    requires { Small f × Small p }
    ensures { result ≡ greater p f }
{
    if is_above(f, p) { f } else { p }
}

// The start of the range with this end whose count and length are the two parts of this fraction.
fn start_of(over: Over, f: Ratio, end: Point) -> Point
    requires { Startable over f end }
    ensures { result ≡ start_of over f end }
{
    match over {
        Over::Length => Point {
            at: end.at - f.bottom as usize,
            count: end.count - f.top,
        },
        Over::Count => Point {
            at: end.at - f.top as usize,
            count: end.count - f.bottom,
        },
    }
}

impl Bucketlet<'_> {
    // The lowest start and the first light one for the next end.
    fn advanced(&self, b: Bound, known: Kept, end: Point) -> Kept
        requires { Advancing b self.now.freqs.now self.now.first known end }
        ensures { Advanced b self.now.freqs.now self.now.first result end }
    {
        let mut lowest = known.lowest;
        let mut light = known.light;
        // No `for`: the point goes on with its count, until no range from it is heavy.
        while b.threshold < end.count - light.count {
            lowest = lower_of(b.over, known.greatest, lowest, light);
            light = self.one_later(light);
        }
        Kept {
            lowest,
            light,
            ..known
        }
    }

    // The greatest fraction with the ranges to an end. The starts are tried from the last heavy one down, until the range from a start to that last one is
    // heavy. Then the range to the end splits there into two heavy ones, of which the first has an earlier end and the second has been tried, and its
    // fraction is at most the greater of theirs. Every start before it splits at the same place.
    fn greatest_found(&self, b: Bound, known: Kept, end: Point) -> Ratio
        requires { Searchable b self.now.freqs.now self.now.first known end }
        ensures { Found b self.now.freqs.now self.now.first known end result }
    {
        let last = self.one_earlier(known.light);
        let mut greatest = known.greatest;
        let mut start = known.light;
        // No `for`: the point steps back with its count.
        while 0 < start.at {
            start = self.one_earlier(start);
            if b.threshold < last.count - start.count {
                break;
            }
            greatest = greater_of(greatest, fraction(b.over, start, end));
        }
        greatest
    }

    // What is kept where a range to the end exceeds the greatest fraction. The start of the range with the new one is as high as the end above the new line,
    // and no heavy start is lower: its range would have a greater fraction still.
    fn searched(&self, b: Bound, known: Kept, end: Point) -> Kept
        requires { Searchable b self.now.freqs.now self.now.first known end }
        ensures { Widened b self.now.freqs.now self.now.first end.at result }
    {
        let greatest = self.greatest_found(b, known, end);
        Kept {
            greatest,
            lowest: start_of(b.over, greatest, end),
            light: known.light,
        }
    }

    // What is kept with the ranges to the next end.
    #[tactic(auto, using(crate::proofs::EarlyLaws::none_heavy))]
    pub(crate) fn widened(&self, b: Bound, known: Kept, end: Point) -> Kept
        requires { Widenable b self.now.freqs.now self.now.first known end }
        ensures { Widened b self.now.freqs.now self.now.first end.at result }
    {
        let ready = self.advanced(b, known, end);
        if ready.light.at == 0 {
            return ready;
        }
        if is_above(fraction(b.over, ready.lowest, end), ready.greatest) {
            return self.searched(b, ready, end);
        }
        ready
    }
}
