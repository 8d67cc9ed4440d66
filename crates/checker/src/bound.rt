// The first start in a bucketlet from which some range does not fit, found without trying every pair of ends. A range fits exactly if it keeps two
// bounds. Each compares two measures of the range, and these are differences between its two ends; so, from the right, each start is looked at once
// and each end at most once.

ghost use Rattle.std.specs.Prelude.{◌≡◌, ◌+◌, ◌-◌, ◌*◌, get_or};
ghost use Rattle.laws.specs.Sums.{part_sum};
ghost use Rattle.checker.specs.Private.Searching.{FirstStart, unfit};
ghost use Rattle.checker.specs.Private.Breaking.{stepped, Steps, Counted, FarKnown, FarAll, range_breaks, bound_of, count_bound, estimate_bound};

use super::range::Bucketlet;

// A measure of a range: so much for each of its count and so much for each of its entries.
#[derive(Clone, Copy, Debug, PartialEq, Eq)]
pub(crate) struct Measure {
    pub count: u64,
    pub entry: u64,
}

// A bound on the ranges of the bucketlet of this width that starts at this entry: a range breaks it if its measure `over` is above `least` and above
// its measure `under`.
#[derive(Clone, Copy, Debug, PartialEq, Eq)]
pub(crate) struct Bound {
    pub start: usize,
    pub width: usize,
    pub over: Measure,
    pub under: Measure,
    pub least: u64,
}

// A point between the entries of a bucketlet, with the measure `over` of those before it and the measure `under` of those after it. The sum of the two, its
// height, is larger at the end of a range than at its start exactly if `over` of the range is above `under`.
#[derive(Clone, Copy, Debug, PartialEq, Eq)]
pub(crate) struct Point {
    pub at: usize,
    pub over: u64,
    pub under: u64,
}

// The ends far from a start, such that `over` of the range is above `least`: all after `last`. Their greatest height is `highest`, 0 if there are none.
#[derive(Clone, Copy, Debug, PartialEq, Eq)]
pub(crate) struct FarEnds {
    pub last: Point,
    pub highest: u64,
}

impl Bound {
    // The point one entry earlier.
    fn one_earlier(self, freqs: &[u32], p: Point) -> Point
        requires { Steps freqs.now self p }
        ensures { result ≡ stepped self (get_or freqs.now (self.start + (p.at - 1)) 0) p }
    {
        let at = p.at - 1;
        let count = u64::from(freqs[self.start + at]);
        Point {
            at,
            over: p.over - (self.over.count * count + self.over.entry),
            under: p.under + (self.under.count * count + self.under.entry),
        }
    }

    // The far ends of a start, where those of the start after it are known.
    fn farther(self, freqs: &[u32], start: Point, known: FarEnds) -> FarEnds
        requires { FarKnown freqs.now self start known }
        ensures { FarAll freqs.now self start result }
    {
        let reach = start.over + self.least;
        let mut last = known.last;
        let mut highest = known.highest;
        // No `for`: the point steps back with its measures, until it is within reach.
        while reach < last.over {
            highest = highest.max(last.over + last.under);
            last = self.one_earlier(freqs, last);
        }
        FarEnds { last, highest }
    }

    // The first start of a range that breaks the bound, where the bucketlet's count is known; its width if none does.
    fn first_break(self, freqs: &[u32], count: u64) -> usize
        requires { Counted freqs.now self count }
        ensures { FirstStart self.width (range_breaks self freqs.now) 0 result }
    {
        let mut start = Point {
            at: self.width,
            over: self.over.count * count + self.over.entry * (self.width as u64),
            under: 0,
        };
        let mut ends = FarEnds {
            last: start,
            highest: 0,
        };
        let mut first = self.width;
        // No `for`: the point steps back with its measures, which hold its place.
        while 0 < start.at {
            start = self.one_earlier(freqs, start);
            ends = self.farther(freqs, start, ends);
            if start.over + start.under < ends.highest {
                first = start.at;
            }
        }
        first
    }
}

impl Bucketlet<'_> {
    // The bound of two measures. Both bounds compare theta times qd and the width.
    fn bound_of(&self, over: Measure, under: Measure) -> Bound
        ensures { result ≡ bound_of self.now.quality self.now.start self.now.width over under }
    {
        Bound {
            start: self.start,
            width: self.width,
            over,
            under,
            least: self.quality.qd * (self.quality.theta * self.width as u64),
        }
    }

    // A range breaks this bound if its count is above theta and more than q times its estimate.
    fn count_bound(&self) -> Bound
        ensures { result ≡ count_bound self.now.quality self.now.start self.now.width self.now.number }
    {
        let over = Measure {
            count: self.quality.qd * self.width as u64,
            entry: 0,
        };
        let under = Measure {
            count: 0,
            entry: self.quality.qn * self.number,
        };
        self.bound_of(over, under)
    }

    // And this one if its estimate is above theta and more than q times its count.
    fn estimate_bound(&self) -> Bound
        ensures { result ≡ estimate_bound self.now.quality self.now.start self.now.width self.now.number }
    {
        let over = Measure {
            count: 0,
            entry: self.quality.qd * self.number,
        };
        let under = Measure {
            count: self.quality.qn * self.width as u64,
            entry: 0,
        };
        self.bound_of(over, under)
    }

    // The first start of a range that does not fit, where the count is known; the width if all fit.
    pub(crate) fn first_unfit(&self, count: u64) -> usize
        requires { count ≡ part_sum self.now.start self.now.width self.now.freqs.now }
        ensures { FirstStart self.now.width (unfit self.now.quality self.now.freqs.now self.now.start self.now.width self.now.number) 0 result }
    {
        let by_count = self.count_bound().first_break(self.freqs, count);
        let by_estimate = self.estimate_bound().first_break(self.freqs, count);
        by_count.min(by_estimate)
    }
}
