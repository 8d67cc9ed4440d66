// The width of a bucketlet: grown an entry at a time, while the bounds on its number over its width hold.

ghost use Rattle.std.specs.Prelude.{◌≡◌, ◌≤◌};
ghost use Rattle.counts_rules.specs.Limit.{limit};
ghost use Rattle.counts_rules.specs.Class.{class_value};
ghost use Rattle.build_rules.specs.Width.{width};
ghost use Rattle.build_bounds.specs.Private.Growing.{Testable, passes, up_bound, Reached, Continued, unsearched};

use super::bucketlet::Bucketlet;
use build_bounds::{Bound, Bounds, Grown, Kept, Over, Point, Ratio};
use list_rules::Quality;

// Up to this width the ranges of a bucketlet are few, and all are tried.
const FEW: usize = 8;

// The number that stands for a count: one within the limit has a class, and its class is in use.
fn class_value(count: u64) -> u64
    requires { count ≤ limit }
    ensures { result ≡ class_value count }
{
    let class = counts::class_of(count as u32).unwrap();
    let Ok(number) = counts::number_of_class(class) else {
        unreachable!()
    };
    u64::from(number)
}

// Whether the number s over the width w lies between the bounds.
fn passes(q: Quality, b: Bounds, s: u64, w: u64) -> bool
    requires { Testable q b s w }
    ensures { result ≡ passes q b s w }
{
    if q.qn * s * b.low.bottom < q.qd * b.low.top * w {
        return false;
    }
    if q.qn * b.up.bottom * w < q.qd * b.up.top * s {
        return false;
    }
    b.longest * s <= q.theta * w
}

// What is kept of a bound before its starts are looked at.
fn unsearched(greatest: Ratio) -> Kept
    ensures { result ≡ unsearched greatest }
{
    let first = Point { at: 0, count: 0 };
    Kept {
        greatest,
        lowest: first,
        light: first,
    }
}

impl Bucketlet<'_> {
    // The largest count whose q-fold is at most theta.
    fn threshold(&self) -> u64
        ensures { result ≡ (up_bound self.now.q).threshold }
    {
        self.q.qd * self.q.theta / self.q.qn
    }

    // The first widths, up to a limit, by every range.
    fn first_widths(&self) -> Grown
        ensures { Reached self.now.q self.now.freqs.now self.now.first self.now.most result }
    {
        let threshold = self.threshold();
        let none = Ratio { top: 0, bottom: 1 };
        let mut bounds = Bounds {
            low: none,
            up: none,
            longest: 0,
        };
        let mut reached = Point { at: 0, count: 0 };
        // No `for`: what goes on is a point, which has its place and its count.
        while reached.at < self.most {
            let end = self.one_later(reached);
            let wider = self.with_end(end.at, threshold, bounds);
            if !passes(self.q, wider, class_value(end.count), end.at as u64) {
                break;
            }
            bounds = wider;
            reached = end;
        }
        Grown { reached, bounds }
    }

    // The width, from one on up to which every width fits.
    fn width_from(&self, known: Grown) -> usize
        requires { Continued self.now.q self.now.freqs.now self.now.first self.now.most known }
        ensures { result ≡ width self.now.q self.now.freqs.now self.now.first self.now.most }
    {
        let low_bound = Bound {
            over: Over::Length,
            threshold: self.q.theta,
        };
        let up_bound = Bound {
            over: Over::Count,
            threshold: self.threshold(),
        };
        let mut low = unsearched(known.bounds.low);
        let mut up = unsearched(known.bounds.up);
        let mut longest = known.bounds.longest;
        let mut grown = known.reached;
        // No `for`, as above.
        while grown.at < self.most {
            let end = self.one_later(grown);
            low = self.widened(low_bound, low, end);
            up = self.widened(up_bound, up, end);
            longest = longest.max((end.at - up.light.at) as u64);
            let bounds = Bounds {
                low: low.greatest,
                up: up.greatest,
                longest,
            };
            if !passes(self.q, bounds, class_value(end.count), end.at as u64) {
                break;
            }
            grown = end;
        }
        grown.at
    }

    // The width of the bucketlet at entry a. Kept from width to width: the greatest count/length of the ranges with a count above theta; of those whose
    // count times q is above theta the greatest length/count; and the length of the longest of the others, whose estimate may be up to theta.
    #[tactic(auto, using(crate::proofs::EarlyLaws::width_early_lem))]
    pub(crate) fn grow(&self) -> usize
        ensures { result ≡ width self.now.q self.now.freqs.now self.now.first self.now.most }
    {
        let few = Bucketlet {
            freqs: self.freqs,
            first: self.first,
            most: self.most.min(FEW),
            q: self.q,
        };
        let known = few.first_widths();
        if known.reached.at < few.most {
            return known.reached.at;
        }
        self.width_from(known)
    }
}
