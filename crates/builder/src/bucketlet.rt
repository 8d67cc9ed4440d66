// A bucketlet while its width is looked for, and the points between its entries.

ghost use Rattle.std.specs.Prelude.{◌≡◌, suc, ◌-◌, ◌<◌};
ghost use Rattle.build_bounds.specs.Private.Growing.{Growable, Movable, point};

use build_bounds::Point;
use list_rules::Quality;

// The bucketlet at an entry of a list, which grows to `most` entries at most.
#[derive(Clone, Copy, Debug)]
pub(crate) struct Bucketlet<'a> {
    pub freqs: &'a [u32],
    pub first: usize,
    pub most: usize,
    pub q: Quality,
    ghost growable: { Growable freqs.now first most q },
}

impl Bucketlet<'_> {
    // The point one entry later.
    pub(crate) fn one_later(&self, p: Point) -> Point
        requires { Movable self.now.freqs.now self.now.first (suc p.at) p }
        ensures { result ≡ point self.now.freqs.now self.now.first (suc p.at) }
    {
        Point {
            at: p.at + 1,
            count: p.count + u64::from(self.freqs[self.first + p.at]),
        }
    }

    // The point one entry earlier.
    pub(crate) fn one_earlier(&self, p: Point) -> Point
        requires { Movable self.now.freqs.now self.now.first p.at p × (0 < p.at) }
        ensures { result ≡ point self.now.freqs.now self.now.first (p.at - 1) }
    {
        let at = p.at - 1;
        Point {
            at,
            count: p.count - u64::from(self.freqs[self.first + at]),
        }
    }
}
