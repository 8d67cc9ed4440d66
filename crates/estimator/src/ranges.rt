// Ranges of entries, and lists of them.

ghost use Rattle.std.specs.Prelude.{◌≡◌, ◌<◌};
ghost use Rattle.estimate_rules.specs.Exact.{inside, overlap};
ghost use Rattle.estimate_rules.specs.Asking.{range_fault};
ghost use Rattle.estimate_rules.specs.Ranges.{range_count, left_over, x_at, y_at, some_refused};

// The entries from x on and before y: what is asked for, or the span of a bucket or a bucketlet.
#[derive(Clone, Copy, Debug, PartialEq, Eq)]
pub(crate) struct Range {
    pub(crate) x: u32,
    pub(crate) y: u32,
}

impl Range {
    // Whether it holds all of a span.
    pub(crate) fn holds(self, span: Range) -> bool
        ensures { result ≡ inside self.x self.y span.x span.y }
    {
        self.x <= span.x && span.y <= self.y
    }

    // How many entries of a span it holds.
    pub(crate) fn overlap(self, span: Range) -> u32
        ensures { result ≡ overlap self.x self.y span.x span.y }
    {
        let from = self.x.max(span.x);
        let to = self.y.min(span.y);
        to.saturating_sub(from)
    }

    // 14: whether x is above y, or y above the number of entries.
    #[tactic(auto, unfolding(estimate_rules::specs::Asking::range_fault))]
    pub(crate) fn is_fault(self, words: &[u32]) -> bool
        ensures { result ≡ range_fault words.now self.x self.y }
    {
        self.y < self.x || words::entry_count(words) < self.y
    }
}

// Ranges that are lent as words, two a range. A word left over belongs to none.
#[derive(Clone, Copy, Debug)]
pub(crate) struct Ranges<'a> {
    pub(crate) words: &'a [u32],
}

impl Ranges<'_> {
    pub(crate) fn count(self) -> usize
        ensures { result ≡ range_count self.entry.words.now }
    {
        self.words.len() / 2
    }

    pub(crate) fn at(self, i: usize) -> Range
        requires { i < range_count self.words.now }
        ensures x { result.x ≡ x_at self.entry.words.now i }
        ensures y { result.y ≡ y_at self.entry.words.now i }
    {
        Range {
            x: self.words[2 * i],
            y: self.words[2 * i + 1],
        }
    }

    pub(crate) fn has_left_over(self) -> bool
        ensures { result ≡ left_over self.entry.words.now }
    {
        self.words.len() % 2 != 0
    }

    // Whether 14 would refuse one of the ranges.
    pub(crate) fn some_refused(self, words: &[u32]) -> bool
        ensures { result ≡ some_refused words.now self.entry.words.now }
    {
        (0..self.count()).any(|i| self.at(i).is_fault(words))
    }
}
