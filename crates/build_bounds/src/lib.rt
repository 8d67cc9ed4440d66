// What a growing bucketlet keeps of its ranges: the types that the builder and the laws about them share. There is no code but what is derived.

#![tactic(auto)]

// top / bottom. It has no `==`: 1/2 and 2/4 are not the same parts.
#[derive(Clone, Copy, Debug)]
pub struct Ratio {
    pub top: u64,
    pub bottom: u64,
}

// What the fraction of a range is divided by: its count is divided by its length, or its length by its count. An enum and no closure: the laws go by its
// cases.
#[derive(Clone, Copy, Debug, PartialEq, Eq)]
pub enum Over {
    Length,
    Count,
}

// Which ranges bound a bucketlet's number over its width, by their fractions: those with a count above `threshold`, the heavy ones.
#[derive(Clone, Copy, Debug, PartialEq, Eq)]
pub struct Bound {
    pub over: Over,
    pub threshold: u64,
}

// A point between the entries of a bucketlet: so many stand before it, with this count.
#[derive(Clone, Copy, Debug, PartialEq, Eq)]
pub struct Point {
    pub at: usize,
    pub count: u64,
}

// What is kept of the heavy ranges while their end moves on. `greatest` is the greatest of their fractions, 0 if there is none. Every start before `light` is
// heavy for the end in hand, and of these `lowest` is the one from which a range exceeds `greatest` if one does from any.
#[derive(Clone, Copy, Debug)]
pub struct Kept {
    pub greatest: Ratio,
    pub lowest: Point,
    pub light: Point,
}

// What the ranges of a bucketlet ask of its number over its width: the greatest count/length of those with a count above theta, the greatest length/count of
// those whose count times q is above theta, and the length of the longest of the others.
#[derive(Clone, Copy, Debug)]
pub struct Bounds {
    pub low: Ratio,
    pub up: Ratio,
    pub longest: u64,
}

// A width that has been reached, and the bounds of its ranges.
#[derive(Clone, Copy, Debug)]
pub struct Grown {
    pub reached: Point,
    pub bounds: Bounds,
}
