// What the checker answers: the definitions, what is proved of them, and the types that code and definitions share.

#![tactic(auto)]

ghost use Rattle.std.specs.Prelude.{◌≡◌};
ghost use Rattle.check_rules.specs.Reply.{sort_number};

/// What fails: a whole bucketlet, a part of one, or a bucket's total.
#[derive(Clone, Copy, Debug, PartialEq, Eq)]
pub enum Sort {
    Bucketlet = 1,
    Part = 2,
    Bucket = 3,
}

impl Sort {
    pub fn number(self) -> u32
        ensures { result ≡ sort_number self }
    {
        // `as` is how the number of an enum is read.
        self as u32
    }
}

/// A range of entries that fails.
#[derive(Clone, Copy, Debug, PartialEq, Eq)]
pub struct Failing {
    pub start: u32,
    pub end: u32,
    pub sort: Sort,
}

/// Accepted, or what fails first.
#[derive(Clone, Copy, Debug, PartialEq, Eq)]
pub enum Verdict {
    Accepted,
    Fails(Failing),
}
