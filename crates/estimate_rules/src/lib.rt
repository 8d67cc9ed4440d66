// What the estimator answers: the definitions, what is proved of them, and the type that code and definitions share.

#![tactic(auto)]

ghost use Rattle.std.specs.Prelude.{◌≡◌};
ghost use Rattle.estimate_rules.specs.Fraction.{number};

// whole + top / bottom. Two of one value may differ in their fields, so there is no `==`.
#[derive(Clone, Copy, Debug)]
pub struct Fraction {
    pub whole: u64,
    pub top: u64,
    pub bottom: u64,
}

impl Fraction {
    pub fn whole(n: u64) -> Fraction
        ensures { result ≡ number n }
    {
        Fraction {
            whole: n,
            top: 0,
            bottom: 1,
        }
    }
}
