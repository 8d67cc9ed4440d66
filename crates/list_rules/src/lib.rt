// The frequency list, theta and q: their limits, and the type that code and definitions share.

#![tactic(auto)]

ghost use Rattle.std.specs.Prelude.{◌≡◌};
ghost use Rattle.list_rules.specs.Quality.{quality};

// Theta, and q as qn/qd.
#[derive(Clone, Copy, Debug, PartialEq, Eq)]
pub struct Quality {
    pub theta: u64,
    pub qn: u64,
    pub qd: u64,
}

impl Quality {
    pub fn new(theta: u32, qn: u32, qd: u32) -> Quality
        ensures { result ≡ quality theta qn qd }
    {
        Quality {
            theta: u64::from(theta),
            qn: u64::from(qn),
            qd: u64::from(qd),
        }
    }
}
