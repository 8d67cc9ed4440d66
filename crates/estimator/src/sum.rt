// The sum that estimates a range, and how it is rounded.

ghost use Rattle.estimator.specs.Private.Adding.{Small};

use estimate_rules::Fraction;

// All that is reckoned with it stays far below 2^64.
#[derive(Clone, Copy, Debug)]
pub(crate) struct Sum {
    pub(crate) fraction: Fraction,
    ghost small: { Small fraction },
}

impl Sum {
    ghost use Rattle.std.specs.Prelude.{◌≡◌, max};
    ghost use Rattle.estimate_rules.specs.Fraction.{nothing, plus, rounded};

    pub(crate) fn nothing() -> Sum
        ensures { result.fraction ≡ nothing }
    {
        Sum {
            fraction: Fraction::whole(0),
        }
    }

    // No `+`, which would ask of each that adds fractions that what comes out is small.
    pub(crate) fn plus(self, piece: Fraction) -> Sum
        requires { Small (plus self.fraction piece) }
        ensures { result.fraction ≡ plus self.fraction piece }
    {
        let sum = self.fraction;
        Sum {
            fraction: Fraction {
                whole: sum.whole + piece.whole,
                top: sum.top * piece.bottom + piece.top * sum.bottom,
                bottom: sum.bottom * piece.bottom,
            },
        }
    }

    // The estimate of a range that isn't empty: rounded up once, and at least 1.
    #[tactic(auto, unfolding(estimate_rules::specs::Fraction::rounded))]
    pub(crate) fn rounded(self) -> u64
        ensures { result ≡ max 1 (rounded self.fraction) }
    {
        let sum = self.fraction;
        let up = sum.whole + (sum.top + (sum.bottom - 1)) / sum.bottom;
        up.max(1)
    }
}
