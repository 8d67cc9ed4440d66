// Tests of words and of what they hold: a head, the words of a bucket, its widths, its classes and its total.

#![tactic(auto)]

ghost use Rattle.std.specs.Prelude.{◌≡◌};
ghost use Rattle.laws.specs.Each.{some};
ghost use Rattle.words_rules.specs.Decoded.{width_at, class_at};
ghost use Rattle.words_rules.specs.Reading.{head_good, words_broken, widths_broken, class_broken, some_class, total_broken, codes_broken};

use words_rules::{BUCKET_WORDS, Bucket, Head};

// Whether d, theta, q and the number of buckets are within their limits.
#[tactic(auto, unfolding(words_rules::specs::Reading::head_good))]
pub fn head_good(head: Head) -> bool
    ensures { result ≡ head_good head }
{
    list_faults::entries_good(head.entries)
        && list_faults::theta_good(head.theta)
        && list_faults::q_good(head.qn, head.qd)
        && (1..=head.entries).contains(&head.buckets)
}

// Whether one of a bucket's words has a wrong kind or a set bit outside its fields: the three bits below the kind of the last two are 0.
// They are tested one by one: by a chain of `||` a list is read slower.
#[tactic(auto, unfolding(words_rules::specs::Reading::words_broken))]
pub fn words_broken(packed: [u32; BUCKET_WORDS]) -> bool
    ensures { result ≡ words_broken packed }
{
    let [first, second, third, fourth, fifth] = packed;
    if first >> 30 != 1 {
        return true;
    }
    if second >> 30 != 2 {
        return true;
    }
    if third >> 30 != 2 {
        return true;
    }
    if fourth >> 27 != 24 {
        return true;
    }
    fifth >> 27 != 24
}

// Whether the listed widths exceed the span, or leave more than 4,095 of it. They are compared before they are taken from it.
#[tactic(auto, unfolding(words_rules::specs::Reading::widths_broken))]
pub fn widths_broken(span: u32, listed: u32) -> bool
    ensures { result ≡ widths_broken span listed }
{
    span < listed || 4095 < span - listed
}

// Whether a class is one that no count has, or is not 0 where the width is.
#[tactic(auto, unfolding(words_rules::specs::Reading::class_broken))]
pub fn class_broken(width: u32, class: u32) -> bool
    ensures { result ≡ class_broken width class }
{
    if width == 0 {
        class != 0
    } else {
        !counts::is_used_class(class)
    }
}

// Whether one of the eight classes is not 0.
fn some_class(bucket: Bucket) -> bool
    ensures { result ≡ some_class bucket }
{
    bucket.classes.iter().any(|class| *class != 0)
}

// Whether the total code is not valid; 0 belongs to eight classes 0.
#[tactic(auto, unfolding(words_rules::specs::Reading::total_broken, counts_rules::specs::Total::valid_fields))]
fn total_broken(bucket: Bucket) -> bool
    ensures { result ≡ total_broken bucket }
{
    if bucket.total == 0 {
        some_class(bucket)
    } else {
        !counts::is_total_code(bucket.total)
    }
}

// Whether one of the eight classes is not valid at its width.
fn some_class_broken(bucket: Bucket) -> bool
    ensures { result ≡ some 8 (λ k. class_broken (width_at bucket k) (class_at bucket k)) }
{
    bucket
        .widths
        .iter()
        .zip(&bucket.classes)
        .any(|(width, class)| class_broken(*width, *class))
}

// Whether a bucket has a class or a total code that is not valid where it stands.
#[tactic(auto, unfolding(words_rules::specs::Reading::codes_broken))]
pub fn codes_broken(bucket: Bucket) -> bool
    ensures { result ≡ codes_broken bucket }
{
    some_class_broken(bucket) || total_broken(bucket)
}
