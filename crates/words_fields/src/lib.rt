// The fields of head words and of a bucket's words, taken out by shifts and masks.

#![tactic(auto)]

ghost use Rattle.std.specs.Prelude.{[], ◌∷◌, ◌≡◌, ◌^◌, ◌≤◌, ◌<◌, sum_by};
ghost use Rattle.laws.specs.Field.{field};
ghost use Rattle.laws.specs.Sums.{sum};
ghost use Rattle.words_rules.specs.Words.{listed_in, classes_in, head_of};
ghost use Rattle.words_rules.specs.Decoded.{with_free, decode};

use words_rules::{BUCKET_WORDS, Bucket, HEAD_WORDS, Head};

// What stands in bits hi to lo of a word.
#[tactic(auto, using(laws::proofs::FieldLaws::field_masked))]
fn field_of(word: u32, hi: u32, lo: u32) -> u32
    requires { (lo ≤ hi) × (hi < 31) }
    ensures { result ≡ field word hi lo }
{
    (word >> lo) & ((1 << (hi + 1 - lo)) - 1)
}

// The start in the first of a bucket's words.
pub fn start_of(first: u32) -> u32
    ensures { result ≡ field first 29 10 }
{
    field_of(first, 29, 10)
}

// The total code in the third of a bucket's words.
pub fn total_of(third: u32) -> u32
    ensures { result ≡ field third 11 0 }
{
    field_of(third, 11, 0)
}

// The three widths that each of a bucket's last two words lists, from the highest bits down.
fn widths_of(word: u32) -> [u32; 3]
    ensures { result ≡ field word 26 18 ∷ field word 17 9 ∷ field word 8 0 ∷ [] }
{
    [
        field_of(word, 26, 18),
        field_of(word, 17, 9),
        field_of(word, 8, 0),
    ]
}

fn listed_of(packed: [u32; BUCKET_WORDS]) -> [u32; 7]
    ensures { result ≡ listed_in packed }
{
    let [first, _, _, fourth, fifth] = packed;
    let [a, b, c] = widths_of(fourth);
    let [d, e, f] = widths_of(fifth);
    [field_of(first, 8, 0), a, b, c, d, e, f]
}

fn classes_of(packed: [u32; BUCKET_WORDS]) -> [u32; 8]
    ensures { result ≡ classes_in packed }
{
    let [_, second, third, _, _] = packed;
    [
        field_of(second, 29, 24),
        field_of(second, 23, 18),
        field_of(second, 17, 12),
        field_of(second, 11, 6),
        field_of(second, 5, 0),
        field_of(third, 29, 24),
        field_of(third, 23, 18),
        field_of(third, 17, 12),
    ]
}

// That the sum fits is said in std's words, as `sum` asks it.
#[tactic(auto, using(laws::proofs::SumsLaws::sum_is_by))]
fn sum_of(listed: [u32; 7]) -> u32
    requires { sum_by (λ n. n) listed < 2 ^ 32 }
    ensures { result ≡ sum listed }
{
    listed.iter().sum()
}

// The sum of the widths that a bucket's words list.
pub fn listed_sum(packed: [u32; BUCKET_WORDS]) -> u32
    ensures { result ≡ sum (listed_in packed) }
{
    sum_of(listed_of(packed))
}

fn with_free(flag: bool, free: u32, listed: [u32; 7]) -> [u32; 8]
    ensures { result ≡ with_free flag free listed }
{
    let [a, b, c, d, e, f, g] = listed;
    if flag {
        [a, b, c, d, e, f, g, free]
    } else {
        [free, a, b, c, d, e, f, g]
    }
}

// The bucket of these words that ends at an entry. Where the listed widths exceed its span the free width is 0.
#[tactic(auto, unfolding(words_rules::specs::Decoded::decode))]
pub fn decode(packed: [u32; BUCKET_WORDS], end: u32) -> Bucket
    ensures { result ≡ decode packed end }
{
    let listed = listed_of(packed);
    let start = start_of(packed[0]);
    let flag = field_of(packed[0], 9, 9) == 1;
    let free = end.saturating_sub(start).saturating_sub(sum_of(listed));
    Bucket {
        widths: with_free(flag, free, listed),
        classes: classes_of(packed),
        start,
        flag,
        total: total_of(packed[2]),
    }
}

// What head words hold.
pub fn head_of(words: [u32; HEAD_WORDS]) -> Head
    ensures { result ≡ head_of words }
{
    let [entries, theta, q, buckets] = words;
    Head {
        entries,
        theta,
        qn: field_of(q, 19, 10),
        qd: field_of(q, 9, 0),
        buckets,
    }
}
