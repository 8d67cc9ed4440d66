// The words of a decoded bucket and of a head, packed by shifts and masks.

#![tactic(auto)]

ghost use Rattle.std.specs.Prelude.{[], ◌∷◌, ◌≡◌, ◌≤◌, ◌<◌, map};
ghost use Rattle.laws.specs.Field.{put};
ghost use Rattle.words_rules.specs.Words.{q_word, encode_head};
ghost use Rattle.words_rules.specs.Decoded.{listed_at, start_word, class_word, total_word, width_word, encode};

use words_rules::{BUCKET_WORDS, Bucket, HEAD_WORDS, Head};

// A value in bits hi to lo, cut to as many bits.
#[tactic(auto, using(laws::proofs::FieldLaws::put_masked))]
fn put_at(value: u32, hi: u32, lo: u32) -> u32
    requires { (lo ≤ hi) × (hi < 31) }
    ensures { result ≡ put value hi lo }
{
    (value & ((1 << (hi + 1 - lo)) - 1)) << lo
}

fn start_word(start: u32, flag: bool, listed: u32) -> u32
    ensures { result ≡ start_word start flag listed }
{
    (1 << 30) | put_at(start, 29, 10) | put_at(u32::from(flag), 9, 9) | put_at(listed, 8, 0)
}

fn class_word(c0: u32, c1: u32, c2: u32, c3: u32, c4: u32) -> u32
    ensures { result ≡ class_word c0 c1 c2 c3 c4 }
{
    (2 << 30)
        | put_at(c0, 29, 24)
        | put_at(c1, 23, 18)
        | put_at(c2, 17, 12)
        | put_at(c3, 11, 6)
        | put_at(c4, 5, 0)
}

fn total_word(c5: u32, c6: u32, c7: u32, total: u32) -> u32
    ensures { result ≡ total_word c5 c6 c7 total }
{
    (2 << 30) | put_at(c5, 29, 24) | put_at(c6, 23, 18) | put_at(c7, 17, 12) | put_at(total, 11, 0)
}

fn width_word(a: u32, b: u32, c: u32) -> u32
    ensures { result ≡ width_word a b c }
{
    (3 << 30) | put_at(a, 26, 18) | put_at(b, 17, 9) | put_at(c, 8, 0)
}

// All widths are listed but the free one's.
fn listed_of(bucket: Bucket) -> [u32; 7]
    ensures { result ≡ map (listed_at bucket) (0 ∷ 1 ∷ 2 ∷ 3 ∷ 4 ∷ 5 ∷ 6 ∷ []) }
{
    let [a, b, c, d, e, f, g, h] = bucket.widths;
    if bucket.flag {
        [a, b, c, d, e, f, g]
    } else {
        [b, c, d, e, f, g, h]
    }
}

// The words of a bucket; each field is cut to its bits.
#[tactic(auto, unfolding(words_rules::specs::Decoded::encode))]
pub fn encode(bucket: Bucket) -> [u32; BUCKET_WORDS]
    ensures { result ≡ encode bucket }
{
    let [c0, c1, c2, c3, c4, c5, c6, c7] = bucket.classes;
    let [a, b, c, d, e, f, g] = listed_of(bucket);
    [
        start_word(bucket.start, bucket.flag, a),
        class_word(c0, c1, c2, c3, c4),
        total_word(c5, c6, c7, bucket.total),
        width_word(b, c, d),
        width_word(e, f, g),
    ]
}

fn q_word(qn: u32, qd: u32) -> u32
    ensures { result ≡ q_word qn qd }
{
    put_at(qn, 19, 10) | put_at(qd, 9, 0)
}

// The head words; each part of q is cut to its bits.
pub fn encode_head(head: Head) -> [u32; HEAD_WORDS]
    ensures { result ≡ encode_head head }
{
    let q = q_word(head.qn, head.qd);
    [head.entries, head.theta, q, head.buckets]
}
