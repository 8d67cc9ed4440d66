// Words of histograms, whole and with words changed.

// The number of words of a list with one bucket, and with two.
pub(crate) const ONE_BUCKET: usize = words_rules::HEAD_WORDS + words_rules::BUCKET_WORDS;

pub(crate) const TWO_BUCKETS: usize = ONE_BUCKET + words_rules::BUCKET_WORDS;

// Document 01's example: four tens, and their words for theta 1 and q 3/2.
pub(crate) const TENS: [u32; 4] = [10, 10, 10, 10];

pub(crate) const TENS_WORDS: [u32; ONE_BUCKET] = [
    4, 1, 0xC02, 1, 0x40000204, 0x8B000000, 0x80000500, 0xC0000000, 0xC0000000,
];

// Three zeros, with the same theta and q.
pub(crate) const ZEROS_WORDS: [u32; ONE_BUCKET] = [
    3, 1, 0xC02, 1, 0x40000203, 0x80000000, 0x80000000, 0xC0000000, 0xC0000000,
];

// The entries 0 to 3 and 4 to 9.
pub(crate) const TWO_WORDS: [u32; TWO_BUCKETS] = [
    10, 1, 0xC02, 2, 0x40000201, 0x810C4140, 0x80000500, 0xC0040201, 0xC0000000, 0x40001001,
    0x881C0180, 0x80000801, 0xC0000200, 0xC0000000,
];

// Words, one of them changed.
pub(crate) fn with<const N: usize>(mut words: [u32; N], at: usize, word: u32) -> [u32; N] {
    if let Some(old) = words.get_mut(at) {
        *old = word;
    }
    words
}

// Three zeros with another theta and another total.
pub(crate) fn zeros_under(theta: u32, total: u32) -> [u32; ONE_BUCKET] {
    with(with(ZEROS_WORDS, 6, total), 1, theta)
}

// Two buckets, of which the first has class 63.
pub(crate) fn bad_class() -> [u32; TWO_BUCKETS] {
    with(TWO_WORDS, 5, 0xBF0C4140)
}

// A bucket of 4,095 or 4,096 entries in its free bucketlet, and one of one entry.
pub(crate) fn wide(entries: u32, start: u32) -> [u32; TWO_BUCKETS] {
    [
        entries, 1, 0xC02, 2, 0x40000200, 0x80000000, 0x8000B500, 0xC0000000, 0xC0000000, start,
        0x81000000, 0x80000020, 0xC0000000, 0xC0000000,
    ]
}

// Widths 0, 2, 0, 0, 1, 0, 3, 0: empty bucketlets first, between others and last.
pub(crate) fn gaps(word: u32) -> [u32; ONE_BUCKET] {
    [
        6, 1, 0x801, 1, 0x40000002, 0x80200005, word, 0xC0000001, 0xC0000600,
    ]
}
