// The lines of a histogram, one after the other.

ghost use Rattle.std.specs.Prelude.{◌≡◌, ◌+◌, ◌*◌, ◌≤◌, ◌<◌, length};
ghost use Rattle.words_rules.specs.Words.{buckets};
ghost use Rattle.words_rules.specs.Decoded.{bucketlet_start};
ghost use Rattle.sheet_rules.specs.Limits.{max_bucketlet_line, max_bucket_part, sheet_bytes};
ghost use Rattle.sheet_rules.specs.Sheet.{joined, bucketlet_part, bucket_part, histogram_sheet};
ghost use Rattle.sheet_rules.specs.Private.Room.{Roomy, Printable};
ghost use Rattle.sheet_text.specs.Private.Printing.{Put};

use sheet_lines::Line;
use sheet_rules::SHEET_BYTES;
use words_rules::Bucket;

// The bytes that are lent, and where the next line goes.
#[derive(Drop)]
pub(crate) struct Sheet<'a> {
    out: &'a mut [u8; SHEET_BYTES],
    at: usize,
}

impl<'a> Sheet<'a> {
    pub(crate) fn new(out: &'a mut [u8; SHEET_BYTES]) -> Sheet<'a>
        ensures same_lender { result.out.ghost_name ≡ out.entry.ghost_name }
        ensures same_bytes { result.out.now ≡ out.old }
        ensures at_start { result.at ≡ 0 }
    {
        Sheet { out, at: 0 }
    }

    pub(crate) fn len(&self) -> usize
        ensures { result ≡ self.now.at }
    {
        self.at
    }

    pub(crate) fn put(&mut self, line: Line)
        requires { self.old.at + length line ≤ sheet_bytes }
        ensures same_lender { self.new.out.ghost_name ≡ self.old.out.ghost_name }
        ensures text { Put self.old.out.now self.new.out.now self.old.at self.new.at line }
    {
        let bytes = line.as_bytes();
        let end = self.at + bytes.len();
        let out = &mut *self.out;
        out[self.at..end].copy_from_slice(bytes);
        self.at = end;
    }

    // Bucketlet k, which starts at an entry; nothing if it is empty.
    #[tactic(auto, unfolding(sheet_rules::specs::Sheet::bucketlet_part))]
    fn put_bucketlet(&mut self, bucket: Bucket, k: usize, start: u32)
        requires { Printable bucket × (k < 8) × (start ≡ bucketlet_start bucket k) × (self.old.at + max_bucketlet_line ≤ sheet_bytes) }
        ensures same_lender { self.new.out.ghost_name ≡ self.old.out.ghost_name }
        ensures text { Put self.old.out.now self.new.out.now self.old.at self.new.at (bucketlet_part bucket k) }
    {
        let width = bucket.widths[k];
        let class = bucket.classes[k];
        if width == 0 {
            return;
        }
        let Ok(number) = counts::number_of_class(class) else {
            unreachable!()
        };
        self.put(sheet_lines::bucketlet_line(start, start + width, class, number));
    }

    fn put_bucketlets(&mut self, bucket: Bucket)
        requires { Printable bucket × (self.old.at + 8 * max_bucketlet_line ≤ sheet_bytes) }
        ensures same_lender { self.new.out.ghost_name ≡ self.old.out.ghost_name }
        ensures text { Put self.old.out.now self.new.out.now self.old.at self.new.at (joined 8 (bucketlet_part bucket)) }
    {
        let mut start = bucket.start;
        // No iterator: the start runs along, and the place in the bucket is asked.
        for k in 0..8 {
            self.put_bucketlet(bucket, k, start);
            start += bucket.widths[k];
        }
    }

    // Bucket b and its bucketlets.
    fn put_bucket(&mut self, words: &[u32], b: usize)
        requires { Roomy words.now × (b < buckets words.now) × (self.old.at + max_bucket_part ≤ sheet_bytes) }
        ensures same_lender { self.new.out.ghost_name ≡ self.old.out.ghost_name }
        ensures text { Put self.old.out.now self.new.out.now self.old.at self.new.at (bucket_part words.now b) }
    {
        let bucket = words::bucket_at(words, b);
        let number = counts::number_of_total(bucket.total).unwrap();
        self.put(sheet_lines::bucket_line(
            words::start_at(words, b),
            words::end_at(words, b),
            bucket.total,
            number,
        ));
        self.put_bucketlets(bucket);
    }

    // The head and all buckets.
    pub(crate) fn put_histogram(&mut self, words: &[u32])
        requires { Roomy words.now × (self.old.at ≡ 0) }
        ensures same_lender { self.new.out.ghost_name ≡ self.old.out.ghost_name }
        ensures text { Put self.old.out.now self.new.out.now self.old.at self.new.at (histogram_sheet words.now) }
    {
        self.put(sheet_lines::head_line(words::head_at(words)));
        for b in 0..words::bucket_count(words) as usize {
            self.put_bucket(words, b);
        }
    }
}
