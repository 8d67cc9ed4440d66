// The tables of the classes.

// `as` stands where the library has no `From`, between usize and sized numbers, and where a number is proved to fit: `try_from` adds an error that never comes.

#![tactic(auto)]

ghost use Rattle.std.specs.Prelude.{◌≡◌};
ghost use Rattle.counts_tables.specs.Entries.{start_of, number_of};

// Where each class begins. Class 2 begins at 2, as class 3 does, and holds no count.
static STARTS: [u32; 64] = [
    0, 1, 2, 2, 3, 4, 6, 8, 11, 15, 21, 29, 41, 57, 80, 112, 156, 218, 305, 427, 598, 837, 1172,
    1640, 2296, 3215, 4500, 6300, 8820, 12348, 17287, 24202, 33883, 47435, 66409, 92973, 130162,
    182226, 255116, 357163, 500027, 700038, 980053, 1372074, 1920904, 2689265, 3764971, 5270960,
    7379343, 10331080, 14463512, 20248917, 28348483, 39687876, 55563027, 77788237, 108903532,
    152464944, 213450922, 298831290, 418363806, 585709329, 819993060, 1147990283,
];

// The number of each class. Class 2 has none.
static NUMBERS: [u32; 63] = [
    0, 1, 0, 2, 3, 4, 6, 8, 12, 17, 24, 34, 47, 67, 93, 131, 184, 257, 360, 505, 707, 989, 1385,
    1940, 2716, 3803, 5324, 7454, 10435, 14609, 20453, 28635, 40089, 56125, 78575, 110006, 154008,
    215612, 301857, 422599, 591639, 828295, 1159614, 1623459, 2272843, 3181981, 4454773, 6236682,
    8731355, 12223898, 17113457, 23958840, 33542377, 46959327, 65743059, 92040282, 128856395,
    180398954, 252558536, 353581950, 495014730, 693020622, 970228872,
];

// Where a class from 1 to 63 begins, and 0 for any other. Class 2 begins at 2, as class 3 does, and holds no count.
#[tactic(auto, using(crate::proofs::EntryLaws::start_entry), unfolding(counts_rules::specs::Private::Tables::class_starts))]
pub fn class_start(class: u32) -> u32
    ensures { result ≡ start_of class }
{
    STARTS.get(class as usize).copied().unwrap_or(0)
}

// The number that a class stands for, and 0 where no count has the class.
#[tactic(auto, using(crate::proofs::EntryLaws::number_entry), unfolding(counts_rules::specs::Private::Tables::class_numbers))]
pub fn class_number(class: u32) -> u32
    ensures { result ≡ number_of class }
{
    NUMBERS.get(class as usize).copied().unwrap_or(0)
}
