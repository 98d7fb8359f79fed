// The masks of the next-bit test: entry t is the mask of a path's bit t + 1, the bits whose parity has to be even. One table for each code.
ghost use Rattle.std.specs.Prelude.{ℕ, ◌<◌, ◌≡◌, get_or};
ghost use Rattle.column.specs.Shape.{short, level_code};
ghost use Rattle.column.specs.Mask.{MasksOf};

// f1
const F1: [u64; 30] = [
    0, 0, 0, 0, 0, 0, 0, 0, 0, 0, 0, 0, 0, 0, 0, 0, 0, 0, 0, 0, 0, 0, 0, 0, 18322529, 51876961,
    118985825, 118985825, 118985825, 98900033,
];

// f1·f3
const F1_F3: [u64; 30] = [
    0, 0, 0, 0, 0, 0, 0, 0, 0, 0, 0, 0, 0, 0, 0, 0, 0, 0, 80581, 604869, 905681, 3002833, 8289665,
    8289665, 8289665, 14884609, 31054337, 61624321, 330059777, 330059777,
];

// f1·f3·f5
const F1_F3_F5: [u64; 30] = [
    0, 0, 0, 0, 0, 0, 0, 0, 0, 0, 0, 0, 307, 853, 18329, 19969, 19969, 19969, 19969, 544257,
    1592833, 1714177, 1714177, 1290241, 16809985, 50364417, 117473281, 127467521, 111804417,
    80478209,
];

// f1·f3·f5·f7
const F1_F3_F5_F7: [u64; 30] = [
    0, 0, 0, 0, 0, 0, 43, 253, 337, 337, 993, 1665, 1665, 13057, 6145, 6145, 71681, 16385, 16385,
    16385, 1736705, 3080193, 262145, 262145, 27787265, 49283073, 71303169, 71303169, 511705089,
    721420289,
];

// f3
const F3: [u64; 30] = [
    0, 0, 0, 0, 0, 0, 0, 0, 0, 0, 0, 0, 0, 0, 0, 0, 0, 0, 0, 0, 0, 0, 0, 0, 10539813, 10539813,
    102997937, 102997937, 472821217, 674548033,
];

// f5
const F5: [u64; 30] = [
    0, 0, 0, 0, 0, 0, 0, 0, 0, 0, 0, 0, 0, 0, 0, 0, 0, 0, 0, 0, 0, 0, 0, 0, 17508943, 52264657,
    52264657, 52264657, 61856289, 46830529,
];

// f5·f7
const F5_F7: [u64; 30] = [
    0, 0, 0, 0, 0, 0, 0, 0, 0, 0, 0, 0, 0, 0, 0, 0, 0, 0, 398903, 146009, 146009, 3312609, 7506913,
    11554049, 28331265, 61885697, 94796289, 160044033, 299026433, 560164865,
];

// no check: the code of all words
const NONE: [u64; 30] = [0; 30];

// The masks of a level's code.
pub fn level_masks(level: usize) -> [u64; 30]
    requires { level < 4 }
    ensures { MasksOf 30 (level_code short level) result }
{
    match level {
        0 => F1,
        1 => F1_F3,
        2 => F1_F3_F5,
        _ => F1_F3_F5_F7,
    }
}

// The masks of the first of a level's two supercodes.
pub fn left_masks(level: usize) -> [u64; 30]
    requires { level < 4 }
    ensures { MasksOf 30 (short.supercodes level).left result }
{
    if level < 2 { F1 } else { F1_F3 }
}

// The masks of the second.
pub fn right_masks(level: usize) -> [u64; 30]
    requires { level < 4 }
    ensures { MasksOf 30 (short.supercodes level).right result }
{
    match level {
        0 => NONE,
        1 => F3,
        2 => F5,
        _ => F5_F7,
    }
}

// No masks: every path passes.
pub fn no_masks() -> [u64; 30]
    ensures { (k : ℕ) → k < 30 → get_or result k 0 ≡ 0 }
{
    NONE
}
