// The Rust's `STANDARD_LAYOUTS`, row by row in its order. Each row is a constant of its own: an array of them would be put on the
// stack wherever one is looked up (document 02, T-06). Labels go by the short names that loudspeakers have.
ghost use Rattle.std.specs.Prelude.{◌≡◌};
ghost use Rattle.layout.specs.Table.{row_at};
ghost use Rattle.layout.specs.Searched.{searched_at};

use crate::label::{
    AMBISONIC_W as W, AMBISONIC_X as X, AMBISONIC_Y as Y, AMBISONIC_Z as Z, CENTER as C,
    CENTER_SURROUND as CS, HEADPHONES_LEFT, HEADPHONES_RIGHT, LEFT as L, LEFT_CENTER as LC,
    LEFT_SURROUND as LS, LEFT_TOTAL as LT, LEFT_WIDE as LW, LFE_SCREEN as LFE, MS_MID, MS_SIDE,
    REAR_SURROUND_LEFT as RLS, REAR_SURROUND_RIGHT as RRS, RIGHT as R, RIGHT_CENTER as RC,
    RIGHT_SURROUND as RS, RIGHT_TOTAL as RT, RIGHT_WIDE as RW, XYX, XYY,
};
use crate::{Row, tag};

pub const ROWS: usize = 43;

// Those that the search looks at.
pub(crate) const SEARCHED: usize = 40;

const MONO: Row = Row {
    tag: tag::MONO,
    count: 1,
    labels: [C, 0, 0, 0, 0, 0, 0, 0],
};

const STEREO: Row = Row {
    tag: tag::STEREO,
    count: 2,
    labels: [L, R, 0, 0, 0, 0, 0, 0],
};

const STEREO_HEADPHONES: Row = Row {
    tag: tag::STEREO_HEADPHONES,
    count: 2,
    labels: [HEADPHONES_LEFT, HEADPHONES_RIGHT, 0, 0, 0, 0, 0, 0],
};

const MATRIX_STEREO: Row = Row {
    tag: tag::MATRIX_STEREO,
    count: 2,
    labels: [LT, RT, 0, 0, 0, 0, 0, 0],
};

const MID_SIDE: Row = Row {
    tag: tag::MID_SIDE,
    count: 2,
    labels: [MS_MID, MS_SIDE, 0, 0, 0, 0, 0, 0],
};

const XY: Row = Row {
    tag: tag::XY,
    count: 2,
    labels: [XYX, XYY, 0, 0, 0, 0, 0, 0],
};

const AMBISONIC_B_FORMAT: Row = Row {
    tag: tag::AMBISONIC_B_FORMAT,
    count: 4,
    labels: [W, X, Y, Z, 0, 0, 0, 0],
};

const QUADRAPHONIC: Row = Row {
    tag: tag::QUADRAPHONIC,
    count: 4,
    labels: [L, R, LS, RS, 0, 0, 0, 0],
};

const PENTAGONAL: Row = Row {
    tag: tag::PENTAGONAL,
    count: 5,
    labels: [L, R, LS, RS, C, 0, 0, 0],
};

const HEXAGONAL: Row = Row {
    tag: tag::HEXAGONAL,
    count: 6,
    labels: [L, R, LS, RS, C, CS, 0, 0],
};

const OCTAGONAL: Row = Row {
    tag: tag::OCTAGONAL,
    count: 8,
    labels: [L, R, LS, RS, C, CS, LW, RW],
};

const MPEG_3_0_A: Row = Row {
    tag: tag::MPEG_3_0_A,
    count: 3,
    labels: [L, R, C, 0, 0, 0, 0, 0],
};

const MPEG_3_0_B: Row = Row {
    tag: tag::MPEG_3_0_B,
    count: 3,
    labels: [C, L, R, 0, 0, 0, 0, 0],
};

const MPEG_4_0_A: Row = Row {
    tag: tag::MPEG_4_0_A,
    count: 4,
    labels: [L, R, C, CS, 0, 0, 0, 0],
};

const MPEG_4_0_B: Row = Row {
    tag: tag::MPEG_4_0_B,
    count: 4,
    labels: [C, L, R, CS, 0, 0, 0, 0],
};

const MPEG_5_0_A: Row = Row {
    tag: tag::MPEG_5_0_A,
    count: 5,
    labels: [L, R, C, LS, RS, 0, 0, 0],
};

pub(crate) const MPEG_5_0_B: Row = Row {
    tag: tag::MPEG_5_0_B,
    count: 5,
    labels: [L, R, LS, RS, C, 0, 0, 0],
};

const MPEG_5_0_C: Row = Row {
    tag: tag::MPEG_5_0_C,
    count: 5,
    labels: [L, C, R, LS, RS, 0, 0, 0],
};

const MPEG_5_0_D: Row = Row {
    tag: tag::MPEG_5_0_D,
    count: 5,
    labels: [C, L, R, LS, RS, 0, 0, 0],
};

const MPEG_5_1_A: Row = Row {
    tag: tag::MPEG_5_1_A,
    count: 6,
    labels: [L, R, C, LFE, LS, RS, 0, 0],
};

const MPEG_5_1_B: Row = Row {
    tag: tag::MPEG_5_1_B,
    count: 6,
    labels: [L, R, LS, RS, C, LFE, 0, 0],
};

const MPEG_5_1_C: Row = Row {
    tag: tag::MPEG_5_1_C,
    count: 6,
    labels: [L, C, R, LS, RS, LFE, 0, 0],
};

const MPEG_5_1_D: Row = Row {
    tag: tag::MPEG_5_1_D,
    count: 6,
    labels: [C, L, R, LS, RS, LFE, 0, 0],
};

const MPEG_6_1_A: Row = Row {
    tag: tag::MPEG_6_1_A,
    count: 7,
    labels: [L, R, C, LFE, LS, RS, CS, 0],
};

const MPEG_7_1_A: Row = Row {
    tag: tag::MPEG_7_1_A,
    count: 8,
    labels: [L, R, C, LFE, LS, RS, LC, RC],
};

const MPEG_7_1_B: Row = Row {
    tag: tag::MPEG_7_1_B,
    count: 8,
    labels: [C, LC, RC, L, R, LS, RS, LFE],
};

const MPEG_7_1_C: Row = Row {
    tag: tag::MPEG_7_1_C,
    count: 8,
    labels: [L, R, C, LFE, LS, RS, RLS, RRS],
};

const EMAGIC_DEFAULT_7_1: Row = Row {
    tag: tag::EMAGIC_DEFAULT_7_1,
    count: 8,
    labels: [L, R, LS, RS, C, LFE, LC, RC],
};

const SMPTE_DTV: Row = Row {
    tag: tag::SMPTE_DTV,
    count: 8,
    labels: [L, R, C, LFE, LS, RS, LT, RT],
};

const ITU_2_1: Row = Row {
    tag: tag::ITU_2_1,
    count: 3,
    labels: [L, R, CS, 0, 0, 0, 0, 0],
};

pub(crate) const ITU_2_2: Row = Row {
    tag: tag::ITU_2_2,
    count: 4,
    labels: [L, R, LS, RS, 0, 0, 0, 0],
};

const DVD_4: Row = Row {
    tag: tag::DVD_4,
    count: 3,
    labels: [L, R, LFE, 0, 0, 0, 0, 0],
};

const DVD_5: Row = Row {
    tag: tag::DVD_5,
    count: 4,
    labels: [L, R, LFE, CS, 0, 0, 0, 0],
};

const DVD_6: Row = Row {
    tag: tag::DVD_6,
    count: 5,
    labels: [L, R, LFE, LS, RS, 0, 0, 0],
};

const DVD_10: Row = Row {
    tag: tag::DVD_10,
    count: 4,
    labels: [L, R, C, LFE, 0, 0, 0, 0],
};

const DVD_11: Row = Row {
    tag: tag::DVD_11,
    count: 5,
    labels: [L, R, C, LFE, CS, 0, 0, 0],
};

const DVD_18: Row = Row {
    tag: tag::DVD_18,
    count: 5,
    labels: [L, R, LS, RS, LFE, 0, 0, 0],
};

pub(crate) const DVD_20: Row = Row {
    tag: tag::DVD_20,
    count: 6,
    labels: [L, R, LS, RS, C, CS, 0, 0],
};

const DVD_21: Row = Row {
    tag: tag::DVD_21,
    count: 7,
    labels: [L, R, LS, RS, C, RLS, RRS, 0],
};

const AAC_6_0: Row = Row {
    tag: tag::AAC_6_0,
    count: 6,
    labels: [C, L, R, LS, RS, CS, 0, 0],
};

const AAC_6_1: Row = Row {
    tag: tag::AAC_6_1,
    count: 7,
    labels: [C, L, R, LS, RS, CS, LFE, 0],
};

const AAC_7_0: Row = Row {
    tag: tag::AAC_7_0,
    count: 7,
    labels: [C, L, R, LS, RS, RLS, RRS, 0],
};

const AAC_OCTAGONAL: Row = Row {
    tag: tag::AAC_OCTAGONAL,
    count: 8,
    labels: [C, L, R, LS, RS, RLS, RRS, CS],
};

// After the last one.
const NO_ROW: Row = Row {
    tag: 0,
    count: 0,
    labels: [0, 0, 0, 0, 0, 0, 0, 0],
};

// The row at a place among those that are searched; past the last one a row of no labels. Three rows are left out (document 02, T-07): they
// never answer, since an earlier one has the same labels.
pub(crate) fn searched_at(i: usize) -> Row
    ensures { result ≡ searched_at i }
{
    match i {
        0 => MONO,
        1 => STEREO,
        2 => STEREO_HEADPHONES,
        3 => MATRIX_STEREO,
        4 => MID_SIDE,
        5 => XY,
        6 => AMBISONIC_B_FORMAT,
        7 => QUADRAPHONIC,
        8 => PENTAGONAL,
        9 => HEXAGONAL,
        10 => OCTAGONAL,
        11 => MPEG_3_0_A,
        12 => MPEG_3_0_B,
        13 => MPEG_4_0_A,
        14 => MPEG_4_0_B,
        15 => MPEG_5_0_A,
        16 => MPEG_5_0_C,
        17 => MPEG_5_0_D,
        18 => MPEG_5_1_A,
        19 => MPEG_5_1_B,
        20 => MPEG_5_1_C,
        21 => MPEG_5_1_D,
        22 => MPEG_6_1_A,
        23 => MPEG_7_1_A,
        24 => MPEG_7_1_B,
        25 => MPEG_7_1_C,
        26 => EMAGIC_DEFAULT_7_1,
        27 => SMPTE_DTV,
        28 => ITU_2_1,
        29 => DVD_4,
        30 => DVD_5,
        31 => DVD_6,
        32 => DVD_10,
        33 => DVD_11,
        34 => DVD_18,
        35 => DVD_21,
        36 => AAC_6_0,
        37 => AAC_6_1,
        38 => AAC_7_0,
        39 => AAC_OCTAGONAL,
        _ => NO_ROW,
    }
}

// The count alone: the compiler then makes nothing else of the row.
pub(crate) fn searched_count(i: usize) -> usize
    ensures { result ≡ (searched_at i).count }
{
    let row = searched_at(i);
    row.count
}

// The row at a place of the whole table: the three in their places, and the others between them.
pub fn row_at(i: usize) -> Row
    ensures { result ≡ row_at i }
{
    match i {
        16 => MPEG_5_0_B,
        30 => ITU_2_2,
        37 => DVD_20,
        0..=15 => searched_at(i),
        17..=29 => searched_at(i - 1),
        31..=36 => searched_at(i - 2),
        _ => searched_at(i - 3),
    }
}
