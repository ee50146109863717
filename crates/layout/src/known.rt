// Which numbers are labels and which are tags. A data call asks it of the tag of its record, or of each of its labels. So no list is
// gone through: most labels have a bit in one of two words, and the tags stand in a `match`, of which a compiler makes a few comparisons.
ghost use Rattle.std.specs.Prelude.{◌≡◌, ◌&&◌, ◌/◌, ◌%◌, ◌^◌, eqb, leb};
ghost use Rattle.layout.specs.Labels.{AmbisonicW, XYY};
ghost use Rattle.layout.specs.Known.{known_label, known_tag, are_known};

use crate::{label, tag};

// The labels from 0 to 63, a bit for each.
const LOW_LABELS: u64 = 1 << label::UNUSED
    | 1 << label::LEFT
    | 1 << label::RIGHT
    | 1 << label::CENTER
    | 1 << label::LFE_SCREEN
    | 1 << label::LEFT_SURROUND
    | 1 << label::RIGHT_SURROUND
    | 1 << label::LEFT_CENTER
    | 1 << label::RIGHT_CENTER
    | 1 << label::CENTER_SURROUND
    | 1 << label::LEFT_SURROUND_DIRECT
    | 1 << label::RIGHT_SURROUND_DIRECT
    | 1 << label::TOP_CENTER_SURROUND
    | 1 << label::VERTICAL_HEIGHT_LEFT
    | 1 << label::VERTICAL_HEIGHT_CENTER
    | 1 << label::VERTICAL_HEIGHT_RIGHT
    | 1 << label::TOP_BACK_LEFT
    | 1 << label::TOP_BACK_CENTER
    | 1 << label::TOP_BACK_RIGHT
    | 1 << label::REAR_SURROUND_LEFT
    | 1 << label::REAR_SURROUND_RIGHT
    | 1 << label::LEFT_WIDE
    | 1 << label::RIGHT_WIDE
    | 1 << label::LFE2
    | 1 << label::LEFT_TOTAL
    | 1 << label::RIGHT_TOTAL
    | 1 << label::HEARING_IMPAIRED
    | 1 << label::NARRATION
    | 1 << label::MONO
    | 1 << label::DIALOG_CENTRIC_MIX
    | 1 << label::CENTER_SURROUND_DIRECT
    | 1 << label::LEFT_TOP_MIDDLE
    | 1 << label::RIGHT_TOP_MIDDLE;

// From 256 to 319.
const HIGH_LABELS: u64 = 1 << (label::HEADPHONES_LEFT % 64)
    | 1 << (label::HEADPHONES_RIGHT % 64)
    | 1 << (label::CLICK_TRACK % 64)
    | 1 << (label::FOREIGN_LANGUAGE % 64);

// The bit of n in a word for its 64 numbers.
fn has_bit(word: u64, n: u32) -> bool
    ensures { result ≡ eqb (word / 2 ^ (n % 64) % 2) 1 }
{
    (word >> (n % 64)) % 2 == 1
}

// The labels of coincident microphones: ambisonic, mid and side, X and Y. Their numbers are one run, of which a compiler makes one comparison.
fn is_coincident(n: u32) -> bool
    ensures { result ≡ leb AmbisonicW n && leb n XYY }
{
    match n {
        label::AMBISONIC_W
        | label::AMBISONIC_X
        | label::AMBISONIC_Y
        | label::AMBISONIC_Z
        | label::MS_MID
        | label::MS_SIDE
        | label::XYX
        | label::XYY => true,
        _ => false,
    }
}

pub fn known_label(n: u32) -> bool
    ensures { result ≡ known_label n }
{
    if n < 64 {
        return has_bit(LOW_LABELS, n);
    }
    if is_coincident(n) {
        return true;
    }
    if n / 64 == label::HEADPHONES_LEFT / 64 {
        return has_bit(HIGH_LABELS, n);
    }
    matches!(n, label::UNKNOWN | label::USE_COORDINATES)
}

// All of them, in the Rust's order.
pub fn known_tag(n: u32) -> bool
    ensures { result ≡ known_tag n }
{
    match n {
        tag::USE_CHANNEL_DESCRIPTIONS
        | tag::USE_CHANNEL_BITMAP
        | tag::MONO
        | tag::STEREO
        | tag::STEREO_HEADPHONES
        | tag::MATRIX_STEREO
        | tag::MID_SIDE
        | tag::XY
        | tag::BINAURAL
        | tag::AMBISONIC_B_FORMAT
        | tag::QUADRAPHONIC
        | tag::PENTAGONAL
        | tag::HEXAGONAL
        | tag::OCTAGONAL
        | tag::CUBE
        | tag::MPEG_3_0_A
        | tag::MPEG_3_0_B
        | tag::MPEG_4_0_A
        | tag::MPEG_4_0_B
        | tag::MPEG_5_0_A
        | tag::MPEG_5_0_B
        | tag::MPEG_5_0_C
        | tag::MPEG_5_0_D
        | tag::MPEG_5_1_A
        | tag::MPEG_5_1_B
        | tag::MPEG_5_1_C
        | tag::MPEG_5_1_D
        | tag::MPEG_6_1_A
        | tag::MPEG_7_1_A
        | tag::MPEG_7_1_B
        | tag::MPEG_7_1_C
        | tag::EMAGIC_DEFAULT_7_1
        | tag::SMPTE_DTV
        | tag::ITU_2_1
        | tag::ITU_2_2
        | tag::DVD_4
        | tag::DVD_5
        | tag::DVD_6
        | tag::DVD_10
        | tag::DVD_11
        | tag::DVD_18
        | tag::DVD_20
        | tag::DVD_21
        | tag::AAC_6_0
        | tag::AAC_6_1
        | tag::AAC_7_0
        | tag::AAC_OCTAGONAL
        | tag::TMH_10_2_STD
        | tag::TMH_10_2_FULL
        | tag::RESERVED_DO_NOT_USE => true,
        _ => false,
    }
}

pub fn all_known(labels: &[u32]) -> bool
    ensures { result ≡ are_known labels.now }
{
    for label in labels {
        if !known_label(*label) {
            return false;
        }
    }
    true
}
