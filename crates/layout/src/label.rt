// The 47 channel labels, the Rust's `ChannelLabel`: CAF's numbers.
pub const UNKNOWN: u32 = 0xFFFF_FFFF;

pub const UNUSED: u32 = 0;

pub const USE_COORDINATES: u32 = 100;

pub const LEFT: u32 = 1;

pub const RIGHT: u32 = 2;

pub const CENTER: u32 = 3;

pub const LFE_SCREEN: u32 = 4;

pub const LEFT_SURROUND: u32 = 5;

pub const RIGHT_SURROUND: u32 = 6;

pub const LEFT_CENTER: u32 = 7;

pub const RIGHT_CENTER: u32 = 8;

pub const CENTER_SURROUND: u32 = 9;

pub const LEFT_SURROUND_DIRECT: u32 = 10;

pub const RIGHT_SURROUND_DIRECT: u32 = 11;

pub const TOP_CENTER_SURROUND: u32 = 12;

pub const VERTICAL_HEIGHT_LEFT: u32 = 13;

pub const VERTICAL_HEIGHT_CENTER: u32 = 14;

pub const VERTICAL_HEIGHT_RIGHT: u32 = 15;

pub const TOP_BACK_LEFT: u32 = 16;

pub const TOP_BACK_CENTER: u32 = 17;

pub const TOP_BACK_RIGHT: u32 = 18;

pub const REAR_SURROUND_LEFT: u32 = 33;

pub const REAR_SURROUND_RIGHT: u32 = 34;

pub const LEFT_WIDE: u32 = 35;

pub const RIGHT_WIDE: u32 = 36;

pub const LFE2: u32 = 37;

pub const LEFT_TOTAL: u32 = 38;

pub const RIGHT_TOTAL: u32 = 39;

pub const HEARING_IMPAIRED: u32 = 40;

pub const NARRATION: u32 = 41;

pub const MONO: u32 = 42;

pub const DIALOG_CENTRIC_MIX: u32 = 43;

pub const CENTER_SURROUND_DIRECT: u32 = 44;

pub const LEFT_TOP_MIDDLE: u32 = 49;

pub const RIGHT_TOP_MIDDLE: u32 = 51;

pub const AMBISONIC_W: u32 = 200;

pub const AMBISONIC_X: u32 = 201;

pub const AMBISONIC_Y: u32 = 202;

pub const AMBISONIC_Z: u32 = 203;

pub const MS_MID: u32 = 204;

pub const MS_SIDE: u32 = 205;

pub const XYX: u32 = 206;

pub const XYY: u32 = 207;

pub const HEADPHONES_LEFT: u32 = 301;

pub const HEADPHONES_RIGHT: u32 = 302;

pub const CLICK_TRACK: u32 = 304;

pub const FOREIGN_LANGUAGE: u32 = 305;
