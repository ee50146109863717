// The 50 channel layout tags, the Rust's `ChannelLayoutTag`: the low half is the count of channels.
ghost use Rattle.std.specs.Prelude.{◌≡◌};
ghost use Rattle.layout.specs.Tags.{channels};

pub const USE_CHANNEL_DESCRIPTIONS: u32 = 0;

pub const USE_CHANNEL_BITMAP: u32 = 0x1_0000;

pub const MONO: u32 = 0x64_0001;

pub const STEREO: u32 = 0x65_0002;

pub const STEREO_HEADPHONES: u32 = 0x66_0002;

pub const MATRIX_STEREO: u32 = 0x67_0002;

pub const MID_SIDE: u32 = 0x68_0002;

pub const XY: u32 = 0x69_0002;

pub const BINAURAL: u32 = 0x6A_0002;

pub const AMBISONIC_B_FORMAT: u32 = 0x6B_0004;

pub const QUADRAPHONIC: u32 = 0x6C_0004;

pub const PENTAGONAL: u32 = 0x6D_0005;

pub const HEXAGONAL: u32 = 0x6E_0006;

pub const OCTAGONAL: u32 = 0x6F_0008;

pub const CUBE: u32 = 0x70_0008;

pub const MPEG_3_0_A: u32 = 0x71_0003;

pub const MPEG_3_0_B: u32 = 0x72_0003;

pub const MPEG_4_0_A: u32 = 0x73_0004;

pub const MPEG_4_0_B: u32 = 0x74_0004;

pub const MPEG_5_0_A: u32 = 0x75_0005;

pub const MPEG_5_0_B: u32 = 0x76_0005;

pub const MPEG_5_0_C: u32 = 0x77_0005;

pub const MPEG_5_0_D: u32 = 0x78_0005;

pub const MPEG_5_1_A: u32 = 0x79_0006;

pub const MPEG_5_1_B: u32 = 0x7A_0006;

pub const MPEG_5_1_C: u32 = 0x7B_0006;

pub const MPEG_5_1_D: u32 = 0x7C_0006;

pub const MPEG_6_1_A: u32 = 0x7D_0007;

pub const MPEG_7_1_A: u32 = 0x7E_0008;

pub const MPEG_7_1_B: u32 = 0x7F_0008;

pub const MPEG_7_1_C: u32 = 0x80_0008;

pub const EMAGIC_DEFAULT_7_1: u32 = 0x81_0008;

pub const SMPTE_DTV: u32 = 0x82_0008;

pub const ITU_2_1: u32 = 0x83_0003;

pub const ITU_2_2: u32 = 0x84_0004;

pub const DVD_4: u32 = 0x85_0003;

pub const DVD_5: u32 = 0x86_0004;

pub const DVD_6: u32 = 0x87_0005;

pub const DVD_10: u32 = 0x88_0004;

pub const DVD_11: u32 = 0x89_0005;

pub const DVD_18: u32 = 0x8A_0005;

pub const DVD_20: u32 = 0x8B_0006;

pub const DVD_21: u32 = 0x8C_0007;

pub const AAC_6_0: u32 = 0x8D_0006;

pub const AAC_6_1: u32 = 0x8E_0007;

pub const AAC_7_0: u32 = 0x8F_0007;

pub const AAC_OCTAGONAL: u32 = 0x90_0008;

pub const TMH_10_2_STD: u32 = 0x91_0010;

pub const TMH_10_2_FULL: u32 = 0x92_0015;

pub const RESERVED_DO_NOT_USE: u32 = 0x93_0000;

const LOW_HALF: u32 = 0x1_0000;

pub fn tag_channels(tag: u32) -> u32
    ensures { result ≡ channels tag }
{
    tag % LOW_HALF
}
