// Runs 01's figures of packing and unpacking. Each line has the call, the number that it gave, and the whole lent slice after it, so the
// places after a result show too: they were lent filled with ee, or with the sample 7.
#![tactic(auto)]

use answers::refusal::number_of;
use format::Endianness;
use pcm::packing::pack;
use pcm::unpacking::unpack;
use std::io;

const BYTE: u8 = 0xEE;

const SAMPLE: i32 = 7;

fn order(rt: &impl Print, endianness: Endianness) -> io::Result<()> {
    match endianness {
        Endianness::BigEndian => show::word(rt, b" big-endian"),
        Endianness::LittleEndian => show::word(rt, b" little-endian"),
    }
}

fn samples(rt: &impl Print, xs: &[i32]) -> io::Result<()> {
    for x in xs {
        show::word(rt, b" ")?;
        show::signed(rt, *x)?;
    }
    Ok(())
}

fn number(rt: &impl Print, n: u32) -> io::Result<()> {
    show::word(rt, b": ")?;
    show::decimal(rt, n as u64)?;
    show::word(rt, b",")
}

fn pack_into(
    rt: &impl Print,
    xs: &[i32],
    endianness: Endianness,
    room: &mut [u8],
) -> io::Result<()> {
    show::word(rt, b"pack")?;
    order(rt, endianness)?;
    samples(rt, xs)?;
    number(rt, number_of(pack(xs, endianness, room)))?;
    show::hex(rt, room)?;
    show::newline(rt)
}

fn unpack_into(
    rt: &impl Print,
    bytes: &[u8],
    endianness: Endianness,
    room: &mut [i32],
) -> io::Result<()> {
    show::word(rt, b"unpack")?;
    order(rt, endianness)?;
    show::hex(rt, bytes)?;
    number(rt, number_of(unpack(bytes, endianness, room)))?;
    samples(rt, room)?;
    show::newline(rt)
}

// One sample there and back.
fn both_ways(rt: &impl Print, x: i32, endianness: Endianness) -> io::Result<()> {
    let xs = [x];
    let mut bytes = [BYTE; 4];
    pack_into(rt, &xs, endianness, &mut bytes)?;
    let mut back = [SAMPLE; 2];
    unpack_into(rt, &bytes[..3], endianness, &mut back)
}

// Two turns of eight samples and three more, there and back.
fn many(rt: &impl Print, endianness: Endianness) -> io::Result<()> {
    let xs = [
        1,
        -1,
        0,
        255,
        -256,
        65535,
        -65536,
        8388607,
        -8388608,
        8388608,
        -8388609,
        16777215,
        -16777216,
        2147483647,
        -2147483647,
        1193046,
        -1193046,
        66051,
        -66051,
    ];
    let mut bytes = [BYTE; 57];
    pack_into(rt, &xs, endianness, &mut bytes)?;
    let mut back = [SAMPLE; 20];
    unpack_into(rt, &bytes, endianness, &mut back)
}

fn room_one_short(rt: &impl Print) -> io::Result<()> {
    let xs = [1, 2];
    let mut bytes = [BYTE; 5];
    pack_into(rt, &xs, Endianness::BigEndian, &mut bytes)?;
    let packed = [0, 0, 1, 0, 0, 2];
    let mut back = [SAMPLE; 1];
    unpack_into(rt, &packed, Endianness::BigEndian, &mut back)
}

// Also where the room is too short for the whole samples.
fn odd_length(rt: &impl Print) -> io::Result<()> {
    let bytes = [0, 0, 1, 0];
    let mut back = [SAMPLE; 1];
    unpack_into(rt, &bytes, Endianness::BigEndian, &mut back)?;
    unpack_into(rt, &bytes, Endianness::BigEndian, &mut back[..0])
}

fn main(rt: HostRuntime) -> io::Result<()> {
    both_ways(&rt, 1, Endianness::BigEndian)?;
    both_ways(&rt, -8388608, Endianness::BigEndian)?;
    both_ways(&rt, 8388608, Endianness::BigEndian)?;
    both_ways(&rt, 1, Endianness::LittleEndian)?;
    both_ways(&rt, -1, Endianness::BigEndian)?;
    both_ways(&rt, 8388607, Endianness::BigEndian)?;
    both_ways(&rt, -8388609, Endianness::LittleEndian)?;
    many(&rt, Endianness::BigEndian)?;
    many(&rt, Endianness::LittleEndian)?;
    room_one_short(&rt)?;
    odd_length(&rt)
}
