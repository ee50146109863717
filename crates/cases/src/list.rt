// Lists of four-byte numbers in a case, as arrays of the length that any list of the sample has at most.
ghost use Rattle.std.specs.Prelude.{◌≡◌, length};
ghost use Rattle.cases.specs.List.{labels_at, samples_at, signed32};

use byte_order::read::be_u32;

pub const MOST_LABELS: usize = 256;

pub const MOST_SAMPLES: usize = 16;

pub fn labels_at(s: &[u8], p: usize) -> [u32; MOST_LABELS]
    ensures { (result ≡ labels_at s.now p) × (256 ≡ length result) }
{
    let mut labels = [0; MOST_LABELS];
    for (i, label) in labels.iter_mut().enumerate() {
        *label = be_u32(s, p.saturating_add(4 * i));
    }
    labels
}

fn signed(u: u32) -> i32
    ensures { result ≡ signed32 u }
{
    u.cast_signed()
}

pub fn samples_at(s: &[u8], p: usize) -> [i32; MOST_SAMPLES]
    ensures { (result ≡ samples_at s.now p) × (16 ≡ length result) }
{
    let mut samples = [0; MOST_SAMPLES];
    for (i, sample) in samples.iter_mut().enumerate() {
        *sample = signed(be_u32(s, p.saturating_add(4 * i)));
    }
    samples
}
