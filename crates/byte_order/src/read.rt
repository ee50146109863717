// Big-endian numbers of a slice. After the end of the slice every byte counts as 0, as in `big_at`, so any position may be asked for.
ghost use Rattle.std.specs.Prelude.{◌≡◌, ℕ, ◌+◌, ◌<◌, length, get_or};
ghost use Rattle.byte_order.specs.Big.{big_at};
ghost use Rattle.byte_order.specs.Splice.{has_room};

// Whether w bytes stand at p.
pub(crate) fn is_there(s: &[u8], p: usize, w: usize) -> bool
    ensures { result ≡ has_room p w (length s.now) }
{
    w <= s.len() && p <= s.len() - w
}

// The N bytes from p on. Where they are all there a compiler loads them at once.
fn bytes_at<const N: usize>(s: &[u8], p: usize) -> [u8; N]
    ensures { (i : ℕ) → i < N → get_or result i 0 ≡ get_or s.now (p + i) 0 }
{
    let mut bytes = [0u8; N];
    if is_there(s, p, N) {
        bytes.copy_from_slice(&s[p..p + N]);
    } else if p < s.len() {
        let left = s.len() - p;
        bytes[..left].copy_from_slice(&s[p..]);
    }
    bytes
}

pub fn be_u16(s: &[u8], p: usize) -> u16
    ensures { result ≡ big_at 2 s.now p }
{
    u16::from_be_bytes(bytes_at(s, p))
}

pub fn be_u32(s: &[u8], p: usize) -> u32
    ensures { result ≡ big_at 4 s.now p }
{
    u32::from_be_bytes(bytes_at(s, p))
}

pub fn be_u64(s: &[u8], p: usize) -> u64
    ensures { result ≡ big_at 8 s.now p }
{
    u64::from_be_bytes(bytes_at(s, p))
}
