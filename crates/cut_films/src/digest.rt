// A digest of a file's bytes. Every byte counts, and its place.
ghost use Rattle.std.specs.Prelude.{◌≡◌};
ghost use Rattle.cut_films.specs.Digest.{digest_of};

pub fn digest(file: &[u8]) -> u64
    ensures { result ≡ digest_of file.now }
{
    let mut d: u64 = 0;
    for byte in file {
        d = d % 0x1_0000_0000 * 1_000_003 + u64::from(*byte);
    }
    d % 0x1_0000_0000
}
