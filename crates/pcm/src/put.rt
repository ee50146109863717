// The bytes of a small array, put where they have room. The array's length is known at each call, so that a compiler makes one store of
// the copy.
ghost use Rattle.std.specs.Prelude.{◌≡◌, ◌+◌, ◌≤◌, length};
ghost use Rattle.byte_order.specs.Splice.{splice};

pub(crate) fn put_bytes(buf: &mut [u8], at: usize, bytes: &[u8])
    requires { at + length bytes.now ≤ length buf.old }
    ensures { buf.new ≡ splice buf.old at bytes.now }
{
    let end = at + bytes.len();
    buf[at..end].copy_from_slice(bytes);
}
