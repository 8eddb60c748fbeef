ghost use Rattle.std.specs.Prelude.{◌≡◌, ◌+◌, ◌*◌, ◌≤◌, length};
ghost use borrow.Rule.Slice.PartMut.{put_mid};
ghost use Rattle.media.specs.Media.{place as place_of};

// Fills the buffer with the bytes that lie in a place.
pub(crate) fn get_place(bytes: &[u8], place: usize, buffer: &mut [u8])
    requires { place * length buffer.old + length buffer.old ≤ length bytes.now }
    ensures { buffer.new ≡ place_of bytes.now (length buffer.old) place }
{
    let at = place * buffer.len();
    buffer.copy_from_slice(&bytes[at..at + buffer.len()]);
}

// Puts the buffer's bytes into a place.
pub(crate) fn put_place(bytes: &mut [u8], place: usize, buffer: &[u8])
    requires { place * length buffer.now + length buffer.now ≤ length bytes.old }
    ensures { bytes.new ≡ put_mid (place * length buffer.now) (length buffer.now) bytes.old buffer.now }
{
    let at = place * buffer.len();
    bytes[at..at + buffer.len()].copy_from_slice(buffer);
}
