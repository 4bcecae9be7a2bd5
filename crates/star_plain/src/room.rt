// Bytes of a room that is lent to be written.
ghost use Rattle.std.specs.Prelude.{◌≡◌, ◌+◌, ◌≤◌, length};
ghost use Rattle.star_plain.specs.Put.{Put, within};

// Puts these bytes at a place, and answers the place after them. It is called by proved layers only, which lend room enough.
pub(crate) fn put_bytes(out: &mut [u8], at: usize, bytes: &[u8]) -> usize
    requires { at + length bytes.now ≤ length out.old }
    ensures { Put bytes.now at out.old out.new result }
{
    // a loop, since copy_from_slice would need memmove from outside the archive for C
    for i in 0..bytes.len() {
        out[at + i] = bytes[i];
    }
    at + bytes.len()
}

// Puts these bytes at a place, and answers the place after them; where the room ends before that, nothing is put.
pub fn put_within(out: &mut [u8], at: usize, bytes: &[u8]) -> usize
    ensures { Put (within (length out.old) at bytes.now) at out.old out.new result }
{
    if out.len() < at {
        return at;
    }
    if out.len() - at < bytes.len() {
        return at;
    }
    put_bytes(out, at, bytes)
}
