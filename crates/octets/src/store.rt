// Numbers, stored in a lent buffer.
ghost use Rattle.std.specs.Prelude.{◌≡◌, length};
ghost use Rattle.octets.specs.Written.{Stored, little_endian};

// x in all of the bytes.
fn store(bytes: &mut [u8], x: u64)
    ensures { bytes.new ≡ little_endian (length bytes.old) x }
{
    let mut rest = x;
    for byte in bytes.iter_mut() {
        *byte = (rest % 256) as u8;
        rest /= 256;
    }
}

// x in `width` bytes from byte `at` on, little-endian; of a larger number the low bytes. Answers the place after them, or `at` where there
// is no room, and then the buffer stays.
pub fn put_number(buffer: &mut [u8], at: usize, width: usize, x: u64) -> usize
    ensures { Stored buffer.old at (little_endian width x) buffer.new result }
{
    if buffer.len() < width || buffer.len() - width < at {
        return at;
    }
    let end = at + width;
    store(&mut buffer[at..end], x);
    end
}
