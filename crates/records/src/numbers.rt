// Numbers of two and of four bytes, little-endian: a number of four is two halves, the lower one first. The rule says them so, and an array
// that is cut off a slice for the library's conversion would be no plainer. Bytes and place stay two arguments, here and above: the rule
// names both, as in the promises of the sheet's `fault_from` and `end_from`.
ghost use Rattle.std.specs.Prelude.{◌≡◌, [], ◌∷◌, ◌+◌, ◌≤◌, ◌<◌, length};
ghost use Rattle.laws.specs.Put.{put};
ghost use Rattle.records.specs.Rule.{byte_at, two_at, four_at, two_bytes, four_bytes};

// A byte as a number.
pub fn byte_at(bytes: &[u8], at: usize) -> u32
    requires { at + 1 ≤ length bytes.now }
    ensures { (result ≡ byte_at bytes.now at) × (result < 256) }
{
    u32::from(bytes[at])
}

pub fn two_at(bytes: &[u8], at: usize) -> u32
    requires { at + 2 ≤ length bytes.now }
    ensures { (result ≡ two_at bytes.now at) × (result < 65536) }
{
    byte_at(bytes, at) + 256 * byte_at(bytes, at + 1)
}

pub fn four_at(bytes: &[u8], at: usize) -> u32
    requires { at + 4 ≤ length bytes.now }
    ensures { result ≡ four_at bytes.now at }
{
    let low = two_at(bytes, at);
    let high = two_at(bytes, at + 2);
    low + 65536 * high
}

pub fn put_byte(n: u32, bytes: &mut [u8], at: usize)
    requires { (at + 1 ≤ length bytes.old) × (n < 256) }
    ensures { bytes.new ≡ put at (n ∷ []) bytes.old }
{
    bytes[at] = n as u8;
}

pub fn put_two(n: u32, bytes: &mut [u8], at: usize)
    requires { (at + 2 ≤ length bytes.old) × (n < 65536) }
    ensures { bytes.new ≡ put at (two_bytes n) bytes.old }
{
    put_byte(n % 256, bytes, at);
    put_byte(n / 256, bytes, at + 1);
}

pub fn put_four(n: u32, bytes: &mut [u8], at: usize)
    requires { at + 4 ≤ length bytes.old }
    ensures { bytes.new ≡ put at (four_bytes n) bytes.old }
{
    put_two(n % 65536, bytes, at);
    put_two(n / 65536, bytes, at + 2);
}
