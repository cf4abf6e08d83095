// Numbers in bytes, as images and the program's input have them: little-endian numbers, and pairs of offset and length.
#![tactic(auto)]

ghost use Rattle.std.specs.Prelude.{◌≡◌, ◌∷◌, [], ◌+◌, ◌≤◌, length};
ghost use Rattle.codec.specs.Bytes.{section, written};
ghost use Rattle.codec.specs.Numbers.{u32_width, u64_width, pair_width, u32_at, u64_at, little_endian, pair_at, pair_bytes};

// An offset and a length, as a directory has them.
#[derive(Clone, Copy, Debug, PartialEq, Eq)]
pub struct Pair {
    pub offset: u32,
    pub long: u32,
}

// A number's width in bytes.
const U32_WIDTH: usize = 4;

// So many bytes from a place on.
fn bytes_at<const N: usize>(bytes: &[u8], at: usize) -> [u8; N]
    requires { at + N ≤ length bytes.now }
    ensures { result ≡ section bytes.now at N }
{
    bytes[at..at + N].try_into().unwrap()
}

// The number of 32 bits at a place.
pub fn read_u32(bytes: &[u8], at: usize) -> u32
    requires { at + u32_width ≤ length bytes.now }
    ensures { result ≡ u32_at bytes.now at }
{
    u32::from_le_bytes(bytes_at(bytes, at))
}

// The number of 64 bits at a place: its lower half stands first.
pub fn read_u64(bytes: &[u8], at: usize) -> u64
    requires { at + u64_width ≤ length bytes.now }
    ensures { result ≡ u64_at bytes.now at }
{
    u64::from_le_bytes(bytes_at(bytes, at))
}

// The pair at a place.
pub fn read_pair(bytes: &[u8], at: usize) -> Pair
    requires { at + pair_width ≤ length bytes.now }
    ensures { result ≡ pair_at bytes.now at }
{
    let offset = read_u32(bytes, at);
    let long = read_u32(bytes, at + U32_WIDTH);
    Pair { offset, long }
}

// Four bytes written at a place.
pub fn write_four(bytes: &mut [u8], at: usize, a: u8, b: u8, c: u8, d: u8)
    requires { at + 4 ≤ length bytes.old }
    ensures { bytes.new ≡ written bytes.old at (a ∷ b ∷ c ∷ d ∷ []) }
{
    bytes[at..at + 4].copy_from_slice(&[a, b, c, d]);
}

// A number of 32 bits written at a place.
pub fn write_u32(bytes: &mut [u8], at: usize, value: u32)
    requires { at + u32_width ≤ length bytes.old }
    ensures { bytes.new ≡ written bytes.old at (little_endian u32_width value) }
{
    bytes[at..at + U32_WIDTH].copy_from_slice(&value.to_le_bytes());
}

// A pair written at a place.
pub fn write_pair(bytes: &mut [u8], at: usize, pair: Pair)
    requires { at + pair_width ≤ length bytes.old }
    ensures { bytes.new ≡ written bytes.old at (pair_bytes pair) }
{
    write_u32(bytes, at, pair.offset);
    write_u32(bytes, at + U32_WIDTH, pair.long);
}
