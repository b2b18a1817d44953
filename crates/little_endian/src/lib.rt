// Numbers in bytes, the low byte first. Bytes past the end read as 0, so that every question has an answer.
#![tactic(auto)]

ghost use Rattle.std.specs.Prelude.{◌≡◌, ◌+◌};
ghost use Rattle.little_endian.specs.Numbers.{byte, two, four};

pub fn byte_at(bytes: &[u8], i: usize) -> u8
    ensures { result ≡ byte bytes.now i }
{
    // By a test, so that an edit of the byte and one of what lies past the end are told apart.
    if i < bytes.len() { bytes[i] } else { 0 }
}

// The byte `k` above byte `i`. Where the sum has no number, no slice has the byte.
fn byte_above(bytes: &[u8], i: usize, k: usize) -> u8
    ensures { result ≡ byte bytes.now (i + k) }
{
    i.checked_add(k).map_or(0, |i| byte_at(bytes, i))
}

// The number of two bytes.
pub fn u16_at(bytes: &[u8], i: usize) -> u16
    ensures { result ≡ two bytes.now i }
{
    u16::from_le_bytes([byte_at(bytes, i), byte_above(bytes, i, 1)])
}

// The number of four bytes.
pub fn u32_at(bytes: &[u8], i: usize) -> u32
    ensures { result ≡ four bytes.now i }
{
    u32::from_le_bytes([
        byte_at(bytes, i),
        byte_above(bytes, i, 1),
        byte_above(bytes, i, 2),
        byte_above(bytes, i, 3),
    ])
}
