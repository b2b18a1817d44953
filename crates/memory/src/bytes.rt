// Rows of bytes, and the numbers in them, the low byte first.
ghost use Rattle.std.specs.Prelude.{◌≡◌, ◌+◌, ◌%◌, ◌≤◌, length};
ghost use Rattle.memory.specs.Bytes.{cleared, held, value_at, written};
ghost use Rattle.memory.specs.Rules.{widest};

use areas::area::Area;

// What a byte holds that nothing was written to.
pub(crate) fn unwritten() -> u8
    ensures { result ≡ 0 }
{
    0
}

// Zeroes the bytes of an area.
pub(crate) fn wipe(bytes: &mut [u8], area: Area)
    requires { area.start + area.length ≤ length bytes.old }
    ensures { held bytes.new ≡ cleared (held bytes.old) area.start area.length }
{
    let start = area.start as usize;
    let end = start + area.length as usize;
    bytes[start..end].fill(0);
}

fn low_byte(value: u32) -> u8
    ensures { result ≡ value % 256 }
{
    (value % 256) as u8
}

pub(crate) fn write(bytes: &mut [u8], at: usize, value: u32, size: u8)
    requires { at + size ≤ length bytes.old }
    ensures { held bytes.new ≡ written (held bytes.old) at value size }
{
    // By index: a copy of `to_le_bytes` would serve four bytes at most, and this promises any `size`.
    let mut rest = value;
    for i in 0..size {
        bytes[at + i as usize] = low_byte(rest);
        rest /= 256;
    }
}

// A number of at most as many bytes as an access has.
pub(crate) fn read(bytes: &[u8], at: usize, size: u8) -> u32
    requires within { at + size ≤ length bytes.now }
    requires few { size ≤ widest }
    ensures { result ≡ value_at (held bytes.now) at size }
{
    // By index: in a fold the closure would have to know that each sum fits, which the invariant says here.
    let mut value = 0;
    for i in (0..size).rev() {
        value = value * 256 + bytes[at + i as usize] as u32;
    }
    value
}
