// A field of a packed record.
ghost use Rattle.std.specs.Prelude.{◌≡◌, ◌+◌, ◌/◌, ◌^◌, Decides, nat_lt};
ghost use Rattle.store.specs.Cells.{among};
ghost use Rattle.layout.specs.Fields.{byte_of};
ghost use Rattle.layout.specs.Rules.{Common};

use store::scalars::Scalar;

// An object of the type `scalar` at `address`, whose bytes hold the reset value, the low one first.
#[derive(Clone, Copy, PartialEq, Eq, Debug)]
pub struct Field {
    pub scalar: Scalar,
    pub address: u32,
    pub reset: u32,
}

// A number without its `count` low bytes.
fn above(value: u32, count: u8) -> u32
    ensures { result ≡ value / 256 ^ count }
{
    if count < 4 {
        value >> (8 * count as u32)
    } else {
        0
    }
}

impl Field {
    // Byte `j` of the reset value; those past its four are 0.
    pub fn byte(&self, j: u8) -> u8
        ensures { result ≡ byte_of self.now.reset j }
    {
        (above(self.reset, j) % 256) as u8
    }

    // Whether the reset value needs more bytes than the field has: something is left above them.
    pub(crate) fn is_too_large(&self) -> bool
        ensures { result ≡ nat_lt 0 (self.now.reset / 256 ^ self.now.scalar.size) }
    {
        above(self.reset, self.scalar.size) > 0
    }

    // Where the field ends: the address past its last byte.
    pub fn end(&self) -> u64
        ensures { result ≡ self.now.address + self.now.scalar.size }
    {
        self.address as u64 + self.scalar.size as u64
    }

    // Whether the byte of memory is one of the field's own.
    pub fn has(&self, byte: u32) -> bool
        ensures { result ≡ among self.now.address self.now.scalar.size byte }
    {
        self.address <= byte && byte - self.address < self.scalar.size as u32
    }

    // Whether two fields share a byte: both then have the first byte of the later one.
    pub(crate) fn meets(&self, other: &Field) -> bool
        ensures { Decides result (Common self.now other.now) }
    {
        let first = self.address.max(other.address);
        self.has(first) && other.has(first)
    }
}
