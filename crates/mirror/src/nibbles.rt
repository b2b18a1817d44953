// A row of nibbles.
ghost use Rattle.std.specs.Prelude.{◌≡◌, ℕ, ◌<◌, ◌≤◌, if◌then◌else◌, nat_eq, nat_lt, Some, None, slice_index};
ghost use Rattle.mirror.specs.Nibbles.{nibbles, place_in};

// A nibble for each byte of memory, two to a byte: that of an even address in the low half.
#[derive(Drop)]
pub(crate) struct Nibbles {
    pub(crate) bytes: [u8; 2048],
}

impl Nibbles {
    // A byte of the row, and none past its end.
    pub(crate) fn byte(&self, index: usize) -> Option<u8>
        ensures { result ≡ (if nat_lt index 2048 then Some (slice_index self.now.bytes index) else None) }
    {
        if index < self.bytes.len() {
            Some(self.bytes[index])
        } else {
            None
        }
    }

    // The nibble of an address, and 0 past the end.
    pub(crate) fn get(&self, i: usize) -> u8
        ensures value { result ≡ nibbles self.now.bytes i }
        ensures small { result < 16 }
    {
        if i / 2 >= self.bytes.len() {
            return 0;
        }
        let b = self.bytes[i / 2];
        if i % 2 == 0 { b % 16 } else { b / 16 }
    }

    pub(crate) fn set(&mut self, i: usize, v: u8)
        requires { (i < 4096) × (v < 16) }
        ensures { (j : ℕ) → nibbles self.new.bytes j ≡ (if nat_eq j i then v else nibbles self.old.bytes j) }
    {
        let b = self.bytes[i / 2];
        self.bytes[i / 2] = if i % 2 == 0 {
            b / 16 * 16 + v
        } else {
            b % 16 + v * 16
        };
    }

    // The position of byte `i` in its object.
    pub(crate) fn position(&self, i: usize) -> usize
        ensures value { result ≡ place_in (nibbles self.now.bytes) i }
        ensures within { result ≤ i }
    {
        if i == 0 {
            return 0;
        }
        let x = self.get(i);
        if x < 8 {
            0
        } else if x > 8 {
            1
        } else {
            self.position(i - 1) + 1
        }
    }
}
