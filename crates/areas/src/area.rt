// A stretch of memory.
ghost use Rattle.std.specs.Prelude.{◌≡◌, ◌+◌};
ghost use Rattle.areas.specs.Area.{crosses, holds};

#[derive(Clone, Copy, Default, PartialEq, Eq, Debug)]
pub struct Area {
    pub start: u32,
    pub length: u32,
}

impl Area {
    // The first address past the area.
    pub(crate) fn end(&self) -> u64
        ensures { result ≡ self.now.start + self.now.length }
    {
        self.start as u64 + self.length as u64
    }

    // Whether the area shares a byte with the `n` from `a`.
    pub fn crosses(&self, a: u32, n: u32) -> bool
        ensures { result ≡ crosses a n self.now }
    {
        (a as u64) < self.end() && (self.start as u64) < a as u64 + n as u64
    }

    // Whether all the `n` bytes from `a` lie in the area.
    pub fn holds(&self, a: u32, n: u32) -> bool
        ensures { result ≡ holds a n self.now }
    {
        self.start <= a && a as u64 + n as u64 <= self.end()
    }
}
