// The entries of a file as numbered places. Each test is a struct, for the reason at `first::Test`.
ghost use Rattle.mapfile.specs.Files.{entry_count};
ghost use Rattle.mapfile.specs.Rules.{Under, BadEntry};

use crate::entry::{Entry, entry_count};
use first::Test;

// The entries under a letter, of those before a given one: it is they that the test finds.
#[derive(Drop)]
pub(crate) struct Lettered<'a> {
    pub(crate) file: &'a [u8],
    pub(crate) letter: char,
    pub(crate) before: u32,
}

impl Test for Lettered<'_> {
    ghost bad = { λ s. Under s.file.now s.letter };

    ghost places = { λ s. s.before };

    fn count(&self) -> u32 {
        self.before
    }

    fn fails(&self, place: u32) -> bool {
        let entry = Entry {
            file: self.file,
            number: place,
        };
        entry.letter() == self.letter
    }
}

// All entries, each against what makes one bad.
#[derive(Drop)]
pub(crate) struct Entries<'a> {
    pub(crate) file: &'a [u8],
}

impl Test for Entries<'_> {
    ghost bad = { λ s. BadEntry s.file.now };

    ghost places = { λ s. entry_count s.file.now };

    fn count(&self) -> u32 {
        entry_count(self.file)
    }

    fn fails(&self, place: u32) -> bool {
        let entry = Entry {
            file: self.file,
            number: place,
        };
        entry.is_bad()
    }
}
