// The entries of a file. A byte past the file's end reads as 0, so that every question has an answer.
ghost use Rattle.std.specs.Prelude.{◌≡◌, ℕ, ◌+◌, ◌*◌, ◌^◌, ◌<◌, ◌≤◌, length, Decides};
ghost use Rattle.mapfile.specs.Files.{entry_count, letter_at, offset_at, length_at, end_at, due_at, body_at};
ghost use Rattle.mapfile.specs.Rules.{Unknown, Second, Misplaced, Overrun, BadEntry};
ghost use Rattle.mapfile.specs.Sections.{Made, There};

use crate::entries::Lettered;
use crate::section::Section;
use first::any_bad;
use little_endian::{byte_at, u16_at};

pub(crate) fn entry_count(file: &[u8]) -> u32
    ensures count { result ≡ entry_count file.now }
    ensures small { result < 256 }
{
    u32::from(byte_at(file, 0))
}

// An entry, by its number.
#[derive(Clone, Copy)]
pub(crate) struct Entry<'a> {
    pub(crate) file: &'a [u8],
    pub(crate) number: u32,
}

impl<'a> Entry<'a> {
    // Where the entry stands in the file.
    fn start(&self) -> usize
        ensures { result ≡ 1 + 5 * self.now.number }
    {
        1 + 5 * self.number as usize
    }

    pub(crate) fn letter(&self) -> char
        ensures { result ≡ letter_at self.now.file.now self.now.number }
    {
        byte_at(self.file, self.start()) as char
    }

    fn offset(&self) -> u32
        ensures offset { result ≡ offset_at self.now.file.now self.now.number }
        ensures small { result < 2 ^ 16 }
    {
        u32::from(u16_at(self.file, self.start() + 1))
    }

    fn end(&self) -> u32
        ensures { result ≡ end_at self.now.file.now self.now.number }
    {
        self.offset() + u32::from(u16_at(self.file, self.start() + 3))
    }

    // Where the body of the entry has to begin.
    pub(crate) fn due(&self) -> u32
        ensures { result ≡ due_at self.now.file.now self.now.number }
    {
        match self.number.checked_sub(1) {
            Some(number) => Entry { number, ..*self }.end(),
            None => 1 + 5 * entry_count(self.file),
        }
    }

    // The bytes that the entry names, as far as the file has them.
    pub(crate) fn body(&self) -> &'a [u8]
        ensures { result.now ≡ body_at self.now.file.now self.now.number }
    {
        let file = self.file;
        let from = file.len().min(self.offset() as usize);
        let to = file.len().min(self.end() as usize);
        &file[from..to]
    }

    // What the entry names, if it has one of the letters.
    pub(crate) fn section(&self) -> Option<Section<'a>>
        ensures made { Made self.now.file.now self.now.number result }
        ensures there { There self.now.file.now self.now.number result }
    {
        let body = self.body();
        match self.letter() {
            'L' => Some(Section::Layout(body)),
            'R' => Some(Section::Routine(body)),
            'C' => Some(Section::Claims(body)),
            _ => None,
        }
    }

    fn is_unknown(&self) -> bool
        ensures { Decides result (Unknown self.now.file.now self.now.number) }
    {
        self.section().is_none()
    }

    fn is_second(&self, letter: char) -> bool
        ensures { Decides result (Second self.now.file.now letter self.now.number) }
    {
        self.letter() == letter
            && any_bad(&Lettered {
                file: self.file,
                letter,
                before: self.number,
            })
    }

    fn is_misplaced(&self) -> bool
        ensures { Decides result (Misplaced self.now.file.now self.now.number) }
    {
        self.offset() != self.due()
    }

    fn is_overrun(&self) -> bool
        ensures { Decides result (Overrun self.now.file.now self.now.number) }
    {
        self.file.len() < self.end() as usize
    }

    pub(crate) fn is_bad(&self) -> bool
        ensures { Decides result (BadEntry self.now.file.now self.now.number) }
    {
        self.is_unknown()
            || self.is_second('R')
            || self.is_second('C')
            || self.is_misplaced()
            || self.is_overrun()
    }
}
