// Reads a file, and hands out its sections.
ghost use Rattle.std.specs.Prelude.{◌≡◌, ℕ, ◌<◌, length, is_some, true, IfOk, Err, Decides, MatchOption};
ghost use Rattle.refusal.specs.declared.Rule.TheVariants.{MapFile as MapFileRule};
ghost use Rattle.first.specs.First.{Only, answer_of};
ghost use Rattle.mapfile.specs.Files.{entry_count};
ghost use Rattle.mapfile.specs.Rules.{routine_letter, claims_letter, Unreadable, Incomplete, Accepted, Allowed, InOrder, Without, Cut, Parted};
ghost use Rattle.mapfile.specs.Sections.{file_of, SectionAt, TheBody, Single};

use crate::entries::{Entries, Lettered};
use crate::entry::{Entry, entry_count};
use crate::map_file::MapFile;
use crate::section::Section;
use first::{any_bad, first_bad, try_rule};
use refusal::{Refusal, Rule};

// The most bytes of a file.
pub const LONGEST: usize = 16_384;

const MOST_ENTRIES: u32 = 16;

fn is_unreadable(file: &[u8]) -> bool
    ensures { Decides result (Unreadable file.now) }
{
    let count = entry_count(file);
    file.len() > LONGEST || count == 0 || count > MOST_ENTRIES
}

fn is_incomplete(file: &[u8]) -> bool
    ensures { Decides result (Incomplete file.now) }
{
    let count = entry_count(file);
    let past = Entry {
        file,
        number: count,
    };
    !any_bad(&Lettered {
        file,
        letter: 'R',
        before: count,
    }) || (past.due() as usize) < file.len()
}

// The rules in order.
fn accept(file: &[u8]) -> Result<(), Refusal>
    ensures { InOrder file.now result }
{
    if is_unreadable(file) {
        return Err((Rule::MapFile, entry_count(file)));
    }
    try_rule(Rule::MapFile, &Entries { file })?;
    if is_incomplete(file) {
        return Err((Rule::MapFile, entry_count(file)));
    }
    Ok(())
}

impl<'a> MapFile<'a> {
    // The file as its sections, or the first rule that it breaks. A file that ends within its header is refused at entry 0.
    pub fn read(file: &'a [u8]) -> Result<MapFile<'a>, Refusal>
        ensures answer { Only (Allowed file.now) (answer_of result) }
        ensures same { IfOk result (λ m. file_of m ≡ file.now) }
        ensures accepted { IfOk result (λ m. Accepted (file_of m)) }
        ensures parted { IfOk result (λ m. Parted (file_of m)) }
        ensures cut { Cut file.now → answer_of result ≡ Err (MapFileRule, 0) }
    {
        accept(file)?;
        Ok(MapFile { file })
    }

    // How many sections there are.
    pub fn section_count(&self) -> u32
        ensures { result ≡ entry_count (file_of self.now) }
    {
        entry_count(self.file)
    }

    // A part of the file, under its letter. Sections count from 0, in the file's order.
    pub fn section(&self, i: u32) -> Option<Section<'a>>
        ensures value { SectionAt (file_of self.now) i result }
        ensures there { i < entry_count (file_of self.now) → is_some result ≡ true }
    {
        if i < self.section_count() {
            self.entry(i).section()
        } else {
            None
        }
    }

    fn entry(&self, number: u32) -> Entry<'a>
        ensures file { result.file.now ≡ file_of self.now }
        ensures number { result.number ≡ number }
    {
        Entry {
            file: self.file,
            number,
        }
    }

    fn body_under(&self, letter: char) -> Option<&'a [u8]>
        requires { Single letter }
        ensures { MatchOption result (Without (file_of self.now) letter) (λ b. TheBody (file_of self.now) letter b.now) }
    {
        let lettered = Lettered {
            file: self.file,
            letter,
            before: self.section_count(),
        };
        let entry = first_bad(&lettered)?;
        Some(self.entry(entry).body())
    }

    // The routine. No file that was read lacks one.
    pub fn routine(&self) -> &'a [u8]
        ensures { TheBody (file_of self.now) routine_letter result.now }
    {
        self.body_under('R').unwrap()
    }

    // The claims, if there are any.
    pub fn claims(&self) -> Option<&'a [u8]>
        ensures { MatchOption result (Without (file_of self.now) claims_letter) (λ b. TheBody (file_of self.now) claims_letter b.now) }
    {
        self.body_under('C')
    }
}
