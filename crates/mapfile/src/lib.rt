// Reads a map file: a count, that many entries, and the bodies that they name. Nothing is copied: each section is a part of the file.
#![tactic(auto)]

mod entries;
mod entry;
mod map_file;
mod reader;
mod section;

pub use map_file::MapFile;
pub use reader::LONGEST;
pub use section::Section;
