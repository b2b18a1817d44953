// The parts of a map file.

// A body, under the letter of its entry.
#[derive(Clone, Copy)]
pub enum Section<'a> {
    Layout(&'a [u8]),
    Routine(&'a [u8]),
    Claims(&'a [u8]),
}
