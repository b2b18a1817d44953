// A map file that was read.
ghost use Rattle.mapfile.specs.Rules.{Accepted};

// A file that the rules accept.
#[derive(Clone, Copy)]
pub struct MapFile<'a> {
    pub(crate) file: &'a [u8],
    ghost accepted: { Accepted file.now },
}
