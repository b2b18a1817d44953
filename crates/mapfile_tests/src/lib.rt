// What the reader answers on files written out by hand.
#![tactic(auto)]

ghost use Rattle.std.specs.Prelude.{◌≤◌};

#[cfg(test)]
mod tests {
    use mapfile::{MapFile, Section};
    use refusal::numbered;
    use std::test::Fail;

    // A layout, the routine, a second layout and claims, behind a header of 21 bytes.
    fn good() -> [u8; 33] {
        [
            4, b'L', 21, 0, 3, 0, b'R', 24, 0, 4, 0, b'L', 28, 0, 2, 0, b'C', 30, 0, 3, 0, 11, 12,
            13, 21, 22, 23, 24, 31, 32, 41, 42, 43,
        ]
    }

    fn refusal(file: &[u8]) -> Option<(u8, u32)> {
        match MapFile::read(file) {
            Ok(_) => None,
            Err(refusal) => Some(numbered(refusal)),
        }
    }

    // The good file with another byte at a place.
    fn patched(at: usize, byte: u8) -> Option<(u8, u32)> {
        let mut file = good();
        if at < file.len() {
            file[at] = byte;
        }
        refusal(&file)
    }

    fn letter(section: Section) -> char {
        match section {
            Section::Layout(_) => 'L',
            Section::Routine(_) => 'R',
            Section::Claims(_) => 'C',
        }
    }

    fn body<'a>(section: Section<'a>) -> &'a [u8] {
        match section {
            Section::Layout(body) => body,
            Section::Routine(body) => body,
            Section::Claims(body) => body,
        }
    }

    #[test]
    fn sections_are_parts_under_their_letters(rt: HostRuntime) -> Result<(), Fail> {
        let file = good();
        let map = MapFile::read(&file)?;
        assert_eq!(rt; map.section_count(), 4);
        for (i, under, from, to) in [
            (0, 'L', 21, 24),
            (1, 'R', 24, 28),
            (2, 'L', 28, 30),
            (3, 'C', 30, 33),
        ] {
            let section = map.section(i).ok_or("no section")?;
            assert_eq!(rt; letter(section), under);
            assert_eq!(rt; Some(body(section)), file.get(from..to));
        }
        assert!(rt; map.section(4).is_none());
        assert_eq!(rt; map.routine(), &file[24..28]);
        assert_eq!(rt; map.claims().ok_or("no claims")?, &file[30..33]);
        Ok(())
    }

    #[test]
    fn a_byte_amiss_is_refused_where_it_is(rt: HostRuntime) {
        // at, byte, place
        let rows = [
            (0, 0, 0),
            (0, 17, 17),
            (0, 255, 255),
            (0, 3, 0),
            (0, 5, 0),
            (1, b'X', 0),
            (6, b'r', 1),
            (16, 0, 3),
            (1, b'R', 1),
            (11, b'R', 2),
            (1, b'C', 3),
            (2, 20, 0),
            (2, 22, 0),
            (3, 1, 0),
            (7, 23, 1),
            (12, 29, 2),
            (4, 2, 1),
            (4, 4, 1),
            (5, 1, 0),
            (19, 4, 3),
            (20, 255, 3),
            (19, 2, 4),
            (6, b'L', 4),
        ];
        for (at, byte, place) in rows {
            assert_eq!(rt; patched(at, byte), Some((1, place)));
        }
    }

    #[test]
    fn a_byte_that_no_rule_names_is_read(rt: HostRuntime) {
        // a body's byte; claims that are a layout
        for (at, byte) in [(21, 0), (32, 255), (16, b'L')] {
            assert_eq!(rt; patched(at, byte), None);
        }
    }

    // The body that the good file lacks, or has only in part, if it ends after n bytes. A header that is cut off leaves no room for body 0.
    fn cut_body(n: usize) -> u32 {
        match n {
            0..=23 => 0,
            24..=27 => 1,
            28..=29 => 2,
            _ => 3,
        }
    }

    #[test]
    fn a_file_cut_off_is_refused_at_the_body_that_it_cuts(rt: HostRuntime) {
        let file = good();
        for n in 0..33 {
            assert_eq!(rt; refusal(&file[0..n]), Some((1, cut_body(n))));
        }
        assert_eq!(rt; refusal(&file), None);
    }

    // So many entries, each with a body of one byte: layouts, and the routine last. A byte is left over.
    fn many(count: u8) -> [u8; 104]
        requires { count ≤ 17 }
    {
        let mut file = [0; 104];
        file[0] = count;
        for i in 0..count {
            let entry = 1 + 5 * usize::from(i);
            file[entry] = if i + 1 == count { b'R' } else { b'L' };
            file[entry + 1] = 1 + 5 * count + i;
            file[entry + 3] = 1;
        }
        file
    }

    #[test]
    fn up_to_sixteen_sections_and_no_byte_more(rt: HostRuntime) {
        for count in 1..17 {
            let file = many(count);
            let end = 1 + 6 * usize::from(count);
            assert_eq!(rt; refusal(&file[0..end]), None);
            assert_eq!(rt; refusal(&file[0..end + 1]), Some((1, u32::from(count))));
        }
        assert_eq!(rt; refusal(&many(17)[0..103]), Some((1, 17)));
    }

    #[test]
    fn empty_bodies_are_read(rt: HostRuntime) -> Result<(), Fail> {
        let file = [2, b'C', 11, 0, 0, 0, b'R', 11, 0, 0, 0];
        let map = MapFile::read(&file)?;
        assert_eq!(rt; map.routine().len(), 0);
        assert_eq!(rt; map.claims().ok_or("no claims")?.len(), 0);
        Ok(())
    }

    #[test]
    fn no_claims_are_none(rt: HostRuntime) -> Result<(), Fail> {
        let file = [1, b'R', 6, 0, 1, 0, 77];
        let map = MapFile::read(&file)?;
        assert!(rt; map.claims().is_none());
        assert_eq!(rt; map.routine(), [77].as_slice());
        Ok(())
    }

    // One routine in so many bytes, of which the length's low byte is given.
    fn long(low: u8) -> [u8; 16_385] {
        let mut file = [0; 16_385];
        file[0] = 1;
        file[1] = b'R';
        file[2] = 6;
        file[4] = low;
        file[5] = 63;
        file
    }

    #[test]
    fn up_to_16384_bytes(rt: HostRuntime) {
        assert_eq!(rt; refusal(&long(250)[0..16_384]), None);
        assert_eq!(rt; refusal(&long(251)), Some((1, 1)));
    }
}
