// Examples of memory over each store: areas, accesses, records and what areas lead to.
#![tactic(auto)]

#[cfg(test)]
mod tests {
    use areas::area::Area;
    use flat::Flat;
    use memory::Memory;
    use mirror::Mirror;
    use refusal::{Refusal, numbered};
    use std::process::Abort;
    use store::halves::{Cells, Places};
    use store::tags::{Cell, Kind};

    // 0 for granted, and the refusal otherwise.
    fn answer(res: Result<(), Refusal>) -> (u8, u32) {
        match res {
            Ok(()) => (0, 0),
            Err(refusal) => numbered(refusal),
        }
    }

    // Opens areas by start and length, and compares the number of each answer.
    fn open_all<S: Places>(rt: &impl Abort, memory: &mut Memory<S>, areas: &[(u32, u32, u8)]) {
        for (start, length, number) in areas {
            assert_eq!(rt; answer(memory.open(*start, *length)), (*number, 0));
        }
    }

    // Compares kind, size and position of cells.
    fn check_cells<S: Places>(rt: &impl Abort, memory: &Memory<S>, cells: &[(u32, Kind, u8, u8)]) {
        for (address, kind, size, position) in cells {
            let cell = Cell {
                kind: *kind,
                size: *size,
                position: *position,
            };
            assert_eq!(rt; memory.cell(*address), Some(cell));
        }
    }

    // Writes pointers.
    fn point_all<S: Places>(rt: &impl Abort, memory: &mut Memory<S>, pointers: &[(u32, u32)]) {
        for (address, value) in pointers {
            assert!(rt; memory.write(*address, 4, *value, Kind::Pointer));
        }
    }

    fn whole<S: Places + Drop>(rt: &impl Abort) {
        let mut memory = Memory::<S>::new();
        let areas = [
            (0, 0, 11),
            (4096, 1, 11),
            (u32::MAX, u32::MAX, 11),
            (0, 4097, 11),
            (0, 4096, 0),
            // too long comes before a byte in common
            (4095, 2, 11),
            (4095, 1, 24),
        ];
        open_all(rt, &mut memory, &areas);
        for (address, size, lawful) in [
            (4092, 4, true),
            (4093, 4, false),
            (0, 0, false),
            (0, 5, false),
        ] {
            assert_eq!(rt; memory.load(address, size).is_some(), lawful);
            assert_eq!(rt; memory.write(address, size, 1, Kind::Integral), lawful);
        }
        assert_eq!(rt; memory.byte(4096), None);
        assert_eq!(rt; memory.cell(4096), None);
    }

    #[test]
    fn whole_memory(rt: HostRuntime) {
        whole::<Flat>(&rt);
        whole::<Mirror>(&rt);
    }

    #[test]
    fn full_areas(rt: HostRuntime) {
        let mut memory = Memory::<Flat>::new();
        // from the highest down, so that each goes before the others
        for i in 0..32 {
            assert_eq!(rt; answer(memory.open(2 * (31 - i), 1)), (0, 0));
        }
        for i in 0..32 {
            let area = Area {
                start: 2 * i as u32,
                length: 1,
            };
            assert_eq!(rt; memory.area(i), Some(area));
        }
        assert_eq!(rt; memory.area(32), None);
        open_all(&rt, &mut memory, &[(100, 1, 25), (62, 2, 24)]);
        for (start, number) in [(1, 26), (40, 0), (40, 26)] {
            assert_eq!(rt; answer(memory.shut(start)), (number, 0));
        }
        assert_eq!(rt; memory.area_count(), 31);
        open_all(&rt, &mut memory, &[(100, 1, 0)]);
    }

    fn touching<S: Places + Drop>(rt: &impl Abort) {
        let mut memory = Memory::<S>::new();
        open_all(
            rt,
            &mut memory,
            &[(16, 16, 0), (32, 16, 0), (0, 16, 0), (15, 2, 24)],
        );
        assert!(rt; memory.write(28, 4, 0x04030201, Kind::Integral));
        // a byte into a word tears the rest of it
        assert!(rt; memory.write(30, 1, 0xff, Kind::Integral));
        assert_eq!(rt; memory.load(28, 4), Some((0x04ff0201, Kind::Torn)));
        // over the edge of two areas
        assert_eq!(rt; memory.load(30, 4), None);
        assert_eq!(rt; answer(memory.shut(17)), (26, 0));
        assert_eq!(rt; answer(memory.shut(16)), (0, 0));
        assert_eq!(rt; memory.byte(28), Some(0));
        let cells = [
            (15, Kind::Uninitialized, 1, 0),
            (28, Kind::Unallocated, 1, 0),
            (31, Kind::Unallocated, 1, 0),
            (32, Kind::Uninitialized, 1, 0),
        ];
        check_cells(rt, &memory, &cells);
    }

    #[test]
    fn touching_areas(rt: HostRuntime) {
        touching::<Flat>(&rt);
        touching::<Mirror>(&rt);
    }

    // A 2-byte integral at 8 and a pointer at 11, and then a word at 9 that cuts both.
    fn records<S: Places + Drop>(rt: &impl Abort) {
        let mut memory = Memory::<S>::new();
        open_all(rt, &mut memory, &[(0, 64, 0)]);
        let record = b"\x08\0h\0\0\x34\x12\0\0p\x03\0\0\0\0\0";
        assert_eq!(rt; answer(memory.import(record)), (0, 0));
        assert_eq!(rt; memory.load(8, 2), Some((0x1234, Kind::Integral)));
        // a reset value of 0 has the field's kind
        assert_eq!(rt; memory.load(11, 4), Some((0, Kind::Pointer)));
        let word = b"\x09\0w\0\0\x01\x02\x03\x04";
        assert_eq!(rt; answer(memory.import(word)), (0, 0));
        assert_eq!(rt; memory.load(9, 4), Some((0x04030201, Kind::Integral)));
        assert_eq!(rt; memory.byte(8), Some(0x34));
        let cells = [
            (8, Kind::Torn, 1, 0),
            (9, Kind::Integral, 4, 0),
            (12, Kind::Integral, 4, 3),
            (13, Kind::Torn, 1, 0),
            (14, Kind::Torn, 1, 0),
            (15, Kind::Uninitialized, 1, 0),
        ];
        check_cells(rt, &memory, &cells);
    }

    #[test]
    fn packed_records(rt: HostRuntime) {
        records::<Flat>(&rt);
        records::<Mirror>(&rt);
    }

    // Areas of 16 bytes at 64 and at 80, and the last 6 bytes of memory.
    fn neighbours(rt: &impl Abort) -> Memory<Flat> {
        let mut memory = Memory::<Flat>::new();
        open_all(rt, &mut memory, &[(64, 16, 0), (80, 16, 0), (4090, 6, 0)]);
        memory
    }

    #[test]
    fn records_at_edges(rt: HostRuntime) {
        let mut memory = neighbours(&rt);
        // fields that end and begin where areas touch, and the last bytes of memory
        let touch = b"\x40\0w\x0c\0\x01\0\0\0b\x10\0\x02\0\0\0";
        assert_eq!(rt; answer(memory.import(touch)), (0, 0));
        assert_eq!(rt; memory.load(76, 4), Some((1, Kind::Integral)));
        assert_eq!(rt; memory.load(80, 1), Some((2, Kind::Integral)));
        let last = b"\xfc\x0fw\0\0\x09\0\0\0";
        assert_eq!(rt; answer(memory.import(last)), (0, 0));
        assert_eq!(rt; memory.load(4092, 4), Some((9, Kind::Integral)));
    }

    fn check_import(rt: &impl Abort, body: &[u8], expected: (u8, u32)) {
        let mut memory = neighbours(rt);
        assert_eq!(rt; answer(memory.import(body)), expected);
    }

    #[test]
    fn refused_records(rt: HostRuntime) {
        // over the edge of two areas, and past the end
        check_import(&rt, b"\x40\0h\x0f\0\0\0\0\0", (27, 0));
        check_import(&rt, b"\xfd\x0fw\0\0\x09\0\0\0", (27, 0));
        // base and offset do not wrap
        check_import(&rt, b"\xff\xffb\x51\0\x09\0\0\0", (27, 0));
        check_import(&rt, b"\xff\xffb\xff\xff\x09\0\0\0", (27, 0));
    }

    #[test]
    fn refused_in_order(rt: HostRuntime) {
        check_import(&rt, b"\x40\0", (8, 0));
        check_import(&rt, b"\x4c\0h\0\0\x34\x12\0\0x\x01\0\0\0\0\0", (9, 1));
        check_import(&rt, b"\x4c\0h\0\0\x34\x12\0\0p\x01\0\0\0\0\0", (10, 1));
        check_import(&rt, b"\x4c\0h\0\0\x34\x12\0\0p\x03\0\0\0\0\0", (27, 1));
    }

    fn all_zero(marks: &[u8]) -> bool {
        marks.iter().all(|mark| *mark == 0)
    }

    // Compares what reach answers from each start, with marks that it must clear.
    fn check_reach<S: Places>(rt: &impl Abort, memory: &Memory<S>, answers: &[(u32, u8, u32)]) {
        for (start, number, expected) in answers {
            let mut marks = [7; 256];
            let answer = match memory.reach(*start, &mut marks) {
                Ok(bits) => (0, bits),
                Err(refusal) => numbered(refusal),
            };
            assert_eq!(rt; answer, (*number, *expected));
            assert!(rt; all_zero(&marks));
        }
    }

    fn leads<S: Places + Drop>(rt: &impl Abort) {
        let mut memory = Memory::<S>::new();
        let areas = [(0, 16, 0), (32, 16, 0), (64, 16, 0), (96, 16, 0)];
        open_all(rt, &mut memory, &areas);
        // one of them at the last place of its area where a pointer fits
        point_all(rt, &mut memory, &[(0, 40), (32, 0), (108, 79)]);
        let answers = [(0, 0, 3), (32, 0, 3), (64, 0, 4), (96, 0, 12), (40, 26, 0)];
        check_reach(rt, &memory, &answers);
        // to no area and to its own, and an address that is no pointer
        point_all(rt, &mut memory, &[(64, 16), (68, 64)]);
        assert!(rt; memory.write(72, 4, 0, Kind::Integral));
        check_reach(rt, &memory, &[(64, 0, 4)]);
        // to one that touches it
        open_all(rt, &mut memory, &[(80, 16, 0)]);
        point_all(rt, &mut memory, &[(64, 95)]);
        // a torn pointer leads nowhere
        assert!(rt; memory.write(35, 1, 0, Kind::Integral));
        check_reach(rt, &memory, &[(64, 0, 12), (32, 0, 2), (0, 0, 3)]);
    }

    #[test]
    fn areas_that_lead(rt: HostRuntime) {
        leads::<Flat>(&rt);
        leads::<Mirror>(&rt);
    }

    fn check_few(rt: &impl Abort, start: u32) {
        let memory = neighbours(rt);
        let mut marks = [7; 255];
        assert_eq!(rt;
            memory.reach(start, &mut marks).map_err(numbered),
            Err((14, 0))
        );
        assert!(rt; all_zero(&marks));
    }

    #[test]
    fn few_marks(rt: HostRuntime) {
        // too few marks come before a start at which no area begins
        check_few(&rt, 64);
        check_few(&rt, 0);
    }

    fn busy<S: Places>(rt: &impl Abort, memory: &mut Memory<S>) {
        open_all(rt, memory, &[(100, 50, 0), (150, 50, 0), (60, 40, 0)]);
        let record = b"\x61\0b\0\0\x05\0\0\0f\x03\0\x01\x02\x03\x04p\x07\0\x66\0\0\0";
        assert_eq!(rt; answer(memory.import(record)), (0, 0));
        assert!(rt; memory.write(103, 2, 0x0102, Kind::Integral));
        assert!(rt; memory.write(106, 1, 0, Kind::Zero));
        point_all(rt, memory, &[(196, 100)]);
        assert_eq!(rt; answer(memory.shut(60)), (0, 0));
    }

    #[test]
    fn stores_agree(rt: HostRuntime) {
        let mut flat = Memory::<Flat>::new();
        let mut mirror = Memory::<Mirror>::new();
        busy(&rt, &mut flat);
        busy(&rt, &mut mirror);
        for address in 0..4097 {
            assert_eq!(rt; flat.byte(address), mirror.byte(address));
            assert_eq!(rt; flat.cell(address), mirror.cell(address));
        }
        assert_eq!(rt; flat.load(103, 4), mirror.load(103, 4));
        check_reach(&rt, &flat, &[(150, 0, 3)]);
        check_reach(&rt, &mirror, &[(150, 0, 3)]);
    }
}
