// Examples of layouts: which bodies are refused, what their fields are, and the cells that they place.
#![tactic(auto)]

#[cfg(test)]
mod tests {
    use flat::Flat;
    use layout::field::Field;
    use layout::layout::Layout;
    use refusal::numbered;
    use std::test::Fail;
    use store::halves::{Cells, Places};
    use store::scalars::Scalar;
    use store::tags::{Cell, Kind};

    // 0 and the number of fields of a granted body, and the refusal of any other.
    fn answer(body: &[u8]) -> (u8, u32) {
        match Layout::read(body) {
            Ok(layout) => (0, layout.field_count()),
            Err(refusal) => numbered(refusal),
        }
    }

    // Byte `i` of a body whose field k is a byte at offset k.
    fn byte_of_row(i: usize) -> u8 {
        if i < 2 {
            return 0;
        }
        match (i - 2) % 7 {
            0 => b'b',
            1 => ((i - 2) / 7 % 256) as u8,
            _ => 0,
        }
    }

    #[test]
    fn lengths(rt: HostRuntime) -> Result<(), Fail> {
        let mut row = [0u8; 457];
        for (i, byte) in row.iter_mut().enumerate() {
            *byte = byte_of_row(i);
        }
        let answers = [
            (0, (8, 0)),
            (1, (8, 0)),
            (2, (8, 0)),
            (8, (8, 0)),
            (9, (0, 1)),
            (10, (8, 0)),
            (16, (0, 2)),
            (450, (0, 64)),
            (451, (8, 0)),
            (457, (8, 0)),
        ];
        for (length, expected) in answers {
            let body = row.get(0..length).ok_or("past the row")?;
            assert_eq!(rt; answer(body), expected);
        }
        Ok(())
    }

    #[test]
    fn one_field(rt: HostRuntime) {
        let answers = [
            (*b"\0\0a\0\0\0\0\0\0", (9, 0)),
            (*b"\0\0B\0\0\0\0\0\0", (9, 0)),
            (*b"\0\0\0\0\0\0\0\0\0", (9, 0)),
            (*b"\0\0b\0\0\xff\0\0\0", (0, 1)),
            (*b"\0\0b\0\0\0\x01\0\0", (9, 0)),
            (*b"\0\0h\0\0\xff\xff\0\0", (0, 1)),
            (*b"\0\0h\0\0\0\0\x01\0", (9, 0)),
            (*b"\0\0w\0\0\xff\xff\xff\xff", (0, 1)),
            (*b"\0\0f\0\0\xff\xff\xff\xff", (0, 1)),
            (*b"\0\0p\0\0\xff\xff\xff\xff", (0, 1)),
            (*b"\0\0w\x01\0\0\0\0\0", (0, 1)),
            (*b"\xff\xffw\xff\xff\0\0\0\0", (0, 1)),
        ];
        for (body, expected) in answers {
            assert_eq!(rt; answer(&body), expected);
        }
    }

    #[test]
    fn several_fields(rt: HostRuntime) {
        // the last byte, the first, one within, and fields that only touch
        assert_eq!(rt; answer(b"\0\0w\0\0\0\0\0\0b\x03\0\0\0\0\0"), (10, 1));
        assert_eq!(rt; answer(b"\0\0b\x03\0\0\0\0\0w\0\0\0\0\0\0"), (10, 1));
        assert_eq!(rt; answer(b"\0\0w\x04\0\0\0\0\0w\x01\0\0\0\0\0"), (10, 1));
        assert_eq!(rt; answer(b"\0\0w\0\0\0\0\0\0h\x01\0\0\0\0\0"), (10, 1));
        assert_eq!(rt; answer(b"\0\0w\0\0\0\0\0\0w\x04\0\0\0\0\0"), (0, 2));
        // the third shares a byte with the first
        assert_eq!(rt;
            answer(b"\0\0h\0\0\0\0\0\0b\x02\0\0\0\0\0b\x01\0\0\0\0\0"),
            (10, 2)
        );
        // a letter is tried over all fields before a shared byte
        assert_eq!(rt;
            answer(b"\0\0b\0\0\0\0\0\0b\0\0\0\0\0\0b\x01\0\0\0\0\0x\x02\0\0\0\0\0"),
            (9, 3)
        );
    }

    #[test]
    fn fields(rt: HostRuntime) -> Result<(), Fail> {
        let layout = Layout::read(b"\x10\x20h\x02\x01\x34\x12\0\0p\xff\xff\x04\x03\x02\x01")?;
        let half = Field {
            scalar: Scalar {
                kind: Kind::Integral,
                size: 2,
            },
            address: 0x2112,
            reset: 0x1234,
        };
        let pointer = Field {
            scalar: Scalar {
                kind: Kind::Pointer,
                size: 4,
            },
            address: 0x1200f,
            reset: 0x01020304,
        };
        assert_eq!(rt; layout.field(0), Some(half));
        assert_eq!(rt; layout.field(1), Some(pointer));
        assert_eq!(rt; layout.field(2), None);
        for (j, byte) in [(0, 4), (1, 3), (2, 2), (3, 1), (4, 0), (255, 0)] {
            assert_eq!(rt; pointer.byte(j), byte);
        }
        Ok(())
    }

    #[test]
    fn cells(rt: HostRuntime) -> Result<(), Fail> {
        let mut store = Flat::new();
        store.place(14, 4, 4)?;
        let layout = Layout::read(b"\x10\0w\0\0\x05\0\0\0b\x05\0\0\0\0\0p\xef\x0f\0\0\0\0")?;
        layout.place(&mut store);
        let expected = [
            (13, Kind::Unallocated, 1, 0),
            (14, Kind::Torn, 1, 0),
            (15, Kind::Torn, 1, 0),
            (16, Kind::Integral, 4, 0),
            (17, Kind::Integral, 4, 1),
            (18, Kind::Integral, 4, 2),
            (19, Kind::Integral, 4, 3),
            (20, Kind::Unallocated, 1, 0),
            (21, Kind::Integral, 1, 0),
            (22, Kind::Unallocated, 1, 0),
            // the pointer would end past the memory
            (4095, Kind::Unallocated, 1, 0),
        ];
        for (address, kind, size, position) in expected {
            assert_eq!(rt;
                store.cell(address),
                Some(Cell {
                    kind,
                    size,
                    position,
                })
            );
        }
        Ok(())
    }
}
