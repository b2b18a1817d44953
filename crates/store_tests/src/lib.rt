// Examples of the store rules, on both stores.
#![tactic(auto)]

#[cfg(test)]
mod tests {
    use flat::Flat;
    use mirror::{Mirror, Mirrored};
    use refusal::numbered;
    use std::process::Abort;
    use store::halves::{Cells, Places};
    use store::reading::kind_read;
    use store::scalars::Scalar;
    use store::tags::{Cell, Kind};

    const TORN: Cell = Cell {
        kind: Kind::Torn,
        size: 1,
        position: 0,
    };

    fn cell_of(kind: Kind, size: u8, position: u8) -> Option<Cell> {
        Some(Cell {
            kind,
            size,
            position,
        })
    }

    fn cut_word<S: Places>(rt: &impl Abort, store: &mut S) {
        assert!(rt; store.place(0, 3, 4).is_ok());
        assert_eq!(rt; kind_read(store, 0, 4), Some(Kind::Integral));
        assert!(rt; store.place(3, 3, 1).is_ok());
        for address in 0..3 {
            assert_eq!(rt; store.cell(address), Some(TORN));
        }
        assert_eq!(rt; store.cell(3), cell_of(Kind::Integral, 1, 0));
        assert_eq!(rt; kind_read(store, 0, 4), Some(Kind::Torn));
    }

    #[test]
    fn byte_stored_into_a_word_tears_it(rt: HostRuntime) {
        cut_word(&rt, &mut Flat::new());
        cut_word(&rt, &mut Mirror::new());
    }

    fn zeros<S: Places>(rt: &impl Abort, store: &mut S) {
        assert!(rt; store.place(4, 2, 4).is_ok());
        assert_eq!(rt; kind_read(store, 4, 4), Some(Kind::Zero));
        assert_eq!(rt; kind_read(store, 6, 2), Some(Kind::Zero));
        assert_eq!(rt; kind_read(store, 7, 2), Some(Kind::Torn));
        assert!(rt; store.place(8, 1, 2).is_ok());
        assert_eq!(rt; kind_read(store, 8, 2), Some(Kind::Uninitialized));
        assert_eq!(rt; kind_read(store, 6, 4), Some(Kind::Torn));
        assert_eq!(rt; kind_read(store, 10, 1), Some(Kind::Unallocated));
        assert_eq!(rt; kind_read(store, 10, 2), Some(Kind::Torn));
        assert_eq!(rt; kind_read(store, 4093, 4), None);
        assert_eq!(rt; kind_read(store, 4092, 4), Some(Kind::Torn));
        assert_eq!(rt; kind_read(store, 0, 0), None);
    }

    #[test]
    fn zero_bytes_read_zero(rt: HostRuntime) {
        zeros(&rt, &mut Flat::new());
        zeros(&rt, &mut Mirror::new());
    }

    #[test]
    fn pointer_at_one_in_a_new_mirror(rt: HostRuntime) {
        let mut mirror = Mirror::new();
        assert!(rt; mirror.place(1, 5, 4).is_ok());
        assert_eq!(rt; mirror.byte(0), Some(0x50));
        assert_eq!(rt; mirror.byte(1), Some(0x8a));
        assert_eq!(rt; mirror.byte(2), Some(0x08));
        for index in 3..2048 {
            assert_eq!(rt; mirror.byte(index), Some(0));
        }
        assert_eq!(rt; mirror.byte(2048), None);
    }

    // A placing, what it answers, and the kinds of bytes 0 to 8 and of the last three after it.
    type Row = ((u32, u8, u8), Result<(), (u8, u32)>, [u8; 9], [u8; 3]);

    const REFUSED: Result<(), (u8, u32)> = Err((15, 0));

    // Overlaps to the left, to the right, on both sides and at the last byte; and every reason for a refusal.
    const ROWS: [Row; 17] = [
        ((2, 3, 4), Ok(()), [0, 0, 3, 3, 3, 3, 0, 0, 0], [0, 0, 0]),
        ((0, 5, 4), Ok(()), [5, 5, 5, 5, 6, 6, 0, 0, 0], [0, 0, 0]),
        ((5, 3, 2), Ok(()), [5, 5, 5, 5, 6, 3, 3, 0, 0], [0, 0, 0]),
        ((3, 4, 4), Ok(()), [6, 6, 6, 4, 4, 4, 4, 0, 0], [0, 0, 0]),
        ((6, 2, 2), Ok(()), [6, 6, 6, 6, 6, 6, 2, 2, 0], [0, 0, 0]),
        ((2, 3, 4), Ok(()), [6, 6, 3, 3, 3, 3, 2, 2, 0], [0, 0, 0]),
        ((3, 3, 2), Ok(()), [6, 6, 6, 3, 3, 6, 2, 2, 0], [0, 0, 0]),
        ((0, 0, 4), Ok(()), [0, 0, 0, 0, 6, 6, 2, 2, 0], [0, 0, 0]),
        ((4092, 5, 4), Ok(()), [0, 0, 0, 0, 6, 6, 2, 2, 0], [5, 5, 5]),
        ((4095, 3, 1), Ok(()), [0, 0, 0, 0, 6, 6, 2, 2, 0], [6, 6, 3]),
        (
            (4095, 3, 2),
            REFUSED,
            [0, 0, 0, 0, 6, 6, 2, 2, 0],
            [6, 6, 3],
        ),
        (
            (4096, 3, 1),
            REFUSED,
            [0, 0, 0, 0, 6, 6, 2, 2, 0],
            [6, 6, 3],
        ),
        (
            (4294967295, 3, 1),
            REFUSED,
            [0, 0, 0, 0, 6, 6, 2, 2, 0],
            [6, 6, 3],
        ),
        ((0, 7, 1), REFUSED, [0, 0, 0, 0, 6, 6, 2, 2, 0], [6, 6, 3]),
        ((0, 3, 3), REFUSED, [0, 0, 0, 0, 6, 6, 2, 2, 0], [6, 6, 3]),
        ((0, 4, 2), REFUSED, [0, 0, 0, 0, 6, 6, 2, 2, 0], [6, 6, 3]),
        ((0, 5, 1), REFUSED, [0, 0, 0, 0, 6, 6, 2, 2, 0], [6, 6, 3]),
    ];

    fn kind_number<C: Cells>(store: &C, address: u32) -> u8 {
        store.cell(address).map_or(255, |cell| cell.kind.into())
    }

    fn check_row<S: Places>(rt: &impl Abort, store: &mut S, row: Row) {
        let ((address, kind, size), answer, front, back) = row;
        assert_eq!(rt; store.place(address, kind, size).map_err(numbered), answer);
        for i in 0..9 {
            assert_eq!(rt; kind_number(store, i as u32), front[i]);
        }
        for i in 0..3 {
            assert_eq!(rt; kind_number(store, 4093 + i as u32), back[i]);
        }
        assert_eq!(rt; kind_number(store, 4096), 255);
    }

    #[test]
    fn both_stores_follow_a_table_of_placings(rt: HostRuntime) {
        let mut flat = Flat::new();
        let mut mirror = Mirror::new();
        for row in ROWS {
            check_row(&rt, &mut flat, row);
            check_row(&rt, &mut mirror, row);
            for address in 0..4097 {
                assert_eq!(rt; flat.cell(address), mirror.cell(address));
            }
        }
    }

    #[test]
    fn letters_are_types(rt: HostRuntime) {
        for (letter, kind, size) in [
            (b'b', Kind::Integral, 1),
            (b'h', Kind::Integral, 2),
            (b'w', Kind::Integral, 4),
            (b'f', Kind::Real, 4),
            (b'p', Kind::Pointer, 4),
        ] {
            assert_eq!(rt; Scalar::from_letter(letter), Some(Scalar { kind, size }));
        }
        for letter in [0, b'B', b'a', b'q', 255] {
            assert_eq!(rt; Scalar::from_letter(letter), None);
        }
    }
}
