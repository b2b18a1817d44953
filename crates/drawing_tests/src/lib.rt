// Examples of drawn records: which bodies are refused, and the rows of one.
#![tactic(auto)]

#[cfg(test)]
mod tests {
    use drawing::record::Record;
    use drawing::row::Row;
    use mirror::Mirror;
    use refusal::numbered;
    use std::test::Fail;
    use store::halves::{Cells, Places};

    // (0, 0) for a body that is granted, and the refusal of any other.
    fn answer(body: &[u8]) -> (u8, u32) {
        match Record::read(body) {
            Ok(_) => (0, 0),
            Err(refusal) => numbered(refusal),
        }
    }

    // Two fields: letter, low and high byte of the offset, and the low and the highest byte of the reset value.
    fn two_fields(base: u16, a: (u8, u16, u8, u8), b: (u8, u16, u8, u8)) -> [u8; 16] {
        let [base_low, base_high] = base.to_le_bytes();
        let [a_low, a_high] = a.1.to_le_bytes();
        let [b_low, b_high] = b.1.to_le_bytes();
        [
            base_low, base_high, a.0, a_low, a_high, a.2, 0, 0, a.3, b.0, b_low, b_high, b.2, 0, 0,
            b.3,
        ]
    }

    #[test]
    fn numbers_come_in_order(rt: HostRuntime) {
        // Base, the two fields, and the answer.
        for (base, a, b, expected) in [
            (16, (b'b', 0, 5, 0), (b'p', 1, 32, 0), (0, 0)),
            (4091, (b'b', 0, 0, 0), (b'w', 1, 0, 0), (0, 0)),
            (4092, (b'b', 0, 0, 0), (b'w', 1, 0, 0), (27, 1)),
            (4096, (b'b', 0, 0, 0), (b'w', 1, 0, 0), (27, 0)),
            (65535, (b'b', 65535, 0, 0), (b'b', 1, 0, 0), (27, 0)),
            (4095, (b'b', 0, 0, 0), (b'b', 0, 0, 0), (10, 1)),
            (4095, (b'w', 0, 0, 0), (b'b', 3, 0, 0), (10, 1)),
            (4095, (b'w', 0, 0, 0), (b'b', 0, 0, 1), (9, 1)),
            (4095, (b'q', 0, 0, 0), (b'b', 0, 0, 1), (9, 0)),
        ] {
            assert_eq!(rt; answer(&two_fields(base, a, b)), expected);
        }
        assert_eq!(rt; answer(&[]), (8, 0));
        assert_eq!(rt; answer(&[0, 0]), (8, 0));
    }

    // Field, kind, size, position, nibble and reset byte; 255 where there is none.
    fn columns(row: Option<Row>) -> [u8; 6] {
        match row {
            Some(row) => [
                row.field.unwrap_or(255).min(255) as u8,
                row.cell.kind.into(),
                row.cell.size,
                row.cell.position,
                row.nibble,
                row.reset.unwrap_or(255),
            ],
            None => [254; 6],
        }
    }

    #[test]
    fn rows_of_a_record(rt: HostRuntime) -> Result<(), Fail> {
        let body = two_fields(20, (b'h', 1, 7, 0), (b'p', 4, 9, 8));
        match Record::read(&body) {
            Ok(record) => {
                let store: Mirror = record.placed();
                assert_eq!(rt; record.start(), 20);
                assert_eq!(rt; record.end(), 28);
                for (address, expected) in [
                    (20, [255, 0, 1, 0, 0, 255]),
                    (21, [0, 3, 2, 0, 3, 7]),
                    (22, [0, 3, 2, 1, 9, 0]),
                    (23, [255, 0, 1, 0, 0, 255]),
                    (24, [1, 5, 4, 0, 5, 9]),
                    (25, [1, 5, 4, 1, 10, 0]),
                    (26, [1, 5, 4, 2, 8, 0]),
                    (27, [1, 5, 4, 3, 8, 8]),
                    (28, [255, 0, 1, 0, 0, 255]),
                    (4095, [255, 0, 1, 0, 0, 255]),
                    (4096, [254; 6]),
                ] {
                    assert_eq!(rt; columns(record.row(&store, address)), expected);
                }
                assert!(rt; record.extent(2).is_none());
                match record.extent(0) {
                    Some(extent) => {
                        assert_eq!(rt; extent.first, 21);
                        assert_eq!(rt; extent.last, 22);
                        assert!(rt; extent.odd);
                        Ok(())
                    }
                    None => Err(Fail::new("no field")),
                }
            }
            Err(_) => Err(Fail::new("refused")),
        }
    }
}
