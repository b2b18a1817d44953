// Examples of routines: which bodies are refused, and the verdicts on claims.
#![tactic(auto)]

#[cfg(test)]
mod tests {
    use refusal::numbered;
    use routine::Marks;
    use routine::routine::Routine;
    use std::alloc::{AllocError, Global};
    use std::test::Fail;
    use steps::decode;
    use steps::step::Operand::{Literal, Value};
    use steps::step::{Comparison, Operand, Operation, Step};
    use steps::tables::{BYTE, POINTER, WORD};
    use store::scalars::Scalar;
    use store::tags::Kind;

    const HALF: Scalar = Scalar {
        kind: Kind::Integral,
        size: 2,
    };

    const REAL: Scalar = Scalar {
        kind: Kind::Real,
        size: 4,
    };

    fn set(scalar: Scalar, value: u8, literal: u32) -> Step {
        Step::Set {
            scalar,
            value,
            literal,
        }
    }

    fn copy(scalar: Scalar, value: u8, from: u32) -> Step {
        Step::Copy {
            scalar,
            value,
            from,
        }
    }

    fn load(scalar: Scalar, value: u8, address: u32) -> Step {
        Step::Load {
            scalar,
            value,
            address: Literal(address),
        }
    }

    fn compute(operation: Operation, scalar: Scalar, value: u8, a: Operand, b: Operand) -> Step {
        Step::Compute {
            operation,
            scalar,
            value,
            a,
            b,
        }
    }

    fn add(scalar: Scalar, value: u8, a: Operand, b: Operand) -> Step {
        compute(Operation::Add, scalar, value, a, b)
    }

    fn less(value: u8, a: Operand, b: Operand) -> Step {
        Step::Compare {
            comparison: Comparison::Less,
            scalar: WORD,
            value,
            a,
            b,
        }
    }

    fn branch(value: u32, nonzero: u16, zero: u16) -> Step {
        Step::Branch {
            condition: Value(value),
            nonzero,
            zero,
        }
    }

    fn jump(to: u16) -> Step {
        Step::Jump { to }
    }

    fn body_of(heap: Global, steps: &[Step]) -> Result<Vec<u8>, AllocError> {
        let mut body = Vec::new(heap);
        for step in steps {
            body.extend_from_slice(&step.encode())?;
        }
        Ok(body)
    }

    // 0 and the number of steps of an accepted body, and the refusal of any other.
    fn answer(body: &[u8]) -> (u8, u32) {
        match Routine::read(body) {
            Ok(routine) => (0, routine.step_count() as u32),
            Err(refusal) => numbered(refusal),
        }
    }

    fn answer_to(heap: Global, steps: &[Step]) -> Result<(u8, u32), AllocError> {
        let body = body_of(heap, steps)?;
        Ok(answer(&body))
    }

    // load w at 8 into v0; add w, v0 and 1, into v1; stop.
    const BODY: [u8; 48] =
        *b"\x0d\x77\x00\x02\x08\0\0\0\0\0\0\0\0\0\0\0\x03\x77\x01\x21\0\0\0\0\x01\0\0\0\0\0\0\0\0\0\xff\0\0\0\0\0\0\0\0\0\0\0\0\0";

    // The answer to that body with byte `i` replaced.
    fn altered(i: usize, byte: u8) -> (u8, u32) {
        let mut body = BODY;
        if i < body.len() {
            body[i] = byte;
        }
        answer(&body)
    }

    #[test]
    fn lengths(rt: HostRuntime) -> Result<(), Fail> {
        let heap = rt.alloc();
        let mut body = Vec::new(heap);
        assert_eq!(rt; answer(&body), (2, 0));
        for _ in 0..256 {
            body.extend_from_slice(&Step::Stop.encode())?;
        }
        assert_eq!(rt; answer(&body), (0, 256));
        for length in [15usize, 17, 4095] {
            assert_eq!(rt; answer(body.get(0..length).ok_or("past the body")?), (2, 0));
        }
        assert_eq!(rt; answer(body.get(0..16).ok_or("past the body")?), (0, 1));
        body.extend_from_slice(&Step::Stop.encode())?;
        assert_eq!(rt; answer(&body), (2, 0));
        Ok(())
    }

    #[test]
    fn malformed_steps(rt: HostRuntime) {
        let answers = [
            (0, 0x0d, (0, 3)),
            // code, letter, value set
            (0, 20, (3, 0)),
            (1, 0, (3, 0)),
            (1, b'x', (3, 0)),
            (2, 128, (3, 0)),
            (2, 255, (3, 0)),
            // forms: none, none such, and a B that load does not have
            (3, 0x00, (3, 0)),
            (3, 0x03, (3, 0)),
            (3, 0x12, (3, 0)),
            // fields that load does not use
            (8, 1, (3, 0)),
            (12, 1, (3, 0)),
            (15, 1, (3, 0)),
            // add takes no real and no absent operand, and nothing sets value 7, nor 256
            (17, b'f', (3, 1)),
            (19, 0x01, (3, 1)),
            (19, 0x22, (0, 3)),
            (20, 7, (5, 1)),
            (21, 1, (5, 1)),
            // stop has no letter, sets nothing, has no operand and no target
            (33, b'b', (3, 2)),
            (34, 0, (3, 2)),
            (35, 1, (3, 2)),
            (36, 1, (3, 2)),
            (44, 1, (3, 2)),
        ];
        for (i, byte, expected) in answers {
            assert_eq!(rt; altered(i, byte), expected);
        }
    }

    #[test]
    fn forms_and_literals(rt: HostRuntime) -> Result<(), Fail> {
        let heap = rt.alloc();
        assert_eq!(rt; answer_to(heap, &[set(BYTE, 0, 255), Step::Stop])?, (0, 2));
        assert_eq!(rt; answer_to(heap, &[set(BYTE, 0, 256), Step::Stop])?, (3, 0));
        assert_eq!(rt;
            answer_to(heap, &[Step::Stop, set(HALF, 0, 65536), Step::Stop])?,
            (3, 1)
        );
        assert_eq!(rt;
            answer_to(heap, &[set(REAL, 0, u32::MAX), Step::Stop])?,
            (0, 2)
        );
        let branched = Step::Branch {
            condition: Literal(256),
            nonzero: 0,
            zero: 0,
        };
        assert_eq!(rt; answer_to(heap, &[branched])?, (3, 0));
        let retyped = Step::Retype {
            scalar: HALF,
            value: 1,
            from: 0,
        };
        assert_eq!(rt;
            answer_to(heap, &[set(HALF, 0, 1), retyped, Step::Stop])?,
            (3, 1)
        );
        // a copy of a literal, and a set to a value
        let mut copied = copy(WORD, 0, 0).encode();
        copied[3] = 2;
        assert!(rt; decode(&copied).is_none());
        let mut valued = set(WORD, 0, 0).encode();
        valued[3] = 1;
        assert!(rt; decode(&valued).is_none());
        Ok(())
    }

    #[test]
    fn refusals(rt: HostRuntime) -> Result<(), Fail> {
        let heap = rt.alloc();
        let first = [
            load(WORD, 0, 8),
            add(WORD, 1, Value(0), Literal(1)),
            Step::Stop,
        ];
        assert_eq!(rt; answer_to(heap, &first)?, (0, 3));
        assert_eq!(rt; answer_to(heap, &[first[0], first[1]])?, (6, 1));
        // 4 comes before 6, and 5 too
        assert_eq!(rt;
            answer_to(heap, &[set(BYTE, 0, 1), set(BYTE, 0, 2), jump(9)])?,
            (4, 1)
        );
        assert_eq!(rt;
            answer_to(heap, &[jump(9), copy(WORD, 0, 300), Step::Stop])?,
            (5, 1)
        );
        assert_eq!(rt;
            answer_to(
                heap,
                &[
                    set(HALF, 0, 1),
                    add(WORD, 1, Value(0), Literal(1)),
                    Step::Stop,
                ],
            )?,
            (5, 1)
        );
        assert_eq!(rt; answer_to(heap, &[jump(2), Step::Stop])?, (6, 0));
        assert_eq!(rt; answer_to(heap, &[Step::Stop, set(BYTE, 0, 1)])?, (6, 1));
        let store = Step::Store {
            scalar: WORD,
            address: Literal(12),
            stored: Value(1),
        };
        assert_eq!(rt;
            answer_to(
                heap,
                &[
                    load(BYTE, 0, 8),
                    branch(0, 2, 3),
                    set(WORD, 1, 5),
                    store,
                    Step::Stop,
                ],
            )?,
            (7, 3)
        );
        Ok(())
    }

    #[test]
    fn sources(rt: HostRuntime) -> Result<(), Fail> {
        let heap = rt.alloc();
        for (scalar, own, retype) in [
            (WORD, WORD, (5, 1)),
            (REAL, WORD, (0, 3)),
            (POINTER, REAL, (0, 3)),
            (BYTE, WORD, (5, 1)),
        ] {
            let retyped = Step::Retype {
                scalar: own,
                value: 1,
                from: 0,
            };
            assert_eq!(rt;
                answer_to(heap, &[set(scalar, 0, 1), retyped, Step::Stop])?,
                retype
            );
        }
        for (scalar, own, resize) in [
            (WORD, WORD, (5, 1)),
            (WORD, BYTE, (0, 3)),
            (HALF, WORD, (0, 3)),
            (POINTER, WORD, (5, 1)),
        ] {
            let resized = Step::Resize {
                scalar: own,
                value: 1,
                from: 0,
            };
            assert_eq!(rt;
                answer_to(heap, &[set(scalar, 0, 1), resized, Step::Stop])?,
                resize
            );
        }
        Ok(())
    }

    #[test]
    fn paths(rt: HostRuntime) -> Result<(), Fail> {
        let heap = rt.alloc();
        // a step that uses the value it sets: unreachable, reached, and first
        assert_eq!(rt;
            answer_to(
                heap,
                &[jump(2), add(WORD, 0, Value(0), Literal(1)), Step::Stop],
            )?,
            (0, 3)
        );
        assert_eq!(rt;
            answer_to(
                heap,
                &[
                    set(BYTE, 0, 0),
                    add(BYTE, 1, Value(1), Literal(1)),
                    Step::Stop,
                ],
            )?,
            (7, 1)
        );
        assert_eq!(rt; answer_to(heap, &[copy(WORD, 0, 0), Step::Stop])?, (7, 0));
        // step 0 is the setting, also where a loop comes back to it
        assert_eq!(rt;
            answer_to(heap, &[set(BYTE, 0, 1), branch(0, 0, 2), Step::Stop])?,
            (0, 3)
        );
        // a loop sets the value only after its first use
        assert_eq!(rt;
            answer_to(
                heap,
                &[
                    set(BYTE, 1, 1),
                    copy(WORD, 2, 0),
                    set(WORD, 0, 1),
                    branch(1, 1, 4),
                    Step::Stop,
                ],
            )?,
            (7, 1)
        );
        // the setting stands below its use, and every path passes it
        assert_eq!(rt;
            answer_to(
                heap,
                &[
                    jump(3),
                    copy(WORD, 1, 0),
                    Step::Stop,
                    set(WORD, 0, 1),
                    jump(1),
                ],
            )?,
            (0, 5)
        );
        Ok(())
    }

    // The verdict's number.
    fn judged(routine: &Routine, step: u16, operand: u8) -> u8 {
        let mut marks = [7u8; 256];
        let mut guard = Marks::over(&mut marks);
        match routine.verdict(step, operand, &mut guard) {
            Ok(verdict) => u8::from(verdict),
            Err(refusal) => numbered(refusal).0,
        }
    }

    #[test]
    fn later_checks(rt: HostRuntime) -> Result<(), Fail> {
        let steps = [
            load(WORD, 0, 8),
            compute(Operation::Shl, WORD, 1, Value(0), Literal(2)),
            less(2, Value(0), Value(1)),
            Step::Stop,
        ];
        let routine = Routine::read(&body_of(rt.alloc(), &steps)?)?;
        for (step, operand, verdict) in [
            (1, 0, 3),
            (2, 0, 1),
            (2, 1, 1),
            (0, 0, 2),
            (1, 1, 2),
            (3, 0, 2),
            (9, 0, 2),
            (1, 2, 2),
            (256, 0, 2),
        ] {
            assert_eq!(rt; judged(&routine, step, operand), verdict);
        }
        let mut few = [7u8; 255];
        {
            let mut guard = Marks::over(&mut few);
            assert!(rt; routine.verdict(1, 0, &mut guard).is_err());
        }
        assert!(rt; few[254] == 0);
        Ok(())
    }

    #[test]
    fn arms(rt: HostRuntime) -> Result<(), Fail> {
        let heap = rt.alloc();
        let mut steps = [
            load(WORD, 0, 8),
            load(BYTE, 1, 12),
            branch(1, 3, 5),
            add(WORD, 2, Value(0), Literal(1)),
            jump(6),
            set(WORD, 3, 7),
            compute(Operation::Sub, WORD, 4, Value(0), Literal(1)),
            Step::Stop,
        ];
        let routine = Routine::read(&body_of(heap, &steps)?)?;
        for (step, verdict) in [(2, 3), (3, 3), (5, 2), (6, 3)] {
            assert_eq!(rt; judged(&routine, step, 0), verdict);
        }
        // each arm checks the value
        steps[5] = compute(Operation::And, WORD, 3, Value(0), Literal(7));
        let routine = Routine::read(&body_of(heap, &steps)?)?;
        for (step, verdict) in [(3, 3), (5, 3), (6, 1)] {
            assert_eq!(rt; judged(&routine, step, 0), verdict);
        }
        Ok(())
    }

    #[test]
    fn copies(rt: HostRuntime) -> Result<(), Fail> {
        let heap = rt.alloc();
        let steps = [
            load(WORD, 0, 8),
            copy(WORD, 1, 0),
            add(WORD, 2, Value(1), Literal(1)),
            add(WORD, 3, Value(0), Literal(1)),
            Step::Stop,
        ];
        let routine = Routine::read(&body_of(heap, &steps)?)?;
        for (step, verdict) in [(1, 2), (2, 3), (3, 3)] {
            assert_eq!(rt; judged(&routine, step, 0), verdict);
        }
        // a copy taken after a check
        let steps = [
            load(WORD, 0, 8),
            compute(Operation::Or, WORD, 4, Value(0), Literal(1)),
            copy(WORD, 1, 0),
            add(WORD, 2, Value(1), Literal(1)),
            Step::Stop,
        ];
        let routine = Routine::read(&body_of(heap, &steps)?)?;
        assert_eq!(rt; judged(&routine, 3, 0), 3);
        Ok(())
    }

    #[test]
    fn both_operands_and_loops(rt: HostRuntime) -> Result<(), Fail> {
        let heap = rt.alloc();
        let steps = [
            load(WORD, 0, 8),
            compute(Operation::Mul, WORD, 1, Value(0), Value(0)),
            Step::Stop,
        ];
        let routine = Routine::read(&body_of(heap, &steps)?)?;
        assert_eq!(rt; (judged(&routine, 1, 0), judged(&routine, 1, 1)), (3, 1));
        let steps = [
            load(WORD, 0, 8),
            add(WORD, 1, Value(0), Literal(1)),
            less(2, Value(1), Literal(9)),
            branch(2, 1, 4),
            compute(Operation::Or, WORD, 3, Value(0), Literal(1)),
            Step::Stop,
        ];
        let routine = Routine::read(&body_of(heap, &steps)?)?;
        for (step, verdict) in [(1, 3), (2, 1), (3, 1), (4, 1)] {
            assert_eq!(rt; judged(&routine, step, 0), verdict);
        }
        Ok(())
    }

    #[test]
    fn questions(rt: HostRuntime) -> Result<(), Fail> {
        let routine = Routine::read(&BODY)?;
        assert_eq!(rt;
            (routine.setting(0), routine.setting(1), routine.setting(2)),
            (Some(0), Some(1), None)
        );
        assert_eq!(rt;
            (
                routine.checked(1, 0),
                routine.checked(1, 1),
                routine.checked(0, 0),
            ),
            (Some(0), None, None)
        );
        assert!(rt; routine.is_unsure(0) && !routine.is_unsure(1));
        assert!(rt; routine.value_type(1).is_some() && routine.value_type(2).is_none());
        assert!(rt; routine.step(2).is_some() && routine.step(3).is_none());
        Ok(())
    }
}
