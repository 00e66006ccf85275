//! The number and layer of each refusal, and the letter of each operation.
use crate::call::Op;
use crate::fault::{Fault, Layer, Refusal};

const REFUSALS: [Refusal; 15] = [
    Refusal::NoSuchWarp,
    Refusal::WarpIdle,
    Refusal::WarpNotIdle,
    Refusal::OutcomePending,
    Refusal::NothingToFetch,
    Refusal::NoSuchLine,
    Refusal::LogFull,
    Refusal::ClockSpent,
    Refusal::BadSize,
    Refusal::BadStamp,
    Refusal::BadMark,
    Refusal::BadVersion,
    Refusal::CutShort,
    Refusal::BadLetter,
    Refusal::TooManyRows,
];

fn fault(refusal: Refusal, layer: Layer, number: u64) -> Fault {
    Fault {
        refusal,
        layer,
        number,
    }
}

#[test]
fn refusals_count_from_one(rt: HostRuntime) {
    for (place, refusal) in REFUSALS.iter().enumerate() {
        assert_eq!(rt; usize::from(refusal.number()), place + 1);
    }
}

#[test]
fn the_memory_refuses_lines_alone(rt: HostRuntime) {
    for refusal in REFUSALS {
        let layer = if refusal.number() == 6 {
            Layer::Memory
        } else {
            Layer::Machine
        };
        assert_eq!(rt; Fault::in_call(refusal, 9), fault(refusal, layer, 9));
        assert_eq!(rt;
            Fault::in_file(refusal, 17),
            fault(refusal, Layer::File, 17)
        );
    }
}

#[test]
fn a_refusal_with_another_number(rt: HostRuntime) {
    let lacking = Fault::in_call(Refusal::NoSuchLine, 3);
    assert_eq!(rt;
        lacking.with_number(u64::MAX),
        fault(Refusal::NoSuchLine, Layer::Memory, u64::MAX)
    );
    assert_eq!(rt;
        Fault::in_file(Refusal::CutShort, 8).with_number(0),
        fault(Refusal::CutShort, Layer::File, 0)
    );
}

#[test]
fn letters_name_operations_and_back(rt: HostRuntime) {
    let ops = [
        Op::Begin,
        Op::Load { line: 4 },
        Op::Store { line: 4, value: 5 },
        Op::Commit,
        Op::Drop,
        Op::Fetch,
    ];
    let letters = ['B', 'L', 'S', 'C', 'D', 'F'];
    for (op, letter) in ops.iter().zip(letters) {
        assert_eq!(rt; op.letter(), letter);
        assert_eq!(rt; Op::named(letter, 4, 5), Some(*op));
    }
}

#[test]
fn other_letters_name_nothing(rt: HostRuntime) {
    for letter in ['b', 'A', 'E', 'T', '\0', ' ', 'Б', '\u{10ffff}'] {
        assert_eq!(rt; Op::named(letter, 4, 5), None);
    }
}
