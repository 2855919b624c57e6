// The trials.
use crate::builder::Builder;
use job::Job;
use layout::{read, write};
use std::test::Fail;

// Three flows over the first row of the mesh, under rule J: 82 bytes, with fields at 0, 4, 29, 54 and 79.
const SHEET_A: [u8; 82] = [
    0x01, 0x00, 0x01, 0x4A, 0x02, 0x00, 0x16, 0x00, 0xC9, 0, 0, 0, 0x08, 0, 0, 0, 0x08, 0, 0, 0,
    0x00, 0, 0, 0, 0x04, 0, 0, 1, 0, 0x02, 0x00, 0x16, 0x00, 0xCA, 0, 0, 0, 0x0A, 0, 0, 0, 0x0A, 0,
    0, 0, 0x00, 0, 0, 0, 0x04, 0, 0, 2, 0, 0x02, 0x00, 0x16, 0x00, 0xCB, 0, 0, 0, 0x0D, 0, 0, 0,
    0x0D, 0, 0, 0, 0x00, 0, 0, 0, 0x06, 1, 0, 2, 0, 0x05, 0x00, 0x00,
];

// The job of a sheet that must be accepted.
fn accepted(bytes: &[u8]) -> Result<Job, Fail> {
    read(bytes).map_err(|_| Fail::new("refused"))
}

// The number of flows, or the refusal's number and byte.
fn told(bytes: &[u8]) -> Result<usize, (u8, usize)> {
    match read(bytes) {
        Ok(job) => Ok(job.sheet().count()),
        Err(fault) => Err((fault.refusal.number(), fault.byte)),
    }
}

#[test]
fn sheet_a_is_read_as_it_says(rt: HostRuntime) -> Result<(), Fail> {
    let job = accepted(&SHEET_A)?;
    assert_eq!(rt; char::from(job.letter()), 'J');
    assert_eq!(rt; job.sheet().count(), 3);
    assert!(rt; job.reserve().is_none());
    assert_eq!(rt; job.pairs().len(), 0);
    let p = job.sheet().flow(3).expect(&rt, "no flow 3").parameters();
    assert_eq!(rt; p.label, 203);
    assert_eq!(rt; p.period, 13);
    assert_eq!(rt; p.deadline, 13);
    assert_eq!(rt; p.jitter, 0);
    assert_eq!(rt; p.latency, 6);
    assert_eq!(rt; p.source.column, 1);
    assert_eq!(rt; p.destination.column, 2);
    Ok(())
}

// A sheet that was read is written back byte for byte, and the bytes behind it stay.
#[test]
fn sheet_a_is_written_back(rt: HostRuntime) -> Result<(), Fail> {
    let job = accepted(&SHEET_A)?;
    let mut buffer = [0xEEu8; 90];
    assert_eq!(rt; write(&job, &mut buffer).ok(), Some(82));
    assert!(rt; buffer.starts_with(&SHEET_A));
    assert!(rt; buffer.iter().skip(82).all(|byte| *byte == 0xEE));
    Ok(())
}

// A buffer one byte short is refused with 14, and nothing in it changes.
#[test]
fn a_short_buffer_is_left_alone(rt: HostRuntime) -> Result<(), Fail> {
    let job = accepted(&SHEET_A)?;
    let mut buffer = [0xEEu8; 81];
    let written = write(&job, &mut buffer).map_err(|refusal| refusal.number());
    assert_eq!(rt; written, Err(14));
    assert_eq!(rt; buffer, [0xEE; 81]);
    Ok(())
}

// Every part of sheet A from its start is refused with 1, at the field that is cut, or at its own length where it
// ends between two fields.
#[test]
fn every_truncation_tells_its_field(rt: HostRuntime) {
    for len in 0..82usize {
        let field = match len {
            0..=3 => 0,
            4..=28 => 4,
            29..=53 => 29,
            54..=78 => 54,
            _ => 79,
        };
        assert_eq!(rt; told(&SHEET_A[..len]), Err((1, field)));
    }
}

// One byte of sheet A changed: place, new value, and the number and byte of the refusal.
#[test]
fn every_fault_has_its_number_and_byte(rt: HostRuntime) {
    let edits: [(usize, u8, u8, usize); 22] = [
        (0, 0x02, 2, 0),
        (0, 0x00, 2, 0),
        (2, 0x02, 3, 0),
        (3, 0x58, 4, 0),
        (4, 0x05, 2, 4),
        (4, 0x03, 2, 4),
        (6, 0x15, 3, 4),
        (24, 0x09, 5, 4),
        (24, 0x00, 5, 4),
        (16, 0x09, 5, 4),
        (9, 0x01, 5, 4),
        (20, 0x08, 5, 4),
        (25, 0x06, 6, 4),
        (28, 0x06, 6, 4),
        (27, 0x00, 6, 4),
        (8, 0x00, 7, 4),
        (33, 0xC9, 8, 29),
        (29, 0x01, 2, 29),
        (29, 0x09, 2, 29),
        (31, 0x17, 3, 29),
        (79, 0x06, 2, 79),
        (81, 0x01, 3, 79),
    ];
    for (place, value, number, byte) in edits {
        let mut bytes = SHEET_A;
        assert!(rt; place < bytes.len());
        bytes[place] = value;
        assert_eq!(rt; told(&bytes), Err((number, byte)));
    }
}

// Times are told before endpoints, endpoints before the label, the label before its repetition.
#[test]
fn faults_of_one_field_are_told_in_order(rt: HostRuntime) {
    let mut bytes = SHEET_A;
    bytes[33] = 0xC9;
    bytes[32] = 0x00;
    assert_eq!(rt; told(&bytes), Err((8, 29)));
    bytes[33] = 0x00;
    assert_eq!(rt; told(&bytes), Err((7, 29)));
    bytes[50] = 0x06;
    assert_eq!(rt; told(&bytes), Err((6, 29)));
    bytes[49] = 0x00;
    assert_eq!(rt; told(&bytes), Err((5, 29)));
    bytes[31] = 0x00;
    assert_eq!(rt; told(&bytes), Err((3, 29)));
}

#[test]
fn bytes_after_the_end_are_refused(rt: HostRuntime) -> Result<(), Fail> {
    let mut b = Builder::new(rt.alloc(), b'D')?;
    b.flow(1)?;
    b.end()?;
    assert_eq!(rt; told(&b.bytes), Ok(1));
    b.put(&[0])?;
    assert_eq!(rt; told(&b.bytes), Err((13, 32)));
    Ok(())
}

#[test]
fn twenty_flows_and_no_more(rt: HostRuntime) -> Result<(), Fail> {
    let mut b = Builder::new(rt.alloc(), b'L')?;
    b.flows(20)?;
    b.end()?;
    assert_eq!(rt; told(&b.bytes), Ok(20));
    let mut b = Builder::new(rt.alloc(), b'L')?;
    b.flows(21)?;
    b.end()?;
    assert_eq!(rt; told(&b.bytes), Err((9, 504)));
    Ok(())
}

// A 21st flow with a label that is taken is refused for the label.
#[test]
fn a_taken_label_is_told_before_the_21st_flow(rt: HostRuntime) -> Result<(), Fail> {
    let mut b = Builder::new(rt.alloc(), b'L')?;
    b.flows(20)?;
    b.flow(20)?;
    b.end()?;
    assert_eq!(rt; told(&b.bytes), Err((8, 504)));
    Ok(())
}

#[test]
fn sixteen_pairs_and_no_more(rt: HostRuntime) -> Result<(), Fail> {
    let mut b = Builder::new(rt.alloc(), b'D')?;
    b.flows(2)?;
    b.pairs(16)?;
    b.end()?;
    assert_eq!(rt; told(&b.bytes), Ok(2));
    let mut b = Builder::new(rt.alloc(), b'D')?;
    b.flows(2)?;
    b.pairs(17)?;
    b.end()?;
    assert_eq!(rt; told(&b.bytes), Err((12, 166)));
    Ok(())
}

#[test]
fn pairs_name_two_flows(rt: HostRuntime) -> Result<(), Fail> {
    let mut b = Builder::new(rt.alloc(), b'D')?;
    b.flows(2)?;
    b.put(&[0x04, 0, 4, 0, 1, 0, 3])?;
    b.end()?;
    assert_eq!(rt; told(&b.bytes), Err((11, 54)));
    let mut b = Builder::new(rt.alloc(), b'D')?;
    b.flows(2)?;
    b.put(&[0x04, 0, 4, 0, 2, 0, 2])?;
    b.end()?;
    assert_eq!(rt; told(&b.bytes), Err((11, 54)));
    Ok(())
}

#[test]
fn a_reserve_is_absent_or_within_its_limit(rt: HostRuntime) -> Result<(), Fail> {
    let mut b = Builder::new(rt.alloc(), b'D')?;
    b.flow(1)?;
    b.reserve(1_000_001)?;
    b.end()?;
    assert_eq!(rt; told(&b.bytes), Err((10, 29)));
    for ticks in [0u32, 1, 1_000_000] {
        let mut b = Builder::new(rt.alloc(), b'D')?;
        b.flow(1)?;
        b.reserve(ticks)?;
        b.end()?;
        let job = accepted(&b.bytes)?;
        assert_eq!(rt; job.reserve().map(|reserve| reserve.count()), Some(ticks));
    }
    Ok(())
}

// The reserve comes once, before the pairs, and no flow comes after it.
#[test]
fn fields_come_in_their_order(rt: HostRuntime) -> Result<(), Fail> {
    let mut b = Builder::new(rt.alloc(), b'D')?;
    b.flows(2)?;
    b.reserve(5)?;
    b.reserve(5)?;
    assert_eq!(rt; told(&b.bytes), Err((2, 61)));
    let mut b = Builder::new(rt.alloc(), b'D')?;
    b.flows(2)?;
    b.pairs(1)?;
    b.reserve(5)?;
    assert_eq!(rt; told(&b.bytes), Err((2, 61)));
    let mut b = Builder::new(rt.alloc(), b'D')?;
    b.flows(2)?;
    b.pairs(1)?;
    b.flow(3)?;
    assert_eq!(rt; told(&b.bytes), Err((2, 61)));
    let mut b = Builder::new(rt.alloc(), b'D')?;
    b.end()?;
    assert_eq!(rt; told(&b.bytes), Err((2, 4)));
    Ok(())
}
