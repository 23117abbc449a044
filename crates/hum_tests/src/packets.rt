//! Packets that are read and written, in pieces and where calls fail.
use hum_packets::{Answers, Packets, Stop, read_text};
use hum_text::calls::Marked;
use std::process::Abort;

/// What is told of a stop: the byte, or a number past all bytes.
fn told(stop: Stop) -> u64 {
    match stop {
        Stop::Broken(at) => at,
        Stop::Read => 1_001,
        Stop::Write => 1_002,
        Stop::Memory => 1_003,
    }
}

/// Reads a list, and then tells how many bytes of it are held, or where it stops.
fn read_list(rt: &(impl Abort + AllocGlobal), input: &'static [u8], most: usize) -> (u64, u64) {
    let mut page = Vec::new(rt.alloc());
    let mut answers = Answers::new(rt.alloc(), Marked::new(&mut page));
    let mut packets = Packets::new(rt.alloc(), Marked::new(input)).expect(rt, "memory");
    match read_text(rt.alloc(), &mut packets, &mut answers, most) {
        Ok(text) => (text.bytes.len() as u64, packets.passed()),
        Err(stop) => (1_000, told(stop)),
    }
}

const ROWS: &[(&[u8], (u64, u64))] = &[
    (b"0000", (0, 4)),
    (b"0005a0000", (1, 9)),
    (b"0007abc0006de0000x", (5, 17)),
    (b"000Babcdefg0004", (1_000, 15)),
    (b"0005a", (1_000, 5)),
    (b"0005a0006b", (1_000, 5)),
    (b"0003", (1_000, 0)),
    (b"fff1", (1_000, 0)),
    (b"000g", (1_000, 0)),
    (b"00", (1_000, 0)),
    (b"", (1_000, 0)),
];

#[test]
fn lists_are_read(rt: HostRuntime) {
    for &(input, want) in ROWS {
        let found = read_list(&rt, input, 6);
        assert_eq!(rt; found.0, want.0);
        assert_eq!(rt; found.1, want.1);
    }
    assert_eq!(rt; read_list(&rt, b"0007abc0006de0000", 4).0, 4);
}

#[test]
fn answers_are_written(rt: HostRuntime) {
    let mut page = Vec::new(rt.alloc());
    let mut answers = Answers::new(rt.alloc(), Marked::new(&mut page));
    assert!(rt; answers.answer(b"ab", b"0").is_ok());
    assert!(rt; answers.answer(b"", b"1 x").is_ok());
    assert!(rt; answers.send().is_ok());
    assert!(rt; answers.send().is_ok());
    let _sink = answers.into_sink();
    assert!(rt; page.as_slice() == b"0006ab0000000500000000000071 x0000".as_slice());
}
