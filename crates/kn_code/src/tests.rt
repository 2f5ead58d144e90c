use super::*;
use std::alloc::{AllocError, Global};
use std::process::Abort;
use std::test::Fail;

/// The one instruction `halt`, at boot.
const HALT_AT_BOOT: [u8; 30] = [
    0x00, 0x01, 0x00, 0x00, 0xff, 0xff, 0xff, 0xff, 0xff, 0xff, 0xff, 0xff, 0xff, 0xff, 0xff, 0xff,
    0xff, 0xff, 0xff, 0xff, 0xff, 0xff, 0x24, 0x00, 0x00, 0x00, 0x00, 0x00, 0x00, 0x00,
];

/// The row of `halt`.
const HALT: [u8; 8] = [0x24, 0, 0, 0, 0, 0, 0, 0];

fn is_shared<T: Send + Sync>() {}

fn halt_at_boot(alloc: Global) -> Result<Program, AllocError> {
    let bytes = HALT_AT_BOOT;
    match decode(alloc, &bytes) {
        Ok(program) => Ok(program),
        Err(_) => Err(AllocError),
    }
}

/// Bytes with so many instructions and no handler but boot, whose entry is given.
fn bytes_of(alloc: Global, count: u8, boot: u8, rows: &[[u8; 8]]) -> Result<Vec<u8>, AllocError> {
    let mut bytes = Vec::new(alloc);
    bytes.extend_from_slice(&[0, count, 0, boot])?;
    bytes.extend_from_slice(&[0xff; 18])?;
    for row in rows {
        bytes.extend_from_slice(row)?;
    }
    Ok(bytes)
}

/// The first letter of a fault and its place; '-' for a program, 'M' for want of memory.
fn answer(read: Result<Program, CodeFault>) -> (char, usize) {
    match read {
        Ok(_) => ('-', 0),
        Err(CodeFault::Length { place }) => ('L', place),
        Err(CodeFault::Handler { place }) => ('H', place),
        Err(CodeFault::Opcode { place }) => ('O', place),
        Err(CodeFault::Field { place }) => ('F', place),
        Err(CodeFault::Target { place }) => ('T', place),
        Err(CodeFault::Memory(_)) => ('M', 0),
    }
}

/// A row before `halt` is this instruction's and no other's, or has a fault with this first letter.
fn reads_as(
    rt: &impl Abort,
    alloc: Global,
    row: [u8; 8],
    want: Result<Instr, char>,
) -> Result<(), Fail> {
    let bytes = bytes_of(alloc, 2, 0, &[row, HALT])?;
    let read = decode(alloc, &bytes);
    match want {
        Err(letter) => assert_eq!(rt; answer(read), (letter, 22), "row {}", row[0]),
        Ok(instr) => match read {
            Ok(program) => {
                assert!(rt; program.instr(0) == Some(instr), "row {}", row[0]);
                assert!(rt; encode(alloc, &program)?.as_slice() == bytes.as_slice());
            }
            Err(_) => assert!(rt; false, "row {}", row[0]),
        },
    }
    Ok(())
}

#[test]
fn halt_reads_and_is_spelled(rt: HostRuntime) -> Result<(), Fail> {
    let program = halt_at_boot(rt.alloc())?;
    assert!(rt; encode(rt.alloc(), &program)?.as_slice() == HALT_AT_BOOT.as_slice());
    assert!(rt; program.instr(0) == Some(Instr::Halt));
    assert!(rt; program.instr(1).is_none());
    assert_eq!(rt; program.boot(), Some(0));
    assert_eq!(rt; program.handler(1), None);
    assert_eq!(rt; program.handler(10), None);
    assert!(rt; program.copy()? == program);
    let bytes = bytes_of(rt.alloc(), 1, 0, &[[0x23, 0, 0, 0, 0, 0, 0, 0]])?;
    match decode(rt.alloc(), &bytes) {
        Ok(other) => assert!(rt; other != program),
        Err(_) => assert!(rt; false),
    }
    program.validity();
    reads_back();
    one_spelling();
    is_shared::<Instr>();
    is_shared::<Program>();
    is_shared::<CodeFault>();
    is_shared::<Row>();
    is_shared::<RowFault>();
    Ok(())
}

#[test]
fn halt_spoilt(rt: HostRuntime) {
    let bytes = HALT_AT_BOOT;
    assert_eq!(rt; answer(decode(rt.alloc(), &bytes[..29])), ('L', 29));
    assert_eq!(rt; answer(decode(rt.alloc(), &bytes[..22])), ('L', 22));
    assert_eq!(rt; answer(decode(rt.alloc(), &bytes[..21])), ('L', 21));
    let mut bytes = HALT_AT_BOOT;
    bytes[22] = 0;
    assert_eq!(rt; answer(decode(rt.alloc(), &bytes)), ('O', 22));
}

#[test]
fn a_row_before_halt(rt: HostRuntime) -> Result<(), Fail> {
    for (row, want) in [
        ([0x01, 15, 0, 0, 0xff, 0xff, 0, 0], '-'),
        ([0x01, 16, 0, 0, 0, 0, 0, 0], 'F'),
        ([0x01, 0, 1, 0, 0, 0, 0, 0], 'F'),
        ([0x01, 0, 0, 1, 0, 0, 0, 0], 'F'),
        ([0x01, 0, 0, 0, 0, 0, 0, 1], 'F'),
        ([0x09, 15, 0, 0, 0, 1, 0, 0], '-'),
        ([0x09, 16, 0, 0, 0, 1, 0, 0], 'F'),
        ([0x09, 0, 1, 0, 0, 1, 0, 0], 'F'),
        ([0x09, 0, 0, 1, 0, 1, 0, 0], 'F'),
        ([0x09, 0, 0, 0, 0, 1, 1, 0], 'F'),
        ([0x09, 0, 0, 0, 0, 2, 0, 0], 'T'),
        ([0x0a, 15, 0, 0, 0, 1, 0, 0], '-'),
        ([0x0a, 16, 0, 0, 0, 1, 0, 0], 'F'),
        ([0x0a, 0, 1, 0, 0, 1, 0, 0], 'F'),
        ([0x0a, 0, 0, 1, 0, 1, 0, 0], 'F'),
        ([0x0a, 0, 0, 0, 0, 0, 0, 0], 'F'),
        ([0x0a, 0, 0, 0, 0, 16, 0, 0], '-'),
        ([0x0a, 0, 0, 0, 0, 17, 0, 0], 'F'),
        ([0x0a, 0, 0, 0, 1, 1, 0, 0], 'F'),
        ([0x0a, 0, 0, 0, 0, 1, 0, 1], 'F'),
        ([0x20, 15, 0, 0, 0, 0, 0, 0], '-'),
        ([0x20, 16, 0, 0, 0, 0, 0, 0], 'F'),
        ([0x20, 0, 1, 0, 0, 0, 0, 0], 'F'),
        ([0x20, 0, 0, 1, 0, 0, 0, 0], 'F'),
        ([0x20, 0, 0, 0, 0, 1, 0, 0], 'F'),
        ([0x20, 0, 0, 0, 0, 0, 0, 1], 'F'),
        ([0x23, 0, 0, 0, 0, 0, 0, 0], '-'),
        ([0x23, 1, 0, 0, 0, 0, 0, 0], 'F'),
        ([0x23, 0, 1, 0, 0, 0, 0, 0], 'F'),
        ([0x23, 0, 0, 1, 0, 0, 0, 0], 'F'),
        ([0x23, 0, 0, 0, 1, 0, 0, 0], 'F'),
        ([0x23, 0, 0, 0, 0, 0, 1, 0], 'F'),
        ([0x24, 0, 0, 0, 0, 0, 0, 0], '-'),
        ([0x24, 1, 0, 0, 0, 0, 0, 0], 'F'),
        ([0x24, 0, 1, 0, 0, 0, 0, 0], 'F'),
        ([0x24, 0, 0, 1, 0, 0, 0, 0], 'F'),
        ([0x24, 0, 0, 0, 0, 1, 0, 0], 'F'),
        ([0x24, 0, 0, 0, 0, 0, 0, 1], 'F'),
        ([0x00, 0, 0, 0, 0, 0, 0, 0], 'O'),
        ([0x25, 0, 0, 0, 0, 0, 0, 0], 'O'),
        ([0x26, 0, 0, 0, 0, 0, 0, 1], 'O'),
        ([0xff, 0, 0, 0, 0, 0, 0, 0], 'O'),
    ] {
        let bytes = bytes_of(rt.alloc(), 2, 0, &[row, HALT])?;
        let place = if want == '-' { 0 } else { 22 };
        assert_eq!(rt;
            answer(decode(rt.alloc(), &bytes)),
            (want, place),
            "row {}",
            row[0]
        );
    }
    Ok(())
}

#[test]
fn the_first_fault_is_given(rt: HostRuntime) -> Result<(), Fail> {
    for (boot, rows, want) in [
        (2, [[0x00, 16, 0, 0, 0, 9, 0, 0], HALT], ('H', 2)),
        (1, [[0x00, 16, 0, 0, 0, 9, 0, 0], HALT], ('O', 22)),
        (1, [[0x09, 16, 0, 0, 0, 9, 0, 0], HALT], ('F', 22)),
        (1, [[0x09, 0, 0, 0, 0, 9, 0, 0], [0; 8]], ('T', 22)),
        (1, [HALT, [0x01, 0, 0, 0, 0, 9, 0, 1]], ('F', 30)),
        (1, [HALT, [0x01, 0, 0, 0, 0, 9, 0, 0]], ('T', 30)),
        (1, [HALT, [0x09, 0, 0, 0, 0, 1, 0, 0]], ('T', 30)),
        (1, [HALT, [0x0a, 0, 0, 0, 0, 1, 0, 0]], ('T', 30)),
        (1, [HALT, [0x20, 0, 0, 0, 0, 0, 0, 0]], ('T', 30)),
        (1, [HALT, [0x23, 0, 0, 0, 0, 0, 0, 0]], ('-', 0)),
    ] {
        let bytes = bytes_of(rt.alloc(), 2, boot, &rows)?;
        assert_eq!(rt; answer(decode(rt.alloc(), &bytes)), want);
    }
    Ok(())
}

#[test]
fn rows_of_moves_jumps_timers_and_packets(rt: HostRuntime) -> Result<(), Fail> {
    for (row, want) in [
        (
            [0x02, 15, 14, 0, 0, 0, 0, 0],
            Ok(Instr::Mov { a: 15, b: 14 }),
        ),
        ([0x02, 16, 0, 0, 0, 0, 0, 0], Err('F')),
        ([0x02, 0, 16, 0, 0, 0, 0, 0], Err('F')),
        ([0x02, 0, 0, 1, 0, 0, 0, 0], Err('F')),
        ([0x02, 0, 0, 0, 0, 1, 0, 0], Err('F')),
        ([0x02, 0, 0, 0, 0, 0, 1, 0], Err('F')),
        ([0x08, 0, 0, 0, 0, 1, 0, 0], Ok(Instr::Jmp { to: 1 })),
        ([0x08, 1, 0, 0, 0, 0, 0, 0], Err('F')),
        ([0x08, 0, 1, 0, 0, 0, 0, 0], Err('F')),
        ([0x08, 0, 0, 1, 0, 0, 0, 0], Err('F')),
        ([0x08, 0, 0, 0, 0, 0, 0, 1], Err('F')),
        ([0x08, 0, 0, 0, 0, 2, 0, 0], Err('T')),
        ([0x08, 0, 0, 0, 1, 0, 0, 0], Err('T')),
        ([0x08, 0, 0, 1, 0, 2, 0, 0], Err('F')),
        (
            [0x0b, 7, 0, 0, 0xff, 0xff, 0, 0],
            Ok(Instr::Timer { k: 7, d: 65535 }),
        ),
        ([0x0b, 0, 0, 0, 0, 1, 0, 0], Ok(Instr::Timer { k: 0, d: 1 })),
        ([0x0b, 8, 0, 0, 0, 1, 0, 0], Err('F')),
        ([0x0b, 0, 1, 0, 0, 1, 0, 0], Err('F')),
        ([0x0b, 0, 0, 1, 0, 1, 0, 0], Err('F')),
        ([0x0b, 0, 0, 0, 0, 0, 0, 0], Err('F')),
        ([0x0b, 0, 0, 0, 0, 1, 0, 1], Err('F')),
        ([0x0c, 7, 0, 0, 0, 0, 0, 0], Ok(Instr::Cancel { k: 7 })),
        ([0x0c, 8, 0, 0, 0, 0, 0, 0], Err('F')),
        ([0x0c, 0, 1, 0, 0, 0, 0, 0], Err('F')),
        ([0x0c, 0, 0, 1, 0, 0, 0, 0], Err('F')),
        ([0x0c, 0, 0, 0, 0, 1, 0, 0], Err('F')),
        ([0x0c, 0, 0, 0, 0, 0, 0, 1], Err('F')),
        (
            [0x0d, 8, 8, 0, 0xff, 0xfe, 0, 0],
            Ok(Instr::Send {
                l: 65534,
                b: 8,
                n: 8,
            }),
        ),
        (
            [0x0d, 0, 15, 0, 0, 0, 0, 0],
            Ok(Instr::Send { l: 0, b: 15, n: 0 }),
        ),
        ([0x0d, 9, 0, 0, 0, 0, 0, 0], Err('F')),
        ([0x0d, 8, 9, 0, 0, 0, 0, 0], Err('F')),
        ([0x0d, 2, 15, 0, 0, 0, 0, 0], Err('F')),
        ([0x0d, 0, 16, 0, 0, 0, 0, 0], Err('F')),
        ([0x0d, 1, 0xff, 0, 0, 0, 0, 0], Err('F')),
        ([0x0d, 1, 0, 1, 0, 0, 0, 0], Err('F')),
        ([0x0d, 1, 0, 0, 0, 0, 0, 1], Err('F')),
        (
            [0x0e, 3, 13, 0, 0, 0, 0, 0],
            Ok(Instr::Bcast { b: 13, n: 3 }),
        ),
        ([0x0e, 9, 0, 0, 0, 0, 0, 0], Err('F')),
        ([0x0e, 3, 14, 0, 0, 0, 0, 0], Err('F')),
        ([0x0e, 0, 16, 0, 0, 0, 0, 0], Err('F')),
        ([0x0e, 1, 0, 1, 0, 0, 0, 0], Err('F')),
        ([0x0e, 1, 0, 0, 0, 1, 0, 0], Err('F')),
        ([0x0e, 1, 0, 0, 0, 0, 1, 0], Err('F')),
        (
            [0x0f, 15, 0, 0, 0, 7, 0, 0],
            Ok(Instr::Recvw { a: 15, k: 7 }),
        ),
        ([0x0f, 16, 0, 0, 0, 0, 0, 0], Err('F')),
        ([0x0f, 0, 1, 0, 0, 0, 0, 0], Err('F')),
        ([0x0f, 0, 0, 1, 0, 0, 0, 0], Err('F')),
        ([0x0f, 0, 0, 0, 0, 8, 0, 0], Err('F')),
        ([0x0f, 0, 0, 0, 1, 0, 0, 0], Err('F')),
        ([0x0f, 0, 0, 0, 0, 0, 0, 1], Err('F')),
        ([0x1e, 15, 0, 0, 0, 0, 0, 0], Ok(Instr::Rlen { a: 15 })),
        ([0x1e, 16, 0, 0, 0, 0, 0, 0], Err('F')),
        ([0x1e, 0, 1, 0, 0, 0, 0, 0], Err('F')),
        ([0x1e, 0, 0, 1, 0, 0, 0, 0], Err('F')),
        ([0x1e, 0, 0, 0, 0, 1, 0, 0], Err('F')),
        ([0x1e, 0, 0, 0, 0, 0, 0, 1], Err('F')),
        ([0x1f, 15, 0, 0, 0, 0, 0, 0], Ok(Instr::Rfrom { a: 15 })),
        ([0x1f, 16, 0, 0, 0, 0, 0, 0], Err('F')),
        ([0x1f, 0, 1, 0, 0, 0, 0, 0], Err('F')),
        ([0x1f, 0, 0, 1, 0, 0, 0, 0], Err('F')),
        ([0x1f, 0, 0, 0, 0, 1, 0, 0], Err('F')),
        ([0x1f, 0, 0, 0, 0, 0, 0, 1], Err('F')),
        ([0x21, 15, 0, 0, 0, 0, 0, 0], Ok(Instr::Node { a: 15 })),
        ([0x21, 16, 0, 0, 0, 0, 0, 0], Err('F')),
        ([0x21, 0, 1, 0, 0, 0, 0, 0], Err('F')),
        ([0x21, 0, 0, 1, 0, 0, 0, 0], Err('F')),
        ([0x21, 0, 0, 0, 0, 1, 0, 0], Err('F')),
        ([0x21, 0, 0, 0, 0, 0, 0, 1], Err('F')),
        ([0x22, 15, 0, 0, 0, 0, 0, 0], Ok(Instr::Now { a: 15 })),
        ([0x22, 16, 0, 0, 0, 0, 0, 0], Err('F')),
        ([0x22, 0, 1, 0, 0, 0, 0, 0], Err('F')),
        ([0x22, 0, 0, 1, 0, 0, 0, 0], Err('F')),
        ([0x22, 0, 0, 0, 0, 1, 0, 0], Err('F')),
        ([0x22, 0, 0, 0, 0, 0, 0, 1], Err('F')),
    ] {
        reads_as(&rt, rt.alloc(), row, want)?;
    }
    Ok(())
}

#[test]
fn rows_of_words_and_memory(rt: HostRuntime) -> Result<(), Fail> {
    for (row, want) in [
        (
            [0x03, 15, 14, 0, 0, 0, 0, 0],
            Ok(Instr::Not { a: 15, b: 14 }),
        ),
        ([0x03, 16, 0, 0, 0, 0, 0, 0], Err('F')),
        ([0x03, 0, 16, 0, 0, 0, 0, 0], Err('F')),
        ([0x03, 0, 0, 1, 0, 0, 0, 0], Err('F')),
        ([0x03, 0, 0, 0, 0, 1, 0, 0], Err('F')),
        (
            [0x04, 15, 0, 0, 0, 63, 0, 0],
            Ok(Instr::Ld { a: 15, m: 63 }),
        ),
        ([0x04, 16, 0, 0, 0, 0, 0, 0], Err('F')),
        ([0x04, 0, 1, 0, 0, 0, 0, 0], Err('F')),
        ([0x04, 0, 0, 0, 0, 64, 0, 0], Err('F')),
        ([0x04, 0, 0, 0, 1, 0, 0, 0], Err('F')),
        (
            [0x05, 15, 0, 0, 0, 63, 0, 0],
            Ok(Instr::St { m: 63, a: 15 }),
        ),
        ([0x05, 16, 0, 0, 0, 0, 0, 0], Err('F')),
        ([0x05, 0, 0, 0, 0, 64, 0, 0], Err('F')),
        ([0x05, 0, 0, 0, 0, 0, 0, 1], Err('F')),
        (
            [0x06, 15, 14, 0, 0, 60, 0, 4],
            Ok(Instr::Ldx {
                a: 15,
                b: 14,
                m: 60,
                n: 4,
            }),
        ),
        ([0x06, 16, 0, 0, 0, 0, 0, 1], Err('F')),
        ([0x06, 0, 16, 0, 0, 0, 0, 1], Err('F')),
        ([0x06, 0, 0, 1, 0, 0, 0, 1], Err('F')),
        ([0x06, 0, 0, 0, 0, 0, 0, 0], Err('F')),
        ([0x06, 0, 0, 0, 0, 0, 0, 17], Err('F')),
        ([0x06, 0, 0, 0, 0, 61, 0, 4], Err('F')),
        ([0x06, 0, 0, 0, 0xff, 0xff, 0, 2], Err('F')),
        ([0x06, 0, 0, 0, 0, 0, 1, 0], Err('F')),
        (
            [0x07, 1, 2, 0, 0, 48, 0, 16],
            Ok(Instr::Stx {
                a: 1,
                b: 2,
                m: 48,
                n: 16,
            }),
        ),
        ([0x07, 0, 0, 0, 0, 49, 0, 16], Err('F')),
        ([0x07, 0, 0, 0, 0, 63, 0, 0], Err('F')),
        ([0x07, 0, 0, 0, 0, 64, 0, 1], Err('F')),
        (
            [0x0a, 3, 0, 0, 0, 16, 0, 0],
            Ok(Instr::Input { a: 3, w: 16 }),
        ),
    ] {
        reads_as(&rt, rt.alloc(), row, want)?;
    }
    Ok(())
}

#[test]
fn rows_of_operators(rt: HostRuntime) -> Result<(), Fail> {
    let (a, b, c) = (15, 14, 13);
    for (code, instr) in [
        (0x10, Instr::Add { a, b, c }),
        (0x11, Instr::Sub { a, b, c }),
        (0x12, Instr::Mul { a, b, c }),
        (0x13, Instr::And { a, b, c }),
        (0x14, Instr::Or { a, b, c }),
        (0x15, Instr::Xor { a, b, c }),
        (0x16, Instr::Shl { a, b, c }),
        (0x17, Instr::Shr { a, b, c }),
        (0x18, Instr::Sar { a, b, c }),
        (0x19, Instr::Udiv { a, b, c }),
        (0x1a, Instr::Urem { a, b, c }),
        (0x1b, Instr::Eq { a, b, c }),
        (0x1c, Instr::Ult { a, b, c }),
        (0x1d, Instr::Slt { a, b, c }),
    ] {
        reads_as(&rt, rt.alloc(), [code, a, b, c, 0, 0, 0, 0], Ok(instr))?;
        reads_as(&rt, rt.alloc(), [code, 16, b, c, 0, 0, 0, 0], Err('F'))?;
        reads_as(&rt, rt.alloc(), [code, a, 16, c, 0, 0, 0, 0], Err('F'))?;
        reads_as(&rt, rt.alloc(), [code, a, b, 16, 0, 0, 0, 0], Err('F'))?;
        reads_as(&rt, rt.alloc(), [code, a, b, c, 0, 1, 0, 0], Err('F'))?;
        reads_as(&rt, rt.alloc(), [code, a, b, c, 0, 0, 1, 0], Err('F'))?;
    }
    Ok(())
}

#[test]
fn a_row_after_halt(rt: HostRuntime) -> Result<(), Fail> {
    for (row, want) in [
        ([0x08, 0, 0, 0, 0, 1, 0, 0], ('-', 0)),
        ([0x08, 0, 0, 0, 0, 2, 0, 0], ('T', 30)),
        ([0x02, 0, 0, 0, 0, 0, 0, 0], ('T', 30)),
        ([0x0b, 0, 0, 0, 0, 1, 0, 0], ('T', 30)),
        ([0x0c, 0, 0, 0, 0, 0, 0, 0], ('T', 30)),
        ([0x0d, 1, 0, 0, 0, 0, 0, 0], ('T', 30)),
        ([0x0d, 9, 0, 0, 0, 0, 0, 0], ('F', 30)),
        ([0x0e, 1, 0, 0, 0, 0, 0, 0], ('T', 30)),
        ([0x0f, 0, 0, 0, 0, 0, 0, 0], ('T', 30)),
        ([0x1e, 0, 0, 0, 0, 0, 0, 0], ('T', 30)),
        ([0x1f, 0, 0, 0, 0, 0, 0, 0], ('T', 30)),
        ([0x21, 0, 0, 0, 0, 0, 0, 0], ('T', 30)),
        ([0x22, 0, 0, 0, 0, 0, 0, 0], ('T', 30)),
        ([0x06, 0, 0, 0, 0, 0, 0, 1], ('T', 30)),
        ([0x10, 0, 0, 0, 0, 0, 0, 0], ('T', 30)),
    ] {
        let bytes = bytes_of(rt.alloc(), 2, 0, &[HALT, row])?;
        assert_eq!(rt; answer(decode(rt.alloc(), &bytes)), want, "row {}", row[0]);
    }
    Ok(())
}

/// Two instructions and ten handlers at the second one, but for the handler of an index, whose entry is given.
fn handlers_but(alloc: Global, odd: usize, entry: u8) -> Result<Vec<u8>, AllocError> {
    let mut bytes = Vec::new(alloc);
    bytes.extend_from_slice(&[0, 2])?;
    for index in 0..10usize {
        bytes.extend_from_slice(&[0, if index == odd { entry } else { 1 }])?;
    }
    bytes.extend_from_slice(&HALT)?;
    bytes.extend_from_slice(&HALT)?;
    Ok(bytes)
}

#[test]
fn ten_handlers_are_read(rt: HostRuntime) -> Result<(), Fail> {
    for odd in 0..10u8 {
        let bytes = handlers_but(rt.alloc(), odd as usize, 0)?;
        match decode(rt.alloc(), &bytes) {
            Ok(program) => {
                for index in 0..10u8 {
                    let want = if index == odd { 0 } else { 1 };
                    assert_eq!(rt; program.handler(index), Some(want));
                }
                assert!(rt; encode(rt.alloc(), &program)?.as_slice() == bytes.as_slice());
            }
            Err(_) => assert!(rt; false),
        }
        let bytes = handlers_but(rt.alloc(), odd as usize, 2)?;
        assert_eq!(rt;
            answer(decode(rt.alloc(), &bytes)),
            ('H', 2 + 2 * odd as usize)
        );
    }
    Ok(())
}
