use super::*;
use kn_code::{Instr, Program};
use std::alloc::Global;
use std::test::Fail;

fn is_shared<T: Send + Sync>() {}

/// The line and the cause of a fault; line 0 for a program, and none for want of memory.
fn answer(read: Result<Program, AsmFault>) -> Option<(usize, AsmCause)> {
    match read {
        Ok(_) => Some((0, AsmCause::Syntax)),
        Err(AsmFault::Refused { line, cause }) => Some((line, cause)),
        Err(AsmFault::Memory(_)) => None,
    }
}

fn refused(alloc: Global, text: &str) -> Option<(usize, AsmCause)> {
    answer(assemble(alloc, text))
}

#[test]
fn halt_at_boot(rt: HostRuntime) -> Result<(), Fail> {
    is_shared::<AsmFault>();
    is_shared::<AsmCause>();
    match assemble(rt.alloc(), "boot: halt") {
        Ok(program) => {
            assert!(rt; program.instr(0) == Some(Instr::Halt));
            assert!(rt; program.instr(1).is_none());
            assert_eq!(rt; program.boot(), Some(0));
            assert_eq!(rt; program.handler(1), None);
            assert!(rt; disassemble(rt.alloc(), &program)?.as_str() == "boot:\n  halt\n");
        }
        Err(_) => assert!(rt; false),
    }
    Ok(())
}

#[test]
fn the_first_line_with_a_fault(rt: HostRuntime) -> Result<(), Fail> {
    for (text, line, cause) in [
        ("boot: hlt", 1, AsmCause::Mnemonic),
        ("a: jmp b", 1, AsmCause::NoLabel),
        ("boot: mov r0, r1", 1, AsmCause::End),
        ("a: jmp b\n,", 1, AsmCause::NoLabel),
        ("boot: mov r0, r1\n!", 1, AsmCause::End),
        ("halt\nmov r0 r1", 2, AsmCause::Syntax),
        ("const r0, 65536", 1, AsmCause::Syntax),
        ("halt\n\nnope r0 ; no such name", 3, AsmCause::Mnemonic),
        ("halt\nmov r0, 1", 2, AsmCause::Operand),
        ("a: halt\n b : halt", 2, AsmCause::Syntax),
        ("a: halt\na: halt", 2, AsmCause::Twice),
        ("halt\njmp r0", 2, AsmCause::Operand),
        (" ; nothing\n", 2, AsmCause::Count),
        ("halt\nend:", 2, AsmCause::End),
    ] {
        assert!(rt; refused(rt.alloc(), text) == Some((line, cause)), "{text}");
    }
    Ok(())
}

/// One instruction of each shape.
const SHAPES: &str =
    "boot: const r0, 0xFfff\n mov r1,r0 ; a copy\n\tld r2, 63\n st 0, r15\n ldx r1, r2, 60, 4
a:brz r0, b\n input r3, 16\n timer 7, 65535\n cancel 0\n send 65535, r8, 8\n bcast r0, 0\n recvw r4, 7
timer7: add r1, r2, r3\n now r5\nb: jmp a\n ret";

#[test]
fn each_shape(rt: HostRuntime) -> Result<(), Fail> {
    match assemble(rt.alloc(), SHAPES) {
        Ok(program) => {
            assert!(rt; program.instr(0) == Some(Instr::Const { a: 0, n: 65535 }));
            assert!(rt; program.instr(3) == Some(Instr::St { m: 0, a: 15 }));
            assert!(rt; program.instr(5) == Some(Instr::Brz { a: 0, to: 14 }));
            assert!(rt;
                program.instr(9)
                    == Some(Instr::Send {
                        l: 65535,
                        b: 8,
                        n: 8
                    })
            );
            assert!(rt; program.instr(12) == Some(Instr::Add { a: 1, b: 2, c: 3 }));
            assert!(rt; program.instr(14) == Some(Instr::Jmp { to: 5 }));
            assert!(rt; program.instr(15) == Some(Instr::Ret));
            assert!(rt; program.instr(16).is_none());
            assert_eq!(rt; program.handler(9), Some(12));
            let text = disassemble(rt.alloc(), &program)?;
            assert!(rt;
                text.as_str()
                    .starts_with("boot:\n  const r0, 65535\n  mov r1, r0\n")
            );
            match assemble(rt.alloc(), text.as_str()) {
                Ok(other) => assert!(rt; other == program),
                Err(_) => assert!(rt; false),
            }
            reads_back();
        }
        Err(_) => assert!(rt; false),
    }
    Ok(())
}
