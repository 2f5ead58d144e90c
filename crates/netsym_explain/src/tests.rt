//! What is said of files that are accepted and of files that are refused, each number once.

use crate::explain::{Explained, explain};
use std::alloc::{AllocError, Global};
use std::test::Fail;

/// A node that halts at once, with two numbers and three keys more.
const HEAD: &str = "version = 1\nticks = 1\n";

const PROGRAM: &str = "[[program]]\nname = \"p\"\nasm = \"boot: halt\"\n";

const NODE: &str = "[[node]]\nprogram = \"p\"\n";

/// The file of these parts.
fn joined(alloc: Global, parts: &[&str]) -> Result<String, AllocError> {
    let mut file = String::new(alloc);
    for part in parts {
        file.push_str(part)?;
    }
    Ok(file)
}

fn said_of(alloc: Global, parts: &[&str]) -> Result<Explained, AllocError> {
    let file = joined(alloc, parts)?;
    explain(alloc, file.as_bytes())
}

#[test]
fn accepted_files_tell_what_they_hold(rt: HostRuntime) -> Result<(), Fail> {
    let link = "[[link]]\nfrom = 0\nto = 1\ndelay = 2\n";
    let said = said_of(rt.alloc(), &[HEAD, PROGRAM, NODE, NODE, link])?;
    assert!(rt; said.accepted);
    assert_eq!(rt;
        said.text.as_str(),
        "The file is accepted.\nIt has 2 nodes, 1 program and 1 link, and runs for 1 tick.\nProgram p: 1 instruction, boot at 0\nNode 0: runs p\nNode 1: runs p\nLink 0: from node 0 to node 1 in 2 ticks\n"
    );
    Ok(())
}

#[test]
fn refused_files_tell_what_is_wrong_and_where(rt: HostRuntime) -> Result<(), Fail> {
    let rows: [([&str; 4], &str); 21] = [
        (
            ["version = 1\nticks = \n", "", "", ""],
            "F2 -\nIt is no TOML document: TOML parse error at line 2, column 9\n",
        ),
        (
            [HEAD, "colour = 1\n", PROGRAM, NODE],
            "F3 top\nThe key \"colour\" is not known here.\nThe keys here are version ticks fuel conflicts states dstates program node link input.\n",
        ),
        (
            [HEAD, PROGRAM, NODE, "loses = 1\n"],
            "F3 node[0]\nThe key \"loses\" is not known here.\nThe keys here are program loss duplicate reboot.\n",
        ),
        (
            ["ticks = 1\n", PROGRAM, NODE, ""],
            "F4 version\nThe key version is missing. It must be the number 1.\n",
        ),
        (
            [HEAD, "[[program]]\nname = \"p\"\n", NODE, ""],
            "F4 program[0].code\nThe key code is missing. It must be bytecode as a text of hexadecimal digits, or `asm` in its place.\n",
        ),
        (
            ["version = 1\nticks = \"1\"\n", PROGRAM, NODE, ""],
            "F5 ticks\nAt ticks stands the text \"1\". It must be a number from 0 to 4096.\n",
        ),
        (
            [HEAD, "link = [1, 2]\n", PROGRAM, NODE],
            "F5 link\nAt link stands an array of 2 elements. It must be at most 1024 tables, each under [[link]].\n",
        ),
        (
            ["version = 3\nticks = 1\n", PROGRAM, NODE, ""],
            "F6 version\nAt version stands 3. It must be the number 1.\n",
        ),
        (
            ["version = 1\nticks = 4097\n", PROGRAM, NODE, ""],
            "F7 ticks\nAt ticks stands 4097. It must be a number from 0 to 4096.\n",
        ),
        (
            [
                HEAD,
                "states = 1\n",
                PROGRAM,
                "[[node]]\nprogram = \"p\"\n[[node]]\nprogram = \"p\"\n",
            ],
            "F7 states\nAt states stands 1. It must be a number from 1 to 16384, and at least the number of nodes.\nThe file has 2 nodes, counted from 0.\n",
        ),
        (
            [HEAD, PROGRAM, PROGRAM, NODE],
            "F8 program[1].name\nAt name stands the text \"p\". It must be a text of 1 to 32 letters, digits, `_` and `-` that is the name of no program before.\n",
        ),
        (
            [
                HEAD,
                "[[program]]\nname = \"p\"\nasm = \"boot: timer 0, 1\\n  timer 9, 1 ; late\\n ret\"\n",
                NODE,
                "",
            ],
            "F8 program[0].asm\nLine 2 of the text: the number, the kind or the range of its operands is wrong.\n      timer 9, 1 ; late\nIt is written timer k, d with k from 0 to 7 and d from 1 to 65535.\n",
        ),
        (
            [
                HEAD,
                "[[program]]\nname = \"p\"\nasm = \"boot: hlt\"\n",
                NODE,
                "",
            ],
            "F8 program[0].asm\nLine 1 of the text: no instruction has this name.\n    boot: hlt\n",
        ),
        (
            [HEAD, PROGRAM, "code = \"00\"\n", NODE],
            "F8 program[0].code\nA program has code or asm, and here are both.\n",
        ),
        (
            [HEAD, "[[program]]\nname = \"p\"\ncode = \"0x\"\n", NODE, ""],
            "F8 program[0].code\nThe character 'x' at place 1 is no hexadecimal digit.\n",
        ),
        (
            [
                HEAD,
                "[[program]]\nname = \"p\"\ncode = \"000\"\n",
                NODE,
                "",
            ],
            "F8 program[0].code\nThe number of digits is odd.\n",
        ),
        (
            [
                HEAD,
                "[[program]]\nname = \"p\"\ncode = \"00010000ffffffffffffffffffffffffffffffffffff0000000000000000\"\n",
                NODE,
                "",
            ],
            "F8 program[0].code\nThe byte 22 is no instruction's code.\n",
        ),
        (
            [HEAD, PROGRAM, "[[node]]\nprogram = \"q\"\n", ""],
            "F9 node[0].program\nAt program stands the text \"q\". It must be the name of a program.\nThe programs are p.\n",
        ),
        (
            [
                HEAD,
                PROGRAM,
                NODE,
                "[[link]]\nfrom = 0\nto = 2\ndelay = 1\n",
            ],
            "F10 link[0].to\nAt to stands 2. It must be the number of a node, and not the one that the link comes from.\nThe file has 1 node, counted from 0.\n",
        ),
        (
            [HEAD, PROGRAM, NODE, "reboot = [2, 1]\n"],
            "F11 node[0].reboot\nAt reboot stands an array of 2 elements. It must be an array of at most 16 numbers from 0 to 4095, each above the one before.\n",
        ),
        (
            [
                HEAD,
                PROGRAM,
                NODE,
                "[[input]]\nnode = 0\nindex = 0\nvalue = 65536\n",
            ],
            "F12 input[0].value\nAt value stands 65536. It must be a number from 0 to 65535.\n",
        ),
    ];
    for (parts, sentences) in rows {
        let said = said_of(rt.alloc(), parts.as_slice())?;
        assert!(rt; !said.accepted);
        let text = said
            .text
            .strip_prefix("The file is refused: ")
            .unwrap_or("");
        if sentences.starts_with("F2 ") {
            assert!(rt; text.starts_with(sentences));
        } else {
            assert_eq!(rt; text, sentences);
        }
    }
    Ok(())
}
