//! The tables of a network file, and what may stand at each of their keys (docs/FORMATS.md, "The network file").

/// A table of a file: the outermost one, or an element of one of its arrays.
#[derive(Clone, Copy, Debug, PartialEq, Eq)]
pub enum TableKind {
    Top,
    Program,
    Node,
    Link,
    Input,
}

/// A key of a table, and what may stand there.
#[derive(Clone, Copy, Debug)]
pub struct KeyRule {
    pub name: &'static str,
    pub allowed: &'static str,
}

const TOP: [KeyRule; 10] = [
    KeyRule {
        name: "version",
        allowed: "the number 1",
    },
    KeyRule {
        name: "ticks",
        allowed: "a number from 0 to 4096",
    },
    KeyRule {
        name: "fuel",
        allowed: "a number from 1 to 4096",
    },
    KeyRule {
        name: "conflicts",
        allowed: "a number from 1 to 1048576",
    },
    KeyRule {
        name: "states",
        allowed: "a number from 1 to 16384, and at least the number of nodes",
    },
    KeyRule {
        name: "dstates",
        allowed: "a number from 1 to 16384",
    },
    KeyRule {
        name: "program",
        allowed: "1 to 64 tables, each under [[program]]",
    },
    KeyRule {
        name: "node",
        allowed: "1 to 64 tables, each under [[node]]",
    },
    KeyRule {
        name: "link",
        allowed: "at most 1024 tables, each under [[link]]",
    },
    KeyRule {
        name: "input",
        allowed: "at most 65536 tables, each under [[input]]",
    },
];

const PROGRAM: [KeyRule; 3] = [
    KeyRule {
        name: "name",
        allowed: "a text of 1 to 32 letters, digits, `_` and `-` that is the name of no program before",
    },
    KeyRule {
        name: "code",
        allowed: "bytecode as a text of hexadecimal digits, or `asm` in its place",
    },
    KeyRule {
        name: "asm",
        allowed: "assembler text",
    },
];

const NODE: [KeyRule; 4] = [
    KeyRule {
        name: "program",
        allowed: "the name of a program",
    },
    KeyRule {
        name: "loss",
        allowed: "a number from 0 to 15",
    },
    KeyRule {
        name: "duplicate",
        allowed: "a number from 0 to 15",
    },
    KeyRule {
        name: "reboot",
        allowed: "an array of at most 16 numbers from 0 to 4095, each above the one before",
    },
];

const LINK: [KeyRule; 3] = [
    KeyRule {
        name: "from",
        allowed: "the number of a node, and at most 16 links go from one node",
    },
    KeyRule {
        name: "to",
        allowed: "the number of a node, and not the one that the link comes from",
    },
    KeyRule {
        name: "delay",
        allowed: "a number from 1 to 65535",
    },
];

const INPUT: [KeyRule; 3] = [
    KeyRule {
        name: "node",
        allowed: "the number of a node",
    },
    KeyRule {
        name: "index",
        allowed: "a number from 0 to 65535, and node and index rise from each input to the next",
    },
    KeyRule {
        name: "value",
        allowed: "a number from 0 to 65535",
    },
];

impl TableKind {
    /// The kind of the tables of an array.
    pub fn of_array(name: &str) -> Option<TableKind> {
        match name {
            "program" => Some(TableKind::Program),
            "node" => Some(TableKind::Node),
            "link" => Some(TableKind::Link),
            "input" => Some(TableKind::Input),
            _ => None,
        }
    }

    /// The key of the array whose elements these tables are; None for the outermost table.
    pub fn array(self) -> Option<&'static str> {
        match self {
            TableKind::Top => None,
            TableKind::Program => Some("program"),
            TableKind::Node => Some("node"),
            TableKind::Link => Some("link"),
            TableKind::Input => Some("input"),
        }
    }

    /// The keys that a table may have.
    pub fn keys(self) -> &'static [KeyRule] {
        match self {
            TableKind::Top => &TOP,
            TableKind::Program => &PROGRAM,
            TableKind::Node => &NODE,
            TableKind::Link => &LINK,
            TableKind::Input => &INPUT,
        }
    }

    /// What may stand at a key.
    pub fn allowed(self, key: &str) -> &'static str {
        for rule in self.keys() {
            if rule.name == key {
                return rule.allowed;
            }
        }
        "absent"
    }

    /// Whether a table may have a key.
    pub fn has(self, key: &str) -> bool {
        self.keys().iter().any(|rule| rule.name == key)
    }
}
