//! Lines, with what they ask for.

use crate::{Line, line_of, made_in_range, one_line, words_ok};
use std::test::Fail;

/// Words, and what they ask for.
#[derive(Clone, Copy)]
struct Row {
    words: &'static [&'static str],
    line: Line,
}

const ACCEPTED: [Row; 16] = [
    Row {
        words: &["explore", "--mapping", "cob"],
        line: Line::Explore,
    },
    Row {
        words: &["explore", "--mapping=cob"],
        line: Line::Explore,
    },
    Row {
        words: &["explore", "--mapping", "cob", "--make", "0"],
        line: Line::ExploreMade(0),
    },
    Row {
        words: &["explore", "--mapping=cob", "--make=7"],
        line: Line::ExploreMade(7),
    },
    Row {
        words: &["explore", "--make", "35", "--mapping", "cob"],
        line: Line::ExploreMade(35),
    },
    Row {
        words: &["explore", "--make=10", "--mapping", "cob"],
        line: Line::ExploreMade(10),
    },
    Row {
        words: &["explore", "--workers", "1", "--mapping", "cob"],
        line: Line::Explore,
    },
    Row {
        words: &["explore", "--mapping=cob", "--workers=1"],
        line: Line::Explore,
    },
    Row {
        words: &["explore", "--workers=1", "--make", "9", "--mapping=cob"],
        line: Line::ExploreMade(9),
    },
    Row {
        words: &["explore", "--make=2", "--workers", "1", "--mapping", "cob"],
        line: Line::ExploreMade(2),
    },
    Row {
        words: &["explore", "--mapping", "cob", "--make=34", "--workers", "1"],
        line: Line::ExploreMade(34),
    },
    Row {
        words: &["replay"],
        line: Line::Replay,
    },
    Row {
        words: &["make", "0"],
        line: Line::Make(0),
    },
    Row {
        words: &["make", "9"],
        line: Line::Make(9),
    },
    Row {
        words: &["make", "10"],
        line: Line::Make(10),
    },
    Row {
        words: &["make", "35"],
        line: Line::Make(35),
    },
];

/// Words that are no command line, for their first word or their number.
const OTHERS: [&[&str]; 32] = [
    &[],
    &[""],
    &["--"],
    &["--help"],
    &["-h"],
    &["help"],
    &["--version"],
    &["--", "replay"],
    &["--mapping", "cob"],
    &["Replay"],
    &["replay "],
    &["replay", ""],
    &["replay", "x"],
    &["replay", "--mapping", "cob"],
    &["make"],
    &["make", ""],
    &["make", "36"],
    &["make", "07"],
    &["make", "00"],
    &["make", "+7"],
    &["make", "-1"],
    &["make", "7 "],
    &["make", "0x7"],
    &["make", "7.0"],
    &["make", "256"],
    &["make", "18446744073709551616"],
    &["make", "\u{667}"],
    &["make", "1", "2"],
    &["make", "--make", "7"],
    &["make", "--make=7"],
    &["make", "--help"],
    &["make=7"],
];

/// Words that are no command line, for their options.
const NO_OPTIONS: [&[&str]; 47] = [
    &["explore"],
    &["explore", ""],
    &["explore", "--"],
    &["explore", "--help"],
    &["explore", "-h"],
    &["explore", "help"],
    &["explore", "cob"],
    &["explore", "--workers", "0"],
    &["explore", "--workers", "02"],
    &["explore", "--workers", "2", "--workers=3"],
    &["explore", "--workers", "2"],
    &["explore", "--workers", "1"],
    &["explore", "--make", "0"],
    &["explore", "--mapping"],
    &["explore", "--mapping="],
    &["explore", "--mapping", "sds"],
    &["explore", "--mapping=sds"],
    &["explore", "--mapping", "cow"],
    &["explore", "--mapping", "Cob"],
    &["explore", "--mapping==cob"],
    &["explore", "--mapping=cob="],
    &["explore", "--mapping cob"],
    &["explore", "--Mapping", "cob"],
    &["explore", "-mapping", "cob"],
    &["explore", "--map", "cob"],
    &["explore", "mapping=cob"],
    &["explore", "--mapping", "=cob"],
    &["explore", "--mapping", "--make", "7"],
    &["explore", "--mapping", "cob", ""],
    &["explore", "--mapping", "cob", "--"],
    &["explore", "--mapping", "cob", "x"],
    &["explore", "--mapping", "cob", "--help"],
    &["explore", "--mapping", "cob", "--mapping", "cob"],
    &["explore", "--mapping", "cob", "--mapping=cob"],
    &["explore", "--mapping=cob", "--mapping", "sds"],
    &["explore", "--mapping", "cob", "--workers", "2"],
    &["explore", "--mapping", "cob", "--workers=16"],
    &["explore", "--mapping", "cob", "--workers", "01"],
    &["explore", "--workers=1", "--mapping=cob", "--workers", "1"],
    &["explore", "--mapping", "cob", "--make"],
    &["explore", "--mapping", "cob", "--make="],
    &["explore", "--mapping", "cob", "--make", "36"],
    &["explore", "--mapping", "cob", "--make=36"],
    &["explore", "--mapping", "cob", "--make", "07"],
    &["explore", "--mapping", "cob", "--make=+7"],
    &["explore", "--make", "7", "--mapping", "cob", "--make", "7"],
    &["explore", "--make=7", "--mapping", "cob", "--make", "8"],
];

#[test]
fn lines_and_what_they_ask_for(rt: HostRuntime) -> Result<(), Fail> {
    for (index, row) in ACCEPTED.iter().enumerate() {
        assert!(rt; words_ok(row.words), "accepted at {index}");
        assert!(rt;
            line_of(rt.alloc(), row.words)? == Some(row.line),
            "at {index}"
        );
    }
    one_line();
    made_in_range();
    Ok(())
}

#[test]
fn words_that_are_no_line(rt: HostRuntime) -> Result<(), Fail> {
    for (index, words) in OTHERS.iter().enumerate() {
        assert!(rt; !words_ok(words), "at {index}");
        assert!(rt; line_of(rt.alloc(), words)?.is_none(), "at {index}");
    }
    for (index, words) in NO_OPTIONS.iter().enumerate() {
        assert!(rt; !words_ok(words), "options at {index}");
        assert!(rt; line_of(rt.alloc(), words)?.is_none(), "options at {index}");
    }
    Ok(())
}
