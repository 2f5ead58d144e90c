use super::*;
use crate::arms::{is_operator, shape_of_code};

fn is_shared<T: Send + Sync>(_value: &T) {}

#[test]
fn rows_by_code_and_name(rt: HostRuntime) {
    rows_differ();
    one_row();
    is_shared(&INSTRS);
    let table = instruction_table();
    let halt = Row {
        name: "halt",
        code: 0x24,
        shape: Shape::Bare,
    };
    assert!(rt; table.by_code(0x25).is_none());
    assert!(rt; table.by_code(0x00).is_none());
    assert_eq!(rt; table.by_name("halt"), Some(halt));
    assert_eq!(rt; table.by_code(0x24), Some(halt));
    assert!(rt; table.by_name("hlt").is_none());
    assert!(rt; table.by_name("hal").is_none());
    assert!(rt; table.by_name("").is_none());
}

#[test]
fn the_first_of_two_rows(rt: HostRuntime) {
    let one = Row {
        name: "one",
        code: 1,
        shape: Shape::Reg,
    };
    let other = Row {
        name: "other",
        code: 1,
        shape: Shape::Bare,
    };
    let same = Row {
        name: "one",
        code: 2,
        shape: Shape::Bare,
    };
    let mut rows = [same; 36];
    rows[0] = one;
    rows[1] = other;
    let table = OpTable { rows };
    assert_eq!(rt; table.by_code(1), Some(one));
    assert_eq!(rt; table.by_code(2), Some(same));
    assert_eq!(rt; table.by_name("one"), Some(one));
    assert_eq!(rt; table.by_name("other"), Some(other));
}

#[test]
fn operands_of_codes(rt: HostRuntime) {
    for (code, shape, operator) in [
        (0x01, Some(Shape::RegWord), false),
        (0x0f, Some(Shape::RegIndex), false),
        (0x10, Some(Shape::RegRegReg), true),
        (0x1d, Some(Shape::RegRegReg), true),
        (0x1e, Some(Shape::Reg), false),
        (0x24, Some(Shape::Bare), false),
        (0x25, None, false),
    ] {
        assert_eq!(rt; shape_of_code(code), shape, "at {code}");
        assert_eq!(rt; is_operator(code), operator, "at {code}");
    }
}
