// The letters that begin a change, field by field: in hexadecimal and in words.
use std::io;

// Where a field begins, how many bytes it has, at most 8, and what it says.
#[derive(Clone, Copy)]
struct Field {
    at: usize,
    bytes: usize,
    words: &'static str,
}

const ENROLMENT: [Field; 5] = [
    Field {
        at: 0,
        bytes: 2,
        words: "map: bits 0, 1, 2 and 12",
    },
    Field {
        at: 2,
        bytes: 1,
        words: "kind 1, enrol",
    },
    Field {
        at: 3,
        bytes: 1,
        words: "change 7",
    },
    Field {
        at: 4,
        bytes: 1,
        words: "sender 34, the lock at place 2",
    },
    Field {
        at: 5,
        bytes: 8,
        words: "seal 67",
    },
];

const ORDER: [Field; 6] = [
    Field {
        at: 0,
        bytes: 2,
        words: "map: bits 0, 1, 2, 5 and 12",
    },
    Field {
        at: 2,
        bytes: 1,
        words: "kind 3, order",
    },
    Field {
        at: 3,
        bytes: 1,
        words: "change 7",
    },
    Field {
        at: 4,
        bytes: 1,
        words: "sender 64, the office",
    },
    Field {
        at: 5,
        bytes: 4,
        words: "number 123,456",
    },
    Field {
        at: 9,
        bytes: 8,
        words: "seal 391",
    },
];

fn print_hex(rt: &impl Print, letter: &[u8], field: Field) -> io::Result<()> {
    for byte in letter.iter().skip(field.at).take(field.bytes) {
        print!(rt; "{byte:02X} ")?;
    }
    Ok(())
}

// As wide as the bytes that the field has not.
fn print_gap(rt: &impl Print, field: Field) -> io::Result<()> {
    for _ in field.bytes..8 {
        print!(rt; "   ")?;
    }
    Ok(())
}

fn print_fields(rt: &impl Print, letter: &[u8], fields: &[Field]) -> io::Result<()> {
    for field in fields {
        let words = field.words;
        print_hex(rt, letter, *field)?;
        print_gap(rt, *field)?;
        println!(rt; " {words}")?;
    }
    Ok(())
}

pub fn enrolment(rt: &impl Print, letter: &[u8]) -> io::Result<()> {
    print_fields(rt, letter, &ENROLMENT)
}

pub fn order(rt: &impl Print, letter: &[u8]) -> io::Result<()> {
    print_fields(rt, letter, &ORDER)
}
