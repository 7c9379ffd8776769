use crate::case::{Ended, Outcome, Wanted};
use crate::folder::Folder;
use crate::form::read_cases;
use crate::journal::{add_record, journal_in};
use crate::refusal::{Refused, Why};
use crate::verdict::verdict;
use std::test::Fail;

/// Case files, and the line that is refused.
const REFUSED: [(&str, usize, Why); 21] = [
    ("status 0", 1, Why::NoCase),
    ("# a comment\n\nwords", 3, Why::NoCase),
    ("case a\nstatus", 2, Why::BadNumber),
    ("case a\nstatus 256", 2, Why::BadNumber),
    ("case a\npieces input 0", 2, Why::BadNumber),
    ("case a\nclock 1  2", 2, Why::BadNumber),
    ("case a\n>x 0", 2, Why::BadDigits),
    ("case a\nendless 0000", 2, Why::BadDigits),
    ("case a\n>y 00", 2, Why::UnknownWord),
    ("case a\nfails output 1 1", 2, Why::UnknownWord),
    ("case a\nby new", 2, Why::NoReplace),
    (
        "case a\nreplace [desk]\nby\ncase b\nreplace [other]\nby",
        6,
        Why::NotInTables,
    ),
    ("case a\ntables no_such_file.toml", 2, Why::NoFile),
    ("case a\n\njournal no_such_file", 3, Why::NoFile),
    ("case a\n+e 0", 2, Why::BadDigits),
    ("case a\n=t", 2, Why::BadNumber),
    ("case a\n=y 00", 2, Why::UnknownWord),
    ("text a b\ncase c\n>= a\n<= b", 4, Why::NoText),
    ("case a\nkept\nagain\nkept", 4, Why::NoDisk),
    ("case a\nfails disk 1", 2, Why::BadNumber),
    ("case a\n@ {}", 2, Why::NotServed),
];

#[test]
fn a_case_file_is_refused_at_its_line(rt: HostRuntime) -> Result<(), Fail> {
    for (text, line, why) in REFUSED {
        match read_cases(Folder::of(&rt, ""), text) {
            Ok(_) => assert!(rt; false, "{text}"),
            Err(refused) => assert_eq!(rt; refused, Refused { line, why }, "{text}"),
        }
    }
    Ok(())
}

/// Statuses and outputs, each got and wanted, and what is printed of a case `a`.
const VERDICTS: [(u8, &str, u8, &str, &str); 4] = [
    (0, "x\ny\n", 0, "x\ny\n", "a: ok\n"),
    (4, "x\n", 0, "x\n", "a: differs\n  status 4, wanted 0\n"),
    (
        0,
        "x\ny\n",
        0,
        "x\nz\n",
        "a: differs\n  line 2: y\n  wanted: z\n",
    ),
    (
        0,
        "x\n",
        3,
        "",
        "a: differs\n  status 0, wanted 3\n  line 1: x\n  wanted: \n",
    ),
];

#[test]
fn a_difference_is_shown_with_both_texts(rt: HostRuntime) -> Result<(), Fail> {
    let alloc = rt.alloc();
    for (got, output, wanted, wanted_output, text) in VERDICTS {
        let got = Outcome {
            status: got,
            output: output.as_bytes().to_vec(alloc)?,
            disk: Vec::new(alloc),
            journal: b"a journal".to_vec(alloc)?,
        };
        let wanted = Wanted {
            status: wanted,
            output: wanted_output.as_bytes().to_vec(alloc)?,
            disk: None,
            journal: Some(b"a journal".to_vec(alloc)?),
        };
        let mut ended = Vec::new(alloc);
        ended.push(Ended { got, wanted })?;
        let said = verdict(alloc, "a", &ended)?;
        assert_eq!(rt; said.as_slice(), text.as_bytes());
    }
    Ok(())
}

/// The journals of no record, of the record `ab`, and of that and `c`.
const NONE: &[u8] = b"LWDESK-JOURNAL-1\0";

const ONE: &[u8] = b"LWDESK-JOURNAL-1\x01\0\0\0\x02ab\0";

const TWO: &[u8] = b"LWDESK-JOURNAL-1\x01\0\0\0\x02ab\x01\0\0\0\x01c\0";

#[test]
fn a_journal_is_read_up_to_its_end(rt: HostRuntime) -> Result<(), Fail> {
    let alloc = rt.alloc();
    let mut made = Vec::new(alloc);
    add_record(&mut made, b"ab")?;
    assert_eq!(rt; made.as_slice(), ONE);
    add_record(&mut made, b"c")?;
    assert_eq!(rt; made.as_slice(), TWO);
    for (size, held) in [
        (30, TWO),
        (29, ONE),
        (24, ONE),
        (23, NONE),
        (18, NONE),
        (0, NONE),
    ] {
        let found = journal_in(alloc, TWO.get(..size).unwrap_or(b""))?;
        assert_eq!(rt; found.as_slice(), held);
    }
    assert_eq!(rt; journal_in(alloc, b"this is no journal")?.len(), 0);
    Ok(())
}
