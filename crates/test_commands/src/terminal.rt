//! What is reported after a command's own lines, and what a terminal is shown.

use flash_commands::{Heard, Shown, Texts, Watched, line_of_record, report_more};
use std::cell::Cell;
use std::fmt::Display;
use std::io;
use std::io::{Read, Write};
use std::test::Fail;
use std::time::{Clock, Duration};

/// A terminal with a clock of its own, which counts the texts that it is shown.
#[derive(Drop)]
struct Terminal {
    millis: Cell<u64>,
    texts: Cell<u32>,
}

impl Clock for Terminal {
    fn monotonic(&self) -> io::Result<Duration> {
        Ok(Duration::from_millis(self.millis.get()))
    }

    fn since_1970(&self) -> io::Result<Duration> {
        self.monotonic()
    }
}

impl Terminal {
    fn show(&self) -> io::Result<()> {
        self.texts.set(self.texts.get().saturating_add(1));
        Ok(())
    }
}

impl Eprint for Terminal {
    fn eprint<D: Display + Drop>(&self, _value: D) -> io::Result<()> {
        self.show()
    }

    fn eprintln<D: Display + Drop>(&self, _value: D) -> io::Result<()> {
        self.show()
    }
}

/// When a byte is read, in milliseconds, and how many texts were shown by then: one each tenth of a second at most.
const READS: [(u64, u32); 8] = [
    (0, 0),
    (99, 0),
    (100, 1),
    (150, 1),
    (199, 1),
    (250, 2),
    (349, 2),
    (350, 3),
];

/// Whether a reader of these shows as many texts as `READS` says, or none where nothing is to be shown.
fn shows_in_turn(shown: Shown, shows: bool) -> io::Result<bool> {
    let terminal = Terminal {
        millis: Cell::new(0),
        texts: Cell::new(0),
    };
    let mut file = Watched::new(&terminal, b"0,0,job\n".as_slice(), shown);
    let mut byte = [0];
    for (millis, texts) in READS {
        terminal.millis.set(millis);
        let count = file.read(&mut byte)?;
        let wanted = if shows { texts } else { 0 };
        if count != 1 || terminal.texts.get() != wanted {
            return Ok(false);
        }
    }
    // At the end the line is cleared, if there is one.
    let count = file.read(&mut byte)?;
    let wanted = if shows { 4 } else { 0 };
    Ok(count == 0 && terminal.texts.get() == wanted)
}

#[test]
fn progress_is_shown_ten_times_a_second_at_most(rt: HostRuntime) -> Result<(), Fail> {
    assert!(rt; shows_in_turn(Shown::Bytes, true)?);
    assert!(rt; shows_in_turn(Shown::Slots { all: 4 }, true)?);
    assert!(rt; shows_in_turn(Shown::Nothing, false)?);
    Ok(())
}

/// Records that begin after blank lines, and one whose quoted fields have line feeds, commas and quotes.
const RECORDS: &str = "at,die\r\n\r\n\n0,\"a\n\"\",\n\"\n5,b\"\n6,\"c\"d\"\n7,e";

#[test]
fn a_record_is_found_by_the_line_in_which_it_begins(rt: HostRuntime) {
    for (record, line) in [(1, 1), (2, 4), (3, 7), (4, 8), (5, 9)] {
        let found = line_of_record(RECORDS.as_bytes(), record);
        assert!(rt; found == Some(line), "record {record}");
    }
    assert!(rt; line_of_record(RECORDS.as_bytes(), 0).is_none());
    assert!(rt; line_of_record(RECORDS.as_bytes(), 6).is_none());
}

#[test]
fn what_is_reported_is_passed_on_and_its_whole_lines_are_kept(rt: HostRuntime) -> Result<(), Fail> {
    let alloc = rt.alloc();
    let mut out = Vec::new(alloc);
    let mut heard = Heard::new(&mut out, true);
    write!(heard, "error 21")?;
    writeln!(heard, " ReadFault")?;
    write!(heard, "error 1")?;
    assert!(rt; heard.lines() == "error 21 ReadFault\n");
    let Heard { .. } = heard;
    assert!(rt; out.as_slice() == b"\x1b[Kerror 21 ReadFault\nerror 1".as_slice());
    Ok(())
}

/// What is reported after a report.
fn shown_beside(rt: HostRuntime, report: &str, texts: Texts<'_>) -> Vec<u8> {
    let mut err = Vec::new(rt.alloc());
    report_more(&rt, rt.alloc(), &mut err, report, texts);
    err
}

const FILES: Texts<'static> = Texts {
    plan: Some("/nowhere/p.toml"),
    script: Some("/nowhere/s.csv"),
    ..Texts::NONE
};

#[test]
fn a_refusal_is_followed_by_the_file_the_place_and_what_to_do(rt: HostRuntime) {
    let table = [
        (
            "error 3 BadPlan\n",
            "/nowhere/p.toml: flashplan explain /nowhere/p.toml says what is wrong, and what would mend it\n",
        ),
        (
            "error 19 ScriptRow 6 Fields\n",
            "/nowhere/s.csv, record 6: a row has 7 fields: at,die,task,kind,release,due,ops\n",
        ),
        (
            "refused 4 first line 3 with 8\n",
            "/nowhere/s.csv, record 3: one of its pages isn't below `logical`\n",
        ),
        (
            "error 21 ReadFault\n",
            "/nowhere/p.toml: No such file or directory (os error 2)\n/nowhere/s.csv: No such file or directory (os error 2)\n",
        ),
        ("error 1 NoMemory\n", ""),
        ("error 20 ReportText 2\n", ""),
    ];
    for (report, wanted) in table {
        let got = shown_beside(rt, report, FILES);
        assert!(rt; got.as_slice() == wanted.as_bytes(), "{report}");
    }
}

const DESIGN: Texts<'static> = Texts {
    sheet: Some("/nowhere/d.toml"),
    checkpoint: Some("/nowhere/c.csv"),
    traces: &["/nowhere/a.log", "/nowhere/b.log"],
    ..Texts::NONE
};

#[test]
fn a_fault_of_a_designers_text_is_followed_by_the_file_and_what_to_do(rt: HostRuntime) {
    let table = [
        (
            "error: line 8, column 1: the datasheet has the key `Logical`, which no datasheet has\n",
            "/nowhere/d.toml, line 8: man maulgreen-texts has the form\n",
        ),
        (
            "error: the datasheet isn't UTF-8\n",
            "/nowhere/d.toml: man maulgreen-texts has the form\n",
        ),
        (
            "error: [[task]] 2: `reads` and `writes` have to sum to 1 to 64\n",
            "/nowhere/d.toml: man maulgreen-texts has the form\n",
        ),
        (
            "error: the checkpoint has 2 dies, and the plan has 1\n",
            "/nowhere/c.csv: it was saved of the dies of another plan\n",
        ),
        (
            "error: line 3: only version 3 of fio's logs is read\n",
            "/nowhere/a.log, line 3: flashplan import --help has the form\n",
        ),
        (
            "error: the trace has no read, write or trim\n",
            "/nowhere/a.log: flashplan import --help has the form\n",
        ),
        (
            "error: the checkpoint, record 5 field 2: Number\n",
            "/nowhere/c.csv, record 5: man maulgreen-texts has the form\n",
        ),
        (
            "error: the checkpoint, die 0, record 2: Unprogrammed\n",
            "/nowhere/c.csv, record 2: man maulgreen-texts has the form\n",
        ),
        (
            "error: /nowhere/b.log: line 3: only version 3 of fio's logs is read\n",
            "/nowhere/b.log, line 3: flashplan import --help has the form\n",
        ),
        ("error 22 WriteFault\n", ""),
    ];
    for (report, wanted) in table {
        let got = shown_beside(rt, report, DESIGN);
        assert!(rt; got.as_slice() == wanted.as_bytes(), "{report}");
    }
}
