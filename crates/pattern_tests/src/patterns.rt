// Reading pattern files into a table.
use crate::refusals::told;
use format::entry::Entry;
use format::fault::PatternFault;
use pattern::read::read_pattern;
use std::process::Abort;
use std::test::Fail;

const FILLER: Entry = Entry {
    kind: 170,
    code: 43690,
    rank: 170,
    points: 170,
};

// The closure at 10 of node 1 over node 20 on leaf 11, and leaf 10.
const SAMPLE: [u8; 19] = [
    0x4c, 0, 11, 0x4e, 0, 20, 1, 7, 0x4c, 0, 10, 0x4e, 0, 1, 2, 0, 0x2a, 0, 10,
];

// The file is refused with this number at this place, for a table of 512 entries.
fn refused(rt: &impl Abort, file: &[u8], number: u8, place: usize, why: &str) -> Result<(), Fail> {
    let mut table = [FILLER; 512];
    told(rt, read_pattern(file, &mut table).err(), number, place, why)
}

fn accepted(rt: &impl Abort, file: &[u8]) {
    let mut table = [FILLER; 512];
    assert!(rt; read_pattern(file, &mut table).is_ok());
}

#[test]
fn sample_fills_the_table(rt: HostRuntime) {
    let mut table = [FILLER; 7];
    assert!(rt; read_pattern(&SAMPLE, &mut table) == Ok(5));
    assert!(rt; table[0] == Entry::new(b'L', 11, 0, 0));
    assert!(rt; table[1] == Entry::new(b'N', 20, 1, 7));
    assert!(rt; table[2] == Entry::new(b'L', 10, 0, 0));
    assert!(rt; table[3] == Entry::new(b'N', 1, 2, 0));
    assert!(rt; table[4] == Entry::new(b'*', 10, 0, 0));
    assert!(rt; table[5] == FILLER, "later entries are untouched");
    assert!(rt; table[6] == FILLER);
}

#[test]
fn table_one_entry_short(rt: HostRuntime) {
    let mut table = [FILLER; 4];
    assert!(rt; read_pattern(&SAMPLE, &mut table) == Err(PatternFault::TableFull { at: 16 }));
    assert!(rt; table[0] == FILLER, "a refused file writes nothing");
    assert!(rt; table[3] == FILLER);
    let mut exact = [FILLER; 5];
    assert!(rt; read_pattern(&SAMPLE, &mut exact) == Ok(5));
    let mut none: [Entry; 0] = [];
    assert!(rt; read_pattern(b"L\x00\x01", &mut none) == Err(PatternFault::TableFull { at: 0 }));
    assert!(rt; read_pattern(b"+", &mut none) == Err(PatternFault::PartsMissing { at: 0 }));
}

#[test]
fn each_refusal(rt: HostRuntime) -> Result<(), Fail> {
    refused(&rt, b"Z", 1, 0, "no command")?;
    refused(&rt, b"K\x00\x01\x01", 1, 0, "a map's command")?;
    refused(&rt, b"L\x00", 2, 0, "operands are missing")?;
    refused(&rt, b"L\x00\x00", 3, 0, "a code is 0")?;
    refused(
        &rt,
        b"L\x00\x01N\x00\x01\x00\x00",
        4,
        3,
        "a rank outside 1 to 4",
    )?;
    refused(
        &rt,
        b"L\x00\x01N\x00\x01\x05\x00",
        4,
        3,
        "a rank outside 1 to 4",
    )?;
    refused(&rt, b"L\x00\x01+", 5, 3, "parts are missing")?;
    refused(&rt, b"", 6, 0, "other than one part")?;
    refused(&rt, b"L\x00\x01L\x00\x01", 6, 6, "other than one part")
}

#[test]
fn the_first_refusal_wins(rt: HostRuntime) -> Result<(), Fail> {
    refused(&rt, b"N\x00\x00\x09", 2, 0, "2 before 3 and 4")?;
    refused(&rt, b"N\x00\x00\x09\x00", 3, 0, "3 before 4 and 5")?;
    refused(&rt, b"N\x00\x01\x09\x00", 4, 0, "4 before 5")?;
    refused(&rt, b"L\x00\x01+Z", 5, 3, "the earlier command first")?;
    refused(&rt, b"L\x00\x01L\x00\x01Z", 1, 6, "1 before 6")
}

#[test]
fn truncated_at_every_byte(rt: HostRuntime) -> Result<(), Fail> {
    for n in 0..SAMPLE.len() {
        let cut = &SAMPLE[..n];
        match n {
            0 => refused(&rt, cut, 6, 0, "other than one part")?,
            1..=2 => refused(&rt, cut, 2, 0, "operands are missing")?,
            4..=7 => refused(&rt, cut, 2, 3, "operands are missing")?,
            9..=10 => refused(&rt, cut, 2, 8, "operands are missing")?,
            11 => refused(&rt, cut, 6, 11, "other than one part")?,
            12..=15 => refused(&rt, cut, 2, 11, "operands are missing")?,
            17..=18 => refused(&rt, cut, 2, 16, "operands are missing")?,
            _ => accepted(&rt, cut),
        }
    }
    Ok(())
}

#[test]
fn long_files(rt: HostRuntime) -> Result<(), Fail> {
    let longest = vec![in rt.alloc(); b'Z'; 65536]?;
    refused(&rt, longest.as_slice(), 1, 0, "no command")?;
    let longer = vec![in rt.alloc(); b'Z'; 65537]?;
    refused(&rt, longer.as_slice(), 17, 65536, "17 before 1")
}
