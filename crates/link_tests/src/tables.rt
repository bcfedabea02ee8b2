// Working the links of tables.
use format::entry::Entry;
use format::fault::Refusal;
use links::link::link_rows;
use std::process::Abort;
use std::test::Fail;

// What lent numbers hold before a call.
const FILL: u64 = 0xaaaa_aaaa_aaaa_aaaa;

fn leaf(code: u16) -> Entry {
    Entry::new(b'L', code, 0, 0)
}

fn node(code: u16, rank: u8) -> Entry {
    Entry::new(b'N', code, rank, 0)
}

// The closure at 10 of node 1 over node 20 on leaf 11, and leaf 10.
fn sample() -> [Entry; 5] {
    [
        leaf(11),
        Entry::new(b'N', 20, 1, 7),
        leaf(10),
        node(1, 2),
        Entry::new(b'*', 10, 0, 0),
    ]
}

// The table has these links, and numbers behind them stay as they were.
fn linked(rt: &impl Abort, table: &[Entry], links: &[u64], why: &str) -> Result<(), Fail> {
    let mut rows = [FILL; 9];
    let Ok(count) = link_rows(table, &mut rows) else {
        return Err(Fail::new("the table was refused"));
    };
    assert_eq!(rt; count, links.len(), "{why}");
    assert!(rt; rows.starts_with(links), "{why}");
    assert!(rt;
        rows.iter().skip(links.len()).all(|row| *row == FILL),
        "{why}"
    );
    Ok(())
}

// The table is refused with this number at this place, and the lent numbers stay as they were. `told` of pattern_tests
// asks the same of the fault: a helper of tests is not shared between crates.
fn refused(
    rt: &impl Abort,
    table: &[Entry],
    rows: &mut [u64],
    number: u8,
    place: usize,
    why: &str,
) -> Result<(), Fail> {
    let Err(fault) = link_rows(table, rows) else {
        return Err(Fail::new("the table was accepted"));
    };
    assert_eq!(rt; fault.number(), number, "{why}");
    assert_eq!(rt; fault.place(), place, "{why}");
    assert!(rt; rows.iter().all(|row| *row == FILL), "{why}");
    Ok(())
}

#[test]
fn worked_links(rt: HostRuntime) -> Result<(), Fail> {
    linked(&rt, &sample(), &[12, 1, 2, 12], "the sample")?;
    linked(
        &rt,
        &[leaf(10), leaf(12), node(20, 1), Entry::new(b'.', 11, 0, 0)],
        &[1, 0],
        "a second part that is never reached",
    )?;
    linked(
        &rt,
        &[
            leaf(11),
            Entry::new(b'N', 20, 1, 7),
            leaf(11),
            Entry::new(b'N', 20, 1, 3),
            Entry::new(b'+', 0, 0, 0),
        ],
        &[6, 1, 1],
        "two nodes of one symbol",
    )?;
    linked(
        &rt,
        &[
            leaf(10),
            leaf(10),
            node(2, 2),
            leaf(11),
            leaf(12),
            Entry::new(b'+', 0, 0, 0),
            Entry::new(b'.', 10, 0, 0),
        ],
        &[2, 12, 12],
        "the constant is taken out",
    )?;
    linked(
        &rt,
        &[
            leaf(1),
            node(4, 1),
            leaf(1),
            leaf(2),
            Entry::new(b'+', 0, 0, 0),
            Entry::new(b'.', 1, 0, 0),
        ],
        &[2, 5],
        "a constant that is replaced and comes back",
    )
}

#[test]
fn lent_numbers(rt: HostRuntime) -> Result<(), Fail> {
    refused(
        &rt,
        &sample(),
        &mut [FILL; 3],
        9,
        0,
        "fewer numbers than slots",
    )?;
    refused(&rt, &sample(), &mut [], 9, 0, "fewer numbers than slots")?;
    let mut rows = [FILL; 4];
    assert!(rt; link_rows(&sample(), &mut rows).is_ok());
    refused(&rt, &[leaf(11), leaf(10)], &mut [], 6, 2, "6 before 9")
}

#[test]
fn tables_that_no_pattern_gives(rt: HostRuntime) -> Result<(), Fail> {
    let [a, b, c, d, e] = sample();
    refused(&rt, &[], &mut [FILL; 9], 6, 0, "other than one part")?;
    refused(
        &rt,
        &[a, b, c],
        &mut [FILL; 9],
        6,
        3,
        "6 at the count of entries",
    )?;
    refused(
        &rt,
        &[a, b, c, d, e, Entry::new(0, 0, 0, 0)],
        &mut [FILL; 9],
        1,
        5,
        "no command",
    )?;
    refused(
        &rt,
        &[Entry::new(b'L', 0, 1, 0)],
        &mut [FILL; 9],
        1,
        0,
        "1 before 3",
    )?;
    refused(
        &rt,
        &[Entry::new(b'N', 0, 9, 0)],
        &mut [FILL; 9],
        3,
        0,
        "3 before 4",
    )?;
    refused(
        &rt,
        &[Entry::new(b'N', 1, 9, 0)],
        &mut [FILL; 9],
        4,
        0,
        "4 before 5",
    )?;
    refused(
        &rt,
        &[leaf(1), Entry::new(b'.', 2, 0, 0)],
        &mut [FILL; 9],
        5,
        1,
        "parts are missing",
    )?;
    refused(
        &rt,
        &[leaf(1); 513],
        &mut [FILL; 9],
        8,
        512,
        "the 513th entry",
    )
}
