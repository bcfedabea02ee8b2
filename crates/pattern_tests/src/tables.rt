// Judging tables that may have come from anywhere.
use crate::refusals::told;
use format::command::PatternCommand;
use format::entry::Entry;
use format::fault::ByteFault;
use pattern::position::Position;
use pattern::table::judge_table;
use std::process::Abort;
use std::test::Fail;

const LEAF: Entry = Entry {
    kind: b'L',
    code: 11,
    rank: 0,
    points: 0,
};

const NODE: Entry = Entry {
    kind: b'N',
    code: 11,
    rank: 1,
    points: 7,
};

const SUM: Entry = Entry {
    kind: b'+',
    code: 0,
    rank: 0,
    points: 0,
};

// The table is refused with this number at this place.
fn refused(
    rt: &impl Abort,
    table: &[Entry],
    number: u8,
    place: usize,
    why: &str,
) -> Result<(), Fail> {
    told(rt, judge_table(table).err(), number, place, why)
}

#[test]
fn entries_stand_for_commands(rt: HostRuntime) {
    assert!(rt; LEAF.command(0) == Ok(PatternCommand::Leaf { code: 11 }));
    assert!(rt;
        NODE.command(0)
            == Ok(PatternCommand::Node {
                code: 11,
                rank: 1,
                points: 7,
            })
    );
    assert!(rt; SUM.command(0) == Ok(PatternCommand::Sum));
    assert!(rt;
        Entry::new(b'L', 0, 0, 1).command(3) == Err(ByteFault::NoCommand { at: 3 }),
        "1 before 3"
    );
    assert!(rt; Entry::new(b'+', 1, 0, 0).command(3) == Err(ByteFault::NoCommand { at: 3 }));
    assert!(rt; Entry::new(b'*', 1, 1, 0).command(3) == Err(ByteFault::NoCommand { at: 3 }));
    assert!(rt;
        Entry::new(b'N', 0, 0, 0).command(3) == Err(ByteFault::CodeZero { at: 3 }),
        "3 before 4"
    );
    assert!(rt; Entry::new(b'N', 1, 0, 0).command(3) == Err(ByteFault::RankOutside { at: 3 }));
    assert!(rt; Entry::new(170, 1, 1, 1).command(3) == Err(ByteFault::NoCommand { at: 3 }));
}

#[test]
fn a_constant_and_a_node_of_one_code(rt: HostRuntime) -> Result<(), Fail> {
    let Ok(judge) = judge_table(&[LEAF, NODE, LEAF, SUM]) else {
        return Err(Fail::new("the table was refused"));
    };
    let positions = judge.positions();
    assert_eq!(rt; positions.len(), 2);
    assert_eq!(rt; positions[0], Position::constant(11));
    assert_eq!(rt;
        positions[1],
        Position {
            code: 11,
            rank: 1,
            points: 7,
        }
    );
    Ok(())
}

#[test]
fn tables_that_no_pattern_gives(rt: HostRuntime) -> Result<(), Fail> {
    refused(&rt, &[], 6, 0, "other than one part")?;
    refused(&rt, &[LEAF, LEAF], 6, 2, "6 at the count of entries")?;
    refused(&rt, &[LEAF, SUM], 5, 1, "at the entry's number")?;
    refused(&rt, &[LEAF, Entry::new(b'+', 0, 0, 9)], 1, 1, "1 before 5")?;
    refused(&rt, &[LEAF; 513], 8, 512, "the 513th entry")
}
