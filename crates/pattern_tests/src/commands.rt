// Reading one command of a file.
use format::bytes::command_at;
use format::command::{Command, MapCommand, PatternCommand};
use format::fault::{ByteFault, Refusal};
use std::test::Fail;

#[test]
fn pattern_commands_and_what_lies_behind(rt: HostRuntime) {
    let file = b"L\x01\x02N\xff\xff\x04\xff+.\x00\x01*\x00\x02";
    assert!(rt;
        command_at::<PatternCommand>(file, 0)
            == Ok((PatternCommand::Leaf { code: 258 }, &file[3..]))
    );
    assert!(rt;
        command_at::<PatternCommand>(file, 3)
            == Ok((
                PatternCommand::Node {
                    code: 65535,
                    rank: 4,
                    points: 255,
                },
                &file[8..],
            ))
    );
    assert!(rt; command_at::<PatternCommand>(file, 8) == Ok((PatternCommand::Sum, &file[9..])));
    assert!(rt;
        command_at::<PatternCommand>(file, 9)
            == Ok((PatternCommand::Product { code: 1 }, &file[12..]))
    );
    assert!(rt;
        command_at::<PatternCommand>(file, 12)
            == Ok((PatternCommand::Closure { code: 2 }, &file[15..]))
    );
    assert!(rt; command_at::<PatternCommand>(file, 1) == Err(ByteFault::NoCommand { at: 1 }));
    assert!(rt;
        command_at::<PatternCommand>(file, 15) == Err(ByteFault::NoCommand { at: 15 }),
        "at the end"
    );
    assert!(rt;
        command_at::<PatternCommand>(file, 99) == Err(ByteFault::NoCommand { at: 99 }),
        "past the end"
    );
}

#[test]
fn map_commands_and_what_lies_behind(rt: HostRuntime) {
    let file = b"L\x01\x02K\x00\x01\x01L";
    assert!(rt;
        command_at::<MapCommand>(file, 0) == Ok((MapCommand::Leaf { code: 258 }, &file[3..]))
    );
    assert!(rt;
        command_at::<MapCommand>(file, 3) == Ok((MapCommand::Node { code: 1, rank: 1 }, &file[7..]))
    );
    assert!(rt; command_at::<MapCommand>(file, 7) == Err(ByteFault::OperandsMissing { at: 7 }));
    assert!(rt; command_at::<MapCommand>(file, 8) == Err(ByteFault::NoCommand { at: 8 }));
    assert!(rt;
        command_at::<MapCommand>(b"N\x00\x01\x01\x00", 0) == Err(ByteFault::NoCommand { at: 0 }),
        "a pattern's command"
    );
    assert!(rt;
        command_at::<MapCommand>(b"K\x00\x00\x09", 0) == Err(ByteFault::CodeZero { at: 0 }),
        "3 before 4"
    );
    assert!(rt;
        command_at::<MapCommand>(b"K\x00\x01\x00", 0) == Err(ByteFault::RankOutside { at: 0 })
    );
    assert!(rt;
        command_at::<MapCommand>(b"K\x00\x01\x05", 0) == Err(ByteFault::RankOutside { at: 0 })
    );
    assert!(rt;
        command_at::<MapCommand>(b"K\x00\x00", 0) == Err(ByteFault::OperandsMissing { at: 0 }),
        "2 before 3"
    );
}

// What the command at the place is refused with.
fn fault_at<C: Command + Drop>(file: &[u8], at: usize) -> Result<ByteFault, Fail> {
    let Err(fault) = command_at::<C>(file, at) else {
        return Err(Fail::new("a command was read"));
    };
    Ok(fault)
}

#[test]
fn files_that_are_too_long(rt: HostRuntime) -> Result<(), Fail> {
    let longest = vec![in rt.alloc(); b'+'; 65536]?;
    assert!(rt; command_at::<PatternCommand>(longest.as_slice(), 65535).is_ok());
    assert!(rt;
        fault_at::<PatternCommand>(longest.as_slice(), 65536)? == ByteFault::NoCommand { at: 65536 }
    );
    let longer = vec![in rt.alloc(); b'+'; 65537]?;
    assert!(rt; fault_at::<PatternCommand>(longer.as_slice(), 0)? == ByteFault::FileTooLong);
    assert!(rt;
        fault_at::<PatternCommand>(longer.as_slice(), 70000)? == ByteFault::FileTooLong,
        "17 before 1"
    );
    assert!(rt; fault_at::<MapCommand>(longer.as_slice(), 0)? == ByteFault::FileTooLong);
    assert_eq!(rt; ByteFault::FileTooLong.number(), 17);
    assert_eq!(rt; ByteFault::FileTooLong.place(), 65536);
    Ok(())
}
