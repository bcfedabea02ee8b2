// The lines of slots: the text of the sample, whose links are worked by hand, and of a link that is empty.
use pattern::position::Position;
use slot_lines::slots::push_slots;
use std::alloc::AllocError;

// Leaf 11, node 20, leaf 10 and node 1 of the closure at 10 of node 1 over node 20 on leaf 11, and leaf 10.
#[test]
fn lines_of_the_sample(rt: HostRuntime) -> Result<(), AllocError> {
    let heap = rt.alloc();
    let mut out = String::from_str(heap, "before\n")?;
    let positions = [
        Position::constant(11),
        Position {
            code: 20,
            rank: 1,
            points: 7,
        },
        Position::constant(10),
        Position {
            code: 1,
            rank: 2,
            points: 0,
        },
    ];
    push_slots(&mut out, &positions, &[12, 1, 2, 12])?;
    let lines = "before
slot 0: root, link 12: 2 (constant 10), 3 (node 1)
slot 1: child 1 of 1 (node 20), link 1: 0 (constant 11)
slot 2: child 1 of 3 (node 1), link 2: 1 (node 20)
slot 3: child 2 of 3 (node 1), link 12: 2 (constant 10), 3 (node 1)
";
    assert_eq!(rt; out.as_str(), lines);
    Ok(())
}

// The product at 11 of leaf 10 and node 20 on leaf 12: what is never put in stands nowhere.
#[test]
fn a_link_that_is_empty(rt: HostRuntime) -> Result<(), AllocError> {
    let heap = rt.alloc();
    let mut out = String::new(heap);
    let positions = [
        Position::constant(10),
        Position::constant(12),
        Position {
            code: 20,
            rank: 1,
            points: 0,
        },
        Position::constant(11),
    ];
    push_slots(&mut out, &positions, &[1, 0])?;
    let lines = "slot 0: root, link 1: 0 (constant 10)
slot 1: child 1 of 2 (node 20), link 0: none
";
    assert_eq!(rt; out.as_str(), lines);
    Ok(())
}
