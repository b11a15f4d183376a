// Drafts: what opening, additions, judging and closing answer.
use super::base::sized;
use netlist::closed::Netlist;
use netlist::draft::Draft;
use netlist::kind::Kind;
use netlist::refusal::Refusal;
use std::process::Abort;
use std::test::Fail;

// 0, or the number of the refusal, by which users know it.
fn number(answer: Result<(), Refusal>) -> u8 {
    match answer {
        Ok(()) => 0,
        Err(refusal) => refusal.number(),
    }
}

fn check_empty(rt: &impl Abort, netlist: &Netlist) {
    assert_eq!(rt;
        (netlist.inputs(), netlist.gates(), netlist.outputs()),
        (0, 0, 0)
    );
    assert_eq!(rt; netlist.output(0), None);
    for line in 0..1030u32 {
        assert!(rt; netlist.row(line).is_none());
        assert!(rt; !netlist.looped(line));
    }
}

// An addition to a draft.
#[derive(Clone, Copy)]
enum Step {
    Gate(Kind, u32, &'static [u32]),
    Output(u32),
}

impl Step {
    fn add(self, draft: &mut Draft) -> Result<(), Refusal> {
        match self {
            Step::Gate(kind, delay, lines) => draft.add_gate(kind, delay, lines),
            Step::Output(line) => draft.add_output(line),
        }
    }
}

// What a draft tells of what stands in it.
fn seen(draft: &Draft) -> (usize, bool, bool, bool) {
    (
        draft.next_line(),
        draft.takes_gate(),
        draft.takes_output(),
        draft.is_complete(),
    )
}

#[test]
fn limits_of_a_draft(rt: HostRuntime) {
    let table = [
        (1, 1, 1, 0),
        (256, 768, 256, 0),
        (0, 1, 1, 5),
        (257, 1, 1, 5),
        (1, 0, 1, 5),
        (1, 769, 1, 5),
        (1, 1, 0, 5),
        (1, 1, 257, 5),
        (0, 0, 0, 5),
        (usize::MAX, usize::MAX, usize::MAX, 5),
    ];
    for (inputs, gates, outputs, expected) in table {
        let size = sized(inputs, gates, outputs);
        assert_eq!(rt; number(Draft::limits(size)), expected);
        let mut draft = Draft::new(size);
        if expected == 0 {
            assert_eq!(rt; draft.lines(), inputs.wrapping_add(gates));
            assert_eq!(rt; seen(&draft), (inputs.wrapping_add(1), true, false, false));
        } else {
            // A dead draft takes nothing.
            for step in [
                Step::Gate(Kind::Not, 1, &[1]),
                Step::Gate(Kind::Not, 0, &[]),
                Step::Output(1),
            ] {
                assert_eq!(rt; number(step.add(&mut draft)), 2);
            }
            assert_eq!(rt; draft.lines(), 0);
            assert_eq!(rt; seen(&draft), (1, false, false, false));
        }
        assert_eq!(rt; number(draft.judge()), 8);
        let (answer, netlist) = draft.close();
        assert_eq!(rt; number(answer), 8);
        check_empty(&rt, &netlist);
    }
}

#[test]
fn how_many_lines_a_kind_takes(rt: HostRuntime) -> Result<(), Fail> {
    // The answers at none to five lines.
    let kinds = [
        (Kind::Buf, [7, 0, 7, 7, 7, 7]),
        (Kind::Not, [7, 0, 7, 7, 7, 7]),
        (Kind::And, [7, 7, 0, 0, 0, 7]),
        (Kind::Or, [7, 7, 0, 0, 0, 7]),
        (Kind::Xor, [7, 7, 0, 0, 0, 7]),
        (Kind::Nand, [7, 7, 0, 0, 0, 7]),
        (Kind::Nor, [7, 7, 0, 0, 0, 7]),
        (Kind::Xnor, [7, 7, 0, 0, 0, 7]),
    ];
    for (kind, answers) in kinds {
        for (count, expected) in answers.iter().enumerate() {
            let lines = [1; 5].get(0..count).ok_or("too many lines")?;
            let mut draft = Draft::new(sized(1, 1, 1));
            assert_eq!(rt; number(draft.add_gate(kind, 1, lines)), *expected);
            assert_eq!(rt; draft.takes_gate(), *expected != 0);
        }
    }
    Ok(())
}

// Tested are the turn, the delay, the lines, then the count; a refused addition alters nothing.
#[test]
fn additions_in_their_order(rt: HostRuntime) -> Result<(), Fail> {
    let steps = [
        (Step::Gate(Kind::Not, 0, &[1]), 5),
        (Step::Gate(Kind::Not, 65_536, &[1]), 5),
        (Step::Gate(Kind::Not, u32::MAX, &[1]), 5),
        (Step::Gate(Kind::Not, 1, &[0]), 5),
        (Step::Gate(Kind::Not, 1, &[4]), 5),
        (Step::Gate(Kind::Not, 1, &[u32::MAX]), 5),
        (Step::Gate(Kind::Nand, 0, &[1]), 5),
        (Step::Gate(Kind::Nand, 1, &[4]), 5),
        (Step::Gate(Kind::Nand, 1, &[1, 2, 3, 1, 4]), 5),
        (Step::Gate(Kind::Nand, 1, &[1, 2, 3, 1, 3]), 7),
        (Step::Gate(Kind::Nand, 1, &[1]), 7),
        (Step::Gate(Kind::Not, 1, &[]), 7),
        (Step::Output(0), 2),
        (Step::Output(3), 2),
        (Step::Gate(Kind::Nor, 65_535, &[2, 3, 1]), 0),
        (Step::Gate(Kind::Not, 0, &[]), 2),
        (Step::Gate(Kind::Not, 1, &[4]), 2),
        (Step::Gate(Kind::Nand, 1, &[1]), 2),
        (Step::Gate(Kind::Not, 1, &[1]), 2),
        (Step::Output(0), 5),
        (Step::Output(4), 5),
        (Step::Output(3), 0),
        (Step::Gate(Kind::Not, 1, &[1]), 2),
        (Step::Output(u32::MAX), 5),
        (Step::Output(1), 0),
        (Step::Output(0), 2),
        (Step::Output(1), 2),
        (Step::Gate(Kind::Not, 1, &[1]), 2),
    ];
    let mut draft = Draft::new(sized(2, 1, 2));
    for (step, expected) in steps {
        let before = seen(&draft);
        assert_eq!(rt; number(draft.judge()), if before.3 { 0 } else { 8 });
        assert_eq!(rt; number(step.add(&mut draft)), expected);
        assert!(rt; expected == 0 || seen(&draft) == before);
    }
    let (answer, netlist) = draft.close();
    assert_eq!(rt; number(answer), 0);
    assert_eq!(rt; netlist.lines(), 3);
    assert_eq!(rt;
        [netlist.output(0), netlist.output(1), netlist.output(2)],
        [Some(3), Some(1), None]
    );
    assert!(rt; netlist.row(2).is_none() && netlist.row(4).is_none());
    let row = netlist.row(3).ok_or("no gate")?;
    assert_eq!(rt; row.kind, Kind::Nor);
    assert_eq!(rt; row.delay, 65_535);
    assert_eq!(rt; row.reads(), [2, 3, 1].as_slice());
    Ok(())
}

#[test]
fn judging_tells_what_is_missing_first(rt: HostRuntime) {
    let mut draft = Draft::new(sized(1, 3, 1));
    assert_eq!(rt; draft.unreached(), None);
    // Line 4 reads itself alone, and line 3 reads line 4.
    for line in [1, 4, 4] {
        assert_eq!(rt; number(draft.judge()), 8);
        assert_eq!(rt; number(draft.add_gate(Kind::Buf, 1, &[line])), 0);
    }
    assert_eq!(rt; draft.unreached(), Some(3));
    assert!(rt; !draft.is_complete());
    assert_eq!(rt; number(draft.judge()), 8);
    assert_eq!(rt; number(draft.add_output(2)), 0);
    assert!(rt; draft.is_complete());
    assert_eq!(rt; number(draft.judge()), 9);
    let (answer, netlist) = draft.close();
    assert_eq!(rt; number(answer), 9);
    check_empty(&rt, &netlist);
}
