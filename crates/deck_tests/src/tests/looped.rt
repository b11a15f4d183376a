// Which lines of a closed netlist are looped.
use super::base::sized;
use netlist::draft::Draft;
use netlist::kind::Kind;
use std::test::Fail;

// A gate that reads itself, a loop of two gates, a loop of three, and gates before, between and after them.
#[test]
fn gates_whose_line_leads_back(rt: HostRuntime) -> Result<(), Fail> {
    // The lines that each gate reads, from line 3 on, and whether it is looped.
    let gates: [(&[u32], bool); 10] = [
        (&[1, 2], false),
        (&[3, 4], true),
        (&[4, 1], false),
        (&[5, 7], true),
        (&[6, 6], true),
        (&[7, 2], false),
        (&[8, 11], true),
        (&[9, 1], true),
        (&[10, 2], true),
        (&[4, 6, 9], false),
    ];
    let mut draft = Draft::new(sized(2, gates.len(), 1));
    for (lines, _) in gates {
        draft.add_gate(Kind::Nor, 1, lines)?;
    }
    draft.add_output(12)?;
    let (answer, netlist) = draft.close();
    answer?;
    for (place, (_, looped)) in gates.iter().enumerate() {
        assert_eq!(rt; netlist.looped(place as u32 + 3), *looped);
    }
    for line in [0, 1, 2, 13, 14, 1024, u32::MAX] {
        assert!(rt; !netlist.looped(line));
    }
    Ok(())
}
