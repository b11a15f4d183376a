// Names of lines.
use deck::closing::read_netlist;
use std::test::Fail;
use waveforms::name::Name;

// A gate of each kind behind two inputs.
const KINDS: &str = "\
N   2   8   1
I   1
I   2
G   3BUF     1   1
G   4NOT     1   2
G   5AND     1   1   2
G   6OR      1   1   2
G   7XOR     1   1   2
G   8NAND    1   1   2
G   9NOR     1   1   2
G  10XNOR    1   1   2
O  10
E
";

#[test]
fn lines_are_named_by_what_drives_them(rt: HostRuntime) -> Result<(), Fail> {
    let (used, netlist) = read_netlist(KINDS.as_bytes());
    used?;
    let names = [
        "in1", "in2", "n3_buf", "n4_not", "n5_and", "n6_or", "n7_xor", "n8_nand", "n9_nor",
        "n10_xnor",
    ];
    for (place, named) in names.iter().enumerate() {
        let name = Name::of(&netlist, u32::try_from(place)?.saturating_add(1));
        assert_eq!(rt; format!(in rt.alloc(); "{name}")?.as_str(), *named);
    }
    Ok(())
}
