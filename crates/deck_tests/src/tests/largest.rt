// A deck of the greatest size.
use columns::write;
use deck::reader::reading::read;
use netlist::kind::Kind;
use std::alloc::Global;
use std::process::Abort;
use std::test::Fail;

fn put_line(rt: &impl Abort, deck: &mut Vec<u8>, line: u64) -> Result<(), Fail> {
    let mut columns = [0; 4];
    assert!(rt; write(line, &mut columns).is_ok());
    deck.extend_from_slice(&columns)?;
    Ok(())
}

// A record: its letter, its line, the fields after it, and the lines that it reads.
fn put_record(
    rt: &impl Abort,
    deck: &mut Vec<u8>,
    letter: &[u8],
    line: u64,
    fields: &[u8],
    reads: &[u64],
) -> Result<(), Fail> {
    deck.extend_from_slice(letter)?;
    put_line(rt, deck, line)?;
    deck.extend_from_slice(fields)?;
    for read in reads {
        put_line(rt, deck, *read)?;
    }
    deck.push(b'\n')?;
    Ok(())
}

// Three layers of 256 gates over 256 inputs: a buffer of each input; a ring, in which each gate reads the one
// before it, and the first the last; and gates that read the layers below, of which the last reads itself too.
fn largest(rt: &impl Abort, heap: Global) -> Result<Vec<u8>, Fail> {
    let mut deck = Vec::new(heap);
    deck.extend_from_slice(b"N 256 768 256\n")?;
    for n in 1..257 {
        put_record(rt, &mut deck, b"I", n, b"", &[])?;
    }
    for n in 1..257 {
        put_record(rt, &mut deck, b"G", 256 + n, b"BUF 65535", &[n])?;
    }
    for n in 1..257 {
        let before = if n == 1 { 768 } else { 511 + n };
        put_record(
            rt,
            &mut deck,
            b"G",
            512 + n,
            b"NAND65535",
            &[before, n, 256 + n, 1],
        )?;
    }
    for n in 1..257 {
        let last = if n == 256 { 1024 } else { 1 };
        put_record(
            rt,
            &mut deck,
            b"G",
            768 + n,
            b"XNOR65535",
            &[512 + n, 256 + n, n, last],
        )?;
    }
    for n in 0..256 {
        put_record(rt, &mut deck, b"O", 1024 - n, b"", &[])?;
    }
    deck.extend_from_slice(b"E\n")?;
    Ok(deck)
}

#[test]
fn a_deck_of_the_greatest_size(rt: HostRuntime) -> Result<(), Fail> {
    let deck = largest(&rt, rt.alloc())?;
    // The records in their order, each with its ending.
    assert_eq!(rt;
        deck.len(),
        14 + 256 * 6 + 256 * 19 + 512 * 31 + 256 * 6 + 2
    );
    let (outcome, draft) = read(&deck);
    assert_eq!(rt; outcome?, deck.len());
    assert_eq!(rt; (draft.lines(), draft.next_line()), (1024, 1025));
    assert!(rt; draft.is_complete());
    assert_eq!(rt; draft.unreached(), None);
    draft.judge()?;
    let (answer, netlist) = draft.close();
    answer?;
    assert_eq!(rt;
        (netlist.inputs(), netlist.gates(), netlist.outputs()),
        (256, 768, 256)
    );
    assert_eq!(rt; netlist.lines(), 1024);
    // The ring is looped, and the gate that reads itself.
    for line in 0..1100 {
        let looped = (513..769).contains(&line) || line == 1024;
        assert_eq!(rt; netlist.looped(line), looped);
    }
    for place in 0..256u32 {
        assert_eq!(rt; netlist.output(place as usize), Some(1024 - place));
    }
    assert_eq!(rt; netlist.output(256), None);
    let rows: [(u32, Kind, &[u32]); 6] = [
        (257, Kind::Buf, &[1]),
        (512, Kind::Buf, &[256]),
        (513, Kind::Nand, &[768, 1, 257, 1]),
        (768, Kind::Nand, &[767, 256, 512, 1]),
        (769, Kind::Xnor, &[513, 257, 1, 1]),
        (1024, Kind::Xnor, &[768, 512, 256, 1024]),
    ];
    for (line, kind, reads) in rows {
        let row = netlist.row(line).ok_or("no gate")?;
        assert_eq!(rt; (row.kind, row.delay), (kind, 65_535));
        assert_eq!(rt; row.reads(), reads);
    }
    Ok(())
}
