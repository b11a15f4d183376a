// Lines with as many changes as there is room for: an input takes no more, a gate stops.
use super::base::{
    check_listing, put_change_row, put_end, put_fault_row, put_feed, put_gate, put_header,
    put_hold, put_line_row, put_named, turn,
};
use std::alloc::Global;
use std::process::Abort;
use std::test::Fail;

// So many inputs, and a chain of buffers of delay 1 behind line 1; the outputs are line 1 and the first buffer.
fn chain(rt: &impl Abort, heap: Global, inputs: usize, gates: usize) -> Result<Vec<u8>, Fail> {
    let mut text = Vec::new(heap);
    put_header(rt, &mut text, inputs, gates, 2)?;
    let first = inputs.saturating_add(1);
    put_gate(rt, &mut text, first, b"BUF     1", &[1])?;
    for line in first.saturating_add(1)..=inputs.saturating_add(gates) {
        put_gate(rt, &mut text, line, b"BUF     1", &[line - 1])?;
    }
    put_named(rt, &mut text, b'O', 1)?;
    put_named(rt, &mut text, b'O', first)?;
    put_end(&mut text)?;
    Ok(text)
}

#[test]
fn an_input_that_is_full(rt: HostRuntime) -> Result<(), Fail> {
    // Inputs and gates, and the room: 4,096 divided by their number, less 1.
    let table: [(u16, u16, u16); 10] = [
        (1, 2, 1364),
        (1, 3, 1023),
        (1, 62, 64),
        (1, 63, 63),
        (1, 64, 62),
        (200, 482, 5),
        (200, 483, 4),
        (256, 563, 4),
        (256, 564, 3),
        (256, 768, 3),
    ];
    for (inputs, gates, room) in table {
        let (inputs, gates, room) = (inputs as usize, gates as usize, room as usize);
        let mut job = chain(&rt, rt.alloc(), inputs, gates)?;
        for tick in 0..room {
            put_feed(&rt, &mut job, 1, tick, turn(tick))?;
        }
        // Feeds of the value that the line has, and a hold, need no room.
        put_feed(&rt, &mut job, 1, room, turn(room + 1))?;
        put_hold(&rt, &mut job, 1, room + 5)?;
        put_feed(&rt, &mut job, 1, room + 5, turn(room + 1))?;
        let mut whole = job.to_vec(rt.alloc())?;
        put_end(&mut whole)?;
        let mut expected = Vec::new(rt.alloc());
        for (line, late) in [(1, 0), (inputs + 1, 1)] {
            put_line_row(&rt, &mut expected, line, room + 6 + late, room)?;
            for tick in 0..room {
                put_change_row(&rt, &mut expected, tick + late, turn(tick))?;
            }
        }
        check_listing(&rt, rt.alloc(), &whole, &expected, "a full input")?;
        // One more change is refused, but what is tested before it comes first.
        let record = inputs + gates + room + 8;
        let refused = [
            (1, room + 6, 16),
            (1, 1_999_999_999, 16),
            (1, 2_000_000_000, 14),
            (1, room + 5, 13),
            (inputs + 1, room + 6, 12),
        ];
        for (line, tick, number) in refused {
            let mut more = job.to_vec(rt.alloc())?;
            put_feed(&rt, &mut more, line, tick, turn(room))?;
            put_end(&mut more)?;
            let mut row = Vec::new(rt.alloc());
            put_fault_row(&rt, &mut row, number, record, b'S')?;
            check_listing(&rt, rt.alloc(), &more, &row, "one change more")?;
        }
    }
    Ok(())
}

// Line 1 is an input. Line 2 reads itself: it is 1 while line 1 is 0, and then swings until there is no room for its next
// change. There it stops, and what follows it at its delays behind: line 3 as it is, line 4 turned over. The other gates are
// there to narrow the room.
#[test]
fn a_gate_that_is_full(rt: HostRuntime) -> Result<(), Fail> {
    // The kind and delay of line 2, its delay, from when on line 1 is 1, the number of lines, and the room.
    let table: [(&[u8; 9], usize, usize, usize, usize); 4] = [
        (b"NAND    1", 1, 10, 4, 1023),
        (b"NAND    1", 1, 10, 64, 63),
        (b"NAND65535", 65_535, 100_000, 100, 39),
        (b"NAND    7", 7, 20, 769, 4),
    ];
    for (kind_and_delay, delay, start, lines, room) in table {
        let mut job = Vec::new(rt.alloc());
        put_header(&rt, &mut job, 1, lines - 1, 4)?;
        put_gate(&rt, &mut job, 2, kind_and_delay, &[1, 2])?;
        put_gate(&rt, &mut job, 3, b"BUF     4", &[2])?;
        put_gate(&rt, &mut job, 4, b"NOT 65535", &[2])?;
        for line in 5..=lines {
            put_gate(&rt, &mut job, line, b"BUF     1", &[2])?;
        }
        for line in [2, 4, 3, 1] {
            put_named(&rt, &mut job, b'O', line)?;
        }
        put_end(&mut job)?;
        put_feed(&rt, &mut job, 1, 0, b'0')?;
        put_feed(&rt, &mut job, 1, start, b'1')?;
        put_hold(&rt, &mut job, 1, 2_000_000_000)?;
        put_end(&mut job)?;
        let stop = start + room * delay;
        let mut expected = Vec::new(rt.alloc());
        for (line, late, over) in [(2, 0, 1), (4, 65_535, 0), (3, 4, 1)] {
            put_line_row(&rt, &mut expected, line, stop + late, room)?;
            put_change_row(&rt, &mut expected, delay + late, turn(over))?;
            for k in 1..room {
                put_change_row(&rt, &mut expected, start + k * delay + late, turn(k + over))?;
            }
        }
        put_line_row(&rt, &mut expected, 1, 2_000_000_000, 2)?;
        put_change_row(&rt, &mut expected, 0, b'0')?;
        put_change_row(&rt, &mut expected, start, b'1')?;
        check_listing(&rt, rt.alloc(), &job, &expected, "a gate that swings")?;
    }
    Ok(())
}

// Three changes at the end of time, in a session of the most lines: what differs from itself a delay before changes twice as
// often, so it stops at its fourth.
#[test]
fn a_late_stop(rt: HostRuntime) -> Result<(), Fail> {
    let mut job = Vec::new(rt.alloc());
    put_header(&rt, &mut job, 256, 768, 4)?;
    put_gate(&rt, &mut job, 257, b"BUF 65535", &[1])?;
    put_gate(&rt, &mut job, 258, b"XOR 65535", &[1, 257])?;
    put_gate(&rt, &mut job, 259, b"NOT 65535", &[258])?;
    for line in 260..=1024 {
        put_gate(&rt, &mut job, line, b"BUF 65535", &[line - 1])?;
    }
    for line in [1024, 259, 258, 257] {
        put_named(&rt, &mut job, b'O', line)?;
    }
    put_end(&mut job)?;
    let fed = [
        (1_999_000_000, b'0'),
        (1_999_500_000, b'1'),
        (1_999_999_999, b'0'),
    ];
    for (tick, value) in fed {
        put_feed(&rt, &mut job, 1, tick, value)?;
    }
    put_end(&mut job)?;
    let shown = [
        (1_999_131_070, b'0', b'1'),
        (1_999_565_535, b'1', b'0'),
        (1_999_631_070, b'0', b'1'),
    ];
    let mut expected = Vec::new(rt.alloc());
    for (line, late) in [(1024, 766 * 65_535), (259, 65_535)] {
        put_line_row(&rt, &mut expected, line, 2_000_065_534 + late, 3)?;
        for (tick, _, value) in shown {
            put_change_row(&rt, &mut expected, tick + late, value)?;
        }
    }
    put_line_row(&rt, &mut expected, 258, 2_000_065_534, 3)?;
    for (tick, value, _) in shown {
        put_change_row(&rt, &mut expected, tick, value)?;
    }
    put_line_row(&rt, &mut expected, 257, 2_000_065_535, 3)?;
    for (tick, value) in fed {
        put_change_row(&rt, &mut expected, tick + 65_535, value)?;
    }
    check_listing(&rt, rt.alloc(), &job, &expected, "a late stop")
}
