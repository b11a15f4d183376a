// The greatest deck, and the greatest stimulus: up to the last byte that is read.
use super::base::{
    check_listing, put_change_row, put_end, put_fault_row, put_feed, put_gate, put_header,
    put_hold, put_line_row, put_named, turn,
};
use listing::lister::MOST_BYTES;
use std::alloc::Global;
use std::process::Abort;
use std::test::Fail;

// 256 inputs, and three layers of 256 gates of four inputs, each of which follows the layer below; the outputs are the last
// layer, backwards. There is no greater deck: 26,896 bytes and 1,282 records. What is left is room for a stimulus.
fn greatest(rt: &impl Abort, heap: Global) -> Result<Vec<u8>, Fail> {
    let mut text = Vec::new(heap);
    put_header(rt, &mut text, 256, 768, 256)?;
    for line in 257..=1024 {
        put_gate(rt, &mut text, line, b"OR  65535", &[line - 256; 4])?;
    }
    for place in 0..256 {
        put_named(rt, &mut text, b'O', 1024 - place)?;
    }
    put_end(&mut text)?;
    assert_eq!(rt; text.len(), 14 + 256 * 6 + 768 * 31 + 256 * 6 + 2);
    Ok(text)
}

// Feeds each input once, and the first 63 of them again: 319 feeds, which leave 130 bytes.
fn put_feeds(rt: &impl Abort, text: &mut Vec<u8>) -> Result<(), Fail> {
    for line in 1..=256 {
        put_feed(rt, text, line, line, turn(line))?;
    }
    for line in 1..=63 {
        put_feed(rt, text, line, 1_000_000_000 + line, turn(line + 1))?;
    }
    Ok(())
}

// What is listed for it, where the last eight inputs are held up to 2,000,000,000: each output shows its input three delays
// later.
fn put_listing(rt: &impl Abort, text: &mut Vec<u8>) -> Result<(), Fail> {
    let late = 3 * 65_535;
    for line in (1..=256).rev() {
        let (end, kept) = match line {
            1..=63 => (1_000_000_001 + line, 2),
            249..=256 => (2_000_000_000, 1),
            _ => (line + 1, 1),
        };
        put_line_row(rt, text, 768 + line, end + late, kept)?;
        put_change_row(rt, text, line + late, turn(line))?;
        if kept == 2 {
            put_change_row(rt, text, 1_000_000_000 + line + late, turn(line + 1))?;
        }
    }
    Ok(())
}

// All records have an even number of bytes with their endings. So an end ends with the last byte that is read, or none of it
// is read.
#[test]
fn a_stimulus_up_to_the_last_byte(rt: HostRuntime) -> Result<(), Fail> {
    let mut job = greatest(&rt, rt.alloc())?;
    put_feeds(&rt, &mut job)?;
    for line in 249..=256 {
        put_hold(&rt, &mut job, line, 2_000_000_000)?;
    }
    put_end(&mut job)?;
    assert_eq!(rt; job.len(), MOST_BYTES);
    let mut expected = Vec::new(rt.alloc());
    put_listing(&rt, &mut expected)?;
    check_listing(&rt, rt.alloc(), &job, &expected, "all bytes that are read")?;
    // Whatever follows is not read.
    let tails: [&[u8]; 4] = [b"\n", b"E\n", b"X", &[255; 5000]];
    for tail in tails {
        let mut longer = job.to_vec(rt.alloc())?;
        longer.extend_from_slice(tail)?;
        check_listing(&rt, rt.alloc(), &longer, &expected, "more than is read")?;
    }
    // Without its ending the end is cut.
    let mut row = Vec::new(rt.alloc());
    put_fault_row(&rt, &mut row, 1, 1282 + 319 + 8 + 1, b'R')?;
    let shorter = job.get(..MOST_BYTES - 1).ok_or("too few bytes")?;
    check_listing(&rt, rt.alloc(), shorter, &row, "an end cut short")
}

#[test]
fn a_record_beyond_the_last_byte(rt: HostRuntime) -> Result<(), Fail> {
    // How many feeds are read whole after so many holds; 0 to 16 bytes of the next are read, and no end.
    let table = [
        (0, 7),
        (1, 6),
        (2, 5),
        (3, 4),
        (4, 3),
        (5, 2),
        (6, 1),
        (7, 1),
        (8, 0),
    ];
    for (holds, feeds) in table {
        let mut job = greatest(&rt, rt.alloc())?;
        put_feeds(&rt, &mut job)?;
        for _ in 0..holds {
            put_hold(&rt, &mut job, 100, 500)?;
        }
        for tick in 500..=500 + feeds {
            put_feed(&rt, &mut job, 200, tick, b'0')?;
        }
        put_end(&mut job)?;
        let mut row = Vec::new(rt.alloc());
        put_fault_row(&rt, &mut row, 1, 1282 + 319 + holds + feeds + 1, b'R')?;
        check_listing(&rt, rt.alloc(), &job, &row, "a feed beyond the last byte")?;
    }
    Ok(())
}

#[test]
fn faults_of_the_greatest_deck(rt: HostRuntime) -> Result<(), Fail> {
    // Bytes put in at a place: the lines that the last gate reads, the last output, the end, and its ending.
    let table: [(usize, &[u8], &str); 5] = [
        (25_341, b"1024102410241024", "R   9 1025   1 N\n"),
        (25_341, b"1024102410241025", "R   5 1025  27 R\n"),
        (26_889, b"1025", "R   5 1281   2 R\n"),
        (26_894, b"e", "R   2 1282   1 R\n"),
        (26_895, b" ", "R   1 1282   1 R\n"),
    ];
    for (first, bytes, row) in table {
        let mut job = greatest(&rt, rt.alloc())?;
        for (place, byte) in bytes.iter().enumerate() {
            *job.get_mut(first + place).ok_or("past the deck")? = *byte;
        }
        check_listing(&rt, rt.alloc(), &job, row.as_bytes(), row)?;
    }
    Ok(())
}
