// Lines drawn as text.
use super::base::{Desk, carry_out};
use super::examples::{DECODER, FULL, PULSE};
use std::alloc::Global;
use std::test::Fail;
use values::ternary::Ternary;
use waveforms::drawing::{Scale, draw};

// How many ticks a column of the drawing of an example stands for, and the row of a line.
fn drawn(alloc: Global, text: &str, line: u32) -> Result<(u64, String), Fail> {
    let mut desk = Desk::<Ternary>::new(alloc, text)?;
    let stimulus = desk.stimulus;
    let mut session = desk.session();
    carry_out(&mut session, stimulus)?;
    let scale = Scale::fitting(&session);
    let row = draw(&session, line, scale);
    Ok((scale.ticks, format!(in alloc; "{row}")?))
}

#[test]
fn lines_are_drawn_so(rt: HostRuntime) -> Result<(), Fail> {
    let table = [
        (PULSE, 1, 1, "__________~~~~~~~~~~"),
        (PULSE, 3, 1, "?__________~~________"),
        (
            DECODER,
            2,
            3,
            "~~~~~~_________________~~~~~~~~~~~~~~~~~~~~~",
        ),
        (
            DECODER,
            6,
            3,
            "?_________~__________________________________",
        ),
        (
            DECODER,
            9,
            3,
            "?________________________~~~~~~_____?________",
        ),
        (
            FULL,
            1,
            17,
            "_~~~~~~~~~~~~~~~~~~~~~~~~~~~~~~~~~~~~~~~~~~~~~~~~~~~~~~~~~~",
        ),
        (FULL, 3, 17, "~#########~"),
        (FULL, 64, 17, "???~~#########"),
    ];
    for (text, line, ticks, row) in table {
        let (scale, drawing) = drawn(rt.alloc(), text, line)?;
        assert_eq!(rt; scale, ticks);
        assert_eq!(rt; drawing.as_str(), row, "line {line}");
    }
    Ok(())
}
