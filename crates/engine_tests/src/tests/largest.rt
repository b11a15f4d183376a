// A session of the most lines, with the longest delays.
use super::base::Answer::{Change, Done, Refused, Rest, Resting, Settled, Shows, Stands};
use super::base::Call::{AtRest, Event, Feed, Run, State, Take, Value};
use super::base::{HIGH, LOW, Scale, begun, check_log, untouched};
use engine::session::Session;
use netlist::closed::Netlist;
use netlist::draft::Draft;
use netlist::kind::Kind::Not;
use netlist::size::Size;
use std::alloc::Global;
use std::process::Abort;
use std::test::Fail;
use values::bit::Bit;
use values::lanes::Lanes;
use values::ternary::Ternary;

// Each of the inverters reads the next line, and the last reads line 1.
fn chain() -> Result<Netlist, Fail> {
    let mut draft = Draft::new(Size {
        inputs: 256,
        gates: 768,
        outputs: 1,
    });
    for line in 258..1025 {
        draft.add_gate(Not, 65_535, &[line])?;
    }
    draft.add_gate(Not, 65_535, &[1])?;
    draft.add_output(257)?;
    let (answer, netlist) = draft.close();
    answer?;
    Ok(netlist)
}

fn check_chain<V: Scale>(rt: &impl Abort, heap: Global) -> Result<(), Fail> {
    let starts = begun::<V>(heap, &[LOW; 256])?;
    let mut store = untouched::<V>(heap, 2048)?;
    let mut session = Session::make(chain()?, &mut store, &starts);
    check_log(
        rt,
        &mut session,
        &[
            (Value(1024, 0), Shows(HIGH)),
            (Value(257, 0), Shows(LOW)),
            (Feed(1, 1_999_999_999, HIGH), Done),
        ],
    );
    for gates in 1..769u32 {
        check_log(
            rt,
            &mut session,
            &[(Take(1025 - gates), Settled(2_000_000_000 + gates * 65_535))],
        );
    }
    check_log(
        rt,
        &mut session,
        &[
            (AtRest, Resting(true)),
            (Run(9), Rest(0)),
            (State(257), Stands(2_050_330_880, 1)),
            (Event(257, 0), Change(2_050_330_879, HIGH)),
            (Value(257, 2_050_330_878), Shows(LOW)),
            (Value(257, 2_050_330_879), Shows(HIGH)),
            (Value(257, 2_050_330_880), Refused(15)),
        ],
    );
    Ok(())
}

#[test]
fn a_change_at_the_last_tick_passes_the_longest_chain(rt: HostRuntime) -> Result<(), Fail> {
    check_chain::<Bit>(&rt, rt.alloc())?;
    check_chain::<Ternary>(&rt, rt.alloc())?;
    check_chain::<Lanes>(&rt, rt.alloc())
}
