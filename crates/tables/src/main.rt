// Prints the truth table of each kind of gate in each value system, and compares the systems by the relations between
// them.
#![tactic(auto)]

use gates::{combine, finish};
use netlist::kind::Kind;
use std::fmt::Display;
use std::io;
use values::bit::Bit;
use values::lane::Lane;
use values::lanes::Lanes;
use values::relation::Relation;
use values::stands_for::StandsFor;
use values::system::ValueSystem;
use values::ternary::Ternary;

const KINDS: [Kind; 8] = [
    Kind::Buf,
    Kind::Not,
    Kind::And,
    Kind::Or,
    Kind::Xor,
    Kind::Nand,
    Kind::Nor,
    Kind::Xnor,
];

// Two words that have each pair of bits in some lane.
const WORDS: [Lanes; 2] = [Lanes(0xaaaa_aaaa_aaaa_aaaa), Lanes(0xcccc_cccc_cccc_cccc)];

// The bits that each three-valued value stands for.
const STOOD_FOR: [(Ternary, Bit); 4] = [
    (Ternary::Zero, Bit(false)),
    (Ternary::One, Bit(true)),
    (Ternary::X, Bit(false)),
    (Ternary::X, Bit(true)),
];

// A row of a table: a label, and what is shown of each value.
fn print_row<V: ValueSystem + Display, F: Fn(V) -> V>(
    rt: &impl Print,
    label: &str,
    values: &[V],
    show: F,
) -> io::Result<()>
    requires { F.IsAlwaysCallable show }
{
    print!(rt; "  {label:<4}")?;
    for value in values {
        let shown = show(*value);
        print!(rt; " {shown}")?;
    }
    println!(rt; "")
}

// The table of a kind: a single row, or a row for each first operand.
fn print_table<V: ValueSystem + Display>(
    rt: &impl Print,
    kind: Kind,
    values: &[V],
) -> io::Result<()> {
    let mut label = kind.name();
    if kind.takes(1) {
        return print_row(rt, label, values, |value| finish(kind, value));
    }
    for first in values {
        print_row(
            rt,
            label,
            values,
            |last| finish(kind, combine(kind, *first, last)),
        )?;
        label = "";
    }
    Ok(())
}

fn print_system<V: ValueSystem + Display>(
    rt: &impl Print,
    name: &str,
    values: &[V],
) -> io::Result<()> {
    let start = V::START;
    print!(rt; "{name}: START {start}, operands down and across")?;
    for value in values {
        print!(rt; " {value}")?;
    }
    println!(rt; "")?;
    for kind in KINDS {
        print_table(rt, kind, values)?;
    }
    Ok(())
}

// How many gates were compared in two systems, and how many of them showed tied values.
#[derive(Clone, Copy, Default)]
struct Comparison {
    compared: u32,
    tied: u32,
}

impl Comparison {
    fn note(&mut self, tied: bool) {
        self.compared = self.compared.saturating_add(1);
        self.tied = self.tied.saturating_add(tied as u32);
    }

    // Gates of one kind that read the first pair, and each of the pairs after it.
    fn compare_after<V: ValueSystem, W: ValueSystem, R: Relation<V, W>>(
        &mut self,
        relation: &R,
        kind: Kind,
        first: (V, W),
        pairs: &[(V, W)],
    ) {
        for last in pairs {
            let left = finish(kind, combine(kind, first.0, last.0));
            let right = finish(kind, combine(kind, first.1, last.1));
            self.note(relation.ties(left, right));
        }
    }

    // Gates of one kind at all operands that the pairs give.
    fn compare_kind<V: ValueSystem, W: ValueSystem, R: Relation<V, W>>(
        &mut self,
        relation: &R,
        kind: Kind,
        pairs: &[(V, W)],
    ) {
        for pair in pairs {
            if kind.takes(1) {
                self.note(relation.ties(finish(kind, pair.0), finish(kind, pair.1)));
            } else {
                self.compare_after(relation, kind, *pair, pairs);
            }
        }
    }

    fn compare<V: ValueSystem, W: ValueSystem, R: Relation<V, W>>(
        &mut self,
        relation: &R,
        pairs: &[(V, W)],
    ) {
        for kind in KINDS {
            self.compare_kind(relation, kind, pairs);
        }
    }

    fn print(self, rt: &impl Print, systems: &str) -> io::Result<()> {
        let Comparison { compared, tied } = self;
        println!(rt; "{systems}: {compared} gates compared, {tied} show tied values")
    }
}

fn main(rt: HostRuntime) -> io::Result<()> {
    print_system(&rt, "two-valued", &[Bit(false), Bit(true)])?;
    print_system(
        &rt,
        "three-valued",
        &[Ternary::Zero, Ternary::One, Ternary::X],
    )?;
    print_system(&rt, "lanes", &WORDS)?;
    let mut known = Comparison::default();
    known.compare(&StandsFor, &STOOD_FOR);
    known.print(&rt, "three-valued and two-valued")?;
    let mut lanes = Comparison::default();
    for lane in (0..64).filter_map(Lane::new) {
        lanes.compare(&lane, &WORDS.map(|word| (word, word.bit(lane))));
    }
    lanes.print(&rt, "lanes and two-valued")
}
