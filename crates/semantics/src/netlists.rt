// Closed netlists are circuits of which the laws speak.
ghost use Rattle.netlist.specs.Closed.{circuit};
ghost use Rattle.netlist.specs.Judging.{AllReached};
ghost use Rattle.semantics.specs.Circuits.{Wired};

use netlist::closed::Netlist;

// Every gate of a closed netlist is wired, and an input reaches it.
pub fn netlists_are_wired(netlist: &Netlist)
    ensures wired { Wired (circuit netlist.now) }
    ensures reached { AllReached (circuit netlist.now) }
{}
