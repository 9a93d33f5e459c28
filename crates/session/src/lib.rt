// What a comparison is asked, by its calls, and what the calls do: the theory of its sessions, over any field.
// A function here computes nothing: its contract is a theorem over the definitions of specs/.
#![tactic(auto)]

ghost use Rattle.session.specs.Theorems.{HoldsWhatWasDeclared, WeighsWhatWasDeclared, SymbolsAreNumbered, AlwaysValid, RefusedAlterNothing, CallsDetermine, AcceptedWhenAllPass, RefusedForCause};

// Symbols, rules and final weights are declared while a session is open; sealing ends that.
#[derive(Clone, Copy)]
pub enum Phase {
    Open,
    Searching,
    Ended,
}

pub fn holds_what_was_declared()
    ensures { HoldsWhatWasDeclared }
{}

pub fn weighs_what_was_declared()
    ensures { WeighsWhatWasDeclared }
{}

pub fn symbols_are_numbered()
    ensures { SymbolsAreNumbered }
{}

pub fn always_valid()
    ensures { AlwaysValid }
{}

pub fn refused_alter_nothing()
    ensures { RefusedAlterNothing }
{}

pub fn calls_determine()
    ensures { CallsDetermine }
{}

pub fn accepted_when_all_pass()
    ensures { AcceptedWhenAllPass }
{}

pub fn refused_for_cause()
    ensures { RefusedForCause }
{}
