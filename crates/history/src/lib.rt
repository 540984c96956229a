// What a snapshot promises over whole histories of calls and power cuts. This crate is theory: its
// functions have no code, and their contracts name the theorems.
#![tactic(auto)]

ghost use Rattle.history.specs.Promise.{CrashSafe, AnswersAreTheMachines};

// A snapshot that was made on any two devices keeps the promise in every history of calls, in any
// order and with any arguments, of power cuts at any device call, of pairs put together anew, and of
// makings that are refused.
pub fn no_history_breaks_the_promise()
    ensures { CrashSafe }
{}

// Every answer of every history is the one that two plain disks give.
pub fn answers_are_the_machines()
    ensures { AnswersAreTheMachines }
{}
