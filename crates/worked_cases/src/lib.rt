// The worked cases of the chips, the controllers, the traces and the dispatcher, as one fact.
#![tactic(auto)]

ghost use Rattle.worked_cases.specs.Cases.{WorkedCases};

// Does nothing; its contract is the cases, proved.
pub fn worked_cases()
    ensures { WorkedCases }
{}
