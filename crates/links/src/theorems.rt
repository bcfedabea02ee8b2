// Theorems about what the contracts of this crate are told by. Each call does nothing; its contract is the theorem.
ghost use Rattle.links.specs.Cases.{WorkedCases};

// The worked cases hold of the definitions.
pub fn worked_cases_stand()
    ensures { WorkedCases }
{}
