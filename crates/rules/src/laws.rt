// Theorems about the rules. The functions do nothing.
ghost use Rattle.rules.specs.Cases.{Cases};
ghost use Rattle.rules.specs.Example.{Session};
ghost use Rattle.rules.specs.Numbering.{Numbered};
ghost use Rattle.rules.specs.References.{Shared};

use kinds::kind::Kind;

// All names of a reference share what it holds, over every kind.
pub fn references_are_shared<K: Kind>()
    ensures { Shared K.Kind }
{}

// All that the rules make has variables that are made.
pub fn numbering()
    ensures { Numbered }
{}

// The rules at work: what a session of five declarations makes.
pub fn worked_example()
    ensures { Session }
{}

// Declarations that are refused, each for another reason, by computing.
pub fn worked_refusals()
    ensures { Cases }
{}
