// Theorems about the grammar: functions that do nothing, whose contracts say them.
ghost use Rattle.goals.specs.Theorems.{Unambiguous, Answered, Single};

// Some tokens have at most one tree.
pub fn unambiguous()
    ensures { Unambiguous }
{}

// Any tokens come to a tree or to a refusal, and to one only.
pub fn one_outcome()
    ensures some { Answered }
    ensures only { Single }
{}
