ghost use Rattle.std.specs.Prelude.{◌≤◌, vec_capacity};
ghost use Rattle.flows.specs.Limits.{most_slots};
ghost use Rattle.flows.specs.Slots.{lists_of, Table};

use super::slot::{Ends, Slot};

// For each variable, the flows that read it. A flow has two slots, one for each source, and the slots of a variable are
// linked both ways in its list. One list more stands for no source. A `Vec` for each variable would want memory when a flow is added,
// and that may not fail.
#[derive(Drop)]
pub(super) struct Readers {
    pub(super) slots: Vec<Slot>,
    pub(super) ends: Vec<Ends>,
    ghost table: { Table (lists_of slots.items) slots.items ends.items },
    ghost room: { most_slots ≤ vec_capacity slots },
}
