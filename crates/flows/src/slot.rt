// The number of a slot, and of a list: no more bytes than the most of each need, since a run walks through many slots.
pub(super) type SlotNumber = u16;

pub(super) type ListNumber = u16;

// A place in the list of a variable: the list, and the slots before and after it there.
#[derive(Clone, Copy)]
pub(super) struct Slot {
    pub(super) list: ListNumber,
    pub(super) previous: Option<SlotNumber>,
    pub(super) next: Option<SlotNumber>,
}

// Where a list begins and ends.
#[derive(Clone, Copy)]
pub(super) struct Ends {
    pub(super) first: Option<SlotNumber>,
    pub(super) last: Option<SlotNumber>,
}
