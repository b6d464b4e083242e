ghost use Rattle.std.specs.Prelude.{◌≡◌, ◌+◌, ◌-◌, ◌*◌, ◌<◌, ◌≤◌, [], ◌∷◌, ◌++◌, length, take, IfOk, IfSome, slice_index};
ghost use Rattle.flows.specs.Limits.{most_variables, most_slots, list_count};
ghost use Rattle.flows.specs.Links.{next_from};
ghost use Rattle.flows.specs.Reading.{list_of, first_list, second_list, filled};
ghost use Rattle.flows.specs.Slots.{led, begun};

use super::flow::{Flow, FlowNumber, Rule, Variable};
use super::network::{MOST_FLOWS, MOST_VARIABLES};
use super::readers::Readers;
use super::slot::{Ends, ListNumber, Slot, SlotNumber};
use std::alloc::{AllocError, Global};

// The list that stands for no source.
const NONE: ListNumber = MOST_VARIABLES;

const SLOTS: usize = 2 * MOST_FLOWS as usize;

const LISTS: usize = NONE as usize + 1;

// The list of a source.
fn list_of(source: Option<Variable>) -> ListNumber
    ensures { result ≡ list_of source }
{
    source.map_or(NONE, |variable| NONE.min(variable))
}

// The lists in which a rule stands: each source once.
fn sources(rule: Rule) -> (ListNumber, ListNumber)
    ensures first { result.0 ≡ first_list rule }
    ensures second { result.1 ≡ second_list rule }
{
    match rule {
        Rule::Operator(_, a, b) => {
            let first = list_of(a);
            let second = list_of(b);
            (first, if second == first { NONE } else { second })
        }
        Rule::Name(_) => (NONE, NONE),
    }
}

// Makes what follows a slot in a list another slot, or what the list begins with if there is no such slot.
fn lead(
    slots: &mut [Slot],
    ends: &mut [Ends],
    list: ListNumber,
    before: Option<SlotNumber>,
    to: Option<SlotNumber>,
)
    requires list { list < length ends.old }
    requires before { IfSome before (λ b. b < length slots.old) }
    ensures slots { slots.new ≡ led slots.old before to }
    ensures ends { ends.new ≡ begun ends.old list before to }
{
    match before {
        Some(slot) => slots[slot as usize].next = to,
        None => ends[list as usize].first = to,
    }
}

impl Readers {
    // A table with no flows.
    pub(super) fn new(heap: Global) -> Result<Readers, AllocError>
        ensures { IfOk result (λ x. filled x ≡ []) }
    {
        let empty = Ends {
            first: None,
            last: None,
        };
        Ok(Readers {
            slots: Vec::with_capacity(heap, SLOTS)?,
            ends: vec![in heap; empty; LISTS]?,
        })
    }

    // Lists the next flow under its sources.
    pub(super) fn add(&mut self, flow: Flow)
        requires { length (filled self.old) + 2 ≤ most_slots }
        ensures { filled self.new ≡ filled self.old ++ first_list flow.rule ∷ second_list flow.rule ∷ [] }
    {
        let (first, second) = sources(flow.rule);
        self.link(first);
        self.link(second);
    }

    // Takes all flows but the first `count` back.
    pub(super) fn cut_to(&mut self, count: FlowNumber)
        ensures { filled self.new ≡ take (2 * count) (filled self.old) }
    {
        let kept = 2 * count as usize;
        while self.slots.len() > kept {
            self.unlink();
        }
    }

    // The first slot of a variable, if any.
    pub(super) fn first(&self, variable: Variable) -> Option<SlotNumber>
        requires { variable < most_variables }
        ensures { result ≡ next_from (filled self.now) variable 0 (length (filled self.now)) }
    {
        self.ends[variable as usize].first
    }

    // The slot that comes after another one in its list, if any.
    pub(super) fn after(&self, slot: SlotNumber) -> Option<SlotNumber>
        requires { slot < length (filled self.now) }
        ensures { result ≡ next_from (filled self.now) (slice_index (filled self.now) slot) (slot + 1) (length (filled self.now)) }
    {
        self.slots[slot as usize].next
    }

    // Appends a slot to a list.
    fn link(&mut self, list: ListNumber)
        requires known { list < list_count }
        requires free { length (filled self.old) < most_slots }
        ensures { filled self.new ≡ filled self.old ++ list ∷ [] }
    {
        let slot = self.slots.len() as SlotNumber;
        let previous = self.ends[list as usize].last;
        lead(&mut self.slots, &mut self.ends, list, previous, Some(slot));
        self.ends[list as usize].last = Some(slot);
        self.slots.push_reserved(Slot {
            list,
            previous,
            next: None,
        });
    }

    // Takes the newest slot back, if any.
    fn unlink(&mut self)
        ensures { filled self.new ≡ take (length (filled self.old) - 1) (filled self.old) }
    {
        if let Some(Slot { list, previous, .. }) = self.slots.pop() {
            lead(&mut self.slots, &mut self.ends, list, previous, None);
            self.ends[list as usize].last = previous;
        }
    }
}
