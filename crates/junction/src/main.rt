#![tactic(auto)]
// A complaint in small. A lane is sized by a checked count; two names share one reference to its size; a number from a form is
// stored through the one name and read through the other, where no entered number may stand. The flows are written by hand
// and settled, step by step, over two kinds and over their pair.
use anyhow::{Context, anyhow};
use flows::flow::{Bound, Flow, FlowNumber, Rule, Variable};
use flows::network::Network;
use flows::worklist::Worklist;
use kinds::find::find_name;
use kinds::kind::{Kind, NameNumber};
use kinds::operators::{CHECK, DETECTOR, FIELD, LITERAL, MOVE};
use kinds::origin::Origin;
use kinds::pair::Pair;
use kinds::sources::Sources;
use std::alloc::{AllocError, Global};
use std::io;

const COUNTED: Variable = 0;

const LIMIT: Variable = 1;

const LANE: Variable = 2;

const TYPED: Variable = 3;

const FIRST: Variable = 4;

const SECOND: Variable = 5;

const QUEUE: Variable = 6;

const VARIABLES: usize = 7;

// What the variables are called.
const NAMES: [&str; VARIABLES] = [
    "counted", "limit", "lane", "typed", "first", "second", "queue",
];

const LIST: usize = 16;

// What is settled so far.
#[derive(Drop)]
struct Junction<K: Kind> {
    network: Network,
    worklist: Worklist,
    values: Vec<K>,
}

fn made(operator: u8, target: Variable) -> Flow {
    Flow {
        rule: Rule::Operator(operator, None, None),
        target,
    }
}

fn moved(from: Variable, to: Variable) -> Flow {
    Flow {
        rule: Rule::Operator(MOVE, Some(from), None),
        target: to,
    }
}

fn bottoms<K: Kind>(heap: Global) -> Result<Vec<K>, AllocError> {
    vec![in heap; K::bottom(); VARIABLES]
}

// A name, behind a comma where it is not the first. That it is text is a law of the kind and not of its type, so no `Display` prints
// it.
fn show_name(rt: &impl Print, first: bool, spelling: &[u8]) -> io::Result<()> {
    if !first {
        print!(rt; ",")?;
    }
    match std::str::from_utf8(spelling) {
        Ok(word) => print!(rt; "{word}"),
        Err(_) => Ok(()),
    }
}

// A value by the names at or below it.
fn show_names<K: Kind>(rt: &impl Print, value: K) -> io::Result<()> {
    let mut first = true;
    for number in 0..K::names() {
        if K::value(number).at_or_below(value) {
            show_name(rt, first, K::spelling(number))?;
            first = false;
        }
    }
    if first {
        print!(rt; "-")?;
    }
    println!(rt; "")
}

fn show_values<K: Kind>(rt: &impl Print, values: &[K]) -> io::Result<()> {
    for (name, value) in NAMES.iter().zip(values) {
        print!(rt; "  {name} ")?;
        show_names(rt, *value)?;
    }
    Ok(())
}

fn show_rises(rt: &impl Print, rises: &[FlowNumber]) -> io::Result<()> {
    print!(rt; "  rises")?;
    for number in rises {
        print!(rt; " {number}")?;
    }
    println!(rt; "")
}

impl<K: Kind> Junction<K> {
    fn new(heap: Global) -> anyhow::Result<Junction<K>> {
        let mut network = Network::new(heap)?;
        for _ in 0..VARIABLES {
            network.add_variable().context("no room for a variable")?;
        }
        Ok(Junction {
            network,
            worklist: Worklist::new(heap)?,
            values: bottoms(heap)?,
        })
    }

    // Settles the flows from number `from` on. Answers the number of evaluations.
    fn settle(&mut self, from: FlowNumber) -> anyhow::Result<usize> {
        if self.network.counts().variables as usize > self.values.len() {
            return Err(anyhow!("a variable has no value"));
        }
        Ok(
            self.worklist
                .settle(&self.network, self.values.as_mut_slice(), from),
        )
    }

    // Adds flows and settles them.
    fn add(&mut self, flows: &[Flow]) -> anyhow::Result<usize> {
        let from = self.network.counts().flows;
        for flow in flows {
            self.network.add_flow(*flow).context("a flow does not fit")?;
        }
        self.settle(from)
    }

    // One step that no bound refuses.
    fn step(&mut self, rt: &impl Print, title: &str, flows: &[Flow]) -> anyhow::Result<()> {
        let evaluations = self.add(flows)?;
        println!(rt; "  evaluations {evaluations}: {title}")?;
        Ok(())
    }

    // The lane's size, a reference to it, a second name for that, and a typed number that is stored through the second name.
    fn script(&mut self, rt: &impl Print) -> anyhow::Result<()> {
        let checked = Flow {
            rule: Rule::Operator(CHECK, Some(COUNTED), Some(LIMIT)),
            target: LANE,
        };
        self.step(
            rt,
            "lane sized by a checked count",
            &[made(DETECTOR, COUNTED), made(LITERAL, LIMIT), checked],
        )?;
        self.step(rt, "first name refers to the lane", &[moved(LANE, FIRST)])?;
        self.step(
            rt,
            "second name shares the reference",
            &[moved(FIRST, SECOND), moved(SECOND, FIRST)],
        )?;
        self.step(rt, "a number is typed", &[made(FIELD, TYPED)])?;
        self.step(
            rt,
            "it is stored by the second name",
            &[moved(TYPED, SECOND)],
        )
    }

    // The queue is read by the first name, and the forbidden name must not reach it. A refusal takes the step back.
    fn read_queue(&mut self, rt: &HostRuntime, forbidden: NameNumber) -> anyhow::Result<()> {
        let before = self.network.counts();
        let bound = Bound {
            name: forbidden,
            variable: QUEUE,
        };
        self.network
            .add_bound(bound)
            .context("the bound does not fit")?;
        let evaluations = self.add(&[moved(FIRST, QUEUE)])?;
        match self.network.first_broken(self.values.as_slice()) {
            None => println!(rt; "  evaluations {evaluations}: queue read by the first name")?,
            Some(bound) => {
                println!(rt;
                    "  evaluations {evaluations}: queue read by the first name, bound {bound} broken"
                )?;
                self.explain(rt)?;
                self.network.cut_back(before);
                self.settle_anew()?;
            }
        }
        Ok(())
    }

    // After flows were taken back: the least values again, from bottom.
    fn settle_anew(&mut self) -> anyhow::Result<()> {
        for value in &mut self.values {
            *value = K::bottom();
        }
        self.settle(0)?;
        Ok(())
    }

    // Why the bound is broken.
    fn explain(&mut self, rt: &HostRuntime) -> anyhow::Result<()> {
        let mut scratch = bottoms::<K>(rt.alloc())?;
        let mut list = [0; LIST];
        if self.network.counts().variables as usize > scratch.len() {
            return Err(anyhow!("a variable has no value"));
        }
        let explanation = self
            .worklist
            .explain(&self.network, scratch.as_mut_slice(), &mut list);
        let rises = explanation.rises;
        match list.get(0..rises) {
            Some(front) => show_rises(rt, front)?,
            None => println!(rt; "  {rises} rises, and the list has room for {LIST}")?,
        }
        Ok(())
    }
}

fn tell<K: Kind>(rt: &HostRuntime, title: &str, forbidden: &[u8]) -> anyhow::Result<()> {
    let name = find_name::<K>(forbidden).context("no such name")?;
    let height = K::height();
    println!(rt; "{title}, height {height}")?;
    let mut junction = Junction::<K>::new(rt.alloc())?;
    junction.script(rt)?;
    junction.read_queue(rt, name)?;
    show_values(rt, junction.values.as_slice())?;
    Ok(())
}

fn run(rt: &HostRuntime) -> anyhow::Result<()> {
    tell::<Origin>(rt, "origin", b"entered")?;
    tell::<Sources>(rt, "sources", b"form")?;
    tell::<Pair<Origin, Sources>>(rt, "origin and sources", b"entered")
}

fn main(rt: HostRuntime) -> anyhow::Result<()> {
    run(&rt)
}
