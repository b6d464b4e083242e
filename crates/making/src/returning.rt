ghost use Rattle.std.specs.Prelude.{◌≡◌, true};
ghost use Rattle.making.specs.Holding.{Grown};
ghost use Rattle.making.specs.Settled.{Settled, Remembers};
ghost use Rattle.rules.specs.Making.{Made};

use super::output::{Before, Output};

impl Output {
    // How much there is before a declaration.
    pub fn before(&self) -> Before
        ensures { Remembers self.now result }
    {
        Before {
            counts: self.network.counts(),
            binders: self.binders.len(),
            made: self.made,
        }
    }

    // After a refusal: all that came since then is taken back.
    pub fn take_back(&mut self, to: Before) -> bool
        ensures { (base : Output) (m : Made) → Remembers base to → Grown base self.old → Settled base m → (result ≡ true) × Settled self.new m }
    {
        self.made = to.made;
        self.binders.truncate(to.binders);
        self.network.cut_back(to.counts)
    }
}
