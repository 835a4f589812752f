// The calls of one caller.
ghost use Rattle.std.specs.Prelude.{◌≡◌, ◌++◌, ◌∷◌, [], OnOk, IfErr};
ghost use Rattle.weave.specs.Parts.{PartMade};

use crate::made::Made;
use ho_base::Unpaid;
use std::alloc::Global;
use std::marker::Model;

/// What one caller made, in order. Contracts see its caller and the list of its calls.
#[derive(Debug, Drop)]
pub struct Part {
    pub caller: u32,
    made: Vec<Made>,
}

impl Model for Part {
    ghost use Rattle.weave.specs.Parts.{PartMade};

    ghost Value = { PartMade };

    ghost view = { λ p. record { caller = p.caller; made = p.made.items } };
}

impl Part {
    /// A caller that has made nothing. Takes no memory.
    pub fn new(alloc: Global, caller: u32) -> Part
        ensures { result ≡ record { caller = caller; made = [] } }
    {
        Part {
            caller,
            made: Vec::new(alloc),
        }
    }

    /// Adds the caller's next call. For want of memory it hands the call back, and the part stays as
    /// it was.
    pub fn push(&mut self, made: Made) -> Result<(), Unpaid<Made>>
        ensures ok { OnOk result (self.new ≡ record { caller = self.old.caller; made = self.old.made ++ made ∷ [] }) }
        ensures err { IfErr result (λ unpaid. (unpaid.back ≡ made) × (self.new ≡ self.old)) }
    {
        match self.made.push(made) {
            Ok(()) => Ok(()),
            Err(refused) => Err(Unpaid {
                back: refused.value,
            }),
        }
    }

    // The calls, in order.
    pub(crate) fn made(&self) -> &[Made]
        ensures { result.now ≡ self.now.made }
    {
        &self.made
    }

    pub(crate) fn caller(&self) -> u32
        ensures { result ≡ self.now.caller }
    {
        self.caller
    }
}
