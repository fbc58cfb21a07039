//! What has happened.

ghost use Rattle.std.specs.Prelude.{◌≡◌, ◌<◌, ◌++◌, ◌∷◌, [], OnOk, OnErr, IfErr, length};
ghost use Rattle.wb_types.specs.declared.refusal.Refusal.TheVariants.{Memory};
ghost use Rattle.wb_machine.specs.Log.{RecordFits};

use std::alloc::Global;
use std::marker::Model;
use wb_promise::Record;
use wb_types::Refusal;

/// The records of a machine, one for each event, in order. A contract sees also for how many there is memory.
#[derive(Drop)]
pub struct Trace {
    records: Vec<Record>,
}

impl Model for Trace {
    ghost use Rattle.std.specs.Prelude.{vec_capacity};
    ghost use Rattle.wb_machine.specs.Log.{Log};

    ghost Value = { Log };

    ghost view = { λ t. record { records = t.records.items; capacity = vec_capacity t.records } };
}

impl Trace {
    /// A trace in which nothing has happened.
    pub(crate) fn new(alloc: Global) -> Trace
        ensures { result.records ≡ [] }
    {
        Trace {
            records: Vec::new(alloc),
        }
    }

    /// The records, the first event's first.
    pub fn records(&self) -> &[Record]
        ensures { result.now ≡ self.now.records }
    {
        self.records.as_slice()
    }

    /// Makes room for one record more. `Memory` where there is none for it. The records stay.
    pub(crate) fn reserve(&mut self) -> Result<(), Refusal>
        ensures records { self.new.records ≡ self.old.records }
        ensures room { OnOk result (RecordFits self.new) }
        ensures refusal { IfErr result (λ refusal. refusal ≡ Memory) }
    {
        if self.records.len() == self.records.capacity() {
            self.records.reserve(1)?;
        }
        Ok(())
    }

    /// One record more, for which there is room.
    pub(crate) fn push_reserved(&mut self, happening: Record)
        requires { RecordFits self.old }
        ensures { self.new.records ≡ self.old.records ++ happening ∷ [] }
    {
        self.records.push_reserved(happening);
    }
}
