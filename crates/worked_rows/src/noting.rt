//! A shelf that notes the calls that read.
#![tactic(auto)]

use crate::given::Given;
use ta_shelf::{PutFault, Shelf, ShelfFault};

/// Notes the name and the offset of each call.
#[derive(Drop)]
pub struct Noting<S: Shelf + Drop> {
    pub shelf: S,
    pub noted: Given,
}

impl<S: Shelf + Drop> Shelf for Noting<S> {
    type Stage = S::Stage;

    ghost files = { λ s. S.files s.shelf };

    ghost faults = { λ s. S.faults s.shelf };

    ghost calls = { λ s. S.calls s.shelf };

    ghost wants_memory = { S.wants_memory };

    ghost stage_name = { S.stage_name };

    ghost stage_bytes = { S.stage_bytes };

    fn read_at(&mut self, name: &str, at: u64, buf: &mut [u8]) -> Result<usize, ShelfFault> {
        self.noted.say(" ");
        self.noted.say(name);
        self.noted.number(":", at);
        self.shelf.read_at(name, at, buf)
    }

    fn keeps_bytes(&mut self, name: &str) -> bool {
        self.shelf.keeps_bytes(name)
    }

    fn same_place(&mut self, name: &str, other: &str) -> Result<bool, ShelfFault> {
        self.shelf.same_place(name, other)
    }

    fn create(&mut self, name: &str) -> Result<(), PutFault> {
        self.shelf.create(name)
    }

    fn append(&mut self, name: &str, bytes: &[u8]) -> Result<(), PutFault> {
        self.shelf.append(name, bytes)
    }

    fn begin(&mut self, name: &str) -> Result<S::Stage, PutFault> {
        self.shelf.begin(name)
    }

    fn add(&mut self, stage: &mut S::Stage, bytes: &[u8]) -> Result<(), PutFault> {
        self.shelf.add(stage, bytes)
    }

    fn publish(&mut self, stage: S::Stage) -> Result<(), PutFault> {
        self.shelf.publish(stage)
    }

    fn abandon(&mut self, stage: S::Stage) {
        self.shelf.abandon(stage);
    }
}
