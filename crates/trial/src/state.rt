// What most calls are given.
use rules::{Marking, Table};
use wire::payload::{Given, Payload};

// A table and a marking, and what stands behind them.
#[derive(Drop)]
pub struct State<'a> {
    pub table: Table,
    pub marking: Marking,
    pub behind: Payload<'a>,
}

impl<'a> State<'a> {
    pub fn read(payload: &'a [u8]) -> State<'a> {
        let mut from = Payload::new(payload);
        State {
            table: Table::read(&mut from),
            marking: Marking::read(&mut from),
            behind: from,
        }
    }

    // The event or relation asked about.
    pub fn asked(&self) -> usize {
        let mut behind = self.behind;
        usize::read(&mut behind)
    }
}
