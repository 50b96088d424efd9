// Three offices that make batches for each other, over any keeper.

use crate::acts::{Act, batch_for, said, seen};
use crate::opening::Opening;
use mr_base::Refusal;
use mr_service::{Command, Local, Reply, Service, refusal_text, reply_text};
use mr_store::Keeper;
use std::alloc::Global;

/// A step of a script.
#[derive(Clone, Copy)]
pub(crate) enum Step {
    /// The office is asked this.
    At(u32, Act),
    /// The first office makes a batch for the position of the second, of so many lines at most.
    Batch(u32, u32, u32),
    /// The batch of that number is delivered at the office.
    Deliver(usize, u32),
}

/// The offices 1, 2 and 3, and the batches that were made.
#[derive(Drop)]
pub(crate) struct Offices<K: Keeper> {
    pub(crate) alloc: Global,
    pub(crate) first: Service<K>,
    pub(crate) second: Service<K>,
    pub(crate) third: Service<K>,
    batches: Vec<Vec<u8>>,
}

impl<K: Keeper + Drop> Offices<K> {
    pub(crate) fn over(alloc: Global, first: K, second: K, third: K) -> Offices<K> {
        Offices {
            alloc,
            first: Service::new(alloc, first),
            second: Service::new(alloc, second),
            third: Service::new(alloc, third),
            batches: Vec::new(alloc),
        }
    }

    pub(crate) fn ask(&mut self, office: u32, command: &Command) -> Reply {
        match office {
            1 => self.first.ask(command),
            2 => self.second.ask(command),
            _ => self.third.ask(command),
        }
    }

    fn said(&mut self, office: u32, act: Act) -> Result<Vec<u8>, Refusal> {
        match office {
            1 => said(self.alloc, &mut self.first, act),
            2 => said(self.alloc, &mut self.second, act),
            _ => said(self.alloc, &mut self.third, act),
        }
    }

    /// The position, or the refusal in its place.
    fn position(&mut self, office: u32) -> Result<Vec<u8>, Refusal> {
        match self.ask(office, &Command::Local(Local::Position)) {
            Reply::Refused(refusal) => Err(refusal),
            reply => reply_text(self.alloc, &reply),
        }
    }

    /// The batch of an office for a position, or the refusal in its place.
    fn batch(&mut self, from: u32, position: Vec<u8>, lines: u32) -> Result<Vec<u8>, Refusal> {
        let command = Command::Local(batch_for(position, lines)?);
        match self.ask(from, &command) {
            Reply::Refused(refusal) => Err(refusal),
            reply => reply_text(self.alloc, &reply),
        }
    }

    /// Makes a batch and keeps it under the next number. Answers that number and how many bytes it has.
    fn make(&mut self, from: u32, to: u32, lines: u32) -> Result<(usize, usize), Refusal> {
        let position = self.position(to)?;
        let batch = self.batch(from, position, lines)?;
        let length = batch.len();
        self.batches.push(batch)?;
        Ok((self.batches.len(), length))
    }

    fn made(&mut self, from: u32, to: u32, lines: u32) -> Result<Vec<u8>, Refusal> {
        match self.make(from, to, lines) {
            Ok((number, length)) => {
                let line = format!(in self.alloc; "batch {number} {length} bytes\n")?;
                Ok(line.as_bytes().to_vec(self.alloc)?)
            }
            Err(refusal) => refusal_text(self.alloc, &refusal),
        }
    }

    fn deliver(&mut self, number: usize, to: u32) -> Result<Vec<u8>, Refusal> {
        let batch = match self.batches.get(number.saturating_sub(1)) {
            Some(batch) => batch.as_slice().to_vec(self.alloc)?,
            None => Vec::new(self.alloc),
        };
        let reply = self.ask(to, &Command::Receive(batch));
        reply_text(self.alloc, &reply)
    }

    /// The text of the reply to the step.
    pub(crate) fn take(&mut self, step: Step) -> Result<Vec<u8>, Refusal> {
        match step {
            Step::At(office, act) => self.said(office, act),
            Step::Batch(from, to, lines) => self.made(from, to, lines),
            Step::Deliver(number, to) => self.deliver(number, to),
        }
    }

    /// The replies of the three offices to all questions about oak, and their positions.
    pub(crate) fn seen(&mut self) -> Result<Vec<u8>, Refusal> {
        let mut texts = seen(self.alloc, &mut self.first)?;
        texts.extend_from_slice(seen(self.alloc, &mut self.second)?.as_slice())?;
        texts.extend_from_slice(seen(self.alloc, &mut self.third)?.as_slice())?;
        Ok(texts)
    }
}

/// Three offices that know nothing yet.
pub(crate) fn opened<K: Opening + Drop>(alloc: Global) -> Result<Offices<K>, Refusal> {
    let first = K::open(alloc, 1)?;
    let second = K::open(alloc, 2)?;
    let third = K::open(alloc, 3)?;
    Ok(Offices::over(alloc, first, second, third))
}
