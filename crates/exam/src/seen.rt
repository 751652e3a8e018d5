//! What is seen of each call of an exchange.
use crate::watched::Watched;
use exchange::answer::Answer;
use exchange::observer::Observer;
use std::alloc::{AllocFailed, Global};
use trace::traced::{Passed, Traced};

/// What stood when a call had answered: with which process it talked, if with any, how many processes had been started, and how many notes the host held.
#[derive(Clone, Copy)]
pub(crate) struct Sight {
    pub(crate) process: Option<usize>,
    pub(crate) started: usize,
    pub(crate) notes: usize,
}

/// Stands beside a table, with a sight for each call; none once there was no memory for one.
#[derive(Drop)]
pub(crate) struct Watcher {
    pub(crate) sights: Option<Vec<Sight>>,
    talks: usize,
}

/// Adds a sight behind others.
fn add(mut sights: Vec<Sight>, sight: Sight) -> Result<Vec<Sight>, AllocFailed<Sight>> {
    sights.push(sight)?;
    Ok(sights)
}

impl Watcher {
    pub(crate) fn new(heap: Global) -> Watcher {
        Watcher {
            sights: Some(Vec::new(heap)),
            talks: 0,
        }
    }
}

impl<H> Observer<Traced<Watched<H>>> for Watcher {
    fn look(&mut self, host: &Traced<Watched<H>>, _answer: Answer) {
        let watched = &host.below;
        let process = if watched.talks == self.talks {
            None
        } else {
            Some(watched.last)
        };
        self.talks = watched.talks;
        let sight = Sight {
            process,
            started: watched.started,
            notes: host.passed.as_ref().map_or(0, |notes| notes.len()),
        };
        self.sights = self
            .sights
            .take()
            .and_then(|sights| add(sights, sight).ok());
    }
}
