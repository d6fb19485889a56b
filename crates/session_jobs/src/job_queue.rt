//! The jobs of a session, on their way to the workers.

use crate::work::work_of;
use crossbeam_channel::{Receiver, Sender, unbounded};
use movement::Cell;
use session_state::State;
use solver_pool::{Job, Pool, Work};
use std::alloc::{AllocError, Global};
use std::sync::{Mutex, Wait};
use std::time::Duration;

/// Numbers jobs in a pool, and gives them to the workers: what the cards of a play cost at once, and of the tables only so many that
/// each worker has work. So no costs wait for more than a table's time, however many boards are left.
pub struct JobQueue {
    pool: Mutex<Pool>,
    waiting: Mutex<Waiting>,
    // What the workers receive.
    jobs: Receiver<Job>,
    workers: u8,
}

// It is written out, so that a caller does not prove again how each part is dropped.
impl Drop for JobQueue {
    fn drop(self) {
        let JobQueue {
            pool: _,
            waiting: _,
            jobs: _,
            workers: _,
        } = self;
    }
}

// What is left to give out, and the way to the workers.
#[derive(Drop)]
struct Waiting {
    tables: Vec<WantedTable>,
    // How many jobs were given out that no worker is done with.
    given: usize,
    // None once no more jobs can come.
    jobs: Option<Sender<Job>>,
    // How long jobs took that a worker is done with, by their numbers, until that is taken.
    times: Vec<(u32, Duration)>,
}

// The table of a board, which nobody was asked for yet.
#[derive(Clone, Copy)]
struct WantedTable {
    work: Work,
    // After how many rounds its board is played next.
    rounds: u8,
}

impl JobQueue {
    /// The way to so many workers.
    pub fn open(alloc: Global, workers: u8) -> Result<JobQueue, AllocError> {
        let pool = Pool::new(alloc)?;
        let (to_workers, jobs) = unbounded::<Job, Global>(alloc)?;
        let waiting = Waiting {
            tables: Vec::new(alloc),
            given: 0,
            jobs: Some(to_workers),
            times: Vec::new(alloc),
        };
        Ok(JobQueue {
            pool: Mutex::new(pool),
            waiting: Mutex::new(waiting),
            jobs,
            workers,
        })
    }

    /// How many workers there are.
    pub fn workers(&self) -> u8 {
        self.workers
    }

    /// The jobs that are given to the workers, who share them.
    pub fn jobs(&self) -> &Receiver<Job> {
        &self.jobs
    }

    /// The pool that numbers the jobs.
    pub fn pool(&self) -> &Mutex<Pool> {
        &self.pool
    }

    /// Gives work to the workers. Where it can't be numbered or sent, it is dropped.
    pub fn add<R: Wait>(&self, rt: &R, work: Work) {
        if let Some(job) = number(rt, &self.pool, work) {
            let mut waiting = self.waiting.lock(rt);
            waiting.give(rt, job);
        }
    }

    /// Gives the workers what is left to find in a session: what the cards cost that were played at a cell, and each board's
    /// table, those first whose board is played next.
    pub fn add_left<R: Wait>(&self, rt: &R, state: &State) {
        for table in 0..state.public().movement.tables() {
            self.add_costs(rt, state, table + 1);
        }
        self.want_tables(rt, state);
        self.give_tables(rt);
    }

    /// Hears that a worker is done with a job, and how long it took if that was to be known, and gives out tables until each
    /// worker has work.
    pub fn done<R: Wait>(&self, rt: &R, job: u32, took: Option<Duration>) {
        self.note_done(rt, job, took);
        self.give_tables(rt);
    }

    /// Takes how long a job took, if that is known.
    pub fn take_time<R: Wait>(&self, rt: &R, job: u32) -> Option<Duration> {
        let mut waiting = self.waiting.lock(rt);
        waiting.take_time(job)
    }

    /// Drops what is left to give out, and closes the way to the workers.
    pub fn close<R: Wait>(&self, rt: &R) {
        let mut waiting = self.waiting.lock(rt);
        waiting.tables.clear();
        waiting.jobs = None;
    }

    // Gives the workers the costs that are left to find at a table.
    fn add_costs<R: Wait>(&self, rt: &R, state: &State, table: u8) {
        for before in 0..state.public().movement.boards() {
            let cell = Cell {
                table,
                board: before + 1,
            };
            if let Some(work) = work_of(state, cell) {
                self.add(rt, work);
            }
        }
    }

    // Notes the tables that are left to find. One for which there is no memory is dropped.
    fn want_tables<R: Wait>(&self, rt: &R, state: &State) {
        let mut waiting = self.waiting.lock(rt);
        for before in 0..state.public().movement.boards() {
            let board = before + 1;
            if state.table(board).is_none() {
                let deal = state.deal(board);
                let work = Work::Table { board, deal };
                let rounds = rounds_before(state, board);
                let _dropped = waiting.tables.push(WantedTable { work, rounds });
            }
        }
    }

    // Gives out tables until each worker has work.
    fn give_tables<R: Wait>(&self, rt: &R) {
        for _ in 0..self.workers {
            let Some(work) = self.take_table(rt) else {
                return;
            };
            self.add(rt, work);
        }
    }

    // The table that is wanted first, where a worker has no work.
    fn take_table<R: Wait>(&self, rt: &R) -> Option<Work> {
        let mut waiting = self.waiting.lock(rt);
        if waiting.given >= self.workers as usize {
            return None;
        }
        let place = first_wanted(waiting.tables.as_slice());
        if place >= waiting.tables.len() {
            return None;
        }
        Some(waiting.tables.remove(place).work)
    }

    fn note_done<R: Wait>(&self, rt: &R, job: u32, took: Option<Duration>) {
        let mut waiting = self.waiting.lock(rt);
        waiting.given = waiting.given.saturating_sub(1);
        if let Some(took) = took {
            // Without memory for it, it isn't known.
            let _unknown = waiting.times.push((job, took));
        }
    }
}

impl Waiting {
    // Sends a job, where the way is open and there is memory.
    fn give<R: Wait>(&mut self, rt: &R, job: Job) {
        if let Some(jobs) = &self.jobs
            && jobs.send(rt, job).is_ok()
        {
            self.given = self.given.saturating_add(1);
        }
    }

    fn take_time(&mut self, job: u32) -> Option<Duration> {
        let mut found = None;
        for (place, time) in self.times.iter().enumerate() {
            if time.0 == job {
                found = Some(place);
            }
        }
        match found {
            Some(place) if place < self.times.len() => Some(self.times.remove(place).1),
            _ => None,
        }
    }
}

// The place of the first table whose board is played soonest; 0 where there is none.
fn first_wanted(tables: &[WantedTable]) -> usize {
    let mut first = 0;
    let mut fewest = u8::MAX;
    for (place, table) in tables.iter().enumerate() {
        if table.rounds < fewest {
            first = place;
            fewest = table.rounds;
        }
    }
    first
}

// After how many rounds from the session's own on a board is played next: all that there are, where it isn't.
fn rounds_before(state: &State, board: u8) -> u8 {
    let public = state.public();
    let mut fewest = public.movement.rounds();
    for before in 0..public.movement.tables() {
        if let Some(cell) = public.movement.cell(before + 1, board) {
            let round = public.movement.round_of(cell);
            if public.round <= round {
                fewest = fewest.min(round - public.round);
            }
        }
    }
    fewest
}

// The job of some work, if the pool has room for one more.
fn number<R: Wait>(rt: &R, pool: &Mutex<Pool>, work: Work) -> Option<Job> {
    let mut pool = pool.lock(rt);
    pool.add(work).ok()
}
