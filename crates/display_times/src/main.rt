//! How many queries displays answer that are called in threads, without sockets, while a desk publishes or doesn't.
//! Standard input has three lines: a session object, the query that each display is asked again and again, and the
//! batch that the desk is given, each a message of a script. The words, in any order, are `readers=4`, how many displays
//! there are; `milliseconds=3000`, how long each is asked, and at least once; and `pause=10`, how many milliseconds the
//! desk waits between two batches: without it there is one batch.
//!
//! With the word `times=300` nothing runs in threads: standard input has a session object and any messages after it, and of
//! each query it is told how long a view takes to answer it and how long it takes to work it out afresh, that often in a
//! row.
#![tactic(auto)]

mod both_ways;
mod measuring;
mod tasks;

use crate::both_ways::print_both_ways;
use crate::measuring::{Figures, Plan, measured};
use std::env;
use std::io::{self, Read};

fn main(rt: HostRuntime) -> io::Result<()> {
    let plan = read_words(&rt)?;
    let mut text = String::new(rt.alloc());
    rt.reader().read_to_string(&mut text)?;
    if let Some(times) = plan.times {
        return print_both_ways(&rt, text.as_str(), times);
    }
    match measured(&rt, rt.alloc(), text.as_str(), plan) {
        Some(figures) => print_figures(&rt, plan, figures),
        None => eprintln!(rt; "nothing was measured"),
    }
}

fn read_words(rt: &HostRuntime) -> io::Result<Plan> {
    let mut plan = Plan {
        readers: 1,
        milliseconds: 0,
        pause: None,
        times: None,
    };
    for word in env::args(rt)? {
        hear(&mut plan, word.as_str());
    }
    Ok(plan)
}

fn hear(plan: &mut Plan, word: &str) {
    if let Some(readers) = word.strip_prefix("readers=") {
        plan.readers = readers.parse::<usize>().unwrap_or(0);
    }
    if let Some(milliseconds) = word.strip_prefix("milliseconds=") {
        plan.milliseconds = milliseconds.parse::<u64>().unwrap_or(0);
    }
    if let Some(pause) = word.strip_prefix("pause=") {
        plan.pause = pause.parse::<u64>().ok();
    }
    if let Some(times) = word.strip_prefix("times=") {
        plan.times = times.parse::<usize>().ok();
    }
}

fn print_figures(rt: &HostRuntime, plan: Plan, figures: Figures) -> io::Result<()> {
    let Plan { readers, .. } = plan;
    let Figures {
        replies,
        batches,
        refused,
    } = figures;
    println!(rt;
        "readers {readers}, replies {replies}, queries without a reply {refused}, batches {batches}"
    )
}
