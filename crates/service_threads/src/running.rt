use crate::task::Task;
use std::sync::Wait;
use std::thread::{self, Builder, Scope, Threads};
use std::time::Clock;

/// Runs each task in a thread of its own, whose stack has so many bytes, and answers how many of those that serve were
/// started. Once these have ended, `ending` is done; then it waits for the workers, and for the one that takes in what
/// they find. A task for which no thread can be made is dropped.
pub fn run_tasks<
    R: Threads + Wait + Clock + Sync,
    C: Task + Send + Drop,
    W: Task + Send + Drop,
    S: Task + Send + Drop,
    E: Task + Drop,
>(rt: &R, stack: usize, collector: C, workers: Vec<W>, serving: Vec<S>, ending: E) -> usize {
    thread::scope(thread::scope_env(), rt, move |scope| {
        let _started = Builder::new()
            .stack_size(stack)
            .spawn_scoped(scope, move || collector.run(rt));
        let _started = start_all(rt, scope, stack, workers);
        let count = serve(rt, stack, serving);
        ending.run(rt);
        count
    })
}

// Serves in threads until each has ended, and answers how many were started.
fn serve<R: Threads + Wait + Clock + Sync, S: Task + Send + Drop>(
    rt: &R,
    stack: usize,
    serving: Vec<S>,
) -> usize {
    thread::scope(thread::scope_env(), rt, move |scope| {
        start_all(rt, scope, stack, serving)
    })
}

// Starts threads in a scope, and answers how many were started.
fn start_all<'s, E, R: Threads + Wait + Clock + Sync, T: Task + Send + Drop + 's>(
    rt: &'s R,
    scope: &Scope<'s, E>,
    stack: usize,
    tasks: Vec<T>,
) -> usize {
    let mut count: usize = 0;
    for task in tasks {
        let started = Builder::new()
            .stack_size(stack)
            .spawn_scoped(scope, move || task.run(rt));
        if started.is_ok() {
            count = count.saturating_add(1);
        }
    }
    count
}
