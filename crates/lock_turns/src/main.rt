//! `lock_turns THREADS TURNS MILLISECONDS`: so many threads take so many turns each at one lock and hold each turn for so long. The scripts of
//! bench/ measure it.
#![tactic(auto)]

ghost use Rattle.std.specs.Prelude.{◌≡◌, ◌<◌, ◌≤◌, [], false, IfSome, vec_len};

mod still;
mod workers;

use history_lock::{HistoryLock, Seat};
use std::alloc::Global;
use std::env;
use std::process::ExitCode;
use std::sync::Wait;
use std::thread::{Threads, for_each_mut};
use std::time::{Clock, Duration};
use still::Still;
use workers::Worker;

/// The most threads.
const MOST_THREADS: u64 = 64;

/// What the words ask for: threads, turns of each, and how long each turn is held.
#[derive(Drop)]
struct Asked {
    threads: usize,
    turns: u64,
    hold: Duration,
}

fn number(words: &[String], place: usize) -> Option<u64> {
    words.get(place)?.parse().ok()
}

fn read_words(words: &[String]) -> Option<Asked>
    ensures { IfSome result (λ a. (0 < a.threads) × (a.threads ≤ 64)) }
{
    let threads = number(words, 0)?;
    let turns = number(words, 1)?;
    let milliseconds = number(words, 2)?;
    if threads == 0 || threads > MOST_THREADS {
        return None;
    }
    Some(Asked {
        threads: threads as usize,
        turns,
        hold: Duration::from_millis(milliseconds),
    })
}

/// A worker with a seat of its own for each thread.
fn seated<'a>(
    alloc: Global,
    lock: &'a HistoryLock<Still>,
    first: &mut Seat<Still>,
    threads: usize,
) -> Option<Vec<Worker<'a>>>
    requires { (first.old.lock ≡ lock.now) × (first.old.turning ≡ false) × (first.old.editor ≡ 0) × (first.old.seen ≡ []) }
    ensures { IfSome result (λ all. vec_len all ≡ threads) }
{
    let mut all = Vec::new(alloc);
    for _ in 0..threads {
        let Ok(seat) = lock.split(first) else {
            return None;
        };
        if all.push(Worker::new(lock, seat)).is_err() {
            return None;
        }
    }
    Some(all)
}

/// Whether all turns were taken.
fn run<R: Threads + Wait + Clock + Sync>(rt: &R, alloc: Global, asked: &Asked) -> bool
    requires { 0 < asked.now.threads }
{
    let Some(state) = Still::new(alloc) else {
        return false;
    };
    let Ok((lock, mut first)) = HistoryLock::start(alloc, state) else {
        return false;
    };
    let Some(mut all) = seated(alloc, &lock, &mut first, asked.threads) else {
        return false;
    };
    for_each_mut(
        rt,
        all.as_mut_slice(),
        asked.threads,
        &|_, worker: &mut Worker| { worker.take_turns(rt, asked.turns, asked.hold) },
    );
    true
}

fn main(rt: HostRuntime) -> ExitCode {
    let mut words = Vec::new(rt.alloc());
    if let Ok(all) = env::args(&rt) {
        for word in all.skip(1) {
            if words.push(word).is_err() {
                return ExitCode::from(8);
            }
        }
    }
    let Some(asked) = read_words(words.as_slice()) else {
        return ExitCode::from(2);
    };
    if !run(&rt, rt.alloc(), &asked) {
        return ExitCode::from(8);
    }
    let turns = (asked.threads as u64).saturating_mul(asked.turns);
    match println!(rt; "turns {turns}") {
        Ok(()) => ExitCode::from(0),
        Err(_) => ExitCode::from(7),
    }
}
