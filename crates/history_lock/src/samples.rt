//! A state for the tests, and what one thread does at its lock.
ghost use Rattle.std.specs.Prelude.{◌≡◌, ◌+◌, [], false, length, IsTrue, IfSome};
ghost use Rattle.dl_base.specs.Histories.{own};

use crate::{Grows, HistoryLock, Opening, Seat};
use dl_base::{Changes, Entry, Facts, Ontology, Requests};
use std::alloc::Global;
use std::sync::Wait;

/// A state that keeps its entries as they are.
#[derive(Drop)]
pub struct Book {
    pub opening: Opening,
    pub entries: Vec<Entry>,
}

impl Grows for Book {
    ghost opening = { λ b. b.opening };

    ghost entries = { λ b. b.entries.items };
}

fn empty_book(alloc: Global, limit: u64) -> Option<Book>
    ensures { IfSome result (λ b. (b.entries.items ≡ []) × (b.opening.limit ≡ limit)) }
{
    let Ok(ontology) = Ontology::of(alloc, Vec::new(alloc), Vec::new(alloc)) else {
        return None;
    };
    Some(Book {
        opening: Opening {
            ontology,
            facts: Facts::of(Vec::new(alloc)),
            limit,
        },
        entries: Vec::new(alloc),
    })
}

/// A lock round a book, with its first seat.
pub fn open(alloc: Global, limit: u64) -> Option<(HistoryLock<Book>, Seat<Book>)>
    ensures { IfSome result (λ it. (it.1.lock ≡ it.0) × (it.1.turning ≡ false) × (it.1.editor ≡ 0) × (it.1.seen ≡ []) × (it.1.noted ≡ 1)) }
{
    match HistoryLock::start(alloc, empty_book(alloc, limit)?) {
        Ok(made) => Some(made),
        Err(_) => None,
    }
}

/// Appends an entry of the seat's editor with this number, if there is room.
pub fn append_next<R: Wait>(
    rt: &R,
    alloc: Global,
    lock: &HistoryLock<Book>,
    seat: &mut Seat<Book>,
    number: u64,
) -> bool
    requires out { (seat.old.lock ≡ lock.now) × (seat.old.turning ≡ false) }
    requires next { number ≡ length (own seat.old.editor seat.old.seen) }
    ensures out { (seat.new.lock ≡ lock.now) × (seat.new.turning ≡ false) × (seat.new.editor ≡ seat.old.editor) }
    ensures next { IsTrue result → length (own seat.new.editor seat.new.seen) ≡ number + 1 }
{
    let editor = seat.editor();
    let mut state = lock.turn(rt, seat);
    if state.entries.len() as u64 >= state.opening.limit || state.entries.reserve(1).is_err() {
        lock.done(seat, state);
        return false;
    }
    state.entries.push_reserved(Entry {
        editor,
        number,
        requests: Requests::of(Vec::new(alloc)),
        changed: Changes::of(Vec::new(alloc)),
        replaced: None,
    });
    lock.append(seat, state);
    true
}

/// Appends so many entries of the seat's editor, which has none.
pub fn append_all<R: Wait>(
    rt: &R,
    alloc: Global,
    lock: &HistoryLock<Book>,
    mut seat: Seat<Book>,
    count: u64,
) -> (Seat<Book>, bool)
    requires out { (seat.lock ≡ lock.now) × (seat.turning ≡ false) }
    requires first { seat.seen ≡ [] }
    ensures out { (result.0.lock ≡ lock.now) × (result.0.turning ≡ false) }
    ensures all { IsTrue result.1 → length (own result.0.editor result.0.seen) ≡ count }
{
    for number in 0..count {
        if !append_next(rt, alloc, lock, &mut seat, number) {
            return (seat, false);
        }
    }
    (seat, true)
}

/// Joins the other seat in and takes a turn. Both editors still have the entries that their seats had seen.
pub fn join_and_turn<R: Wait>(
    rt: &R,
    lock: &HistoryLock<Book>,
    seat: &mut Seat<Book>,
    other: Seat<Book>,
)
    requires own { (seat.old.lock ≡ lock.now) × (other.lock ≡ lock.now) }
    requires out { (seat.old.turning ≡ false) × (other.turning ≡ false) }
    ensures out { (seat.new.lock ≡ lock.now) × (seat.new.turning ≡ false) × (seat.new.editor ≡ seat.old.editor) }
    ensures this { own seat.old.editor seat.new.seen ≡ own seat.old.editor seat.old.seen }
    ensures that { own other.editor seat.new.seen ≡ own other.editor other.seen }
{
    let _carried = seat.editor();
    let _carried = other.editor();
    lock.join(seat, other);
    let state = lock.turn(rt, seat);
    lock.done(seat, state);
}

/// Two seats split off the first one.
pub fn two_seats(
    lock: &HistoryLock<Book>,
    first: &mut Seat<Book>,
) -> Option<(Seat<Book>, Seat<Book>)>
    requires { (first.old.lock ≡ lock.now) × (first.old.turning ≡ false) × (first.old.editor ≡ 0) × (first.old.seen ≡ []) }
    ensures first { (first.new.lock ≡ lock.now) × (first.new.turning ≡ false) × (first.new.editor ≡ 0) }
    ensures two { IfSome result (λ s. (s.0.lock ≡ lock.now) × (s.0.turning ≡ false) × (s.0.seen ≡ []) × (s.1.lock ≡ lock.now) × (s.1.turning ≡ false) × (s.1.seen ≡ [])) }
{
    let Ok(one) = lock.split(first) else {
        return None;
    };
    let Ok(two) = lock.split(first) else {
        return None;
    };
    Some((one, two))
}

/// How many entries the editor has, if they are numbered from 0.
pub fn numbered(entries: &[Entry], editor: u32) -> Option<u64> {
    let mut count = 0;
    for entry in entries {
        if entry.editor == editor {
            if entry.number != count {
                return None;
            }
            count += 1;
        }
    }
    Some(count)
}
