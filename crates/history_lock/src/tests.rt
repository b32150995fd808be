ghost use Rattle.std.specs.Prelude.{◌≡◌, [], true, false};

use crate::samples::{Book, append_all, append_next, join_and_turn, numbered, open, two_seats};
use crate::{HistoryLock, Seat};
use std::alloc::Global;
use std::sync::Wait;
use std::test::*;
use std::thread::{self, Threads, join};
use std::time::{Clock, Duration};

/// Two threads append so many entries each, and their seats are joined into the first.
fn both_append<R: Threads + Wait + Sync>(
    rt: &R,
    alloc: Global,
    lock: &HistoryLock<Book>,
    first: &mut Seat<Book>,
    count: u64,
) -> Option<()>
    requires { (first.old.lock ≡ lock.now) × (first.old.turning ≡ false) × (first.old.editor ≡ 0) × (first.old.seen ≡ []) }
    ensures { (first.new.lock ≡ lock.now) × (first.new.turning ≡ false) }
{
    let (one, two) = two_seats(lock, first)?;
    let (one, two) = join(
        rt,
        || -> (Seat<Book>, bool)
            requires { (one.lock ≡ lock.now) × (one.turning ≡ false) × (one.seen ≡ []) }
            ensures { (result.0.lock ≡ lock.entry.now) × (result.0.turning ≡ false) }
        { append_all(rt, alloc, lock, one, count) },
        || -> (Seat<Book>, bool)
            requires { (two.lock ≡ lock.now) × (two.turning ≡ false) × (two.seen ≡ []) }
            ensures { (result.0.lock ≡ lock.entry.now) × (result.0.turning ≡ false) }
        { append_all(rt, alloc, lock, two, count) },
    );
    join_and_turn(rt, lock, first, one.0);
    join_and_turn(rt, lock, first, two.0);
    Some(())
}

/// The book that two threads wrote.
fn book_of_two<R: Threads + Wait + Sync>(rt: &R, alloc: Global, count: u64) -> Option<Book> {
    let (lock, mut first) = open(alloc, 1000)?;
    both_append(rt, alloc, &lock, &mut first, count)?;
    Some(lock.close(rt, first))
}

/// Splits 1,023 seats off the first one. Whether they have the editors 1 to 1,023 and the next one is refused.
fn split_all(lock: &HistoryLock<Book>, first: &mut Seat<Book>) -> bool
    requires { (first.old.lock ≡ lock.now) × (first.old.turning ≡ false) × (first.old.editor ≡ 0) × (first.old.noted ≡ 1) }
    ensures { result ≡ true }
{
    for made in 1..1024u32 {
        let Ok(seat) = lock.split(first) else {
            unreachable!()
        };
        if seat.editor() != made {
            return false;
        }
    }
    lock.split(first).is_err()
}

/// Holds its turn for a while.
fn hold<R: Wait + Clock>(rt: &R, lock: &HistoryLock<Book>, mut seat: Seat<Book>) -> Seat<Book>
    requires { (seat.lock ≡ lock.now) × (seat.turning ≡ false) }
    ensures { (result.lock ≡ lock.now) × (result.turning ≡ false) }
{
    let state = lock.turn(rt, &mut seat);
    thread::sleep(rt, Duration::from_millis(50));
    lock.done(&mut seat, state);
    seat
}

/// Two threads take a turn each and hold it for a while, so that one of them parks.
fn both_hold<R: Threads + Wait + Clock + Sync>(
    rt: &R,
    lock: &HistoryLock<Book>,
    first: &mut Seat<Book>,
) -> Option<()>
    requires { (first.old.lock ≡ lock.now) × (first.old.turning ≡ false) × (first.old.editor ≡ 0) × (first.old.seen ≡ []) }
    ensures { (first.new.lock ≡ lock.now) × (first.new.turning ≡ false) }
{
    let (one, two) = two_seats(lock, first)?;
    let (one, two) = join(
        rt,
        || -> Seat<Book>
            requires { (one.lock ≡ lock.now) × (one.turning ≡ false) }
            ensures { (result.lock ≡ lock.entry.now) × (result.turning ≡ false) }
        { hold(rt, lock, one) },
        || -> Seat<Book>
            requires { (two.lock ≡ lock.now) × (two.turning ≡ false) }
            ensures { (result.lock ≡ lock.entry.now) × (result.turning ≡ false) }
        { hold(rt, lock, two) },
    );
    lock.join(first, one);
    lock.join(first, two);
    Some(())
}

#[test]
fn two_threads_append_a_hundred_entries_each(rt: HostRuntime) -> Result<(), Fail> {
    let book = book_of_two(&rt, rt.alloc(), 100).ok_or("memory")?;
    assert_eq!(rt; book.entries.len(), 200);
    assert_eq!(rt; numbered(book.entries.as_slice(), 1), Some(100));
    assert_eq!(rt; numbered(book.entries.as_slice(), 2), Some(100));
    Ok(())
}

#[test]
fn the_first_seat_splits_1023_times(rt: HostRuntime) -> Result<(), Fail> {
    let (lock, mut first) = open(rt.alloc(), 1).ok_or("memory")?;
    assert!(rt; split_all(&lock, &mut first));
    Ok(())
}

#[test]
fn a_joined_seat_carries_both_editors(rt: HostRuntime) -> Result<(), Fail> {
    let alloc = rt.alloc();
    let (lock, mut first) = open(alloc, 1000).ok_or("memory")?;
    let (one, two) = two_seats(&lock, &mut first).ok_or("seats")?;
    let (mut one, _) = append_all(&rt, alloc, &lock, one, 3);
    let (two, _) = append_all(&rt, alloc, &lock, two, 2);
    assert_eq!(rt; one.seen(), 3);
    join_and_turn(&rt, &lock, &mut one, two);
    assert_eq!(rt; one.seen(), 5);
    assert_eq!(rt; one.editor(), 1);
    assert_eq!(rt; first.seen(), 0);
    let book = lock.close(&rt, one);
    assert_eq!(rt; numbered(book.entries.as_slice(), 1), Some(3));
    assert_eq!(rt; numbered(book.entries.as_slice(), 2), Some(2));
    Ok(())
}

#[test]
fn a_full_history_takes_no_entry(rt: HostRuntime) -> Result<(), Fail> {
    let alloc = rt.alloc();
    let (lock, mut first) = open(alloc, 2).ok_or("memory")?;
    assert!(rt; append_next(&rt, alloc, &lock, &mut first, 0));
    assert!(rt; append_next(&rt, alloc, &lock, &mut first, 1));
    assert!(rt; !append_next(&rt, alloc, &lock, &mut first, 2));
    assert_eq!(rt; lock.close(&rt, first).entries.len(), 2);
    Ok(())
}

#[test]
fn a_waiting_seat_parks_and_gets_its_turn(rt: HostRuntime) -> Result<(), Fail> {
    let (lock, mut first) = open(rt.alloc(), 1).ok_or("memory")?;
    both_hold(&rt, &lock, &mut first).ok_or("seats")?;
    assert!(rt; lock.close(&rt, first).entries.is_empty());
    Ok(())
}
