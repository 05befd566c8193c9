//! Three seats of a turn lock on threads.
ghost use Rattle.std.specs.Prelude.{IfOk};
ghost use Rattle.turn_lock.specs.Contract.{AreAll, IsOf};
ghost use Rattle.part_tests.specs.Signing.{GrewBy};

use std::alloc::{AllocError, Global};
use std::marker::Model;
use std::sync::Wait;
use std::test::Fail;
use std::thread;
use std::thread::Threads;
use turn_lock::{Journaled, Seat, Seats, TurnLock};

const SEATS: usize = 3;

const TURNS: u32 = 200;

// What seats write down: each entry with the number of its seat.
#[derive(Drop)]
struct Diary {
    entries: Vec<(u32, u32)>,
}

impl Model for Diary {
    ghost use Rattle.std.specs.Prelude.{ℕ, List, map};
    ghost use Rattle.turn_lock.specs.declared.signed.Signed.{Signed};
    ghost use Rattle.part_tests.specs.Signing.{signed};

    ghost Value = { List (Signed ℕ) };

    ghost view = { λ d. map signed d.entries.items };
}

impl Journaled<u32> for Diary {
    ghost journal = { λ d. d };
}

impl Diary {
    // Adds an entry, or none where memory is wanting.
    fn add(&mut self, by: u32, entry: u32)
        ensures { GrewBy by self.old self.new }
    {
        let _ = self.entries.push((by, entry));
    }
}

// The seat comes to its turn once, and writes this down.
fn one_turn<R: Wait>(
    rt: &R,
    lock: &TurnLock<Diary, u32>,
    seat: Seat<Diary, u32>,
    entry: u32,
) -> Seat<Diary, u32>
    requires { IsOf lock.now.table.shared.table_id seat }
    ensures { IsOf lock.now.table.shared.table_id result }
{
    let by = seat.number();
    let mut turn = lock.take(rt, seat);
    turn.value().add(by, entry);
    lock.give(turn)
}

// The seat writes down the numbers of its turns.
fn work<R: Wait>(
    rt: &R,
    lock: &TurnLock<Diary, u32>,
    mut seat: Seat<Diary, u32>,
) -> Seat<Diary, u32>
    requires { IsOf lock.now.table.shared.table_id seat }
    ensures { IsOf lock.now.table.shared.table_id result }
{
    for entry in 0..TURNS {
        seat = one_turn(rt, lock, seat, entry);
    }
    seat
}

// Each seat works in a thread of its own.
fn work_all<R: Threads + Wait + Sync>(
    rt: &R,
    lock: &TurnLock<Diary, u32>,
    seats: Seats<Diary, u32>,
) -> Result<Seats<Diary, u32>, AllocError>
    requires { AreAll lock.now.table.shared.table_id lock.now.table.shared.key.seats seats.items }
    ensures { IfOk result (λ seats. AreAll lock.now.table.shared.table_id lock.now.table.shared.key.seats seats.items) }
{
    thread::map_vec(
        rt,
        seats,
        &|seat: Seat<Diary, u32>|
            requires { IsOf lock.now.table.shared.table_id seat }
            ensures { IsOf lock.entry.now.table.shared.table_id result }
        { work(rt, lock, seat) },
    )
}

// Whether the entries of the seat are the numbers of its turns, in order.
fn is_in_order(entries: &[(u32, u32)], by: u32) -> bool {
    let own = entries.iter().filter(|entry| entry.0 == by);
    own.map(|entry| entry.1).eq(0..TURNS)
}

#[test]
fn each_seat_finds_its_entries_in_their_order(rt: HostRuntime) -> Result<(), Fail> {
    let mut good = true;
    let alloc = rt.alloc();
    let diary = Diary {
        entries: Vec::new(alloc),
    };
    let Ok((lock, seats)) = TurnLock::new(alloc, diary, SEATS) else {
        return Err(Fail::from("no memory"));
    };
    let seats = work_all(&rt, &lock, seats)?;
    let diary = lock.close(seats);
    let entries = diary.entries.as_slice();
    good &= entries.len() == 600;
    for by in 0..3 {
        good &= is_in_order(entries, by);
    }
    assert!(rt; good);
    Ok(())
}
