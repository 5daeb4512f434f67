// Whole broadcasts: each seat puts for both slots, and every letter is handed over. In loops, as in the plain Rust that it is compared with.
use broadcast::cell::Cell;
use carrier::carrier::Carrier;
use letters::letters::Letters;
use roster::moves::{Move, MoveKind};
use roster::roster::Roster;

// As many cells as the largest roster needs.
const CELLS: usize = 200;

// How many puts and hand-overs were granted in so many rounds.
pub fn play(roster: Roster, rounds: u64) -> u64 {
    let mut cells = [Cell::blank(); CELLS];
    play_on(roster, &mut cells, rounds)
}

fn play_on(roster: Roster, cells: &mut [Cell], rounds: u64) -> u64 {
    let mut granted: u64 = 0;
    for _ in 0..rounds {
        granted = granted.saturating_add(play_round(roster, cells));
    }
    granted
}

fn play_round(roster: Roster, cells: &mut [Cell]) -> u64 {
    let n = roster.size().n();
    let mut letters = Letters::new(roster, cells);
    let mut granted = put_all(&mut letters, n);
    for letter in 1..=3 {
        granted = granted.saturating_add(hand_all(&mut letters, n, letter));
    }
    granted
}

fn put_all(letters: &mut Letters<'_>, n: u64) -> u64 {
    let mut granted: u64 = 0;
    for seat in 1..=n {
        for slot in 1..=2 {
            let answer = letters.put(seat, slot, seat);
            granted = granted.saturating_add(u64::from(answer.is_ok()));
        }
    }
    granted
}

// Every letter of a kind, to everyone.
fn hand_all(letters: &mut Letters<'_>, n: u64, letter: u64) -> u64 {
    let mut granted: u64 = 0;
    for from in 1..=n {
        for to in 1..=n {
            granted = granted.saturating_add(hand(letters, n, letter, from, to));
        }
    }
    granted
}

// One seat's letters of a kind to another, for each origin and slot.
fn hand(letters: &mut Letters<'_>, n: u64, letter: u64, from: u64, to: u64) -> u64 {
    let mut granted: u64 = 0;
    for origin in 1..=n {
        for slot in 1..=2 {
            let by = Move {
                address: 0,
                kind: MoveKind::HandOver.into(),
                from,
                to,
                letter,
                origin,
                slot,
                code: 0,
            };
            granted = granted.saturating_add(u64::from(letters.step(by).is_ok()));
        }
    }
    granted
}
