// A small race on five cards: swimmers touch, a card dies between two steps of a write, a spare is filled while touches go on, another card dies, and
// every touch is read back. Each line tells what the library's own calls answered.
#![tactic(auto)]

use desk::Desk;
use onward::Onward;
use std::io;
use touch::Touch;

mod desk;
mod onward;
mod scenes;
mod told;
mod touch;

// The first touch of each swimmer, of one stripe and the next.
const FIRST: [[Touch; 4]; 2] = [
    [
        *b"chip 01 12:04.31",
        *b"chip 02 12:04.33",
        *b"chip 03 12:04.70",
        *b"chip 04 12:04.98",
    ],
    [
        *b"chip 05 12:06.12",
        *b"chip 06 12:06.15",
        *b"chip 07 12:06.40",
        *b"chip 08 12:07.02",
    ],
];

// The touches after the card has died.
const LATER: [Touch; 8] = [
    *b"chip 01 12:04.31",
    *b"chip 02 12:04.30",
    *b"chip 03 12:04.70",
    *b"chip 04 12:04.98",
    *b"chip 05 12:18.77",
    *b"chip 06 12:18.79",
    *b"chip 07 12:06.40",
    *b"chip 08 12:07.02",
];

// The touches after the spare is filled.
const LAST: [Touch; 10] = [
    *b"chip 01 12:04.31",
    *b"chip 02 12:04.30",
    *b"chip 03 12:04.70",
    *b"chip 04 12:04.98",
    *b"chip 05 12:31.54",
    *b"chip 06 12:18.79",
    *b"chip 07 12:06.40",
    *b"chip 08 12:07.02",
    *b"chip 09 12:31.58",
    *b"chip 10 12:31.50",
];

// The race, from the opening to the last reading.
fn race(rt: &impl Print) -> io::Result<()> {
    let Some(mut desk) = Desk::open(rt)? else {
        return Ok(());
    };
    scenes::first_lap(rt, &mut desk, &FIRST)?;
    scenes::card_dies(rt, &mut desk, &LATER)?;
    scenes::race_goes_on(rt, &mut desk, &LATER)?;
    scenes::read_back(rt, &mut desk, &LATER, 4)?;
    scenes::spare(rt, &mut desk, &LAST)?;
    scenes::another_dies(rt, &mut desk, 5)?;
    scenes::read_back(rt, &mut desk, &LAST, 5)
}

fn main(rt: HostRuntime) {
    let _ = race(&Onward(&rt));
}
