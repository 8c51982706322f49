// The scenes of the race. Block j, which is unit j mod 4 of stripe j div 4, holds the latest touch of chip j + 1: of the first touches, then of the
// later ones, then of the last.
use crate::desk::{Desk, unit_of};
use crate::told;
use crate::touch::{Touch, text};
use std::io;

// Four swimmers touch together: a write of a whole stripe, from its first block on.
fn together(
    rt: &impl Print,
    desk: &mut Desk,
    first: u64,
    touches: &[Touch; 4],
    aloud: bool,
) -> io::Result<()> {
    println!(rt; "Four swimmers touch together: the stripe of block {first}")?;
    desk.write(rt, first, 15, touches.as_flattened(), aloud)
}

// The first lap: eight swimmers touch, and the scan finds parity right.
pub(crate) fn first_lap(
    rt: &impl Print,
    desk: &mut Desk,
    touches: &[[Touch; 4]; 2],
) -> io::Result<()> {
    together(rt, desk, 0, &touches[0], true)?;
    together(rt, desk, 4, &touches[1], false)?;
    desk.scan(rt)
}

// Tells of a touch, and the block that it is for.
fn tell(rt: &impl Print, what: &str, block: u64, sent: &Touch) -> io::Result<()> {
    println!(rt; "{what}: {}, block {block}", text(sent))
}

// A touch, as far as the first three steps of its write; answers its record's place.
fn begun(
    rt: &impl Print,
    desk: &mut Desk,
    what: &str,
    block: u64,
    sent: &Touch,
) -> io::Result<Option<u64>> {
    tell(rt, what, block, sent)?;
    let place = desk.admit(rt, block, true, unit_of(block), sent)?;
    if let Some(i) = place {
        desk.run(rt, i, 3, true)?;
    }
    Ok(place)
}

// A touch from its first step to its last, told in short.
fn written(
    rt: &impl Print,
    desk: &mut Desk,
    what: &str,
    block: u64,
    sent: &Touch,
) -> io::Result<()> {
    tell(rt, what, block, sent)?;
    desk.write(rt, block, unit_of(block), sent, false)
}

// Tells between which two steps of a record a card dies, and reports it.
fn dies_between(rt: &impl Print, desk: &mut Desk, i: u64, card: u64) -> io::Result<()> {
    if let Some((last, next)) = desk.last_and_next(i) {
        println!(rt; "Card {card} dies between {last}, and {next}")?;
    }
    desk.report(rt, card)
}

// A swimmer touches alone; meanwhile a touch for the same stripe is turned away, and another is read; then the card of that touch dies between two
// steps of its write. The step that meets it has the graph chosen afresh, and the write goes on to its end.
pub(crate) fn card_dies(rt: &impl Print, desk: &mut Desk, later: &[Touch; 8]) -> io::Result<()> {
    let Some(i) = begun(rt, desk, "A swimmer touches alone", 4, &later[4])? else {
        return Ok(());
    };
    tell(
        rt,
        "Another touches while that stripe is held",
        5,
        &later[5],
    )?;
    desk.turn_away(rt, 5, &later[5])?;
    rt.println("The board reads a touch meanwhile")?;
    desk.read(rt, 2, &later[2])?;
    dies_between(rt, desk, i, desk.card_of(4))?;
    desk.finish(rt, i, true)
}

// With the card out, the touch that was turned away asks again, and a time is corrected.
pub(crate) fn race_goes_on(rt: &impl Print, desk: &mut Desk, later: &[Touch; 8]) -> io::Result<()> {
    written(
        rt,
        desk,
        "The touch that was turned away, again",
        5,
        &later[5],
    )?;
    written(rt, desk, "The desk corrects a time", 1, &later[1])
}

// A spare is pushed into the sleeve of a card, and its fill begins.
fn pushed_in(rt: &impl Print, desk: &mut Desk, card: u64) -> io::Result<()> {
    println!(rt; "A spare is pushed in for card {card}, and its bytes are noise")?;
    desk.start(rt, card)
}

// A spare is filled stripe by stripe while touches go on: one ahead of the fill, one behind it, and one at the stripe that is filled next, where the fill
// waits for its last step. In the end no card is out, and the scan finds parity right.
pub(crate) fn spare(rt: &impl Print, desk: &mut Desk, last: &[Touch; 10]) -> io::Result<()> {
    pushed_in(rt, desk, desk.card_of(4))?;
    written(rt, desk, "A swimmer touches ahead of the fill", 9, &last[9])?;
    desk.rebuild(rt)?;
    desk.rebuild(rt)?;
    written(rt, desk, "A swimmer touches behind the fill", 4, &last[4])?;
    let what = "A swimmer touches at the stripe that is filled next";
    let begun = begun(rt, desk, what, 8, &last[8])?;
    desk.rebuild(rt)?;
    if let Some(i) = begun {
        desk.finish(rt, i, true)?;
    }
    for _ in 0..3 {
        desk.rebuild(rt)?;
    }
    desk.scan(rt)
}

// Another card dies: that of a block.
pub(crate) fn another_dies(rt: &impl Print, desk: &mut Desk, block: u64) -> io::Result<()> {
    let card = desk.card_of(block);
    println!(rt; "Another card dies, card {card}")?;
    desk.report(rt, card)
}

// Reads every touch back, and answers how many are what was sent.
fn read_all(rt: &impl Print, desk: &mut Desk, touches: &[Touch]) -> io::Result<u64> {
    let mut same = 0;
    for (block, sent) in touches.iter().enumerate() {
        if desk.read(rt, block as u64, sent)? {
            same += 1;
        }
    }
    Ok(same)
}

// The touch that a dead card held, inferred from the other cards.
fn dead_cards_touch(rt: &impl Print, desk: &Desk, block: u64, sent: &Touch) -> io::Result<()> {
    let card = desk.card_of(block);
    let stripe = block / 4;
    print!(rt;
        "Card {card} held unit {} of stripe {stripe}; the other cards infer: ",
        block % 4
    )?;
    told::compared(rt, &desk.inferred(card, stripe), sent)
}

// Every touch is read back, and the one that the dead card held is inferred: that of a block.
pub(crate) fn read_back(
    rt: &impl Print,
    desk: &mut Desk,
    touches: &[Touch],
    block: usize,
) -> io::Result<()> {
    rt.println("Every touch is read back")?;
    let same = read_all(rt, desk, touches)?;
    desk.scan(rt)?;
    if let Some(sent) = touches.get(block) {
        dead_cards_touch(rt, desk, block as u64, sent)?;
    }
    told::came_back(rt, same, touches.len())
}
