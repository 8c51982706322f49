// The line of a stripe.
ghost use Rattle.std.specs.Prelude.{◌≡◌, false, ◌+◌, ◌*◌, ◌≤◌, ◌<◌, length};
ghost use Rattle.terms.specs.Lists.{put};
ghost use Rattle.geometry.specs.Answers.{beyond_places};
ghost use Rattle.text.specs.Line.{held_text, answer_text, cards_text, written};

use crate::Shape;
use crate::number::put_number;
use geometry::Held;
use terms::Refusal;

// A room that every line fits in: four bytes for the stripe, five for each card, one for the newline.
const ROOM: usize = 45;

// Puts what a card holds into out from a place on, and answers the place behind it.
fn put_held(held: Held, out: &mut [u8], at: usize) -> usize
    requires { at + length (held_text held) ≤ length out.old }
    ensures value { result ≡ at + length (held_text held) }
    ensures out_after { out.new ≡ put at (held_text held) out.old }
{
    match held {
        Held::Block(number) => put_number(number, out, at),
        Held::Parity => {
            out[at] = b'P';
            at + 1
        }
    }
}

// Puts what a card is said to hold, and nothing of a refusal.
fn put_answer(answer: Result<Held, Refusal>, out: &mut [u8], at: usize) -> usize
    requires { at + length (answer_text answer) ≤ length out.old }
    ensures value { result ≡ at + length (answer_text answer) }
    ensures out_after { out.new ≡ put at (answer_text answer) out.old }
{
    match answer {
        Ok(held) => put_held(held, out, at),
        Err(_) => at,
    }
}

// Puts what each card holds in a stripe into out from a place on, each after a space, and answers the place behind them.
// (The place runs along by hand, as `put_number` says.)
fn put_cards(shape: Shape, stripe: u64, out: &mut [u8], at: usize) -> usize
    requires stripes_value { beyond_places shape.cards shape.stripes 5 ≡ false }
    requires stripe_lt_stripes { stripe < shape.stripes }
    requires cards_in_bounds { at + 5 * shape.cards ≤ length out.old }
    ensures value { result ≡ at + length (cards_text shape.cards stripe shape.cards) }
    ensures out_after { out.new ≡ put at (cards_text shape.cards stripe shape.cards) out.old }
{
    let mut end = at;
    for card in 0..shape.cards {
        out[end] = b' ';
        end = put_answer(shape.held_at(card, stripe), out, end + 1);
    }
    end
}

// Puts the line of a stripe at the front of out, and answers its length. Where there is no such line, or out has no room for every
// line, it answers 0 and leaves out as it was.
// (By numbers and no `Shape`: `written`, of which its clauses are, is of them. An Option would say 0 twice: what is written there is empty.)
pub fn write_line(cards: u64, stripes: u64, stripe: u64, out: &mut [u8]) -> usize
    ensures value { result ≡ length (written cards stripes stripe (length out.old)) }
    ensures out_after { out.new ≡ put 0 (written cards stripes stripe (length out.old)) out.old }
{
    let shape = Shape { cards, stripes };
    if out.len() < ROOM || shape.beyond() || stripes <= stripe {
        return 0;
    }
    let at = put_number(stripe, out, 0);
    let end = put_cards(shape, stripe, out, at);
    out[end] = b'\n';
    end + 1
}
