// When a record is sound, clause by clause.
ghost use Rattle.std.specs.Prelude.{false, cond, not, ◌&&◌, ◌≡◌, ◌+◌, ◌*◌, ◌≤◌, leb};
ghost use Rattle.geometry.specs.Placement.{missing_at};
ghost use Rattle.record.specs.Asked.{few_in, sound_record_in};
ghost use Rattle.record.specs.Life.{is_free, is_open, chosen_at};
ghost use Rattle.record.specs.Look.{seen_as, found, nothing, look_of};
ghost use Rattle.record.specs.Sound.{all_zero, legal_mask, legal_record, legal_chosen};

use crate::life::{units, units_of};
use crate::{Look, Record};
use geometry::{NONE, State, missing_at};

// A legal mask of n units: not zero, and no bit at n or above.
#[tactic(auto, using(std::proofs::lemmas::Bool::Decides::nat_tests), unfolding(crate::specs::Sound::legal_mask))]
pub fn legal_mask(n: u64, mask: u64) -> bool
    ensures { result ≡ legal_mask n mask }
{
    mask != 0 && (n > 63 || mask < 1 << n)
}

// Nothing found but whether the record is sound.
#[tactic(auto, unfolding(crate::specs::Look::nothing))]
fn nothing(sound: bool) -> Look
    ensures { result ≡ nothing sound }
{
    Look {
        sound,
        ..Look::default()
    }
}

impl Record {
    // Every number of the record is zero. By one test: `self == free()` makes eight, and a request takes 4 % more instructions with it.
    #[tactic(auto, using(crate::proofs::Zero::or_zero), unfolding(crate::specs::Sound::all_zero))]
    pub(crate) fn all_zero(self) -> bool
        ensures { result ≡ all_zero self }
    {
        (self.phase
            | self.write
            | self.stripe
            | self.mask
            | self.graph
            | self.chosen
            | self.done
            | self.count)
            == 0
    }

    // Open or finished, with a legal kind, stripe, mask and graph, in an array of so many cards and stripes.
    #[tactic(auto, using(std::proofs::lemmas::Bool::Decides::nat_tests), unfolding(crate::specs::Sound::legal_record, terms::specs::Sets::within))]
    fn is_legal(self, cards: u64, stripes: u64) -> bool
        ensures { result ≡ legal_record (seen_as cards stripes 0 0) self }
    {
        (self.is_open() || self.is_finished())
            && self.write <= 1
            && self.stripe < stripes
            && legal_mask(units_of(cards), self.mask)
            && (1..=6).contains(&self.graph)
    }

    // Its chosen-with card is 255; or, of an open one, the card that is missing in its stripe now, and of a finished one any card.
    #[tactic(auto, using(std::proofs::lemmas::Bool::Decides::nat_tests), unfolding(crate::specs::Sound::legal_chosen, geometry::specs::Placement::filled, geometry::specs::Placement::out_in))]
    fn legal_chosen(self, cards: u64, now: u64) -> bool
        ensures { result ≡ legal_chosen (seen_as cards 0 0 now) self }
    {
        self.chosen == NONE
            || if self.is_open() {
                self.chosen == now
            } else {
                self.chosen < cards
            }
    }

    // An open one lacks a step and counts at most 2n+2, one that is not open lacks none and counts at most 2n+3. (`looked` has
    // tested n.)
    fn right_count(self, n: u64, lacks_none: bool) -> bool
        requires { n ≤ 7 }
        ensures { result ≡ cond (is_open self) (not lacks_none && leb self.count (2 * n + 2)) (lacks_none && leb self.count (2 * n + 3)) }
    {
        if self.is_open() {
            !lacks_none && self.count <= 2 * n + 2
        } else {
            lacks_none && self.count <= 2 * n + 3
        }
    }

    // A free record is sound: every number is zero.
    #[tactic(auto, using(std::proofs::lemmas::Bool::Decides::nat_tests), unfolding(graph::specs::Asked::few_units))]
    fn free_sound(self, state: State) -> bool
        ensures { result ≡ (few_in state && all_zero self) }
    {
        units(state) <= 7 && self.all_zero()
    }

    // What is found of a record that is not free, in an array of so many cards and stripes and this layout; now is the card that is missing in its
    // stripe, x the position that was missing at its choice, and out is handed on. It takes numbers: a state by value would be copied for each record.
    #[tactic(auto, using(crate::proofs::Looked::looked_is, std::proofs::lemmas::Bool::Decides::nat_tests), unfolding(graph::specs::Asked::few_units))]
    fn looked(self, cards: u64, stripes: u64, layout: u64, now: u64, x: u64, out: u64) -> Look
        requires { (is_free self ≡ false) × (x ≡ chosen_at (seen_as cards stripes layout now) self) }
        ensures { result ≡ cond (sound_record_in (seen_as cards stripes layout now) self) (found (seen_as cards stripes layout now) self out) (nothing false) }
    {
        let n = units_of(cards);
        if n > 7 || !self.is_legal(cards, stripes) || !self.legal_chosen(cards, now) {
            return nothing(false);
        }
        let right = graph::choose(n, self.is_write(), self.mask, x).number();
        if self.graph != right {
            return nothing(false);
        }
        let judged = self.plan(n, x).judge(self.done);
        if !judged.right || !self.right_count(n, judged.whole) {
            return nothing(false);
        }
        Look {
            sound: true,
            x,
            out,
            steps: judged.steps,
            reads: judged.reads,
        }
    }

    // The record is sound.
    #[tactic(auto, using(crate::proofs::Looks::look_sound))]
    pub fn is_sound(self, state: State) -> bool
        ensures { result ≡ sound_record_in state self }
    {
        self.look(state).sound
    }

    // The position of the card that is missing now, where x is that of the one at the choice.
    fn missing_now(self, cards: u64, layout: u64, now: u64, x: u64) -> u64
        requires { x ≡ missing_at cards layout self.stripe self.chosen }
        ensures { result ≡ missing_at cards layout self.stripe now }
    {
        if self.chosen == now {
            x
        } else {
            missing_at(cards, layout, self.stripe, now)
        }
    }

    // What one look at the record finds.
    #[tactic(auto, using(crate::proofs::Looks::busy_by, crate::proofs::Looks::look_free, crate::proofs::Looks::look_busy))]
    pub fn look(self, state: State) -> Look
        ensures { result ≡ look_of state self }
    {
        if self.is_free() {
            return nothing(self.free_sound(state));
        }
        let now = state.out_in(self.stripe);
        let x = self.chosen_at(state);
        let out = self.missing_now(state.cards, state.layout, now, x);
        self.looked(state.cards, state.stripes, state.layout, now, x, out)
    }
}
