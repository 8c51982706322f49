// The survey of a table: made record by record, and asked for a stripe.
ghost use Rattle.std.specs.Prelude.{cond, not, ◌&&◌, ltb, eqb, ◌≡◌, ◌≤◌, ◌<◌, set};
ghost use Rattle.record.specs.Asked.{sound_record_in};
ghost use Rattle.record.specs.Seen.{looks_at_many, to_see, started, held_before, seen};
ghost use Rattle.record.specs.Life.{free};
ghost use Rattle.record.specs.Sound.{all_zero};
ghost use Rattle.record.specs.Survey.{held_in};

use crate::{Record, Survey};
use geometry::{NO_STRIPE, State};

// Whether a table of so many records is looked at: any other is refused by the limits or by its length, whatever stands in it.
#[tactic(auto, using(std::proofs::lemmas::Bool::Decides::nat_tests), unfolding(crate::specs::Seen::looks_at_many))]
fn looks_at(state: State, len: u64) -> bool
    ensures { result ≡ looks_at_many state len }
{
    len <= 8 && state.cards <= 8 && state.stripes <= 1024
}

impl Survey {
    // How many records of a table of so many are looked at: all or none.
    #[tactic(auto, unfolding(crate::specs::Seen::to_see))]
    pub fn to_see(state: State, len: u64) -> u64
        ensures { result ≡ to_see state len }
    {
        if looks_at(state, len) { len } else { 0 }
    }

    // What is known of a table of so many records before the first is looked at.
    #[tactic(auto, unfolding(crate::specs::Seen::started))]
    pub fn started(state: State, len: u64) -> Survey
        ensures { result ≡ started state len }
    {
        Survey {
            len,
            sound: looks_at(state, len),
            held: [NO_STRIPE; 8],
            free: len,
        }
    }

    // One of the first i records holds the stripe. By a loop: with `contains` a request takes 1.9 % more instructions.
    #[tactic(auto, using(crate::proofs::HeldBefore::held_take, crate::proofs::HeldBefore::held_one, std::proofs::lemmas::List::take_all))]
    fn held_before(self, stripe: u64, i: usize) -> bool
        requires { i ≤ 8 }
        ensures { result ≡ held_before self stripe i }
    {
        for held in &self.held[..i] {
            if *held == stripe {
                return true;
            }
        }
        false
    }

    // The lowest free record as far as a free record at i.
    fn first_free(self, i: u64) -> u64
        ensures { result ≡ cond (eqb self.free self.len) i self.free }
    {
        if self.free == self.len { i } else { self.free }
    }

    // The survey after a free record at i.
    fn seen_free(self, i: u64, r: Record) -> Survey
        ensures { result ≡ record { len = self.len; sound = self.sound && all_zero r; held = self.held; free = cond (eqb self.free self.len) i self.free } }
    {
        Survey {
            sound: self.sound && r.all_zero(),
            free: self.first_free(i),
            ..self
        }
    }

    // The survey after an open record at i on the stripe, with all right so far.
    fn seen_open(self, right: bool, stripe: u64, i: usize) -> Survey
        requires { i < 8 }
        ensures { result ≡ record { len = self.len; sound = right && not (held_before self stripe i); held = set self.held i stripe; free = self.free } }
    {
        let sound = right && !self.held_before(stripe, i);
        let mut held = self.held;
        held[i] = stripe;
        Survey {
            sound,
            held,
            ..self
        }
    }

    // The survey after record r at i; as it was where there is no such place. (With each field made anew the machine code is the same.) By returns, here
    // and in the two below: with the survey as the value of an `if`, a request takes 1 % more instructions.
    #[tactic(auto, using(std::proofs::lemmas::Bool::Decides::nat_tests), unfolding(crate::specs::Seen::seen, crate::specs::Seen::still_sound, crate::specs::Seen::still_free, crate::specs::Seen::fine))]
    pub fn seen(self, state: State, i: u64, r: Record) -> Survey
        ensures { result ≡ seen state self i r }
    {
        if i > 7 {
            return self;
        }
        if r.is_free() {
            return self.seen_free(i, r);
        }
        let right = self.sound && r.is_sound(state);
        let open = r.is_open();
        if open {
            return self.seen_open(right, r.stripe, i as usize);
        }
        Survey {
            sound: right,
            ..self
        }
    }

    // The survey after a record at i that is left out: it counts as a free one, and is not looked at. As it was where there is no such place.
    #[tactic(auto, using(std::proofs::lemmas::Bool::Decides::nat_tests))]
    fn left_out(self, i: u64) -> Survey
        ensures { result ≡ cond (ltb i 8) (record { len = self.len; sound = self.sound; held = self.held; free = cond (eqb self.free self.len) i self.free }) self }
    {
        if i > 7 {
            return self;
        }
        Survey {
            free: self.first_free(i),
            ..self
        }
    }

    // The survey after record r at i, which is left out where i is this place.
    #[tactic(auto, using(std::proofs::lemmas::Bool::Decides::nat_tests), unfolding(crate::specs::Seen::seen, crate::specs::Seen::still_sound, crate::specs::Seen::still_free, crate::specs::Seen::fine, crate::specs::Sound::all_zero))]
    pub fn seen_but(self, state: State, i: u64, r: Record, but: u64) -> Survey
        ensures { result ≡ seen state self i (cond (eqb i but) free r) }
    {
        if i == but {
            return self.left_out(i);
        }
        self.seen(state, i, r)
    }

    // An open request holds the stripe.
    #[tactic(auto, using(crate::proofs::SurveyTells::held_eight))]
    pub fn is_held(self, stripe: u64) -> bool
        ensures { result ≡ held_in self stripe }
    {
        self.held_before(stripe, 8)
    }
}
