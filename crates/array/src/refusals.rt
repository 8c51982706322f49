// The tests that calls on the table begin with, and the bytes of a mask's units.
// Assumes nothing.
ghost use Rattle.std.specs.Prelude.{◌||◌, ◌≡◌};
ghost use Rattle.terms.specs.Reply.{first_row, refused, done_reply};
ghost use Rattle.array.specs.Lent.{table_wrong, lent_rows, unit_bytes};
ghost use Rattle.geometry.specs.Store.{image_wrong, work_wrong};
ghost use Rattle.record.specs.Asked.{sound_record_in};
ghost use Rattle.record.specs.Survey.{sound_with};

use crate::places::Legal;
use record::{Record, Survey};
use terms::Refusal;

impl Legal {
    // Whether the image is not of its length.
    #[tactic(auto, unfolding(geometry::specs::Store::image_wrong))]
    fn image_wrong(self, image: &[u8]) -> bool
        ensures { result ≡ image_wrong self.state image.now }
    {
        image.len() != self.image_size()
    }

    // Whether the image or a table of so many records is not of its length.
    #[tactic(auto, unfolding(crate::specs::Lent::table_wrong))]
    pub(crate) fn seen_wrong(self, len: u64, image: &[u8]) -> bool
        ensures { result ≡ (image_wrong self.state image.now || table_wrong self.state len) }
    {
        self.image_wrong(image) || len != self.state.records
    }

    // Whether a table of so many records, or the work store, is not of its length.
    #[tactic(auto, unfolding(crate::specs::Lent::table_wrong, geometry::specs::Store::work_wrong))]
    pub(crate) fn stores_wrong(self, len: u64, work: &[u8]) -> bool
        ensures { result ≡ (table_wrong self.state len || work_wrong self.state work.now) }
    {
        len != self.state.records || work.len() != self.work_size()
    }

    // Whether the image, a table of so many records or the work store is not of its length.
    pub(crate) fn lent_wrong(self, len: u64, work: &[u8], image: &[u8]) -> bool
        ensures { result ≡ (image_wrong self.state image.now || table_wrong self.state len || work_wrong self.state work.now) }
    {
        self.image_wrong(image) || self.stores_wrong(len, work)
    }

    // Refusals 2 to 4 of a call on the table.
    #[tactic(auto, unfolding(crate::specs::Lent::lent_rows, terms::specs::Reply::first_row))]
    pub(crate) fn check(self, wrong: bool, sound: bool) -> Result<(), Refusal>
        ensures { done_reply result ≡ refused (first_row (lent_rows self.state wrong sound)) }
    {
        if wrong {
            return Err(Refusal::WrongLength);
        }
        if !sound {
            return Err(Refusal::UnsoundTable);
        }
        if self.state.is_lost() {
            return Err(Refusal::ArrayLost);
        }
        Ok(())
    }

    // m·B, with m the number of ones in the mask.
    #[tactic(auto, using(crate::proofs::Within::products), unfolding(crate::specs::Lent::unit_bytes))]
    pub(crate) fn unit_bytes(self, mask: u64) -> usize
        ensures { result ≡ unit_bytes self.state mask }
    {
        let m = u64::from(mask.count_ones());
        (m * self.state.block) as usize
    }

    // Whether the table is sound, by a survey of the rest of it and the record that the call is about, of which it is known whether it is.
    #[tactic(auto, using(crate::proofs::Accepted::sound_within), unfolding(record::specs::Survey::sound_with))]
    pub(crate) fn sound_with(self, survey: Survey, r: Record, own: bool) -> bool
        requires { own ≡ sound_record_in self.state r }
        ensures { result ≡ sound_with self.state survey r }
    {
        survey.sound && own && !(r.is_open() && survey.is_held(r.stripe))
    }
}
