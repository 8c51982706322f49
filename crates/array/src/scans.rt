// Scan: the parity of the stripes that no open request holds.
// Assumes nothing.
ghost use Rattle.std.specs.Prelude.{◌≡◌};
ghost use Rattle.terms.specs.Reply.{done_reply};
ghost use Rattle.array.specs.Scan.{scan_reply_by};

use crate::places::Legal;
use geometry::{NONE, State};
use parity::scan_but;
use record::Survey;
use terms::Refusal;

// Scans the stripes that no open request holds, by a survey of the table. It isn't lent the work store.
#[tactic(auto, using(crate::proofs::ScanBy::scan_tests))]
pub fn scan_by(state: State, survey: Survey, image: &[u8]) -> Result<(), Refusal>
    ensures { done_reply result ≡ scan_reply_by state survey image.now }
{
    let legal = Legal::new(state)?;
    legal.check(legal.seen_wrong(survey.len, image), survey.sound)?;
    if state.out != NONE {
        return Err(Refusal::CardOut);
    }
    scan_but(state, image, survey.held)
}
