// A close of an hour (02, order 3), which has no key.
ghost use Rattle.std.specs.Prelude.{◌≡◌};
ghost use Rattle.refusals.specs.Refusals.{verdict_of};
ghost use Rattle.records.specs.Records.{blank};
ghost use Rattle.messages.specs.Plan.{plan};

use messages::types::{Closing, Deed, Message};
use refusals::Refusal;

// Refusal 11 is seen in the places: it is not asked here.
#[tactic(auto, unfolding(messages::specs::Plan::plan, closings::specs::Closings::close_rows, refusals::specs::Refusals::judge, refusals::specs::Refusals::answered, refusals::specs::Refusals::first))]
pub fn close(closing: Closing, paths: &[u64], prices: &[i64]) -> Result<Deed, Refusal>
    ensures { verdict_of result ≡ plan blank (Message.Close closing) paths.now prices.now }
{
    closings::check_close(closing.hour, paths, prices)?;
    Ok(Deed::CloseHour(closing.hour))
}
