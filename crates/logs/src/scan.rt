// Looking through a log: what is resolved, which amount an id has, and the rate.
ghost use Rattle.std.specs.Prelude.{◌≡◌, ◌||◌};
ghost use Rattle.std.specs.List.{list_any};
ghost use Rattle.std.specs.Option.{option_map};
ghost use Rattle.logs.specs.Logs.{mean, means, resolved, amount_if, amount_of, rate_by, rate_after};
ghost use Rattle.logs.specs.Resolutions.{resolves};

use crate::update::{Resolution, Update};
use money::kind::Money;

// Whether an update resolves the add with an id in this way.
fn resolves<M: Money>(update: &Update<M>, way: Resolution, wanted: u16) -> bool
    ensures { result ≡ resolves way wanted (mean M.Money update.now) }
{
    match (update, way) {
        (Update::Fulfil { id, .. }, Resolution::Fulfilled) => *id == wanted,
        (Update::Fail { id }, Resolution::Failed) => *id == wanted,
        _ => false,
    }
}

// Whether a log resolves the add with an id in this way.
pub fn has<M: Money>(log: &[Update<M>], way: Resolution, id: u16) -> bool
    ensures { result ≡ list_any (resolves way id) (means M.Money log.now) }
{
    for update in log {
        if resolves(update, way, id) {
            return true;
        }
    }
    false
}

// Whether a log fulfils or fails the add with an id.
pub fn is_resolved<M: Money>(log: &[Update<M>], id: u16) -> bool
    ensures { result ≡ resolved (means M.Money log.now) id }
{
    has(log, Resolution::Fulfilled, id) || has(log, Resolution::Failed, id)
}

// The amount of an update, if it is the add with an id.
fn amount_if<M: Money>(update: &Update<M>, wanted: u16) -> Option<M>
    ensures { option_map M.asset result ≡ amount_if wanted (mean M.Money update.now) }
{
    match update {
        Update::Add { id, amount, .. } if *id == wanted => Some(*amount),
        _ => None,
    }
}

// The amount of the add with an id.
pub fn amount_of<M: Money>(log: &[Update<M>], id: u16) -> Option<M>
    ensures { option_map M.asset result ≡ amount_of (means M.Money log.now) id }
{
    for update in log {
        if let Some(amount) = amount_if(update, id) {
            return Some(amount);
        }
    }
    None
}

// The rate after an update.
fn rate_by<M: Money>(rate: u32, update: &Update<M>) -> u32
    ensures { result ≡ rate_by rate (mean M.Money update.now) }
{
    match update {
        Update::Fee { rate: next } => *next,
        _ => rate,
    }
}

// The rate after a log.
pub fn rate_after<M: Money>(opening: u32, log: &[Update<M>]) -> u32
    ensures { result ≡ rate_after opening (means M.Money log.now) }
{
    log.iter()
        .fold(opening, |rate, update| rate_by(rate, update))
}
