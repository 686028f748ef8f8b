//! What a home does with a request, by how its directory stands.

ghost use Rattle.std.specs.Prelude.{◌≡◌, Some};
ghost use Rattle.home.specs.Plans.{plan, newcomer, holder};

use crate::directory::{Processors, View};
use message::kind::Kind;
use message::table::Table;

/// What a home does with a request for which there is a rule.
#[derive(Clone, Copy, Debug, PartialEq, Eq)]
pub enum Plan {
    /// NACK.
    Refuse,
    /// Ask these; once all are heard, or at once where there is none, finish.
    Ask(Processors),
}

// A holder has no need to ask for a copy.
fn newcomer(holders: Processors, requester: u32, then: Plan) -> Option<Plan>
    ensures { result ≡ newcomer holders requester (Some then) }
{
    (!holders.get(requester)).then_some(then)
}

// Only a holder can better its copy or give it back.
fn holder(holders: Processors, requester: u32, then: Plan) -> Option<Plan>
    ensures { result ≡ holder holders requester (Some then) }
{
    if holders.get(requester) {
        return Some(then);
    }
    Some(Plan::Refuse)
}

impl Plan {
    /// None where there is no rule for it.
    pub(crate) fn of(kind: Kind, view: View, holders: Processors, requester: u32) -> Option<Plan>
        ensures { result ≡ plan kind view holders requester }
    {
        let at_once = Plan::Ask(Table::blank());
        let ask = Plan::Ask(holders);
        let ask_others = Plan::Ask(holders.with(requester, false));
        match (kind, view) {
            (Kind::Gets, View::Idle | View::Shared) | (Kind::Getx, View::Idle) => {
                newcomer(holders, requester, at_once)
            }
            (Kind::Gets, View::Exclusive) | (Kind::Getx, View::Shared | View::Exclusive) => {
                newcomer(holders, requester, ask)
            }
            (Kind::Upg, View::Shared) => holder(holders, requester, ask_others),
            (Kind::Wb, View::Exclusive) => holder(holders, requester, ask),
            (Kind::Rblk, View::Idle | View::Shared) | (Kind::Wblk, View::Idle) => Some(at_once),
            (Kind::Rblk, View::Exclusive) | (Kind::Wblk, View::Shared | View::Exclusive) => {
                Some(ask)
            }
            _ => kind.is_request().then_some(Plan::Refuse),
        }
    }
}
