//! What a node does when it is called or a message reaches it: a value that touches nothing.

ghost use Rattle.std.specs.Prelude.{◌≡◌};
ghost use Rattle.message.specs.Reactions.{silent, single, sent_count, telling, quiet, sending, doing};

use crate::message::Message;
use trail::entry::Entry;

// The board stands in fixed memory, so no `Vec`.
/// Up to four messages; the full places hold what is sent, in their order.
#[derive(Clone, Copy, Debug, PartialEq, Eq)]
pub struct Outbox {
    pub at: [Option<Message>; 4],
}

impl Outbox {
    /// Nothing is sent.
    pub fn silent() -> Outbox
        ensures { result ≡ silent }
    {
        Outbox { at: [None; 4] }
    }

    /// One message is sent.
    pub fn single(message: Message) -> Outbox
        ensures { result ≡ single message }
    {
        Outbox {
            at: [Some(message), None, None, None],
        }
    }

    /// How many messages it holds.
    #[tactic(auto, using(crate::proofs::Counts::full_places))]
    pub fn count(self) -> usize
        ensures { result ≡ sent_count self }
    {
        self.at.iter().filter(|place| place.is_some()).count()
    }
}

/// The node's next state with its new numbers, which may stand past their end; what it sends; the
/// operation that it does, if any; and what it tells its caller.
#[derive(Clone, Copy, Debug, PartialEq, Eq)]
pub struct Reaction<S> {
    pub next: S,
    pub sent: Outbox,
    pub entry: Option<Entry>,
    pub answer: Option<u32>,
}

impl<S> Reaction<S> {
    /// Sends, does and answers nothing.
    pub fn quiet(next: S) -> Reaction<S>
        ensures { result ≡ quiet next }
    {
        Reaction {
            next,
            sent: Outbox::silent(),
            entry: None,
            answer: None,
        }
    }

    /// Only answers.
    pub fn telling(next: S, answer: Option<u32>) -> Reaction<S>
        ensures { result ≡ telling answer next }
    {
        Reaction {
            answer,
            ..Reaction::quiet(next)
        }
    }

    /// Only sends one message.
    pub fn sending(next: S, message: Message) -> Reaction<S>
        ensures { result ≡ sending message next }
    {
        Reaction {
            sent: Outbox::single(message),
            ..Reaction::quiet(next)
        }
    }

    /// Does an operation, and answers.
    pub fn doing(next: S, entry: Entry, answer: Option<u32>) -> Reaction<S>
        ensures { result ≡ doing entry answer next }
    {
        Reaction {
            entry: Some(entry),
            ..Reaction::telling(next, answer)
        }
    }
}
