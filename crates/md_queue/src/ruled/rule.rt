//! The rule of the line: of each channel, what was sent is what the receiver got of it, and then what the queue holds
//! of it. Each step of an end is one of the kinds that stand here. None of this takes memory, and no code runs.

use crossbeam_queue::protocol::{Join, Lesson, Outcome, Protocol, Split};
use crossbeam_queue::{Pass, RuledArrayQueue};
use std::collections::LinkedList;
use volume_model::Msg;

/// What an end of the line knows of it. It stands in proofs alone: no value of it is made.
pub struct EndView {
    /// Whether it is a sender, and then its channel, and what it has sent.
    pub is_sender: bool,
    pub channel: u64,
    pub sent: LinkedList<Msg>,
    /// Whether it is the receiver, and then what it has taken, and what it has found left.
    pub is_receiver: bool,
    pub taken: LinkedList<Msg>,
    pub left: LinkedList<Msg>,
    /// Of the receiver, for how many channels there are senders, and what the joined ones have sent, by channels.
    pub channels: u64,
    pub joined: LinkedList<LinkedList<Msg>>,
}

/// The rule. The first end is the receiver, with no sender yet.
pub struct KeepsOrder;

impl Protocol<Msg, EndView> for KeepsOrder {
    ghost use Rattle.std.specs.Prelude.{[]};
    ghost use Rattle.md_queue.specs.Delivery.{HoldsInOrder, receiver_view};

    ghost holds = { HoldsInOrder };

    ghost first = { receiver_view [] [] 0 [] };
}

/// A push by a sender.
pub struct Sends;

impl Outcome<Msg, EndView> for Sends {
    ghost use Rattle.std.specs.Prelude.{◌≡◌, [], ◌∷◌, ◌++◌};
    ghost use Rattle.md_queue.specs.Delivery.{sender_view};

    ghost then = { λ before msg after. after ≡ sender_view before.channel (before.sent ++ msg ∷ []) };
}

/// What a sender learns of a full queue.
impl Lesson<Msg, EndView> for Sends {
    ghost use Rattle.md_queue.specs.Delivery.{HoldsLastSent};

    ghost fact = { λ known queue. HoldsLastSent known.channel known.sent queue };
}

/// A pop by the receiver.
pub struct Takes;

impl Outcome<Msg, EndView> for Takes {
    ghost use Rattle.std.specs.Prelude.{◌≡◌, [], ◌∷◌, ◌++◌};
    ghost use Rattle.md_queue.specs.Delivery.{receiver_view};

    ghost then = { λ before msg after.
        after ≡ receiver_view (before.taken ++ msg ∷ []) [] before.channels before.joined };
}

/// What the receiver learns of an empty queue.
impl Lesson<Msg, EndView> for Takes {
    ghost use Rattle.md_queue.specs.Delivery.{AccountsForJoined};

    ghost fact = { AccountsForJoined };
}

/// A pop once all senders were joined: the message is left.
pub struct Leaves;

impl Outcome<Msg, EndView> for Leaves {
    ghost use Rattle.md_queue.specs.Delivery.{LeavesOne};

    ghost then = { LeavesOne };
}

/// What the receiver knows of the queue once all senders were joined.
impl Lesson<Msg, EndView> for Leaves {
    ghost use Rattle.md_queue.specs.Delivery.{AccountsForAll};

    ghost fact = { AccountsForAll };
}

/// A new sender, of the next channel.
pub struct NewSender;

impl Split<EndView> for NewSender {
    ghost use Rattle.std.specs.Prelude.{[], ◌+◌};
    ghost use Rattle.md_queue.specs.Delivery.{receiver_view, sender_view};

    ghost left = { λ known. receiver_view known.taken known.left (known.channels + 1) known.joined };

    ghost right = { λ known. sender_view known.channels [] };
}

/// The sender is joined of the first channel whose sender wasn't.
pub struct JoinSender;

impl Join<EndView> for JoinSender {
    ghost use Rattle.std.specs.Prelude.{[], ◌∷◌, ◌++◌};
    ghost use Rattle.md_queue.specs.Delivery.{receiver_view, spent_view};

    ghost both = { λ known theirs.
        receiver_view known.taken known.left known.channels (known.joined ++ theirs.sent ∷ []) };

    ghost spent = { spent_view };
}

/// The queue that the ends share.
pub type Line = RuledArrayQueue<Msg, EndView, KeepsOrder>;

/// What an end carries of what it knows: it takes no bytes.
pub type EndPass = Pass<Msg, EndView>;
