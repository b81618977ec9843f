//! What the definitions of a queue's calls promise, as a contract of a function that does nothing.

ghost use Rattle.std.specs.Prelude.{◌≡◌, ◌≤◌, List, ◌++◌, length};
ghost use Rattle.volume_model.specs.declared.reply.Msg.{Msg};
ghost use Rattle.md_queue.specs.Calls.{QueueCall, LeadTo, sent_by, messages_taken};
ghost use Rattle.md_queue.specs.Queue.{capacity};

/// First in, first out, over any calls of a queue with any answers: what it held, and then what was sent, is what was
/// taken, and then what it holds, each message once and in order. It never holds more than eight.
pub fn first_in_first_out()
    ensures in_order { (before after : List Msg) (calls : List QueueCall)
        → LeadTo before calls after → before ++ sent_by calls ≡ messages_taken calls ++ after }
    ensures bounded { (before after : List Msg) (calls : List QueueCall)
        → LeadTo before calls after → length before ≤ capacity → length after ≤ capacity }
{}
