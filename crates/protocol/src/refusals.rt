//! The codes by which an input is refused.
ghost use Rattle.units.specs.RefusalCodes.{node_stopped, out_of_memory};
ghost use Rattle.protocol.specs.Refusing.{MessagesRefusedBy, NeverRefusedBy, message_codes};

/// After no journal does a verdict refuse an input because the node has stopped or because memory ran out: these two
/// codes come from the program that runs a node, and neither can be mistaken for a verdict. A message is refused only
/// because of the addressee, the sender, the party, the content, the tables, the transaction or a full journal.
pub fn refusals_have_causes()
    ensures stopped { NeverRefusedBy node_stopped }
    ensures memory { NeverRefusedBy out_of_memory }
    ensures messages { MessagesRefusedBy message_codes }
{}
