//! The laws that tie the data that are kept to the data of a text. Each function has its law for
//! its contract, and does nothing.

ghost use Rattle.sexpr.specs.Laws.{KeepsData, KeepsMeaning, KeepsSites, ReadsNamed, RepliesAsRead};

/// The data that are kept of a text are made of those that are written in it, and its fault is the
/// same.
pub fn keeps_data()
    ensures { KeepsData }
{}

/// A datum that is kept means what the written one means, and has the same text.
pub fn keeps_meaning()
    ensures { KeepsMeaning }
{}

/// The parts of a datum that is kept have the sites of the written one.
#[tactic(auto, using(crate::proofs::ReplyLaws::keeps_sites))]
pub fn keeps_sites()
    ensures { KeepsSites }
{}

/// The reply to texts that are read is that to their data as they are kept.
pub fn replies_as_read()
    ensures { RepliesAsRead }
{}

/// Each symbol in the data that are read has a name.
pub fn reads_named()
    ensures { ReadsNamed }
{}
