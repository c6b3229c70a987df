//! What threads may share.
ghost use denote.Param.Send.{IsSync};

/// A law: what is checked to be a type that threads may share is told to proofs as one. `search` shows it of a type with no parameter,
/// and not of one that holds such a type beside its parameters. The table of routes, which a server's threads share, holds a tree and needs it.
pub(crate) fn is_shared<T: Sync>()
    ensures { IsSync T.row }
{}
