//! Laws of every reply, and of every list.
ghost use Rattle.booth_talk.specs.Parts.{ListsAreOne};
ghost use Rattle.booth_talk.specs.Replies.{RepliesAreAuthentic};

/// Exactly the bytes that meet five conditions are a reply.
pub fn replies_are_authentic()
    ensures { RepliesAreAuthentic }
{}

/// A whole list has one text, and stays whole with this text.
pub fn lists_are_one()
    ensures { ListsAreOne }
{}
