//! The laws, each the contract of a function that does nothing.

ghost use Rattle.nt_rules.specs.Laws.{
  MessagesAloneChange,
  MessagesComeAndGo,
  PartsAreHeard,
  PeersChangeByStream,
  ReadersHave,
  ViewersSee,
};

/// Where messages, receipts and reactions stay, a user's messages only come and go.
pub fn messages_come_and_go()
    ensures { MessagesComeAndGo }
{}

/// Where the realm, the users, the streams and the subscriptions stay, nothing changes but messages.
pub fn messages_alone_change()
    ensures { MessagesAloneChange }
{}

/// A user is told of subscribers stream by stream.
pub fn peers_change_by_stream()
    ensures { PeersChangeByStream }
{}

/// Of parts with one audience a user hears all or nothing.
pub fn parts_are_heard()
    ensures { PartsAreHeard }
{}

/// The viewers of a stream are those who see it.
pub fn viewers_see()
    ensures { ViewersSee }
{}

/// The readers of a message are those who have it.
pub fn readers_have()
    ensures { ReadersHave }
{}
