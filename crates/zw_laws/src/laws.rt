//! The laws over all legal traces and histories, each the contract of a function that does nothing.

ghost use Rattle.zw_laws.specs.FedHistories.{FedHistoriesAreLegal, FedStepsStayFed};
ghost use Rattle.zw_laws.specs.FedHistories.{FedTracesAreCut, FedTracesStayFed};
ghost use Rattle.zw_laws.specs.FedHistories.{LegalHistoriesBelong, LegalRealmsAreCut};
ghost use Rattle.zw_laws.specs.FedHistories.{OpeningsAreFed, RealmStepsKeepFed, ShardStepsKeepFed};
ghost use Rattle.zw_laws.specs.FedHistories.{TakenNoticesAreAnnounced};
ghost use Rattle.zw_laws.specs.Laws.{AnsweredUsersAreActive, AnswersRise, CommitsAreComparable};
ghost use Rattle.zw_laws.specs.Laws.{EmptyAnswersGiveTheView, FetchedSectionsAreViews};
ghost use Rattle.zw_laws.specs.Laws.{FollowersLackItems, GroupingChangesNothing};
ghost use Rattle.zw_laws.specs.Laws.{IdsShowTheSameEvent, KeptQueuesAreInOrder};
ghost use Rattle.zw_laws.specs.Laws.{OverlappingEventsReplay, OwnTracesAreLegal};
ghost use Rattle.zw_laws.specs.Laws.{PositionsAreAnnounced, PushedEventsAreTheChanges};
ghost use Rattle.zw_laws.specs.Laws.{QueuesAreBounded, RegisteredUsersAreActive};
ghost use Rattle.zw_laws.specs.Laws.{RegistersAreTheView, TakenAnswersGiveTheView, TracesStayLegal};

/// Events can tell what each commit changes in a user's view.
pub fn commits_are_comparable()
    ensures { CommitsAreComparable }
{}

/// Events that overlap with what was fetched replay to the view.
pub fn overlapping_events_replay()
    ensures { OverlappingEventsReplay }
{}

/// What a shard replies by its own steps is right over the realm that feeds it.
pub fn own_traces_are_legal()
    ensures { OwnTracesAreLegal }
{}

/// A queue has the events of the commits since its opening.
pub fn pushed_events_are_the_changes()
    ensures { PushedEventsAreTheChanges }
{}

/// More steps of the realm leave a shard's trace right.
pub fn traces_stay_legal()
    ensures { TracesStayLegal }
{}

/// A shard is never past what was announced, and the realm announces only what was committed.
pub fn positions_are_announced()
    ensures { PositionsAreAnnounced }
{}

/// A fetched section is the view of a user who is active.
pub fn fetched_sections_are_views()
    ensures { FetchedSectionsAreViews }
{}

/// A register reply is the view at the commit that it reached.
pub fn registers_are_the_view()
    ensures { RegistersAreTheView }
{}

/// A client that takes an answer has the view at the commit that it reached.
pub fn taken_answers_give_the_view()
    ensures { TakenAnswersGiveTheView }
{}

/// A client that nothing is answered has the view already.
pub fn empty_answers_give_the_view()
    ensures { EmptyAnswersGiveTheView }
{}

/// What a client lacks of the view is what its queue keeps for it.
pub fn followers_lack_items()
    ensures { FollowersLackItems }
{}

/// An id shows the same event in each answer that has it.
pub fn ids_show_the_same_event()
    ensures { IdsShowTheSameEvent }
{}

/// The ids of an answer rise, from above the acknowledged one on.
pub fn answers_rise()
    ensures { AnswersRise }
{}

/// A queue keeps at most 10,000 items.
pub fn queues_are_bounded()
    ensures { QueuesAreBounded }
{}

/// What is kept of a queue is in order, and within its bounds.
pub fn kept_queues_are_in_order()
    ensures { KeptQueuesAreInOrder }
{}

/// Changes of flags that became one item do what they did apart.
pub fn grouping_changes_nothing()
    ensures { GroupingChangesNothing }
{}

/// Who registers is active at the commit that the reply reached.
pub fn registered_users_are_active()
    ensures { RegisteredUsersAreActive }
{}

/// Who is answered is active at the commit that the answer reached.
pub fn answered_users_are_active()
    ensures { AnsweredUsersAreActive }
{}

/// A history without steps is fed.
pub fn openings_are_fed()
    ensures { OpeningsAreFed }
{}

/// A fed history stays fed after a step of the realm.
pub fn realm_steps_keep_fed()
    ensures { RealmStepsKeepFed }
{}

/// A fed history stays fed after a step of a shard that may be asked so.
pub fn shard_steps_keep_fed()
    ensures { ShardStepsKeepFed }
{}

/// Taken notices are announced ones.
pub fn taken_notices_are_announced()
    ensures { TakenNoticesAreAnnounced }
{}

/// A fed history is legal.
pub fn fed_histories_are_legal()
    ensures { FedHistoriesAreLegal }
{}

/// Each shard's trace of a legal history belongs to the realm's.
pub fn legal_histories_belong()
    ensures { LegalHistoriesBelong }
{}

/// The beginning of a legal trace of the realm is legal.
pub fn legal_realms_are_cut()
    ensures { LegalRealmsAreCut }
{}

/// The beginning of a shard's fed trace is fed.
pub fn fed_traces_are_cut()
    ensures { FedTracesAreCut }
{}

/// More steps of the realm feed a shard's trace too.
pub fn fed_traces_stay_fed()
    ensures { FedTracesStayFed }
{}

/// What a shard may be asked it may still be asked after more steps.
pub fn fed_steps_stay_fed()
    ensures { FedStepsStayFed }
{}
