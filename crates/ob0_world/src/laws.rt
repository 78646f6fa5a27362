//! Proves laws about an editor and a session: which versions answers mention, and what holds in
//! every exchange of messages.
ghost use Rattle.std.specs.Prelude.{List};
ghost use Rattle.ob0_text.specs.declared.position_types.Unit.{Unit};
ghost use Rattle.ob0_world_rules.specs.EveryEditor.{ExchangeTurn};
ghost use Rattle.ob0_world.specs.Exchanges.{EveryConnectionCourseIsExchange, EveryExchangeFollowsModel, Exchange, IsInitialExchange, IsExchangeCourse, GuaranteesHoldForExchange};
ghost use Rattle.ob0_world.specs.Versions.{AnswersMentionVersions, VersionsSufficeToApplyAnswers};

/// Proves that an answer with edits mentions the document that was asked about, and the version
/// that this document had when the request was sent. The member `documentChanges` contains both.
/// The law excludes answers to formatting requests: they are lists of edits and mention no
/// document.
pub fn answers_mention_versions()
    ensures { AnswersMentionVersions }
{}

/// Proves that a client can use the version in an answer to decide whether to apply the answer's
/// edits. If the document hasn't been opened again since the request, this client gets the same
/// result as the model's editor.
pub fn versions_suffice_to_apply_answers()
    ensures { VersionsSufficeToApplyAnswers }
{}

/// Proves that every exchange between a session and an editor that keeps ob0's rules follows the
/// model (`EditorAndServer`), turn by turn. So each edit that the editor applies keeps the module's
/// run: the same output and the same end. Each publication of the session is correct.
pub fn every_exchange_follows_model()
    ensures { EveryExchangeFollowsModel }
{}

/// Proves the guarantees for a session and an editor that keeps ob0's rules, whatever they have
/// exchanged. Each edit that the editor applied keeps the module's run: the same output and the
/// same end. The n-th list of diagnostics with a version is correct for the n-th document that the
/// editor announced by opening or changing it. Once the session has taken the waiting contents, it
/// has the same documents as the editor.
pub fn guarantees_hold_for_every_exchange()
    ensures { (unit : Unit) (begin now : Exchange) (turns : List ExchangeTurn)
        → IsInitialExchange unit begin
        → IsExchangeCourse begin turns now
        → GuaranteesHoldForExchange begin now }
{}

/// Proves that each list of events that `play` performs, with the model's editor and a session, is
/// also an exchange of an editor that keeps ob0's rules.
pub fn every_connection_course_is_exchange()
    ensures { EveryConnectionCourseIsExchange }
{}
