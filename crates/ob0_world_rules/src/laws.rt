//! Proves laws about the model of client and server.
ghost use Rattle.ob0_world_rules.specs.Laws.{CourseExistsIfAsksHaveAnswers, AnswersAreUnique, AnswerEditsPreserveRun, OtherWhiteSpacePreservesRun, LineEndsKeepTokens, CourseIsDetermined, ModuleTextDefinitionsAgree, StateAfterEventIsDetermined, ServerMirrorsEditor};
ghost use Rattle.ob0_world_rules.specs.PublicationsAreInOrder.{PublicationsAreInOrder};
ghost use Rattle.std.specs.Prelude.{List};
ghost use Rattle.ob0_text.specs.declared.position_types.Unit.{Unit};
ghost use Rattle.ob0_world_rules.specs.ClientAndServer.{ClientAndServer, initial_client_and_server};
ghost use Rattle.ob0_world_rules.specs.Events.{Event, IsCourse};
ghost use Rattle.ob0_world_rules.specs.Headline.{GuaranteesHold};
ghost use Rattle.ob0_world_rules.specs.EveryEditor.{EditorAndServer, ExchangeTurn, initial_editor_and_server, IsCourseOfTurns, GuaranteesHoldForEditorAndServer, ModelEditorKeepsRules};

/// Proves the guarantees (`GuaranteesHold`) for every order of events. Every applied edit keeps the
/// module's run, and all diagnostics are correct.
pub fn guarantees_hold_in_every_interleaving()
    ensures { (unit : Unit) (events : List Event) (w : ClientAndServer)
        → IsCourse (initial_client_and_server unit) events w
        → GuaranteesHold w }
{}

/// Proves that the edits with which the server answers a request keep the module's run. They turn a
/// well-typed module into a well-typed module with the same output and the same end.
pub fn answer_edits_preserve_run()
    ensures { AnswerEditsPreserveRun }
{}

/// Proves that an edit of an answer keeps the module's run also if the editor makes it with other
/// white space or other comments, so that only the tokens are the same.
pub fn other_white_space_preserves_run()
    ensures { OtherWhiteSpacePreservesRun }
{}

/// Proves that edits make a text with the same tokens if the editor puts the file's own line end,
/// CR LF or CR, in place of each LF of their new texts. So it makes no difference to the module's
/// run, unless the text becomes longer than 1,048,576 bytes.
pub fn line_ends_keep_tokens()
    ensures { LineEndsKeepTokens }
{}

/// Proves that two definitions of the text of a module with a given tree agree. `IsModuleText` uses
/// the text's lexemes, and `IsTextOfTree` uses the parser's tokens.
pub fn module_text_definitions_agree()
    ensures { ModuleTextDefinitionsAgree }
{}

/// Proves that two answers to the same request for edits of the same text are equal.
pub fn answers_are_unique()
    ensures { AnswersAreUnique }
{}

/// Proves that an event leads from a state to at most one state.
pub fn state_after_event_is_determined()
    ensures { StateAfterEventIsDetermined }
{}

/// Proves that a list of events leads from a state to at most one state.
pub fn course_is_determined()
    ensures { CourseIsDetermined }
{}

/// Proves that a list of events leads from the initial state to some state if each request for
/// edits in the list always has an answer. So the laws about all courses of events aren't vacuous.
pub fn course_exists_if_asks_have_answers()
    ensures { CourseExistsIfAsksHaveAnswers }
{}

/// Proves that the server and the editor have the same documents once the server has taken all
/// waiting messages. The documents then have the same uris, versions and texts.
pub fn server_mirrors_editor()
    ensures { ServerMirrorsEditor }
{}

/// Proves that the n-th publication with a version has the uri, version and text of the n-th
/// document that the editor announced. The editor announces a document when it opens or changes the
/// document, or applies an edit.
pub fn publications_are_in_order()
    ensures { PublicationsAreInOrder }
{}

/// Proves the guarantees for every editor that keeps ob0's rules, in every order of the editor's
/// and the server's turns. Every applied edit keeps the module's run. All diagnostics are correct.
/// The n-th publication with a version is for the n-th document that the editor announced. Once the
/// server has taken all notifications, the latest diagnostics of each open document are for its
/// present text.
pub fn guarantees_hold_for_every_editor()
    ensures { (unit : Unit) (turns : List ExchangeTurn) (w : EditorAndServer)
        → IsCourseOfTurns (initial_editor_and_server unit) turns w
        → GuaranteesHoldForEditorAndServer w }
{}

/// Proves that the model's editor keeps ob0's rules. Each state to which its events lead can also
/// be reached by turns of an editor that keeps the rules. So the guarantees for every editor also
/// hold for the model's editor.
pub fn model_editor_keeps_rules()
    ensures { ModelEditorKeepsRules }
{}
