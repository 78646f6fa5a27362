//! Connects an editor and a session by two queues of messages, and performs their events.
//!
//! A content is the bytes of one message: its JSON text, without the head that gives the length.
ghost use Rattle.std.specs.Prelude.{◌≡◌, ◌<◌, IfOk, OnErr, OnOk, map, option_map, option_and_then, string_bytes};
ghost use Rattle.std.specs.Str.{chars};
ghost use Rattle.std.specs.Vec.{vec_capacity, vec_len};
ghost use Rattle.ob0_text.specs.OpenDocuments.{text_change_of, document_at};
ghost use Rattle.ob0_session_server.specs.Answers.{Answers};
ghost use Rattle.ob0_session_server.specs.declared.session.Phase.TheVariants.{Failed};
ghost use Rattle.ob0_world_editor.specs.ModelValues.{model_ask_of};
ghost use Rattle.ob0_world_editor.specs.EditorCalls.{CountsCanGrow};
ghost use Rattle.ob0_world_editor.specs.MessagesToEditor.{message_to_editor_in_content};
ghost use Rattle.ob0_world_rules.specs.EditorActs as acts;
ghost use Rattle.ob0_world_rules.specs.EditorActs.{open_document, change_document, close_document, request_edits};
ghost use Rattle.ob0_world_rules.specs.Events as events;
ghost use Rattle.ob0_world_rules.specs.Events.{editor_acts, take_message};
ghost use Rattle.ob0_world.specs.ModelValues.{model_event_of, model_publication_of};
ghost use Rattle.ob0_world.specs.EventReport.{model_report_of, EventLeadsToWithReport};
ghost use Rattle.ob0_world.specs.Queues.{bytes_of_contents, AppendsContentToQueue, MovesFirstContent, publication_in_message, publication_with_text, publication_in_first_content};
ghost use Rattle.ob0_world.specs.Worlds.{IsInitialConnection, EditorTakesFirstContent, ResultsMatchModel, ContentsMatchWire, QueuesMatch, EventChangesWire, HaveSameHistory, SessionTakesFirstContent, AppendsAtMostOneContent};

use crate::events::{Event, Seen};
use crate::play_results::{Made, Played};
use ob0_session_server::{Session, SessionFault};
use ob0_text::{Change, Documents, Held, TextStore, Unit};
use ob0_world_editor::{Applied, ApplyOutcome, Ask, Editor, ServerMessage, initialize};
use std::alloc::{AllocError, Global};
use std::collections::VecDeque;
use std::marker::Model;

/// An editor and a session, with the contents that they exchange. The contents in `to_server` wait
/// for the session, and the contents in `to_editor` wait for the editor. `applied` has the edits
/// that were applied, and `made` has the publications that were sent.
#[derive(Drop)]
pub struct Connection<T: TextStore> {
    alloc: Global,
    editor: Editor,
    to_server: VecDeque<Vec<u8>>,
    session: Session<T>,
    to_editor: VecDeque<Vec<u8>>,
    applied: Vec<Applied>,
    made: Vec<Made>,
    /// The contents that the session has taken, in order.
    taken: Vec<Vec<u8>>,
    /// The contents that the editor has taken, in order.
    got: Vec<Vec<u8>>,
}

impl<T: TextStore> Model for Connection<T> {
    ghost use Rattle.std.specs.Coded.{codes};
    ghost use Rattle.ob0_text.specs.OpenDocuments.{coded_open_documents};
    ghost use Rattle.ob0_world_editor.specs.StoredDocuments.{coded_editor_documents};
    ghost use Rattle.ob0_world.specs.Queues.{ConnectionInvariant, connection_from_fields};
    ghost use Rattle.ob0_world.specs.Worlds.{Connection};

    ghost Value = { Connection };

    ghost coded = { Prim.hlevel (codes, coded_open_documents, coded_editor_documents) };

    ghost view = { λ w. connection_from_fields w.editor w.to_server.items w.session w.to_editor.items
        w.applied.items w.made.items w.taken.items w.got.items };

    ghost invariant = { λ w.
        ConnectionInvariant w.editor.requested w.to_server.items w.to_editor.items w.session };
}

impl<T: TextStore> Connection<T> {
    /// Returns a connection between an editor without documents and a session that this editor has
    /// initialized. Both sides count positions in `unit`.
    pub fn new(alloc: Global, unit: Unit) -> Result<Connection<T>, AllocError>
        ensures { IfOk result (IsInitialConnection unit) }
    {
        let mut session = Session::new(alloc);
        let content = initialize(alloc, unit)?;
        let got = give_content_to_session(&mut session, content.as_slice())?;
        let mut taken = Vec::new(alloc);
        taken.push(content)?;
        Ok(Connection {
            alloc,
            editor: Editor::new(alloc, unit),
            to_server: VecDeque::new(alloc),
            session,
            to_editor: VecDeque::new(alloc),
            applied: Vec::new(alloc),
            made: Vec::new(alloc),
            taken,
            got,
        })
    }

    /// Does nothing, and is called only for its contract. The contract states that the waiting
    /// contents are the messages that wait in the model (`ClientAndServer`). It also states that
    /// the session has the documents of the model's server.
    pub(crate) fn prove_queues_match(&self)
        ensures { QueuesMatch self.now }
    {
        // The proof needs the contract of this call.
        let _waiting = self.to_server.len();
    }

    /// Returns the applied edits, the publications, the contents that each side has taken, and the
    /// contents that wait for the editor.
    pub fn into_played(self) -> Played
        ensures results_match { ResultsMatchModel self.model result }
        ensures contents_match { ContentsMatchWire self.wire result }
    {
        Played {
            applied: self.applied,
            made: self.made,
            taken: self.taken,
            got: self.got,
            unread: self.to_editor,
        }
    }

    /// Performs an event and returns the report on it. If an allocation fails, the results and the
    /// exchanged contents are unchanged (`HaveSameHistory`).
    pub fn perform_event(&mut self, event: &Event) -> Result<Seen, AllocError>
        requires { CountsCanGrow self.old.model.editor }
        ensures ok { IfOk result
            (λ seen. EventLeadsToWithReport self.old.model (model_event_of event.now) (model_report_of seen) self.new.model) }
        ensures wire { OnOk result (EventChangesWire (model_event_of event.now) self.old.wire
            self.new.wire) }
        ensures err { OnErr result (HaveSameHistory self.old self.new) }
    {
        match event {
            Event::OpenDoc { uri, text } => self.open(uri.as_str(), text.as_str()),
            Event::ChangeDoc { uri, changes } => self.change(uri.as_str(), changes.as_slice()),
            Event::CloseDoc { uri } => self.close(uri.as_str()),
            Event::Ask { uri, ask } => self.ask(uri.as_str(), ask),
            Event::Serve => self.serve(),
            Event::Take => self.let_editor_take_message(),
            Event::Apply { k } => self.apply_answer(*k),
            Event::Discard { k } => Ok(self.discard_answer(*k)),
        }
    }

    fn open(&mut self, uri: &str, text: &str) -> Result<Seen, AllocError>
        requires { CountsCanGrow self.old.model.editor }
        ensures ok { IfOk result (λ seen. EventLeadsToWithReport self.old.model
            (editor_acts (open_document uri.now (chars text.now))) (model_report_of seen) self.new.model) }
        ensures wire { OnOk result (AppendsAtMostOneContent self.old.wire self.new.wire) }
        ensures err { OnErr result (HaveSameHistory self.old self.new) }
    {
        let content = self.editor.open(uri, text)?;
        send(&mut self.to_server, content)
    }

    fn change(&mut self, uri: &str, changes: &[Change]) -> Result<Seen, AllocError>
        requires { CountsCanGrow self.old.model.editor }
        ensures ok { IfOk result (λ seen. EventLeadsToWithReport self.old.model
            (editor_acts (change_document uri.now (map text_change_of changes.now))) (model_report_of seen)
            self.new.model) }
        ensures wire { OnOk result (AppendsAtMostOneContent self.old.wire self.new.wire) }
        ensures err { OnErr result (HaveSameHistory self.old self.new) }
    {
        let content = self.editor.change(uri, changes)?;
        send(&mut self.to_server, content)
    }

    fn close(&mut self, uri: &str) -> Result<Seen, AllocError>
        ensures ok { IfOk result (λ seen. EventLeadsToWithReport self.old.model
            (editor_acts (close_document uri.now)) (model_report_of seen) self.new.model) }
        ensures wire { OnOk result (AppendsAtMostOneContent self.old.wire self.new.wire) }
        ensures err { OnErr result (HaveSameHistory self.old self.new) }
    {
        let content = self.editor.close(uri)?;
        send(&mut self.to_server, content)
    }

    fn ask(&mut self, uri: &str, ask: &Ask) -> Result<Seen, AllocError>
        requires { CountsCanGrow self.old.model.editor }
        ensures ok { IfOk result (λ seen. EventLeadsToWithReport self.old.model
            (editor_acts (request_edits uri.now (model_ask_of ask.now))) (model_report_of seen) self.new.model) }
        ensures wire { OnOk result (AppendsAtMostOneContent self.old.wire self.new.wire) }
        ensures err { OnErr result (HaveSameHistory self.old self.new) }
    {
        let content = self.editor.ask(uri, ask)?;
        send(&mut self.to_server, content)
    }

    /// Gives the first waiting content to the session, and queues the session's replies for the
    /// editor. If the first reply publishes diagnostics with a version, the publication is recorded
    /// with the text that its document has in the session. If no content waits for the session,
    /// nothing happens.
    fn serve(&mut self) -> Result<Seen, AllocError>
        ensures ok { IfOk result
            (λ seen. EventLeadsToWithReport self.old.model events.serve (model_report_of seen) self.new.model) }
        ensures wire { OnOk result
            (SessionTakesFirstContent self.old.wire.to_server self.old.wire self.new.wire) }
        ensures err { OnErr result (HaveSameHistory self.old self.new) }
    {
        let Some(content) = self.to_server.pop_front() else {
            return Ok(Seen::Nothing);
        };
        let sent = give_content_to_session(&mut self.session, content.as_slice())?;
        let made = first_publication(
            self.alloc,
            &self.editor,
            self.session.documents(),
            sent.as_slice(),
        )?;
        let count = sent.len();
        self.taken.reserve(1)?;
        self.made.reserve(1)?;
        self.to_editor.append(&mut VecDeque::from_vec(sent))?;
        self.taken.push_reserved(content);
        if let Some(made) = made {
            self.made.push_reserved(made);
        }
        Ok(Seen::Served(count))
    }

    fn let_editor_take_message(&mut self) -> Result<Seen, AllocError>
        ensures ok { IfOk result
            (λ seen. EventLeadsToWithReport self.old.model take_message (model_report_of seen) self.new.model) }
        ensures wire { OnOk result
            (EditorTakesFirstContent self.old.wire.to_editor self.old.wire self.new.wire) }
        ensures err { OnErr result (HaveSameHistory self.old self.new) }
    {
        let Some(content) = self.to_editor.front() else {
            return Ok(Seen::Nothing);
        };
        let Some(message) = self.editor.read(content.as_slice())? else {
            unreachable!()
        };
        self.got.reserve(1)?;
        match message {
            ServerMessage::Published {
                uri,
                version: _version,
                empty,
            } => {
                move_first_content(&mut self.to_editor, &mut self.got);
                Ok(Seen::Published { uri, empty })
            }
            ServerMessage::Answered { number, edits } => {
                let edits = self.editor.keep_answer(number, edits)?;
                move_first_content(&mut self.to_editor, &mut self.got);
                Ok(Seen::Answered { k: number, edits })
            }
        }
    }

    fn apply_answer(&mut self, k: u64) -> Result<Seen, AllocError>
        requires { CountsCanGrow self.old.model.editor }
        ensures ok { IfOk result
            (λ seen. EventLeadsToWithReport self.old.model (editor_acts (acts.apply k)) (model_report_of seen) self.new.model) }
        ensures wire { OnOk result (AppendsAtMostOneContent self.old.wire self.new.wire) }
        ensures err { OnErr result (HaveSameHistory self.old self.new) }
    {
        match self.editor.apply_answer(k)? {
            ApplyOutcome::NoSuchAnswer => Ok(Seen::Nothing),
            ApplyOutcome::Dropped => Ok(Seen::Dropped { k }),
            ApplyOutcome::EditsMade { applied, content } => {
                self.to_server.push_back(content)?;
                self.applied.push(applied)?;
                Ok(Seen::Applied { k })
            }
        }
    }

    fn discard_answer(&mut self, k: u64) -> Seen
        ensures ok { EventLeadsToWithReport self.old.model (editor_acts (acts.discard k))
            (model_report_of result) self.new.model }
        ensures wire { AppendsAtMostOneContent self.old.wire self.new.wire }
    {
        if self.editor.discard_answer(k) {
            Seen::Dropped { k }
        } else {
            Seen::Nothing
        }
    }
}

/// Removes the first content of `waiting` and appends it to `got`. If `waiting` is empty, does
/// nothing. The list `got` must have room for one more content.
fn move_first_content(waiting: &mut VecDeque<Vec<u8>>, got: &mut Vec<Vec<u8>>)
    requires { vec_len got.old < vec_capacity got.old }
    ensures { MovesFirstContent waiting.old.items got.old.items waiting.new.items got.new.items }
{
    if let Some(content) = waiting.pop_front() {
        got.push_reserved(content);
    }
}

/// Appends a content to the queue, and returns `Sent`. If the content is None, returns `Nothing`
/// and leaves the queue unchanged. If the allocation fails, the queue is also unchanged.
fn send(queue: &mut VecDeque<Vec<u8>>, content: Option<Vec<u8>>) -> Result<Seen, AllocError>
    ensures ok { IfOk result (λ seen. AppendsContentToQueue queue.old.items content seen queue.new.items) }
    ensures err { OnErr result (queue.new.items ≡ queue.old.items) }
{
    match content {
        Some(content) => {
            queue.push_back(content)?;
            Ok(Seen::Sent)
        }
        None => Ok(Seen::Nothing),
    }
}

/// Gives a content to the session, and returns the contents of the session's replies. If an
/// allocation fails, the session's phase is then `Failed`.
fn give_content_to_session<T: TextStore>(
    session: &mut Session<T>,
    content: &[u8],
) -> Result<Vec<Vec<u8>>, AllocError>
    ensures ok { IfOk result
        (λ sent. Answers session.old content.now (bytes_of_contents sent.items) session.new) }
    ensures err { OnErr result (session.new.phase ≡ Failed) }
{
    match session.step(content) {
        Ok(step) => Ok(step.send),
        Err(fault) => match fault {
            SessionFault::Memory => Err(AllocError),
            SessionFault::Failed => Err(AllocError),
        },
    }
}

/// Returns the publication in the first content of `sent`, with the text that the publication's
/// document has in `documents`. Returns None if there is no content, or if the first content isn't
/// a publication with a version. Also returns None if the document isn't open or is out of step.
fn first_publication<T: TextStore>(
    alloc: Global,
    editor: &Editor,
    documents: &Documents<T>,
    sent: &[Vec<u8>],
) -> Result<Option<Made>, AllocError>
    ensures { IfOk result
        (λ made. option_map model_publication_of made
        ≡ publication_in_first_content documents.now editor.now.requested sent.now) }
{
    if sent.is_empty() {
        return Ok(None);
    }
    publication_in_content(alloc, editor, documents, sent[0].as_slice())
}

fn publication_in_content<T: TextStore>(
    alloc: Global,
    editor: &Editor,
    documents: &Documents<T>,
    content: &[u8],
) -> Result<Option<Made>, AllocError>
    ensures { IfOk result (λ made. option_map model_publication_of made
        ≡ option_and_then (publication_in_message documents.now) (message_to_editor_in_content editor.now.requested content.now)) }
{
    let Some(message) = editor.read(content)? else {
        return Ok(None);
    };
    match message {
        ServerMessage::Published {
            uri,
            version,
            empty,
        } => match version {
            Some(version) => publication_with_document_text(alloc, documents, uri, version, empty),
            None => Ok(None),
        },
        ServerMessage::Answered {
            number: _number,
            edits: _edits,
        } => Ok(None),
    }
}

/// Returns the publication with this uri and version, and with the text that its document has in
/// `documents`. Returns None if the document isn't open or is out of step (its text isn't known).
fn publication_with_document_text<T: TextStore>(
    alloc: Global,
    documents: &Documents<T>,
    uri: String,
    version: i64,
    empty: bool,
) -> Result<Option<Made>, AllocError>
    ensures { IfOk result (λ made. option_map model_publication_of made
        ≡ option_and_then (publication_with_text (string_bytes uri) version empty)
        (document_at documents.now (string_bytes uri))) }
{
    match documents.get(uri.as_str()) {
        Some(held) => match held {
            Held::InStep {
                version: _version,
                text,
            } => {
                let text = text.to_string(alloc)?;
                Ok(Some(Made {
                    uri,
                    version,
                    text,
                    empty,
                }))
            }
            Held::OutOfStep => Ok(None),
        },
        None => Ok(None),
    }
}
