//! Lists the stories. A story is a list of events of an editor and a server, with the expected
//! reports and results. Among the events are renames, inlinings of constants, formattings and
//! discarded answers.

use crate::short_events::ShortEvent::*;
use crate::short_events::ShortReport::*;
use crate::short_events::{ShortEvent, ShortReport, Story};
use ob0_text::Unit::{Utf8, Utf16};

const COUNTDOWN_MODULE: &str = "MODULE M;\nVAR n: INTEGER;\nPROCEDURE P; BEGIN Write(n) END P;\n\
    BEGIN Read(n); WHILE n > 0 DO n := n - 1; WriteLn END; P END M.\n";

const COUNTDOWN_RENAMED: &str = "MODULE M;\nVAR k: INTEGER;\nPROCEDURE P; BEGIN Write(k) END P;\n\
    BEGIN Read(k); WHILE k > 0 DO k := k - 1; WriteLn END; P END M.\n";

const COUNTDOWN_FORMATTED: &str =
    "MODULE M;\nVAR\n  n: INTEGER;\n  PROCEDURE P;\n  BEGIN\n    Write(n)\n  END P;\n\
    BEGIN\n  Read(n);\n  WHILE n > 0 DO\n    n := n - 1;\n    WriteLn\n  END;\n  P\nEND M.\n";

/// An unformatted module with comments.
const UNFORMATTED_WITH_COMMENTS: &str =
    "MODULE M;VAR x:INTEGER;BEGIN x:=-1;IF x<0 THEN Write(x)(* a (* b *) c *)END;WriteLn END M.(* end *)";

const FORMATTED_WITH_COMMENTS: &str =
    "MODULE M;\nVAR\n  x: INTEGER;\nBEGIN\n  x := -1;\n  IF x < 0 THEN\n    \
    Write(x) (* a (* b *) c *)\n  END;\n  WriteLn\nEND M. (* end *)\n";

/// This text isn't a module: the full stop is missing.
const FAULTY_TEXT: &str = "MODULE M; END M";

const RENAME_N_TO_K: ShortEvent = Rename(1, 4, "k");

const CONSTANT_TO_INLINE: &str =
    "MODULE M;\nCONST c = -2147483647 - 1;\nVAR x: INTEGER;\nBEGIN x := 0 + c; Write(x) END M.\n";

const CONSTANT_INLINED_HERE: &str = "MODULE M;\nCONST c = -2147483647 - 1;\nVAR x: INTEGER;\n\
    BEGIN x := 0 + (-2147483647 - 1); Write(x) END M.\n";

const CONSTANT_INLINED_EVERYWHERE: &str =
    "MODULE M;\nCONST \nVAR x: INTEGER;\nBEGIN x := 0 + (-2147483647 - 1); Write(x) END M.\n";

/// In this module, inlining the constant `on` is refused: its value `TRUE` would be bound to the
/// variable `TRUE`.
const CONSTANT_OF_SHADOWED_TRUE: &str =
    "MODULE M;\nCONST on = TRUE;\nPROCEDURE P; VAR TRUE, b: BOOLEAN; BEGIN b := on END P;\nBEGIN P END M.\n";

const EMOJI_TEXT: &str = "MODULE M;\nVAR (* 😀 *) n: INTEGER;\nBEGIN (* 😀 *) n := 1 END M.\n";

const EMOJI_TEXT_RENAMED: &str =
    "MODULE M;\nVAR (* 😀 *) k: INTEGER;\nBEGIN (* 😀 *) k := 1 END M.\n";

/// The text `EMOJI_TEXT` with the declared name replaced by `k`, so that the use of `n` is
/// undeclared.
const EMOJI_TEXT_OVERWRITTEN: &str =
    "MODULE M;\nVAR (* 😀 *) k: INTEGER;\nBEGIN (* 😀 *) n := 1 END M.\n";

/// Builds a list of events with their expected reports, both in their short forms. Each pair is
/// written `EVENT => REPORT`, and pairs are separated by commas.
macro_rules! events_with_reports {
    ($($act:expr => $sight:expr),*) => { &[$(($act, $sight)),*] };
}

/// Builds a list of stories, each written `TITLE, UNIT, EVENTS WITH REPORTS, [BEFORE => AFTER of
/// each edit], [VERSION, TEXT => EMPTY of each publication];`.
macro_rules! story_rows {
    ($($name:expr, $unit:expr, $events_with_reports:expr, [$($before:expr => $after:expr),*],
        [$($version:expr, $text:expr => $empty:expr);*];)*) => {
        &[$(Story { name: $name, unit: $unit, events_with_reports: $events_with_reports, applied: &[$(($before, $after)),*],
            made: &[$(($version, $text, $empty)),*] }),*]
    };
}

const RENAME_STORY_EVENTS: &[(ShortEvent, ShortReport)] = events_with_reports![
    Open(COUNTDOWN_MODULE) => Sent, RENAME_N_TO_K => Sent, Serve => Served(1), Serve => Served(1), Take => Published(true),
    Take => Answered(1, true), Apply(1) => Applied(1), Apply(1) => Nothing, Serve => Served(1),
    Take => Published(true)
];

const REOPENING_STORY_EVENTS: &[(ShortEvent, ShortReport)] = events_with_reports![
    Open(COUNTDOWN_MODULE) => Sent, RENAME_N_TO_K => Sent, Close => Sent, Open(FAULTY_TEXT) => Sent, Serve => Served(1),
    Serve => Served(1), Serve => Served(1), Serve => Served(1), Take => Published(true),
    Take => Answered(1, true), Take => Published(true), Take => Published(false), Apply(1) => Dropped(1),
    Apply(1) => Nothing
];

/// Returns all stories. (Proofs of a function that mentions a table take longer the longer the
/// table is. So only this function mentions `STORIES`.)
pub fn all_stories() -> &'static [Story] {
    STORIES
}

/// All stories. Two tests run only the first one.
static STORIES: &[Story] = story_rows![
    "another name is applied", Utf16, RENAME_STORY_EVENTS,
        [COUNTDOWN_MODULE => COUNTDOWN_RENAMED], [1, COUNTDOWN_MODULE => true; 2, COUNTDOWN_RENAMED => true];
    "a layout is applied", Utf16,
        events_with_reports![Open(COUNTDOWN_MODULE) => Sent, Format => Sent, Serve => Served(1), Serve => Served(1),
            Take => Published(true), Take => Answered(1, true), Apply(1) => Applied(1)],
        [COUNTDOWN_MODULE => COUNTDOWN_FORMATTED], [1, COUNTDOWN_MODULE => true];
    "a layout is applied, and another has nothing to change", Utf16,
        events_with_reports![Open(UNFORMATTED_WITH_COMMENTS) => Sent, Format => Sent, Serve => Served(1), Serve => Served(1),
            Take => Published(true), Take => Answered(1, true), Apply(1) => Applied(1), Format => Sent,
            Serve => Served(1), Serve => Served(1), Take => Published(true), Take => Answered(2, false)],
        [UNFORMATTED_WITH_COMMENTS => FORMATTED_WITH_COMMENTS], [1, UNFORMATTED_WITH_COMMENTS => true; 2, FORMATTED_WITH_COMMENTS => true];
    "an answer about an earlier opening is dropped", Utf16, REOPENING_STORY_EVENTS,
        [], [1, COUNTDOWN_MODULE => true; 1, FAULTY_TEXT => false];
    "a change with no changes raises the version, and the answer is dropped", Utf16,
        events_with_reports![Open(COUNTDOWN_MODULE) => Sent, RENAME_N_TO_K => Sent, NoChange => Sent, Serve => Served(1), Serve => Served(1),
            Serve => Served(1), Take => Published(true), Take => Answered(1, true), Take => Published(true),
            Apply(1) => Dropped(1)],
        [], [1, COUNTDOWN_MODULE => true; 2, COUNTDOWN_MODULE => true];
    "of two answers the second is dropped", Utf16,
        events_with_reports![Open(COUNTDOWN_MODULE) => Sent, RENAME_N_TO_K => Sent, Format => Sent, Serve => Served(1), Serve => Served(1),
            Serve => Served(1), Take => Published(true), Take => Answered(1, true), Take => Answered(2, true),
            Apply(1) => Applied(1), Apply(2) => Dropped(2)],
        [COUNTDOWN_MODULE => COUNTDOWN_RENAMED], [1, COUNTDOWN_MODULE => true];
    "nothing happens", Utf16,
        events_with_reports![Apply(7) => Nothing, Discard(7) => Nothing, Take => Nothing, Serve => Nothing,
            NoChange => Nothing, Close => Nothing, RENAME_N_TO_K => Nothing, Open(COUNTDOWN_MODULE) => Sent,
            Open(FAULTY_TEXT) => Nothing, Serve => Served(1), Serve => Nothing],
        [], [1, COUNTDOWN_MODULE => true];
    "an answer is discarded", Utf16,
        events_with_reports![Open(COUNTDOWN_MODULE) => Sent, RENAME_N_TO_K => Sent, Serve => Served(1), Serve => Served(1),
            Take => Published(true), Take => Answered(1, true), Discard(1) => Dropped(1), Discard(1) => Nothing,
            Apply(1) => Nothing],
        [], [1, COUNTDOWN_MODULE => true];
    "an answer about a closed document is dropped", Utf16,
        events_with_reports![Open(COUNTDOWN_MODULE) => Sent, RENAME_N_TO_K => Sent, Serve => Served(1), Serve => Served(1),
            Take => Published(true), Take => Answered(1, true), Close => Sent, Apply(1) => Dropped(1),
            Serve => Served(1), Take => Published(true)],
        [], [1, COUNTDOWN_MODULE => true];
    "of two documents each has its own text, version and diagnostics", Utf16,
        events_with_reports![Open(COUNTDOWN_MODULE) => Sent, AboutOtherDocument(&Open(FAULTY_TEXT)) => Sent, RENAME_N_TO_K => Sent, AboutOtherDocument(&RENAME_N_TO_K) => Sent,
            Serve => Served(1), Serve => Served(1), Serve => Served(1), Serve => Served(1),
            Take => Published(true), Take => PublishedOther(false), Take => Answered(1, true),
            Take => Answered(2, false), AboutOtherDocument(&Close) => Sent, Apply(1) => Applied(1), Serve => Served(1),
            Serve => Served(1), Take => PublishedOther(true), Take => Published(true)],
        [COUNTDOWN_MODULE => COUNTDOWN_RENAMED], [1, COUNTDOWN_MODULE => true; 1, FAULTY_TEXT => false; 2, COUNTDOWN_RENAMED => true];
    "a constant is inlined at one use", Utf16,
        events_with_reports![Open(CONSTANT_TO_INLINE) => Sent, InlineHere(3, 15) => Sent, Serve => Served(1), Serve => Served(1),
            Take => Published(true), Take => Answered(1, true), Apply(1) => Applied(1), Serve => Served(1),
            Take => Published(true)],
        [CONSTANT_TO_INLINE => CONSTANT_INLINED_HERE], [1, CONSTANT_TO_INLINE => true; 2, CONSTANT_INLINED_HERE => true];
    "a constant is inlined everywhere, asked for at its declaration", Utf16,
        events_with_reports![Open(CONSTANT_TO_INLINE) => Sent, InlineAll(1, 6) => Sent, Serve => Served(1), Serve => Served(1),
            Take => Published(true), Take => Answered(1, true), Apply(1) => Applied(1), Serve => Served(1),
            Take => Published(true)],
        [CONSTANT_TO_INLINE => CONSTANT_INLINED_EVERYWHERE], [1, CONSTANT_TO_INLINE => true; 2, CONSTANT_INLINED_EVERYWHERE => true];
    "a value whose name is another's is not written", Utf16,
        events_with_reports![Open(CONSTANT_OF_SHADOWED_TRUE) => Sent, InlineHere(2, 46) => Sent, InlineAll(2, 46) => Sent,
            Serve => Served(1), Serve => Served(1), Serve => Served(1), Take => Published(true),
            Take => Answered(1, false), Take => Answered(2, false)],
        [], [1, CONSTANT_OF_SHADOWED_TRUE => true];
    "another name, in UTF-16 units", Utf16,
        events_with_reports![Open(EMOJI_TEXT) => Sent, Rename(1, 13, "k") => Sent, Serve => Served(1), Serve => Served(1),
            Take => Published(true), Take => Answered(1, true), Apply(1) => Applied(1)],
        [EMOJI_TEXT => EMOJI_TEXT_RENAMED], [1, EMOJI_TEXT => true];
    "a change of a range, in UTF-16 units", Utf16,
        events_with_reports![Open(EMOJI_TEXT) => Sent, ReplaceInLine(1, 13, 14, "k") => Sent, Serve => Served(1), Serve => Served(1),
            Take => Published(true), Take => Published(false)],
        [], [1, EMOJI_TEXT => true; 2, EMOJI_TEXT_OVERWRITTEN => false];
    "another name is applied, where both count bytes", Utf8, RENAME_STORY_EVENTS,
        [COUNTDOWN_MODULE => COUNTDOWN_RENAMED], [1, COUNTDOWN_MODULE => true; 2, COUNTDOWN_RENAMED => true];
    "an answer about an earlier opening is dropped, where both count bytes", Utf8, REOPENING_STORY_EVENTS,
        [], [1, COUNTDOWN_MODULE => true; 1, FAULTY_TEXT => false];
    "another name, in bytes", Utf8,
        events_with_reports![Open(EMOJI_TEXT) => Sent, Rename(1, 15, "k") => Sent, Serve => Served(1), Serve => Served(1),
            Take => Published(true), Take => Answered(1, true), Apply(1) => Applied(1)],
        [EMOJI_TEXT => EMOJI_TEXT_RENAMED], [1, EMOJI_TEXT => true];
    "a change of a range, in bytes", Utf8,
        events_with_reports![Open(EMOJI_TEXT) => Sent, ReplaceInLine(1, 15, 16, "k") => Sent, Serve => Served(1), Serve => Served(1),
            Take => Published(true), Take => Published(false)],
        [], [1, EMOJI_TEXT => true; 2, EMOJI_TEXT_OVERWRITTEN => false];
];
