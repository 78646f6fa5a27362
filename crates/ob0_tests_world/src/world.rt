//! Tests whole lists of events, step by step and by `play`. The tests use both text stores, and
//! positions in UTF-16 units and in bytes.

use crate::short_events::{
    StepsResult, Story, build_events_with_retry, join_results, perform_expected_event,
};
use crate::stories::all_stories;
use ob0_text::{Lines, TextStore, Unit, Whole};
use ob0_world::{Applied, Event, Made, PlayFault, Played, World, WorldFault};
use std::alloc::{AllocError, Global};
use std::process::Abort;

/// The way to perform a story's events: one by one with the text store `Lines` or `Whole`, or all
/// of them by `play`.
#[derive(Clone, Copy)]
enum StoryMode {
    SteppedOverLineStore,
    SteppedOverWholeTextStore,
    Played,
}

/// The result of a story, the number of events that happened, the number of applied edits, and the
/// number of publications.
#[derive(Clone, Copy)]
struct StoryOutcome(StepsResult, u64, usize, usize);

/// The outcome of a story that doesn't run as expected. Its numbers have no meaning.
const UNEXPECTED_OUTCOME: StoryOutcome = StoryOutcome(StepsResult::Unexpected, 0, 0, 0);

/// Returns whether the list `found` is a prefix of `wanted`, the list of the expected edits. Edits
/// are compared by their texts before and after the edit.
fn is_prefix_of_expected_edits(found: &[Applied], wanted: &[(&str, &str)]) -> bool {
    if found.len() > wanted.len() {
        return false;
    }
    for i in 0..found.len() {
        let (before, after) = wanted[i];
        if found[i].before.as_str() != before || found[i].after.as_str() != after {
            return false;
        }
    }
    true
}

/// Returns whether the list `found` is a prefix of `wanted`, the list of the expected publications.
fn is_prefix_of_expected_publications(found: &[Made], wanted: &[(i64, &str, bool)]) -> bool {
    if found.len() > wanted.len() {
        return false;
    }
    for i in 0..found.len() {
        let (version, text, empty) = wanted[i];
        if found[i].version != version
            || found[i].text.as_str() != text
            || found[i].empty != empty
        {
            return false;
        }
    }
    true
}

/// Returns the outcome of a story's first `steps` events. Returns `UNEXPECTED_OUTCOME` if their
/// edits or their publications aren't a prefix of the list that the story expects.
fn outcome_of_first_events(
    story: &Story,
    steps_result: StepsResult,
    steps: u64,
    played: &Played,
) -> StoryOutcome {
    let are_edits = is_prefix_of_expected_edits(played.applied.as_slice(), story.applied);
    if !are_edits || !is_prefix_of_expected_publications(played.made.as_slice(), story.made) {
        return UNEXPECTED_OUTCOME;
    }
    StoryOutcome(steps_result, steps, played.applied.len(), played.made.len())
}

/// Returns a world in which nothing has happened and positions are counted in this unit.
fn new_world<T: TextStore>(alloc: Global, unit: Unit) -> Result<World<T>, WorldFault> {
    match unit {
        Unit::Utf16 => World::new(alloc),
        Unit::Utf8 => World::new_in(alloc, unit),
    }
}

/// Performs the events of a story in a world, and returns the common result of all steps
/// (`join_results`).
fn perform_story_events<T: TextStore>(
    world: &mut World<T>,
    story: &Story,
    events: &[Event],
) -> StepsResult {
    let mut result = StepsResult::AsExpected;
    for i in 0..events.len().min(story.events_with_reports.len()) {
        result = join_results(
            result,
            perform_expected_event(world, &events[i], story.events_with_reports[i].1),
        );
    }
    result
}

/// Performs a story's events one by one, with text stores of type `T`, and returns the outcome.
fn step_through_story<T: TextStore>(
    alloc: Global,
    story: &Story,
    events: &[Event],
) -> StoryOutcome {
    let Ok(mut world) = new_world::<T>(alloc, story.unit) else {
        return StoryOutcome(StepsResult::OutOfMemory, 0, 0, 0);
    };
    let result = perform_story_events(&mut world, story, events);
    let steps = world.steps();
    outcome_of_first_events(story, result, steps, &world.into_played())
}

/// Performs events by `play`, with the text store `Lines` and positions counted in this unit.
fn play(alloc: Global, unit: Unit, events: &[Event]) -> Result<Played, PlayFault> {
    match unit {
        Unit::Utf16 => World::<Lines>::play(alloc, events),
        Unit::Utf8 => World::<Lines>::play_in(alloc, unit, events),
    }
}

/// Performs a story's events by `play`, and returns the outcome.
fn play_story(alloc: Global, story: &Story, events: &[Event]) -> StoryOutcome {
    match play(alloc, story.unit, events) {
        Ok(played) => outcome_of_first_events(
            story,
            StepsResult::AsExpected,
            events.len() as u64,
            &played,
        ),
        Err(fault) => outcome_of_first_events(
            story,
            StepsResult::OutOfMemory,
            fault.steps,
            &fault.played,
        ),
    }
}

/// Runs a story, and returns the outcome. If an allocation fails at an event, the outcome's numbers
/// count only the events, edits and publications before it.
fn run_story(alloc: Global, story: &Story, manner: StoryMode) -> StoryOutcome {
    match build_events_with_retry(alloc, story) {
        Ok(events) => match manner {
            StoryMode::SteppedOverLineStore => step_through_story::<Lines>(
                alloc,
                story,
                events.as_slice(),
            ),
            StoryMode::SteppedOverWholeTextStore => step_through_story::<Whole>(
                alloc,
                story,
                events.as_slice(),
            ),
            StoryMode::Played => play_story(alloc, story, events.as_slice()),
        },
        Err(AllocError) => UNEXPECTED_OUTCOME,
    }
}

/// Returns whether a story runs to its end and has all the expected results.
fn completes_as_expected(alloc: Global, story: &Story, manner: StoryMode) -> bool {
    let StoryOutcome(result, steps, applied, made) = run_story(alloc, story, manner);
    result == StepsResult::AsExpected
        && steps == story.events_with_reports.len() as u64
        && applied == story.applied.len()
        && made == story.made.len()
}

/// Returns whether a story runs as expected. If an allocation may fail, the story has to run as
/// expected only up to that failure.
fn runs_as_expected(alloc: Global, story: &Story, may_fail: bool) -> bool {
    if may_fail {
        return run_story(alloc, story, StoryMode::SteppedOverLineStore).0
            != StepsResult::Unexpected;
    }
    completes_as_expected(alloc, story, StoryMode::SteppedOverLineStore)
        && completes_as_expected(alloc, story, StoryMode::SteppedOverWholeTextStore)
        && completes_as_expected(alloc, story, StoryMode::Played)
}

/// Returns the name of the first story that doesn't run as expected, or an empty string if all
/// stories do.
fn first_failing_story(alloc: Global, may_fail: bool) -> &'static str {
    for story in all_stories() {
        if !runs_as_expected(alloc, story, may_fail) {
            return story.name;
        }
    }
    ""
}

#[test]
fn stories_play_as_expected(rt: HostRuntime) {
    let name = first_failing_story(rt.alloc(), false);
    assert!(rt; name.is_empty(), "{name}");
}

#[test]
fn a_refused_event_ends_a_world(rt: HostRuntime) {
    let name = first_failing_story(rt.alloc(), true);
    assert!(rt; name.is_empty(), "{name}");
}

/// Runs the first story and returns its outcome. If there is no story, returns
/// `UNEXPECTED_OUTCOME`.
fn run_first_story(alloc: Global, manner: StoryMode) -> StoryOutcome {
    match all_stories().first() {
        Some(story) => run_story(alloc, story, manner),
        None => UNEXPECTED_OUTCOME,
    }
}

// If the same allocation fails in this test and in the next one, both print the same line. `make
// test` compares the two outputs, because the tests don't know at which event the allocation
// failed.
#[test]
fn a_refused_event_keeps_earlier_results(rt: HostRuntime) {
    let StoryOutcome(result, steps, applied, made) = run_first_story(rt.alloc(), StoryMode::Played);
    assert!(rt; result != StepsResult::Unexpected);
    let _ = println!(rt; "played {steps} {applied} {made}");
}

#[test]
fn a_refused_step_keeps_earlier_results(rt: HostRuntime) {
    let StoryOutcome(result, steps, applied, made) = run_first_story(
        rt.alloc(),
        StoryMode::SteppedOverLineStore,
    );
    assert!(rt; result != StepsResult::Unexpected);
    let _ = println!(rt; "played {steps} {applied} {made}");
}
