//! The names of `ob0_world`. `Played` has further fields, and `PlayFault` also has the number of
//! the events that happened.

use ob0_text::{Change, Indent, Lines, Position, TextStore, Unit, Whole};
use ob0_world::{Applied, Ask, Event, Made, PlayFault, Played, Seen, World, WorldFault};
use std::alloc::{AllocError, Global};
use std::process::Abort;

/// Returns the name of an event, and its number if it has one.
fn name_and_number(event: &Event) -> (&'static str, u64) {
    match event {
        Event::OpenDoc { uri: _, text: _ } => ("OpenDoc", 0),
        Event::ChangeDoc { uri: _, changes } => {
            let changes: &Vec<Change> = changes;
            ("ChangeDoc", changes.len() as u64)
        }
        Event::CloseDoc { uri: _ } => ("CloseDoc", 0),
        Event::Ask { uri: _, ask } => (name_of_ask(ask), 0),
        Event::Serve => ("Serve", 0),
        Event::Take => ("Take", 0),
        Event::Apply { k } => ("Apply", *k),
        Event::Discard { k } => ("Discard", *k),
    }
}

/// Returns the name of a request for edits.
fn name_of_ask(ask: &Ask) -> &'static str {
    match ask {
        Ask::Rename {
            position: _,
            name: _,
        } => "Rename",
        Ask::InlineHere { position: _ } => "InlineHere",
        Ask::InlineAll { position: _ } => "InlineAll",
        Ask::Format { indent: _ } => "Format",
    }
}

/// Returns the name of a report, and its number if it has one.
fn name_and_number_of_report(seen: &Seen) -> (&'static str, u64) {
    match seen {
        Seen::Nothing => ("Nothing", 0),
        Seen::Sent => ("Sent", 0),
        Seen::Served(count) => ("Served", *count as u64),
        Seen::Published { uri: _, empty } => ("Published", if *empty { 0 } else { 1 }),
        Seen::Answered { k, edits } => ("Answered", if *edits { *k } else { 0 }),
        Seen::Applied { k } => ("Applied", *k),
        Seen::Dropped { k } => ("Dropped", *k),
    }
}

/// Performs an event in a world that has made less than 1,000 steps. Returns the report's name and
/// number.
fn reported<T: TextStore>(
    world: &mut World<T>,
    event: &Event,
) -> Result<(&'static str, u64), WorldFault> {
    let steps: u64 = World::steps(world);
    if steps > 1000 {
        return Err(WorldFault::Ended);
    }
    let seen: Result<Seen, WorldFault> = World::step(world, event);
    match seen {
        Ok(seen) => Ok(name_and_number_of_report(&seen)),
        Err(WorldFault::Memory) => Err(WorldFault::Memory),
        Err(WorldFault::Ended) => Err(WorldFault::Ended),
    }
}

/// Returns whether a new world has taken nothing.
fn takes_nothing_at_first<T: TextStore>(alloc: Global) -> bool {
    let made: Result<World<T>, WorldFault> = World::new(alloc);
    match made {
        Ok(mut world) => reported(&mut world, &Event::Take) == Ok(("Nothing", 0)),
        Err(_fault) => false,
    }
}

/// Returns whether nothing is applied in a new world that counts in this unit.
fn applies_nothing_at_first<T: TextStore>(alloc: Global, unit: Unit) -> bool {
    let made: Result<World<T>, WorldFault> = World::new_in(alloc, unit);
    match made {
        Ok(mut world) => reported(&mut world, &Event::Apply { k: 7 }) == Ok(("Nothing", 0)),
        Err(_fault) => false,
    }
}

/// Returns the events of a renaming of the variable to `y`: the document is opened, the edits are
/// requested, taken and applied, and the last text's diagnostics are sent.
fn events_of_renaming(alloc: Global) -> Result<Vec<Event>, AllocError> {
    let mut events: Vec<Event> = Vec::new(alloc);
    events.push(Event::OpenDoc {
        uri: String::from_str(alloc, "u")?,
        text: String::from_str(alloc, "MODULE M; VAR x: INTEGER; END M.")?,
    })?;
    events.push(Event::Ask {
        uri: String::from_str(alloc, "u")?,
        ask: Ask::Rename {
            position: Position {
                line: 0,
                character: 14,
            },
            name: String::from_str(alloc, "y")?,
        },
    })?;
    events.push(Event::Serve)?;
    events.push(Event::Serve)?;
    events.push(Event::Take)?;
    events.push(Event::Take)?;
    events.push(Event::Apply { k: 1 })?;
    events.push(Event::Serve)?;
    Ok(events)
}

/// Returns whether one edit was applied, and two publications were sent.
fn has_edit_and_publications(played: &Played) -> bool {
    let (applied, made): (&Vec<Applied>, &Vec<Made>) = (&played.applied, &played.made);
    if applied.len() != 1 || made.len() != 2 {
        return false;
    }
    is_renaming(&applied[0]) && is_of_renamed_text(&made[1])
}

fn is_renaming(applied: &Applied) -> bool {
    let Applied { uri, before, after } = applied;
    uri.as_str() == "u"
        && before.as_str() == "MODULE M; VAR x: INTEGER; END M."
        && after.as_str() == "MODULE M; VAR y: INTEGER; END M."
}

fn is_of_renamed_text(made: &Made) -> bool {
    let Made {
        uri,
        version,
        text,
        empty,
    } = made;
    uri.as_str() == "u"
        && *version == 2
        && text.as_str() == "MODULE M; VAR y: INTEGER; END M."
        && *empty
}

/// Plays the events of a renaming. Returns whether the results are as expected.
fn plays_renaming<T: TextStore>(alloc: Global) -> Result<bool, AllocError> {
    let events = events_of_renaming(alloc)?;
    if events.len() > 100 {
        return Ok(false);
    }
    let usual: Result<Played, PlayFault> = World::<T>::play(alloc, events.as_slice());
    let other: Result<Played, PlayFault> = World::<T>::play_in(
        alloc,
        Unit::Utf8,
        events.as_slice(),
    );
    Ok(is_played_renaming(&usual) && is_played_renaming(&other))
}

fn is_played_renaming(found: &Result<Played, PlayFault>) -> bool {
    match found {
        Ok(played) => has_edit_and_publications(played),
        Err(fault) => has_edit_and_publications(&fault.played),
    }
}

fn worlds_are_as_expected(alloc: Global) -> bool {
    takes_nothing_at_first::<Whole>(alloc) && applies_nothing_at_first::<Lines>(alloc, Unit::Utf8)
}

#[test]
fn worlds_have_each_call(rt: HostRuntime) {
    assert!(rt; worlds_are_as_expected(rt.alloc()));
}

#[test]
fn events_are_played(rt: HostRuntime) {
    assert!(rt; plays_renaming::<Lines>(rt.alloc()) == Ok(true));
}

fn names_are_as_expected() -> bool {
    let ask = Ask::Format {
        indent: Indent::Tab,
    };
    name_of_ask(&ask) == "Format" && name_and_number(&Event::Discard { k: 3 }) == ("Discard", 3)
}

#[test]
fn events_have_their_names(rt: HostRuntime) {
    assert!(rt; names_are_as_expected());
}
