//! Random schedules.
ghost use Rattle.std.specs.Prelude.{◌≡◌, ◌<◌, IfOk, List, OnOk, Some, length, map, slice_index, slice_set, string_bytes, ℕ};
ghost use Rattle.source_csv.specs.Fields.{Record};
ghost use Rattle.world_sim.specs.Random.{counters_after, event_drawn, held_drawn, kind_at, letter_at, message_drawn, name_at, record_at, risen, seed_draws, seed_draws_acts, seed_holds, status_at, suffix_drawn, trouble_drawn};
ghost use Rattle.world_sim.specs.Schedules.{ReadsFiles, change_in};
ghost use Rattle.scim_filter.specs.Names.{record_named};
ghost use Rattle.std.specs.Option.{option_map};
ghost use Rattle.world_sim.specs.declared.events.Event.TheVariants as events;

use crate::acting::Act;
use crate::events::Event;
use crate::schedules::{change_in, record_named, row_in};
use rand_core::SeedableRng;
use rand_core::utils::NextWord;
use rand_pcg::Lcg64Xsh32;
use scim_key::{Kind, LAST_REVISION};
use std::alloc::{AllocError, Global};

/// Numbers of messages are drawn from 1 to this.
const MESSAGES: u32 = 64;

/// Lengths of cut messages are drawn below this.
const LENGTHS: u32 = 50;

/// The most records that a random start holds.
const HELD_RECORDS: u32 = 36;

/// A random start is drawn by the higher half of each word; the events of the same words go by the lower.
const HIGHER: u32 = 65_536;

/// At a random start records are held at revisions from 1 to this. The source's are above it.
const HELD_REVISIONS: u32 = 9;

/// The last revision of each record: of three users and a group.
pub(crate) type Revisions = [u32; 4];

/// The event that a word draws, of records whose names end in `suffix` and that have these last revisions.
/// The three lowest bits say what happens; the others say to which record or message.
#[tactic(auto, unfolding(crate::specs::Random::event_drawn, crate::specs::Random::counters_after))]
pub(crate) fn event_drawn(
    alloc: Global,
    suffix: &str,
    revisions: &mut Revisions,
    word: u32,
) -> Result<Event, AllocError>
    ensures event { (records_in : List ℕ → List Record) → ReadsFiles records_in
        → IfOk result (λ event. event_drawn records_in suffix.now revisions.old word ≡ Some event) }
    ensures counters { OnOk result (revisions.new ≡ counters_after revisions.old word) }
{
    let (what, rest) = (word % 8, word / 8);
    let place = (rest % 4) as usize;
    if what < 2 {
        change(alloc, suffix, revisions, place)
    } else if what < 4 {
        send(alloc, suffix, place)
    } else if what < 7 {
        Ok(Event::Deliver(message(rest)))
    } else {
        Ok(trouble(rest))
    }
}

/// The source offers a record's next revision.
fn change(
    alloc: Global,
    suffix: &str,
    revisions: &mut Revisions,
    place: usize,
) -> Result<Event, AllocError>
    requires { place < 4 }
    ensures event { (records_in : List ℕ → List Record) → ReadsFiles records_in
        → IfOk result (λ event. change_in records_in (kind_at place)
        (record_at suffix.now place (risen (slice_index revisions.old place))) ≡ Some event) }
    ensures counters { revisions.new ≡ slice_set revisions.old place
        (risen (slice_index revisions.old place)) }
{
    let revision = revisions[place].saturating_add(1).min(LAST_REVISION);
    revisions[place] = revision;
    let text = record_text(alloc, suffix, place, revision)?;
    change_in(alloc, kind_of(place), text.as_str())?.ok_or(AllocError)
}

/// The type of a record.
fn kind_of(place: usize) -> Kind
    ensures { result ≡ kind_at place }
{
    if place < 3 { Kind::User } else { Kind::Group }
}

/// The first letter of a record's name: three users, and a group.
fn letter_of(place: usize) -> &'static str
    ensures { result.now ≡ letter_at place }
{
    match place {
        0 => "a",
        1 => "b",
        2 => "c",
        _ => "g",
    }
}

/// What follows the revision of a user, who has left at each third one.
fn status_of(revision: u32) -> &'static str
    ensures { result.now ≡ status_at revision }
{
    if revision % 3 == 0 {
        ",,,,left"
    } else {
        ",,,,active"
    }
}

/// A record of a file. A group has two members at each second revision.
fn record_text(
    alloc: Global,
    suffix: &str,
    place: usize,
    revision: u32,
) -> Result<String, AllocError>
    ensures { IfOk result (λ text. string_bytes text ≡ record_at suffix.now place revision) }
{
    let (letter, status) = (letter_of(place), status_of(revision));
    if place < 3 {
        format!(in alloc; "{letter}{suffix},{revision},{status}")
    } else if revision % 2 == 0 {
        format!(in alloc; "{letter}{suffix},{revision},a{suffix} b{suffix}")
    } else {
        format!(in alloc; "{letter}{suffix},{revision},a{suffix}")
    }
}

/// The connector sends its next request for a record.
fn send(alloc: Global, suffix: &str, place: usize) -> Result<Event, AllocError>
    ensures { IfOk result (λ event. option_map events.Send
        (record_named (name_at suffix.now place) (kind_at place)) ≡ Some event) }
{
    let letter = letter_of(place);
    let name = format!(in alloc; "{letter}{suffix}")?;
    let name = record_named(alloc, kind_of(place), name.as_str())?;
    name.map(Event::Send).ok_or(AllocError)
}

/// The number of a message.
fn message(rest: u32) -> usize
    ensures { result ≡ message_drawn rest }
{
    (1 + rest % MESSAGES) as usize
}

/// Connector or provider is opened again, or a message arrives in part.
fn trouble(rest: u32) -> Event
    ensures { result ≡ trouble_drawn rest }
{
    match rest % 3 {
        0 => Event::RestartProvider,
        1 => Event::RestartConnector,
        _ => Event::Cut {
            number: message(rest),
            length: (rest % LENGTHS) as usize,
        },
    }
}

/// `count` events, drawn by a generator with this seed: rows of three users and a group, requests,
/// messages that arrive, and troubles. The same seed gives the same events.
pub fn random_schedule(alloc: Global, seed: u64, count: u32) -> Result<Vec<Event>, AllocError>
    ensures length { IfOk result (λ events. length events.items ≡ count) }
    ensures drawn { (records_in : List ℕ → List Record) → ReadsFiles records_in
        → IfOk result (λ events. map Some events.items ≡ seed_draws records_in seed count) }
{
    let mut generator = Lcg64Xsh32::seed_from_u64(seed);
    let mut revisions = [0; 4];
    let mut events = Vec::new(alloc);
    for _ in 0..count {
        let word = generator.next_word();
        events.push(event_drawn(alloc, "", &mut revisions, word)?)?;
    }
    Ok(events)
}

/// What the name of a record that is held at a random start ends in: nothing if it is a record of the source, and
/// else a digit.
fn suffix(alloc: Global, rest: u32) -> Result<String, AllocError>
    ensures { IfOk result (λ suffix. string_bytes suffix ≡ suffix_drawn rest) }
{
    if rest % 2 == 0 {
        format!(in alloc; "")
    } else {
        format!(in alloc; "{}", rest / 8 % 8)
    }
}

/// The row of a record that is held at a random start, by the higher half of a word.
#[tactic(auto, unfolding(crate::specs::Random::held_drawn))]
fn held_drawn(alloc: Global, rest: u32) -> Result<Act, AllocError>
    ensures { (records_in : List ℕ → List Record) → ReadsFiles records_in
        → IfOk result (λ act. held_drawn records_in rest ≡ Some act) }
{
    let place = (rest / 2 % 4) as usize;
    let suffix = suffix(alloc, rest)?;
    let text = record_text(
        alloc,
        suffix.as_str(),
        place,
        1 + rest / 64 % HELD_REVISIONS,
    )?;
    row_in(alloc, kind_of(place), text.as_str())?
        .map(Act::Holds)
        .ok_or(AllocError)
}

/// What the provider holds at the random start of this seed.
fn random_start(alloc: Global, seed: u64) -> Result<Vec<Act>, AllocError>
    ensures { (records_in : List ℕ → List Record) → ReadsFiles records_in
        → IfOk result (λ acts. map Some acts.items ≡ seed_holds records_in seed) }
{
    let mut words = Lcg64Xsh32::seed_from_u64(seed);
    let held = 1 + words.next_word() / HIGHER % HELD_RECORDS;
    let mut acts = Vec::new(alloc);
    for _ in 0..held {
        let word = words.next_word();
        acts.push(held_drawn(alloc, word / HIGHER)?)?;
    }
    Ok(acts)
}

/// A random start of this seed, up to 36 records that the provider holds, and then events of the same seed.
/// Some are records of the source, at lower revisions than the source offers.
pub fn random_from_any_start(alloc: Global, seed: u64, events: u32) -> Result<Vec<Act>, AllocError>
    ensures { (records_in : List ℕ → List Record) → ReadsFiles records_in
        → IfOk result (λ acts. map Some acts.items ≡ seed_draws_acts records_in seed events) }
{
    let mut acts = random_start(alloc, seed)?;
    let mut words = Lcg64Xsh32::seed_from_u64(seed);
    let mut revisions = [HELD_REVISIONS; 4];
    for _ in 0..events {
        let word = words.next_word();
        let event = event_drawn(alloc, "", &mut revisions, word)?;
        acts.push(Act::Ours(event))?;
    }
    Ok(acts)
}
