//! Random turns of several connectors.
ghost use Rattle.std.specs.Prelude.{◌≡◌, ◌<◌, IfOk, List, OnOk, Some, length, map, ℕ};
ghost use Rattle.std.specs.List.{AllByRecursion};
ghost use Rattle.source_csv.specs.Fields.{Record};
ghost use Rattle.world_sim.specs.Random.{all_after, place_drawn, seed_draws_turns, turn_drawn, word_drawn};
ghost use Rattle.world_sim.specs.Schedules.{ReadsFiles};
ghost use Rattle.world_sim.specs.Several.{IsBelow};

use crate::random::{Revisions, event_drawn};
use crate::several::Turn;
use rand_core::SeedableRng;
use rand_core::utils::NextWord;
use rand_pcg::Lcg64Xsh32;
use std::alloc::{AllocError, Global};

/// The source of random turns: a generator, and the last revision of each record of each connector.
#[derive(Drop)]
struct Draws {
    generator: Lcg64Xsh32,
    revisions: Vec<Revisions>,
}

impl Draws {
    /// The next turn. A word says on whose side it is, and the next word draws the event there.
    fn next(&mut self, alloc: Global) -> Result<Turn, AllocError>
        requires { 0 < length self.old.revisions.items }
        ensures turn { (records_in : List ℕ → List Record) → ReadsFiles records_in
            → IfOk result (λ turn. turn_drawn records_in self.old.revisions.items
            (place_drawn (length self.old.revisions.items) self.old.generator)
            (word_drawn self.old.generator).0 ≡ Some turn) }
        ensures place { IfOk result (λ turn. turn.place < length self.old.revisions.items) }
        ensures generator { OnOk result (self.new.generator ≡ (word_drawn self.old.generator).1) }
        ensures counters { OnOk result (self.new.revisions.items ≡ all_after self.old.revisions.items
            (place_drawn (length self.old.revisions.items) self.old.generator)
            (word_drawn self.old.generator).0) }
    {
        let connectors = self.revisions.len();
        let drawn: u32 = self.generator.next_word();
        let place = drawn as usize % connectors;
        let word = self.generator.next_word();
        let suffix = format!(in alloc; "{}", place + 1)?;
        let event = event_drawn(alloc, suffix.as_str(), &mut self.revisions[place], word)?;
        Ok(Turn { place, event })
    }
}

/// `count` turns of so many connectors, drawn by a generator with this seed: each is an event of one of them,
/// as `random_schedule` draws it of three users and a group of that connector's own, whose names end in its
/// number. The same seed gives the same turns.
pub fn random_turns(
    alloc: Global,
    seed: u64,
    count: u32,
    connectors: usize,
) -> Result<Vec<Turn>, AllocError>
    requires { 0 < connectors }
    ensures length { IfOk result (λ turns. length turns.items ≡ count) }
    ensures places { IfOk result (λ turns. AllByRecursion (IsBelow connectors) turns.items) }
    ensures drawn { (records_in : List ℕ → List Record) → ReadsFiles records_in
        → IfOk result (λ turns. map Some turns.items
        ≡ seed_draws_turns records_in seed connectors count) }
{
    let mut draws = Draws {
        generator: Lcg64Xsh32::seed_from_u64(seed),
        revisions: vec![in alloc; [0; 4]; connectors]?,
    };
    let mut turns = Vec::new(alloc);
    for _ in 0..count {
        turns.push(draws.next(alloc)?)?;
    }
    Ok(turns)
}
