//! The limits, as numbers: each shape, configuration, plan and search within them is made, and none just over one.

ghost use Rattle.std.specs.Prelude.{◌≡◌, ◌≤◌, ◌↔◌, ◌⊎◌, IsSome, IfSome};

use command_line::search::MAX_STATES;
use command_line::{SearchPlan, Show};
use litmus_reader::MAX_TEXT;
use machine_core::{Bus, Config, Shape};
use scheduler::SweepPlan;
use scheduler::plan::{MAX_LENGTH, MAX_SEEDS};
use snoop_bus::bus::MAX_CORES as MAX_BUS_CORES;
use snoop_bus::shape::{MAX_SETS, MAX_WAYS, MAX_WORDS};
use trace_report::MAX_STEPS;
use tso_cli::{MAX_INPUT, READ_LIMIT};
use tso_terms::limits::{
    MAX_ATOMS, MAX_CORES, MAX_DEPTH, MAX_INSTRUCTIONS, MAX_LOCATIONS, MAX_NAME, MAX_OPEN,
    MAX_TEST_NAME, MIN_DEPTH,
};

/// Each limit is this number: a law, with nothing to run.
pub fn limits_are_these_numbers()
    ensures cores { MAX_CORES ≡ 8 }
    ensures locations { MAX_LOCATIONS ≡ 16 }
    ensures instructions { MAX_INSTRUCTIONS ≡ 32 }
    ensures atoms { MAX_ATOMS ≡ 256 }
    ensures nesting { MAX_OPEN ≡ 64 }
    ensures name { MAX_NAME ≡ 32 }
    ensures test_name { MAX_TEST_NAME ≡ 64 }
    ensures shallowest { MIN_DEPTH ≡ 1 }
    ensures deepest { MAX_DEPTH ≡ 32 }
    ensures cores_on_a_bus { MAX_BUS_CORES ≡ 8 }
    ensures sets { MAX_SETS ≡ 8 }
    ensures ways { MAX_WAYS ≡ 8 }
    ensures words { MAX_WORDS ≡ 4 }
    ensures seeds { MAX_SEEDS ≡ 1000 }
    ensures states { MAX_STATES ≡ 10000000 }
    ensures choices { MAX_LENGTH ≡ 100000 }
    ensures steps_as_json { MAX_STEPS ≡ 1000 }
    ensures text { MAX_TEXT ≡ 65536 }
    ensures input { MAX_INPUT ≡ 1048576 }
    ensures read { READ_LIMIT ≡ 1048577 }
{}

/// A cache has from 1 to 8 sets of from 1 to 8 ways, with lines of 1, 2 or 4 words.
pub fn a_shape_within_limits_is_made(sets: u8, ways: u8, words: u8) -> Option<Shape>
    ensures made { IsSome result
        ↔ ((1 ≤ sets) × (sets ≤ 8) × (1 ≤ ways) × (ways ≤ 8) × ((words ≡ 1) ⊎ (words ≡ 2) ⊎ (words ≡ 4))) }
    ensures sets { IfSome result (λ s. s.sets ≡ sets) }
    ensures ways { IfSome result (λ s. s.ways ≡ ways) }
    ensures words { IfSome result (λ s. s.words ≡ words) }
{
    Shape::new(sets, ways, words)
}

/// Whoever looks at a shape knows that it is within the limits.
pub fn a_shape_is_within_limits(shape: &Shape) -> (u8, u8, u8)
    ensures sets { (1 ≤ result.0) × (result.0 ≤ 8) }
    ensures ways { (1 ≤ result.1) × (result.1 ≤ 8) }
    ensures words { (result.2 ≡ 1) ⊎ (result.2 ≡ 2) ⊎ (result.2 ≡ 4) }
{
    (shape.sets(), shape.ways(), shape.words())
}

/// Where nothing else is asked for, a cache has one set of two ways, with lines of one word.
pub fn the_shape_by_default() -> Shape
    ensures sets { result.sets ≡ 1 }
    ensures ways { result.ways ≡ 2 }
    ensures words { result.words ≡ 1 }
{
    Shape::default()
}

/// A store buffer has room for from 0 to 32 stores.
pub fn a_configuration_within_limits_is_made(depth: u8, shape: Shape, bus: Bus) -> Option<Config>
    ensures made { IsSome result ↔ (depth ≤ 32) }
    ensures depth { IfSome result (λ c. c.depth ≡ depth) }
    ensures shape { IfSome result (λ c. c.shape ≡ shape) }
    ensures bus { IfSome result (λ c. c.bus ≡ bus) }
{
    Config::new(depth, shape, bus)
}

/// Whoever looks at a configuration knows that it is within the limits: those of its buffers and those of its caches.
pub fn a_configuration_is_within_limits(config: &Config) -> u8
    ensures depth { result ≤ 32 }
    ensures sets { (1 ≤ config.now.shape.sets) × (config.now.shape.sets ≤ 8) }
    ensures ways { (1 ≤ config.now.shape.ways) × (config.now.shape.ways ≤ 8) }
    ensures words { (config.now.shape.words ≡ 1) ⊎ (config.now.shape.words ≡ 2) ⊎ (config.now.shape.words ≡ 4) }
{
    config.depth()
}

/// A sweep has from 1 to 1,000 seeds, each of at most 100,000 choices.
pub fn a_plan_within_limits_is_made(from: u32, seeds: u32, length: u32) -> Option<SweepPlan>
    ensures made { IsSome result ↔ ((1 ≤ seeds) × (seeds ≤ 1000) × (length ≤ 100000)) }
    ensures from { IfSome result (λ p. p.from ≡ from) }
    ensures seeds { IfSome result (λ p. p.seeds ≡ seeds) }
    ensures length { IfSome result (λ p. p.length ≡ length) }
{
    SweepPlan::new(from, seeds, length)
}

/// Whoever looks at a plan knows that it is within the limits.
pub fn a_plan_is_within_limits(plan: &SweepPlan) -> u32
    ensures seeds { (1 ≤ result) × (result ≤ 1000) }
    ensures length { plan.now.length ≤ 100000 }
{
    plan.seeds()
}

/// A search keeps from 1 to 10,000,000 states, with store buffers of from 0 to 32 stores.
pub fn a_search_within_limits_is_made(depth: u8, states: u32, show: Show) -> Option<SearchPlan>
    ensures made { IsSome result ↔ ((depth ≤ 32) × (1 ≤ states) × (states ≤ 10000000)) }
    ensures depth { IfSome result (λ p. p.depth ≡ depth) }
    ensures states { IfSome result (λ p. p.states ≡ states) }
    ensures show { IfSome result (λ p. p.show ≡ show) }
{
    SearchPlan::new(depth, states, show)
}

/// Whoever looks at a search knows that it is within the limits.
pub fn a_search_is_within_limits(search: &SearchPlan) -> u8
    ensures depth { result ≤ 32 }
    ensures states { (1 ≤ search.now.states) × (search.now.states ≤ 10000000) }
{
    search.depth()
}
