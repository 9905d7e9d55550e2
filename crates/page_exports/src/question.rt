//! What numbers ask for: settings, where they are within the limits, and else nothing. The page is no part of what is
//! proved, so nothing it sends is believed.

ghost use Rattle.std.specs.Prelude.{◌≡◌, ◌≢◌, ◌<◌, ◌↔◌, IsSome, IfSome};
ghost use Rattle.command_line.specs.Limits.{HasDepth};
ghost use Rattle.page_exports.specs.Questions.{AsksQuestion, IsAskable, Asks, IsCommandAskable, IsMachineAsked, IsMachineOf, settings_of};
ghost use Rattle.page_exports.specs.inner.Questions.{HasDepthFor};
ghost use Rattle.page_exports.specs.Questions.{kind_number, bus_number, model_number, set_number, show_number, number_of_status};

use command_line::{ReasonPlan, SearchPlan, Show};
use machine_core::Config;
use protocol_tables::ProtocolKind;
use refutation_laws::Model;
use scheduler::SweepPlan;
use snoop_bus::Shape;
use tso_cli::{Instructions, Settings, Status};
use tso_terms::Bus;
use tso_terms::limits::{MAX_DEPTH, MIN_DEPTH};

/// A command and its options, as numbers; each command looks at its own options alone.
#[repr(C)]
#[derive(Clone, Copy)]
pub struct Numbers {
    /// 0 run, 1 sweep, 2 check, 3 witness, 4 tables, 5 outcomes, 6 trace, 8 why; 7 the last step of a trace alone; 9 counts of
    /// the runs of seeds, 10 counts of the run of the choices that are given.
    pub command: u8,
    /// 0 msi, 1 mesi, 2 moesi, 3 mosi.
    pub protocol: u8,
    /// 0 atomic, 1 split.
    pub bus: u8,
    /// How many stores a core's buffer holds, 0 to 32; of a witness 1 to 32.
    pub depth: u8,
    /// Sets of a cache, 1 to 8.
    pub sets: u8,
    /// Lines for which a set has room, 1 to 8.
    pub ways: u8,
    /// Words of a line, 1, 2 or 4.
    pub words: u8,
    /// Whether the answer of a run, of a trace, of counts or of either search is JSON.
    pub json: bool,
    /// The first seed of a sweep or of counts.
    pub from: u32,
    /// How many seeds a sweep or counts have, 1 to 1000.
    pub seeds: u32,
    /// How many choices a seed makes, 0 to 100000.
    pub length: u32,
    /// How many states a search may keep, 1 to 10000000.
    pub states: u32,
    /// How many cases a search for a reason may tell apart, 1 to 1000000.
    pub cases: u32,
    /// 0 tso, 1 sc.
    pub model: u8,
    /// What final states show: 0 what the condition names, 1 also registers that are written, 2 also all locations.
    pub show: u8,
    /// Whether the status of either search tells where the verdict is `No`.
    pub assert: bool,
    /// Which instructions a test may have: 0 those of the grammar alone, 1 all.
    pub instructions: u8,
}

/// What numbers ask for.
#[derive(Clone, Copy)]
pub enum Question {
    /// The answer of a command under these settings.
    Command(Settings),
    /// The last step of a trace as JSON alone, on such a machine.
    Step {
        protocol: ProtocolKind,
        config: Config,
        instructions: Instructions,
    },
}

impl Question {
    /// The settings of the command whose hints are beside the answer.
    pub fn settings(&self) -> Settings
        ensures { result ≡ settings_of self.now }
    {
        match self {
            Question::Command(settings) => *settings,
            Question::Step {
                protocol,
                config,
                instructions,
            } => Settings::Trace {
                protocol: *protocol,
                config: *config,
                instructions: *instructions,
                json: true,
            },
        }
    }
}

/// What the numbers ask for; `None` where one of them is outside its limits.
pub fn question_of(asked: &Numbers) -> Option<Question>
    ensures asks { IfSome result (AsksQuestion asked.now) }
    ensures depth { IfSome result HasDepthFor }
    ensures valid { IsSome result ↔ IsAskable asked.now }
{
    if asked.command == 7 {
        let (protocol, config) = machine_of(asked)?;
        Some(Question::Step {
            protocol,
            config,
            instructions: set_of(asked.instructions)?,
        })
    } else {
        Some(Question::Command(command_of(asked)?))
    }
}

/// The settings of the command that the numbers ask for; `None` where there is none, or a number is outside its limits.
fn command_of(asked: &Numbers) -> Option<Settings>
    ensures asks { IfSome result (Asks asked.now) }
    ensures depth { IfSome result HasDepth }
    ensures valid { IsSome result ↔ IsCommandAskable asked.now }
{
    match asked.command {
        0 => {
            let (protocol, config) = machine_of(asked)?;
            Some(Settings::Run {
                protocol,
                config,
                instructions: set_of(asked.instructions)?,
                json: asked.json,
            })
        }
        1 => {
            let (protocol, config) = machine_of(asked)?;
            let plan = SweepPlan::new(asked.from, asked.seeds, asked.length)?;
            Some(Settings::Sweep {
                protocol,
                config,
                instructions: set_of(asked.instructions)?,
                plan,
            })
        }
        2 => Some(Settings::Check {
            instructions: set_of(asked.instructions)?,
        }),
        3 => {
            if (MIN_DEPTH..=MAX_DEPTH).contains(&asked.depth) {
                Some(Settings::Witness {
                    depth: asked.depth,
                    instructions: set_of(asked.instructions)?,
                })
            } else {
                None
            }
        }
        4 => Some(Settings::Tables(kind_of(asked.protocol)?)),
        5 => {
            let search = SearchPlan::new(asked.depth, asked.states, show_of(asked.show)?)?;
            Some(Settings::Outcomes {
                search,
                instructions: set_of(asked.instructions)?,
                json: asked.json,
                assert: asked.assert,
            })
        }
        6 => {
            let (protocol, config) = machine_of(asked)?;
            Some(Settings::Trace {
                protocol,
                config,
                instructions: set_of(asked.instructions)?,
                json: asked.json,
            })
        }
        8 => {
            let plan = ReasonPlan::new(model_of(asked.model)?, asked.cases)?;
            Some(Settings::Why {
                plan,
                instructions: set_of(asked.instructions)?,
                json: asked.json,
                assert: asked.assert,
            })
        }
        9 => {
            let (protocol, config) = machine_of(asked)?;
            let plan = SweepPlan::new(asked.from, asked.seeds, asked.length)?;
            Some(Settings::Counts {
                protocol,
                config,
                instructions: set_of(asked.instructions)?,
                plan: Some(plan),
                json: asked.json,
            })
        }
        10 => {
            let (protocol, config) = machine_of(asked)?;
            Some(Settings::Counts {
                protocol,
                config,
                instructions: set_of(asked.instructions)?,
                plan: None,
                json: asked.json,
            })
        }
        _ => None,
    }
}

/// The number of a status: the command's exit status.
pub fn status_number(status: Status) -> u8
    ensures value { result ≡ number_of_status status }
    ensures command { result ≢ 2 }
{
    match status {
        Status::Good => 0,
        Status::Refused => 1,
        Status::Unended => 3,
        Status::Invalid | Status::NotAsClaimed => 4,
    }
}

/// The machine that the numbers ask for.
fn machine_of(asked: &Numbers) -> Option<(ProtocolKind, Config)>
    ensures value { IfSome result (λ m. IsMachineOf asked.now m.0 m.1) }
    ensures valid { IsSome result ↔ IsMachineAsked asked.now }
{
    let protocol = kind_of(asked.protocol)?;
    let shape = Shape::new(asked.sets, asked.ways, asked.words)?;
    let config = Config::new(asked.depth, shape, bus_of(asked.bus)?)?;
    Some((protocol, config))
}

fn set_of(number: u8) -> Option<Instructions>
    ensures value { IfSome result (λ s. set_number s ≡ number) }
    ensures valid { IsSome result ↔ (number < 2) }
{
    match number {
        0 => Some(Instructions::Basic),
        1 => Some(Instructions::All),
        _ => None,
    }
}

fn bus_of(number: u8) -> Option<Bus>
    ensures value { IfSome result (λ b. bus_number b ≡ number) }
    ensures valid { IsSome result ↔ (number < 2) }
{
    match number {
        0 => Some(Bus::Atomic),
        1 => Some(Bus::Split),
        _ => None,
    }
}

fn kind_of(number: u8) -> Option<ProtocolKind>
    ensures value { IfSome result (λ k. kind_number k ≡ number) }
    ensures valid { IsSome result ↔ (number < 4) }
{
    match number {
        0 => Some(ProtocolKind::Msi),
        1 => Some(ProtocolKind::Mesi),
        2 => Some(ProtocolKind::Moesi),
        3 => Some(ProtocolKind::Mosi),
        _ => None,
    }
}

fn model_of(number: u8) -> Option<Model>
    ensures value { IfSome result (λ m. model_number m ≡ number) }
    ensures valid { IsSome result ↔ (number < 2) }
{
    match number {
        0 => Some(Model::Tso),
        1 => Some(Model::Sequential),
        _ => None,
    }
}

fn show_of(number: u8) -> Option<Show>
    ensures value { IfSome result (λ s. show_number s ≡ number) }
    ensures valid { IsSome result ↔ (number < 3) }
{
    match number {
        0 => Some(Show::Condition),
        1 => Some(Show::Registers),
        2 => Some(Show::All),
        _ => None,
    }
}
