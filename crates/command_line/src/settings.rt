//! What the words of a command line ask for. Numbers are judged a second time after the library read them: by that test
//! alone the settings are known to be within their limits.

ghost use Rattle.std.specs.Prelude.{◌≡◌, IfOk, IfSome};
ghost use Rattle.command_line.specs.Limits.{IsWithinLimits, HasDepth};
ghost use Rattle.command_line.specs.Instructions.{instructions_of};

use crate::explanation::ReasonPlan;
use crate::options::command_line;
use crate::search::SearchPlan;
use clap::ArgMatches;
use command_table::Subcommand;
use litmus_tokens::Instructions;
use machine_core::{Bus, Config, Shape};
use protocol_tables::ProtocolKind;
use refutation_laws::Model;
use scheduler::SweepPlan;
use std::alloc::Global;
use thiserror::Error;
use tso_report::Show;
use tso_terms::limits::{MAX_DEPTH, MIN_DEPTH};

/// What a command line asks for, and which instructions a test may have.
#[derive(Clone, Copy)]
pub enum Settings {
    /// Run a test under choices, on a machine of this protocol and configuration, and report it, as
    /// JSON if that is asked for.
    Run {
        protocol: ProtocolKind,
        config: Config,
        instructions: Instructions,
        json: bool,
    },
    /// Run a test under choices, on such a machine, and report it with what each choice did to buffers,
    /// caches, bus and memory, as JSON if that is asked for.
    Trace {
        protocol: ProtocolKind,
        config: Config,
        instructions: Instructions,
        json: bool,
    },
    /// Run a test under the choices of each seed of a plan, on such a machine, and tell which final
    /// states were met.
    Sweep {
        protocol: ProtocolKind,
        config: Config,
        instructions: Instructions,
        plan: SweepPlan,
    },
    /// Run a test under the choices of each seed of a plan, or where there is none under choices that are given, on such a
    /// machine, and tell what the caches did, as JSON if that is asked for.
    Counts {
        protocol: ProtocolKind,
        config: Config,
        instructions: Instructions,
        plan: Option<SweepPlan>,
        json: bool,
    },
    /// Find all final states of a test, with choices that lead to each, and tell them, as JSON if that
    /// is asked for. Whether the status is to say that the test's condition isn't as it claims.
    Outcomes {
        search: SearchPlan,
        instructions: Instructions,
        json: bool,
        assert: bool,
    },
    /// Tell why what a test asks never is, or an execution in which it is, as JSON if that is asked for.
    /// Whether the status is to say that the test's condition isn't as it claims.
    Why {
        plan: ReasonPlan,
        instructions: Instructions,
        json: bool,
        assert: bool,
    },
    /// Check an order of a test against the axioms.
    Check {
        instructions: Instructions,
    },
    /// Find choices that reach an order of a test, with store buffers of this depth (1 to 32).
    Witness {
        depth: u8,
        instructions: Instructions,
    },
    /// Print a protocol's table.
    Tables(ProtocolKind),
}

impl Settings {
    /// Which instructions a test may have; of `tables`, which reads none, the grammar's own.
    pub fn instructions(&self) -> Instructions
        ensures { result ≡ instructions_of self.now }
    {
        match self {
            Settings::Run { instructions, .. }
            | Settings::Trace { instructions, .. }
            | Settings::Sweep { instructions, .. }
            | Settings::Counts { instructions, .. }
            | Settings::Outcomes { instructions, .. }
            | Settings::Why { instructions, .. }
            | Settings::Check { instructions }
            | Settings::Witness { instructions, .. } => *instructions,
            Settings::Tables(_) => Instructions::Basic,
        }
    }

    /// Does nothing: from the call on it is known that the settings are within their limits. A
    /// configuration, a plan and each search always are; the depth of a witness has to be.
    pub fn know_limits(&self)
        requires { HasDepth self.now }
        ensures { IsWithinLimits self.now }
    {
        // Each call here is made for what it ensures: that what it asks is within its limits.
        match self {
            Settings::Run { config, .. } | Settings::Trace { config, .. } => {
                let _depth = config.depth();
            }
            Settings::Sweep { config, plan, .. } => {
                let _depth = config.depth();
                let _seeds = plan.seeds();
            }
            Settings::Counts {
                config,
                plan: Some(plan),
                ..
            } => {
                let _depth = config.depth();
                let _seeds = plan.seeds();
            }
            Settings::Counts {
                config,
                plan: None,
                ..
            } => {
                let _depth = config.depth();
            }
            Settings::Outcomes { search, .. } => {
                let _depth = search.depth();
            }
            Settings::Why { plan, .. } => {
                let _cases = plan.cases();
            }
            Settings::Check { .. } | Settings::Witness { .. } | Settings::Tables(_) => {}
        }
    }
}

/// Why a command line is refused.
#[derive(Debug, Drop, Error)]
pub enum LineFault {
    /// The words aren't a command with its options; being out of memory is reported so, too.
    #[error(transparent)]
    Words(#[from] clap::Error),
    /// A value that the options let pass is outside its limits.
    #[error("range")]
    Range,
}

/// The settings of a command line, whose first word is the program's name.
///
/// `Words` where the words aren't a command with its options; `Range` where a value that the
/// options let pass is outside its limits.
pub fn settings_of(alloc: Global, words: &[&str]) -> Result<Settings, LineFault>
    ensures within { IfOk result IsWithinLimits }
    ensures depth { IfOk result HasDepth }
{
    let matches = matches_of(alloc, words)?;
    if let Some((name, inner)) = matches.subcommand()
        && let Some(settings) = settings_named(name, inner)
    {
        settings.know_limits();
        return Ok(settings);
    }
    Err(LineFault::Range)
}

/// What the words say, where they are a command with its options.
fn matches_of<'a>(alloc: Global, words: &'a [&'a str]) -> Result<ArgMatches<'a>, clap::Error> {
    let command = command_line(alloc, words)?;
    command.try_get_matches_from(words)
}

/// The settings of a subcommand; `None` where a value is outside its limits.
fn settings_named(name: &str, matches: &ArgMatches<'_>) -> Option<Settings>
    ensures { IfSome result HasDepth }
{
    match Subcommand::named(name) {
        Some(Subcommand::Run) => run_settings(matches, false),
        Some(Subcommand::Trace) => run_settings(matches, true),
        Some(Subcommand::Sweep) => sweep_settings(matches),
        Some(Subcommand::Counts) => counts_settings(matches),
        Some(Subcommand::Outcomes) => outcomes_settings(matches),
        Some(Subcommand::Why) => why_settings(matches),
        Some(Subcommand::Check) => Some(Settings::Check {
            instructions: instructions_in(matches)?,
        }),
        Some(Subcommand::Witness) => witness_settings(matches),
        Some(Subcommand::Tables) => Some(Settings::Tables(protocol_in(matches)?)),
        None => None,
    }
}

fn witness_settings(matches: &ArgMatches<'_>) -> Option<Settings>
    ensures { IfSome result HasDepth }
{
    let instructions = instructions_in(matches)?;
    match matches.get_one::<u8>("depth") {
        Some(depth) if (MIN_DEPTH..=MAX_DEPTH).contains(&depth) => Some(Settings::Witness {
            depth,
            instructions,
        }),
        _ => None,
    }
}

/// The settings of a run, which is reported alone or with its trace.
fn run_settings(matches: &ArgMatches<'_>, is_traced: bool) -> Option<Settings>
    ensures { IfSome result HasDepth }
{
    let (Some(protocol), Some(config)) = (protocol_in(matches), config_in(matches)) else {
        return None;
    };
    let instructions = instructions_in(matches)?;
    let json = matches.get_flag("json");
    Some(if is_traced {
        Settings::Trace {
            protocol,
            config,
            instructions,
            json,
        }
    } else {
        Settings::Run {
            protocol,
            config,
            instructions,
            json,
        }
    })
}

fn sweep_settings(matches: &ArgMatches<'_>) -> Option<Settings>
    ensures { IfSome result HasDepth }
{
    let (Some(protocol), Some(config), Some(plan)) = (
        protocol_in(matches),
        config_in(matches),
        plan_in(matches),
    ) else {
        return None;
    };
    let instructions = instructions_in(matches)?;
    Some(Settings::Sweep {
        protocol,
        config,
        instructions,
        plan,
    })
}

fn counts_settings(matches: &ArgMatches<'_>) -> Option<Settings>
    ensures { IfSome result HasDepth }
{
    let (Some(protocol), Some(config), Some(plan)) = (
        protocol_in(matches),
        config_in(matches),
        plan_in(matches),
    ) else {
        return None;
    };
    let plan = if matches.get_flag("given") {
        None
    } else {
        Some(plan)
    };
    let instructions = instructions_in(matches)?;
    let json = matches.get_flag("json");
    Some(Settings::Counts {
        protocol,
        config,
        instructions,
        plan,
        json,
    })
}

fn plan_in(matches: &ArgMatches<'_>) -> Option<SweepPlan> {
    let (Some(from), Some(seeds), Some(length)) = (
        matches.get_one::<u32>("from"),
        matches.get_one::<u32>("seeds"),
        matches.get_one::<u32>("length"),
    ) else {
        return None;
    };
    SweepPlan::new(from, seeds, length)
}

fn outcomes_settings(matches: &ArgMatches<'_>) -> Option<Settings>
    ensures { IfSome result HasDepth }
{
    let show = match matches.get_str("show") {
        Some("condition") => Show::Condition,
        Some("registers") => Show::Registers,
        Some("all") => Show::All,
        _ => return None,
    };
    let (Some(depth), Some(states)) = (
        matches.get_one::<u8>("depth"),
        matches.get_one::<u32>("states"),
    ) else {
        return None;
    };
    let search = SearchPlan::new(depth, states, show)?;
    let instructions = instructions_in(matches)?;
    let json = matches.get_flag("json");
    let assert = matches.get_flag("assert");
    Some(Settings::Outcomes {
        search,
        instructions,
        json,
        assert,
    })
}

fn why_settings(matches: &ArgMatches<'_>) -> Option<Settings>
    ensures { IfSome result HasDepth }
{
    let model = match matches.get_str("model") {
        Some("tso") => Model::Tso,
        Some("sc") => Model::Sequential,
        _ => return None,
    };
    let plan = ReasonPlan::new(model, matches.get_one::<u32>("cases")?)?;
    let instructions = instructions_in(matches)?;
    let json = matches.get_flag("json");
    let assert = matches.get_flag("assert");
    Some(Settings::Why {
        plan,
        instructions,
        json,
        assert,
    })
}

fn config_in(matches: &ArgMatches<'_>) -> Option<Config> {
    let bus = match matches.get_str("bus") {
        Some("atomic") => Bus::Atomic,
        Some("split") => Bus::Split,
        _ => return None,
    };
    let (Some(depth), Some(sets), Some(ways), Some(words)) = (
        matches.get_one::<u8>("depth"),
        matches.get_one::<u8>("sets"),
        matches.get_one::<u8>("ways"),
        matches.get_one::<u8>("words"),
    ) else {
        return None;
    };
    Config::new(depth, Shape::new(sets, ways, words)?, bus)
}

fn instructions_in(matches: &ArgMatches<'_>) -> Option<Instructions> {
    match matches.get_str("instructions") {
        Some("basic") => Some(Instructions::Basic),
        Some("all") => Some(Instructions::All),
        _ => None,
    }
}

fn protocol_in(matches: &ArgMatches<'_>) -> Option<ProtocolKind> {
    match matches.get_str("protocol") {
        Some("msi") => Some(ProtocolKind::Msi),
        Some("mesi") => Some(ProtocolKind::Mesi),
        Some("moesi") => Some(ProtocolKind::Moesi),
        Some("mosi") => Some(ProtocolKind::Mosi),
        _ => None,
    }
}
