//! The commands and their options, each declared once: by them the library reads command lines, and hints name options.

use crate::help;

/// A command of the program.
#[derive(Clone, Copy)]
pub enum Subcommand {
    Run,
    Trace,
    Sweep,
    Counts,
    Outcomes,
    Why,
    Check,
    Witness,
    Tables,
}

/// The commands, in the order of the help.
pub static SUBCOMMANDS: [Subcommand; 9] = [
    Subcommand::Run,
    Subcommand::Trace,
    Subcommand::Sweep,
    Subcommand::Counts,
    Subcommand::Outcomes,
    Subcommand::Why,
    Subcommand::Check,
    Subcommand::Witness,
    Subcommand::Tables,
];

/// An option of a command.
pub struct DeclaredOption {
    /// Its name without `--`.
    pub name: &'static str,
    pub help: &'static str,
    pub value: Value,
}

/// What is said of a command on command lines and in help.
struct DeclaredCommand {
    name: &'static str,
    about: &'static str,
    help: &'static str,
}

/// What value an option has.
#[derive(Clone, Copy)]
pub enum Value {
    /// None: the option is a flag. These options can't stand beside it.
    Flag(&'static [&'static str]),
    /// A number between these two, or one of them; and the one that holds where the option isn't given.
    Number(i64, i64, &'static str),
    /// What help calls it; one of these names; and the one that holds where the option isn't given.
    Named(&'static str, &'static [&'static str], &'static str),
}

impl Subcommand {
    /// The word for it on a command line.
    pub fn name<'a>(self) -> &'a str {
        self.declared().name
    }

    /// The command with this name.
    pub fn named(name: &str) -> Option<Subcommand> {
        for command in &SUBCOMMANDS {
            if command.name() == name {
                return Some(*command);
            }
        }
        None
    }

    /// What it does, in one line.
    pub fn about<'a>(self) -> &'a str {
        self.declared().about
    }

    /// What its help says after its options.
    pub fn help<'a>(self) -> &'a str {
        self.declared().help
    }

    /// The options that say what is run, searched or judged.
    pub fn options(self) -> &'static [DeclaredOption] {
        match self {
            Subcommand::Run | Subcommand::Trace | Subcommand::Sweep | Subcommand::Counts => MACHINE,
            Subcommand::Outcomes => SEARCH,
            Subcommand::Why => REASON,
            Subcommand::Check => READING,
            Subcommand::Witness => DEPTH,
            Subcommand::Tables => PROTOCOL,
        }
    }

    /// The options after these: of a sweep and of counts their seeds, of others the form of their answer.
    pub fn further_options(self) -> &'static [DeclaredOption] {
        match self {
            Subcommand::Run | Subcommand::Trace => ANSWER,
            Subcommand::Sweep => PLAN,
            Subcommand::Counts => COUNTED,
            Subcommand::Outcomes | Subcommand::Why => VERDICT,
            Subcommand::Check | Subcommand::Witness | Subcommand::Tables => &[],
        }
    }

    /// Its option of this name, which begins with `--`.
    pub fn option_named(self, option: &[u8]) -> Option<&'static DeclaredOption> {
        let name = option.strip_prefix(b"--".as_slice())?;
        for options in &[self.options(), self.further_options()] {
            for declared in *options {
                if declared.name.as_bytes() == name {
                    return Some(declared);
                }
            }
        }
        None
    }

    fn declared(self) -> &'static DeclaredCommand {
        match self {
            Subcommand::Run => &RUN,
            Subcommand::Trace => &TRACE,
            Subcommand::Sweep => &SWEEP,
            Subcommand::Counts => &COUNTS,
            Subcommand::Outcomes => &OUTCOMES,
            Subcommand::Why => &WHY,
            Subcommand::Check => &CHECK,
            Subcommand::Witness => &WITNESS,
            Subcommand::Tables => &TABLES,
        }
    }
}

/// The protocols as a command line names them.
const PROTOCOLS: &[&str] = &["msi", "mesi", "moesi", "mosi"];

/// The kinds of bus as a command line names them.
const BUSES: &[&str] = &["atomic", "split"];

/// What is shown of a final state as a command line names it.
const SHOWN: &[&str] = &["condition", "registers", "all"];

/// The models of memory as a command line names them.
const MODELS: &[&str] = &["tso", "sc"];

/// The sets of instructions as a command line names them.
const INSTRUCTION_SETS: &[&str] = &["basic", "all"];

/// Which instructions a test may have.
const INSTRUCTIONS: DeclaredOption = DeclaredOption {
    name: "instructions",
    help: "Which instructions a test may have: those of the grammar (basic), or more of x86 (all)",
    value: Value::Named("SET", INSTRUCTION_SETS, "basic"),
};

/// The option of a command that reads a test and an order.
const READING: &[DeclaredOption] = &[INSTRUCTIONS];

/// The options that a machine is built by, and a test is read by.
const MACHINE: &[DeclaredOption] = &[
    DeclaredOption {
        name: "protocol",
        help: "Coherence protocol of the caches",
        value: Value::Named("NAME", PROTOCOLS, "msi"),
    },
    DeclaredOption {
        name: "depth",
        help: "How many stores each core's buffer holds, 0 to 32; 0 is a machine without buffers",
        value: Value::Number(0, 32, "4"),
    },
    DeclaredOption {
        name: "sets",
        help: "How many sets each core's cache has, 1 to 8",
        value: Value::Number(1, 8, "1"),
    },
    DeclaredOption {
        name: "ways",
        help: "How many lines each set has room for, 1 to 8",
        value: Value::Number(1, 8, "2"),
    },
    DeclaredOption {
        name: "words",
        help: "How many words a cache line has: 1, 2 or 4",
        value: Value::Number(1, 4, "1"),
    },
    DeclaredOption {
        name: "bus",
        help: "Whether the bus answers at once (atomic) or later (split)",
        value: Value::Named("KIND", BUSES, "atomic"),
    },
    INSTRUCTIONS,
];

/// The first seed of many runs.
const FROM: DeclaredOption = DeclaredOption {
    name: "from",
    help: "The first seed, 0 to 4294967295",
    value: Value::Number(0, 4294967295, "0"),
};

/// How many seeds many runs have.
const SEEDS: DeclaredOption = DeclaredOption {
    name: "seeds",
    help: "How many seeds, each for a run, 1 to 1000",
    value: Value::Number(1, 1000, "10"),
};

/// How many choices each seed of many runs makes.
const LENGTH: DeclaredOption = DeclaredOption {
    name: "length",
    help: "How many choices each seed makes, 0 to 100000",
    value: Value::Number(0, 100000, "1000"),
};

/// The options that say which seeds are swept.
const PLAN: &[DeclaredOption] = &[FROM, SEEDS, LENGTH];

/// The options that say which runs are counted, and the form of the answer.
const COUNTED: &[DeclaredOption] = &[
    FROM,
    SEEDS,
    LENGTH,
    DeclaredOption {
        name: "given",
        help: "Count the one run of the choices after ====, in place of seeds",
        value: Value::Flag(&["from", "seeds", "length"]),
    },
    JSON,
];

/// The options that say what is searched for.
const SEARCH: &[DeclaredOption] = &[
    DeclaredOption {
        name: "depth",
        help: "How many stores each core's buffer holds, 0 to 32; 32 gives all of TSO, 0 sequential consistency",
        value: Value::Number(0, 32, "32"),
    },
    DeclaredOption {
        name: "states",
        help: "How many states of the machine may be kept, 1 to 10000000",
        value: Value::Number(1, 10000000, "1000000"),
    },
    DeclaredOption {
        name: "show",
        help: "Which values to show: what the condition names; also written registers; also all locations",
        value: Value::Named("WHAT", SHOWN, "condition"),
    },
    INSTRUCTIONS,
];

/// The options that say of which model a reason is looked for.
const REASON: &[DeclaredOption] = &[
    DeclaredOption {
        name: "model",
        help: "Which model of memory: TSO (tso), or sequential consistency (sc)",
        value: Value::Named("NAME", MODELS, "tso"),
    },
    DeclaredOption {
        name: "cases",
        help: "How many cases may be told apart, 1 to 1000000",
        value: Value::Number(1, 1000000, "100000"),
    },
    INSTRUCTIONS,
];

/// The options of a witness.
const DEPTH: &[DeclaredOption] = &[
    DeclaredOption {
        name: "depth",
        help: "How many stores each core's buffer holds, 1 to 32",
        value: Value::Number(1, 32, "4"),
    },
    INSTRUCTIONS,
];

/// The option of a table.
const PROTOCOL: &[DeclaredOption] = &[DeclaredOption {
    name: "protocol",
    help: "Which protocol",
    value: Value::Named("NAME", PROTOCOLS, "msi"),
}];

/// That the answer is JSON.
const JSON: DeclaredOption = DeclaredOption {
    name: "json",
    help: "Print the report as one line of JSON",
    value: Value::Flag(&[]),
};

/// The options of a command whose answer has no verdict.
const ANSWER: &[DeclaredOption] = &[JSON];

/// The options of a command whose answer has a verdict.
const VERDICT: &[DeclaredOption] = &[
    JSON,
    DeclaredOption {
        name: "assert",
        help: "End with status 4 if the verdict is No",
        value: Value::Flag(&[]),
    },
];

static RUN: DeclaredCommand = DeclaredCommand {
    name: "run",
    about: "Runs a test under a list of choices, and reports the order that memory saw",
    help: help::RUN,
};

static TRACE: DeclaredCommand = DeclaredCommand {
    name: "trace",
    about: "Runs a test under a list of choices, and tells what each choice did",
    help: help::TRACE,
};

static SWEEP: DeclaredCommand = DeclaredCommand {
    name: "sweep",
    about: "Runs a test under the choices of many seeds, and counts its final states",
    help: help::SWEEP,
};

static COUNTS: DeclaredCommand = DeclaredCommand {
    name: "counts",
    about: "Runs a test under the choices of many seeds, and counts what the caches did",
    help: help::COUNTS,
};

static OUTCOMES: DeclaredCommand = DeclaredCommand {
    name: "outcomes",
    about: "Finds all final values of what the condition names, with choices that lead there",
    help: help::OUTCOMES,
};

static WHY: DeclaredCommand = DeclaredCommand {
    name: "why",
    about: "Tells why no execution has what the condition asks for, or shows one that has it",
    help: help::WHY,
};

static CHECK: DeclaredCommand = DeclaredCommand {
    name: "check",
    about: "Judges an order of a test by the axioms of TSO",
    help: help::CHECK,
};

static WITNESS: DeclaredCommand = DeclaredCommand {
    name: "witness",
    about: "Finds choices that reach an order of a test",
    help: help::WITNESS,
};

static TABLES: DeclaredCommand = DeclaredCommand {
    name: "tables",
    about: "Prints the table of a coherence protocol",
    help: help::TABLES,
};
