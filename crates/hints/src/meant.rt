//! Options that a command hasn't, as other programs and other commands have them: what stands for each here.

use crate::tables::{is_exactly_one_of, is_one_of};

/// Options that are meant alike by these commands, or by all where none is named, and what is said of one of them: a
/// sentence, in whose gaps that option and the word after it stand.
struct Meant(&'static str, &'static str, &'static str);

const SEED: &str =
    "{}: write the choices seed N M after a line ====, as seed 1 1000; the command sweep runs many seeds";

const SEQUENTIAL: &str = "{}: --depth 0 gives sequential consistency, and --depth 32 all of TSO";

static MEANT: [Meant; 22] = [
    Meant(
        "sweep counts",
        "--seed -s",
        "{}: --from N names the first seed, and --seeds N how many there are",
    ),
    Meant(
        "sweep counts",
        "--runs --count --iterations -n --times --number --samples --tries --repeat -r",
        "{}: --seeds N says how many runs there are, and --from N their first seed",
    ),
    Meant(
        "sweep counts",
        "--start --first --to --last --end",
        "{}: --from N names the first seed, and --seeds N how many there are",
    ),
    Meant(
        "sweep counts",
        "--steps --choices --max --limit",
        "{}: --length N says how many choices each seed makes",
    ),
    Meant(
        "outcomes run trace sweep counts",
        "--model --sc --tso --memory-model",
        SEQUENTIAL,
    ),
    Meant(
        "why",
        "--depth --sc -d",
        "{}: --model sc is sequential consistency, as a machine of depth 0; --model tso is all of TSO",
    ),
    Meant(
        "witness",
        "--model --sc",
        "{}: check and witness judge by TSO; an order of sequential consistency keeps program order",
    ),
    Meant(
        "why",
        "--states --limit --max --max-cases",
        "{}: --cases N says how many cases may be told apart",
    ),
    Meant(
        "outcomes",
        "--cases --limit --max --max-states",
        "{}: --states N says how many states may be kept",
    ),
    Meant(
        "outcomes",
        "--seed --seeds --runs --from --length",
        "{}: outcomes finds all final states without seeds; the command sweep runs seeds",
    ),
    Meant(
        "outcomes",
        "--all --registers --full",
        "{}: --show registers or --show all shows more of each state",
    ),
    Meant(
        "run trace sweep counts outcomes why check witness",
        "--instruction --isa --set --all --extended",
        "{}: --instructions all reads the larger set of instructions",
    ),
    Meant(
        "run sweep counts outcomes why",
        "--trace --verbose -v --debug --steps",
        "{}: the command trace tells what each choice does: tso trace < FILE",
    ),
    Meant("run trace", "--seed --seeds --random --from -s", SEED),
    Meant(
        "run trace",
        "--choices --schedule -c",
        "{}: choices stand in the input, after the test and a line ====",
    ),
    Meant(
        "",
        "-o --output --out --save",
        "{}: tso writes standard output: put > {} at the end of the line",
    ),
    Meant(
        "",
        "-i -f --file --input --test --litmus --in -",
        "{}: tso reads standard input: put < {} at the end of the line",
    ),
    Meant(
        "",
        "--msi --mesi --moesi --mosi",
        "{}: the protocol is named by --protocol, as --protocol mesi",
    ),
    Meant(
        "",
        "--split --atomic",
        "{}: the bus is named by --bus, as --bus split",
    ),
    Meant("", "-d", "{}: options are written whole: --depth {}"),
    Meant("", "-p", "{}: options are written whole: --protocol {}"),
    Meant(
        "",
        "--version -V",
        "{}: the version is printed by tso --version",
    ),
];

/// What is said of an option that a command hasn't, where it is known what is meant.
pub fn meant_by(command: &[u8], option: &[u8]) -> Option<&'static str> {
    for meant in &MEANT {
        if is_exactly_one_of(meant.1, option)
            && (meant.0.is_empty() || is_exactly_one_of(meant.0, command))
        {
            return Some(meant.2);
        }
    }
    None
}

/// The tools beside the program.
const TOOLS: &str = "import compiled campaign cycles graph compare hardware theory";

/// Whether a word names a tool beside the program.
pub fn is_tool(word: &[u8]) -> bool {
    is_one_of(TOOLS, word)
}
