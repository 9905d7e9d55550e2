//! What a tally says of runs that ended and of one that didn't. The program counts states; runs are counted here.
ghost use Rattle.std.specs.Prelude.{◌≡◌};

use crate::named::{MEMORY, says, test_of};
use machine_core::{Final, FinalState};
use std::alloc::Global;
use std::process::Abort;
use tso_report::{Run, Tally};
use tso_terms::{Execution, Test};

const SB: &[u8] = b"\
X86 SB\n\
{ }\n\
\x20P0          | P1          ;\n\
\x20MOV [x],$1  | MOV [y],$1  ;\n\
\x20MOV EAX,[y] | MOV EAX,[x] ;\n\
exists (0:EAX=0 /\\ 1:EAX=0)\n";

const TEXT: &str = "\
Sweep from=0 seeds=3 length=6 ended=2 unfinished=1\n\
State 1 0:EAX=0 1:EAX=0\n\
State 1 0:EAX=0 1:EAX=1\n\
Observation SB Sometimes 1 1\n";

/// A run that left these values in EAX of both cores, with the condition true or not.
fn run(rt: &impl Abort, alloc: Global, left: [u32; 2], is_true: bool) -> Run {
    let [first, second] = left;
    let registers = vec![in alloc; [first, 0, 0, 0, 0, 0], [second, 0, 0, 0, 0, 0]];
    let memory = vec![in alloc; 1, 1];
    Run {
        left: Final {
            execution: Execution {
                order: Vec::new(alloc),
            },
            state: FinalState {
                registers: registers.expect(rt, MEMORY),
                memory: memory.expect(rt, MEMORY),
            },
            counts: Vec::new(alloc),
        },
        holds: Some(is_true),
        used: 6,
        stalled: 0,
        unused: 0,
    }
}

fn add(rt: &impl Abort, tally: &mut Tally<'_>, test: &Test, run: &Run)
    requires { tally.old.test ≡ test.now }
    ensures { tally.new.test ≡ test.now }
{
    assert!(rt; run.left.state.registers.len() == usize::from(test.cores()));
    assert!(rt; run.left.state.memory.len() == usize::from(test.locations()));
    assert!(rt; run.holds.is_some() == test.cond().is_some());
    assert!(rt; tally.count() < 3);
    tally.add(run).expect(rt, MEMORY);
}

/// The text of one in which both loads pass, one in which the second core sees the first core's store, and one that doesn't end.
fn text_of_three(rt: &impl Abort, alloc: Global, test: &Test) -> String {
    let mut tally = Tally::new(alloc, test).expect(rt, MEMORY);
    add(rt, &mut tally, test, &run(rt, alloc, [0, 0], true));
    add(rt, &mut tally, test, &run(rt, alloc, [0, 1], false));
    assert!(rt; tally.count() < 3);
    tally.add_unfinished();
    tally.text(alloc, 0, 6).expect(rt, MEMORY)
}

#[test]
fn a_tally_counts_states_and_verdicts(rt: HostRuntime) {
    let alloc = rt.alloc();
    let test = test_of(&rt, alloc, SB);
    let text = text_of_three(&rt, alloc, &test);
    says(&rt, text, TEXT);
}
