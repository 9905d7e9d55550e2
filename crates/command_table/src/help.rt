//! What `--help` says of each command, after its options: what it reads and prints, its exit status, an example.

/// Of `tso`.
pub const TSO: &str = "\
tso reads all of standard input, and then writes the answer to standard output. An input begins with\n\
a test. For run, trace and counts --given, a line ==== and choices follow the test; for check and\n\
witness, a line ==== and an order, as run prints it. sweep, counts, outcomes and why read the test\n\
alone, and tables reads nothing.\n\
\n\
Exit status:\n\
\x20 0  the test ended, the order is valid, choices that reach it were found, or the answer is printed\n\
\x20 1  a text was refused: standard output names the line or word, standard error has a hint\n\
\x20 2  the command line was refused, or it asked for help or the version\n\
\x20 3  the choices ended before the test did (in a sweep or counts: those of one seed or more); or outcomes\n\
\x20    needs more states than --states allows, or why needs more cases than --cases allows\n\
\x20 4  the order isn't valid, or needs deeper buffers than --depth; with --assert the verdict is No\n\
\x20 5  memory was refused, or standard input or output failed\n\
\n\
Example:\n\
\x20 tso run --depth 2 < FILE\n\
\n\
tso COMMAND --help tells what a command reads and prints.";

/// Of `tso run`.
pub const RUN: &str = "\
Standard input is a test, a line ====, and choices, separated by spaces or line ends:\n\
\x20 0s        core 0 takes its next step\n\
\x20 0d        core 0 drains its oldest pending store to memory\n\
\x20 seed N M  M choices drawn from the seed N (below 2^64)\n\
There are at most 100000 choices. run makes them one by one until the test ends. A test has ended when\n\
each core has taken all its steps and each buffer is empty.\n\
\n\
Exit status: 0 the test ended, 1 a text was refused, 2 the command line was refused, 3 the choices\n\
ended before the test did, 5 memory, input or output failed.\n\
\n\
Example:\n\
tso run << 'END'\n\
X86 SB\n\
{ }\n\
\x20P0          | P1          ;\n\
\x20MOV [x],$1  | MOV [y],$1  ;\n\
\x20MOV EAX,[y] | MOV EAX,[x] ;\n\
exists (0:EAX=0 /\\ 1:EAX=0)\n\
====\n\
0s 1s 0s 1s 0d 1d\n\
END";

/// Of `tso trace`.
pub const TRACE: &str = "\
Standard input is a test, a line ====, and choices, as for run. trace prints the report of run, with a\n\
trace after its first two lines: Trace, a line for each choice that was used, and Endtrace with their\n\
number. If the test didn't end, the line Unfinished stands after the trace. With --json the answer is\n\
one line, and at most 1000 choices may be used. A choice's line has these words, where they apply:\n\
\x20 5 0d        the choice's number, and the choice\n\
\x20 committed   its outcome: buffered, committed, moved, asked, or stalled and why\n\
\x20 P0:0 W x=1  the entry, as the order has it; or EAX=5 for a move; and forwarded where the\n\
\x20             core's own buffer answered\n\
\x20 miss        what the access was: hit, upgrade or miss\n\
\x20 GetM x      what went on the bus; flush P1 and write-back z, what was sent to memory\n\
\x20 P1.x S>I    a line whose state changed\n\
\x20 P0[y=2]     the core's buffer after the choice, where it changed, the oldest store first\n\
\n\
Exit status: 0 the test ended, 1 a text was refused, 2 the command line was refused, 3 the choices\n\
ended before the test did, 5 memory, input or output failed.\n\
\n\
Example:\n\
\x20 tso trace --protocol mesi < FILE";

/// Of `tso sweep`.
pub const SWEEP: &str = "\
Standard input is a test; sweep doesn't read what follows a line ====. Run number i, from 0 on, makes\n\
the choices seed FROM+i LENGTH. sweep prints each final state that it met, and how often. Then it prints\n\
how often the condition's proposition was true, and how often false. A state that sweep didn't meet may\n\
still be possible.\n\
\n\
Exit status: 0 all runs ended, 1 the test was refused, 2 the command line was refused, 3 a run didn't\n\
end, 5 memory, input or output failed.\n\
\n\
Example:\n\
\x20 tso sweep --seeds 100 --depth 1 < FILE";

/// Of `tso counts`.
pub const COUNTS: &str = "\
Standard input is a test. Run number i, from 0 on, makes the choices seed FROM+i LENGTH; with --given\n\
there is one run, of the choices that follow the test after a line ====, as for run. counts prints how\n\
many runs ended, and a line for each core, if one did. Each number there is its sum over the runs that\n\
ended, the least and the greatest (SUM/LEAST/GREATEST):\n\
\x20 hits .. flushes   as a Cache line of run has them\n\
\x20 get_s, get_m      the core's requests on the bus, to read a line and to write one\n\
\x20 invalidations     copies of other cores that these requests turned to I\n\
\x20 from_caches       lines that another core's cache supplied to it; from_memory, that memory did\n\
\x20 to_memory         lines written to memory for it: its own dirty ones that gave way, and copies of\n\
\x20                   other cores that its GetS sent there\n\
\n\
Exit status: 0 all runs ended, 1 a text was refused, 2 the command line was refused, 3 a run didn't end,\n\
5 memory, input or output failed.\n\
\n\
Example:\n\
\x20 tso counts --seeds 100 --protocol mesi < FILE";

/// Of `tso outcomes`.
pub const OUTCOMES: &str = "\
Standard input is a test; outcomes doesn't read what follows a line ====. It finds every final state\n\
that the machine can reach at --depth, and takes from each the values of what the condition names, or\n\
of all locations if there is no condition. outcomes prints each list of values once, with choices under\n\
which run at that depth ends there. Then it prints how many of these lists make the condition's\n\
proposition true, and how many make it false. The line True numbers those that make it true, from 1 in\n\
the order of the lines. Verdict is Ok if the condition's claim holds, else No: exists claims that the\n\
proposition is true in some state, ~exists in none, forall in all.\n\
\n\
With --show registers it also shows each register that an instruction of its core writes; with --show\n\
all, also all locations. --depth is 32 here and 4 in other commands. No program has more than 32 stores,\n\
so at 32 these are all values that TSO allows, and at 0 all that sequential consistency allows. So Never\n\
is a proof here: no run of this machine makes the proposition true, and at depth 32 no TSO execution\n\
does. If outcomes would have to keep more states than --states, it prints Unfinished, and some of the\n\
values, those that it met; then Verdict only if one of them decides it. 1,000,000 states of a large test\n\
take 5 to 25 seconds and up to 1.5 GB.\n\
\n\
Exit status: 0 all states are printed, 1 the test was refused, 2 the command line was refused, 3 --states\n\
was too few, 4 with --assert the verdict is No, 5 memory, input or output failed.\n\
\n\
Example:\n\
\x20 tso outcomes --depth 0 < FILE";

/// Of `tso why`.
pub const WHY: &str = "\
Standard input is a test; why doesn't read what follows a line ====. It asks whether the proposition of\n\
exists and ~exists can be true, and whether that of forall can be false. Without a condition, it asks\n\
whether there is any execution.\n\
\n\
If there is no such execution, Never stands first, and the reason follows. Given has what the condition\n\
gives. Lemma has facts that are never all so. Case and So have answers to a question, and what follows\n\
a colon closes them: Cycle and Uniproc, events that would each have to come before the next; Between, a\n\
write between the parts of a locked instruction; False, values that aren't those asked for; No, a\n\
question that has no answer; or By lemma.\n\
\n\
If there is one, Allowed stands first, and the execution follows: From tells what each read reads from,\n\
Coherence has the writes to each location in their order, By has choices under which run ends there (at\n\
--depth 32, for --model sc at --depth 0), and State has the values. Verdict is Ok if the condition's\n\
claim holds, else No: exists claims that the proposition is true in some execution, ~exists in none,\n\
forall in all. If why gives up at its limit, --cases, it prints only Unfinished.\n\
\n\
Exit status: 0 the answer is printed, 1 the test was refused, 2 the command line was refused, 3 --cases\n\
was too few, 4 with --assert the verdict is No, 5 memory, input or output failed.\n\
\n\
Example:\n\
\x20 tso why --model sc < FILE";

/// Of `tso check`.
pub const CHECK: &str = "\
Standard input is a test, a line ====, and an order: the lines from Order to Endorder, as run prints\n\
them. check doesn't read what stands before and after these lines. It prints Check valid, or Check\n\
invalid and the first breach: C1 an entry is missing, twice or extra, C2 a store has a wrong value,\n\
C3 program order isn't kept, C4 a locked instruction is in two parts, C5 a load has a wrong value.\n\
\n\
Exit status: 0 valid, 1 a text was refused, 2 the command line was refused, 4 not valid, 5 memory, input\n\
or output failed.\n\
\n\
Example:\n\
\x20 tso check < FILE";

/// Of `tso witness`.
pub const WITNESS: &str = "\
Standard input is a test, a line ====, and an order, as for check. witness prints choices under which\n\
run at the same depth, on the atomic bus, ends with exactly that order. If the order needs deeper\n\
buffers, witness prints their depth (Depth needed=N). If the order isn't valid, witness prints its first\n\
breach, as check does.\n\
\n\
Exit status: 0 choices were found, 1 a text was refused, 2 the command line was refused, 4 the order\n\
isn't valid or needs deeper buffers, 5 memory, input or output failed.\n\
\n\
Example:\n\
\x20 tso witness --depth 1 < FILE";

/// Of `tso tables`.
pub const TABLES: &str = "\
tables doesn't read standard input. It prints a row for each state of a copy that the protocol reaches.\n\
The row tells what another core's request to read (GetS) and to write (GetM) makes of the copy, whether\n\
the copy supplies the words, and whether it goes to memory. It also tells whether the copy can be\n\
written in place, and whether it is dirty when it is replaced.\n\
\n\
Exit status: 0 the table is printed, 2 the command line was refused, 5 memory or output failed.\n\
\n\
Example:\n\
\x20 tso tables --protocol moesi";
