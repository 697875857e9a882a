//! The usage lines that name a client, the texts of help after the options, and the help of `verdicts`.

/// The usage lines of `run`.
pub const RUN_USAGE: &str = "\
pst run [OPTIONS] --client <COMMAND> [--shared] [FILE]...
       pst run [OPTIONS] <SYSTEM> [FILE]...";

/// The usage lines of `campaign`.
pub const CAMPAIGN_USAGE: &str = "\
pst campaign [OPTIONS] --client <COMMAND> [--shared] [FILE]
       pst campaign [OPTIONS] <SYSTEM> [FILE]";

/// After the help of the program.
pub const PROGRAM: &str = "\
Examples:
  pst campaign --client ./client.py cache.model   tests a server through a client
  pst judge cache.model recorded.runs             judges runs that were recorded elsewhere

`pst help verdicts` explains verdicts, reports, refusals and exit statuses.
The launcher also has `pst new NAME`, which writes a first model and client, `pst jitter -- COMMAND`, which starts a server with
random pauses, and `pst install [PREFIX]`.";

/// After the help of `check`.
pub const CHECK: &str = "\
Examples:
  pst check cache.model
  pst check - < cache.model
  pst check --unknown cache.model     also warns of operations after whose calls of unknown outcome a run is broken

A refusal is a line on standard output; standard error says where the model is wrong, as FILE:LINE:COLUMN, and why.

Exit status: 0 if the model is accepted, 2 if it is refused, 3 if an allocation failed.";

/// After the help of `list`.
pub const LIST: &str = "\
Exit status: 0 if the model is accepted, 2 if it is refused, 3 if an allocation failed.";

/// After the help of `judge`.
pub const JUDGE: &str = "\
Examples:
  pst judge cache.model monday.runs tuesday.runs
  pst judge --keep-going --failures cache.runs
  tail -f cache.runs | pst judge --stream cache.model

With --stream standard input has one item on each line, and the line of its verdict is printed before more is read. A line with
no item, or longer than 1 MiB, is refused as BadForm. Standard error says why a line is refused, for the first 20 of them or,
with --all-messages, for each.

Exit status: 0 if all items are explained or valid, 1 if some item is not, 2 if the input is refused
(with --keep-going, --stream or --format json: if some item is), 3 if an allocation failed or the output cannot be written.";

/// After the help of `explain`.
pub const EXPLAIN: &str = "\
Examples:
  pst explain --failures cache.runs
  pst explain --format html cache.runs > cache.html
  pst explain --dot --item 2 cache.runs | dot -Tsvg > search.svg
  pst explain --color always cache.runs | less -R

Exit status: that of `pst judge`.";

/// After the help of `convert`.
pub const CONVERT: &str = "\
Examples:
  pst convert cache.model monday.runs > monday.json
  pst convert --to trees cache.model monday.json

Exit status: 0 if all items are read, 2 if the input is refused, 3 if an allocation failed or the output cannot be written.";

/// After the help of `run`.
pub const RUN: &str = "\
Examples:
  pst run counter counter.model cases.runs
  pst run --client ./client.py cache.model cases.runs
  pst run --client ./client.py --repeats 20 cache.model failures/*.runs
  pst run --client ./client.py --format json cache.model cases.runs

Standard error says why the first broken item is broken, and which answers of the system have a wrong type; -q leaves this out.

Exit status: 0 if all runs are explained, 1 if some run is not, 2 if the input is refused, 3 if a case could not be driven,
an allocation failed or the output cannot be written.";

/// After the help of `campaign`.
pub const CAMPAIGN: &str = "\
Examples:
  pst campaign --client ./client.py cache.model --trials 200
  pst campaign --client ./client.py cache.model --html failures.html
  pst campaign racy counter.model --seed 1
  pst campaign --client ./client.py cache.model --save failures

The report is on standard output; `pst help verdicts` explains its lines. Standard error then explains the failure with
the fewest calls (of several one with the fewest of unknown outcome), and the first trial without a case; it counts the trials
with calls of unknown outcome. -q leaves this out.

--seed random draws a seed, which the second line of the report has.

A campaign that ends early, by --seconds, --max-failures, --stop-file, Ctrl-C or TERM, finishes the trials that run, and its
report counts the others as undrawn. With --seconds or --stop-file the exit status is that of the trials that were made.

Exit status: 0 if all trials passed, 1 if some trial did not, 2 if the input is refused, 3 if a trial was lost, a signal ended
the campaign and no trial failed, no trial was made, an allocation failed or the output cannot be written.";

/// After the help of `generate`.
pub const GENERATE: &str = "\
Examples:
  pst generate cache.model --trials 1000 --seed 7 > cases.runs
  pst generate cache.model --trials 1000 --first 1000
  pst generate cache.model --format json

Line K, from `--first` on, is the case of trial K of a campaign with the same seed, commands, branches and suffix; or
`genfault K COMMAND CALLBACK KIND` if the model faults there. With --format json both are objects, and a case is written as
`pst convert` writes it.

Exit status: 0 if each trial has a case, 1 if some has none, 2 if the input is refused, 3 if an allocation failed or the output
cannot be written.";

/// After the help of `fmt`.
pub const FMT: &str = "\
Examples:
  pst fmt cache.model
  pst fmt --check *.model

Exit status: 0 if all files are laid out, 1 if with --check one would change, 2 if one cannot be read, 3 if an allocation
failed or a file cannot be written.";

/// The help of `verdicts`.
pub const VERDICTS: &str = "\
K is the number of an item or a trial, and C that of a command in its item, from 1: first the prefix, then each branch,
then the suffix; 0 is the initial state. W is an interleaving: its letters are the branches L, R, S and T, each for its
next command; `-` has no letters. In a run with `unknown` replies P is such a call of the prefix and `.` a command of the
suffix. With --order time only interleavings in the order of the recorded times count.
CALLBACK is init, command, pre, next or post. FAULT is Overflow (beyond 64 bits), DivZero (a division by 0), Index (no
such item of a list), Missing (no such key of a map), TooLong (a list, a text or a map over its limit) or Turns (the
callback takes too many steps).

The verdict on a recorded run:
  explained W           The replies fit the interleaving W, the first one that they fit.
  unexplained far N     They fit no interleaving. In the one that gets furthest, N commands fit before one does not.
  fault C CALLBACK FAULT
                        They fit no interleaving, and in one a callback of the model faults at command C.
  broken C              The reply of command C is not a value of its type, or the call failed or was not made. Or it was
                        called after an `unknown` call of its part, or without a result that it uses; or its reply is
                        `unknown`, and the `next` of its operation uses `r`.

The verdict on a case:
  valid                 In every interleaving each precondition is true and there is a next state.
  prefalse C merge W    In the interleaving W the precondition of command C is not true.
  casefault C CALLBACK FAULT merge W
                        In the interleaving W a callback of the model faults at command C.

The other lines of `run` and `generate`:
  K lost CAUSE          Item K could not be driven: ResetFailed (the system did not reset, or a client printed a line too
                        many), NoThread (a thread did not start) or NoMemory (an allocation failed).
  K drives N failed M   With --repeats: M of N drives of item K are not explained.
  genfault K C CALLBACK FAULT
                        Trial K has no case: a callback of the model faulted while its command C was generated.

The report of a campaign:
  campaign NAME         the name of the model
  seed N trials N ..    the options of the campaign; without `branches` there are 2, without `suffix` there is none, and
                        without `order time` all interleavings count
  passed N              trials of which every run is explained
  unexplained N         trials that failed by an unexplained run
  faulted N             trials that failed by a fault
  broken N              trials that failed by a broken run
  genfault N            trials without a case: a callback of the model faulted while it was generated
  genfault-first K C CALLBACK FAULT
                        the first of these trials, and where the model faulted
  lost N K:CAUSE ..     trials that could not be driven, each with its cause, as above
  undrawn N             trials that no worker has begun, since the campaign ended early
  least K VERDICT       the failed trial with the smallest number; `least none` if no trial failed
  from RUN              the run that this trial failed by
  steps N minimal       how many smaller cases shrinking took. `minimal`: no smaller case that it tried after the last one
                        failed in its --repeats drives. A race that shows seldom may leave calls that it does not need.
                        `stopped` in place of `minimal`: --limit ended shrinking.
  to RUN                the run that the last of these cases failed by, and on the last line the verdict on it

Refusals:
  refused file          A file cannot be opened or read, or the output would overwrite an input.
  refused system NAME   There is no such system.
  refused read KIND at PLACE
                        The input is not a file of trees, at byte PLACE, counted from 0.
  refused model KIND item I
                        Item I of the model is not written as the language wants it; 0 is the model itself.
  refused type item I   Item I of the model is not well typed.
  refused run K command C KIND
                        Case or run K is refused at command C; 0 is the item itself.
  refused item N of M   `explain --item N`, and there are only M items.
  refused memory        An allocation failed.
These lines are for programs. Standard error says what is wrong and, if it is in the input, where: FILE:LINE:COLUMN and
the line, underlined. -q leaves this out.

Exit status:
  0   all items are explained or valid, or all trials passed
  1   some item or trial failed
  2   the input or an argument is refused
  3   an allocation failed, a trial was lost, or the output cannot be written
";
