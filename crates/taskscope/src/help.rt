//! What help says.

use std::alloc::{AllocError, Global};
use tk_found::kinds_text;

pub(crate) const ABOUT: &str = "Shows what the async tasks of a service do";

pub(crate) const LONG_ABOUT: &str =
    "Shows what the async tasks of a service do: which one holds up the others, which one wakes itself, and which one
nobody will ever wake.

Your service writes a stream of what its tasks do. On tokio that takes one line in `main`: see rust/README.md. Give a
command that stream on standard input, as a file, or as the address of a service that runs:

  taskscope view service.stream
  taskscope watch --keys tcp:127.0.0.1:6669

To try a case by hand, write a script: `taskscope run --help` says how.";

pub(crate) const AFTER_HELP: &str =
    "The status is 0 if all was done, 1 after a fault (one line on standard error), 2 if the words ask for nothing that
the program does, and 3 if `lint` found something or `compare` found that something got worse.";

pub(crate) const RUN_ABOUT: &str = "Runs a script and writes its stream to standard output";

pub(crate) const RUN_LONG_ABOUT: &str = "Runs a script and writes its stream to standard output.

A script has one command a line, its words between single spaces:
  capacity COUNT         holds so many events between two lines, 1 to 65536; once, before other commands
  retention SPAN         lets closed items leave after so many nanoseconds; once, before other commands
  times                  gives each task a histogram of how long its polls ran; once, before other commands
  waits                  counts how long each task waited, from the first wake on; once, before other commands
  task MOMENT KIND NAME  makes a task, of kind spawn or blocking
  start TASK MOMENT      starts a poll of the task
  selfwake TASK MOMENT   wakes the task from within its poll
  end TASK MOMENT        ends its poll
  polls TASK COUNT MOMENT RUN EVERY
                         polls the task so often, 1 to 1000000: the first poll starts at the moment, each
                         runs for RUN nanoseconds, and each further one starts EVERY nanoseconds later
  close TASK MOMENT      closes the task
  clone TASK             draws a waker from the task
  again WAKER            draws a waker from a waker
  wakeref WAKER MOMENT   wakes the waker's task, and keeps the waker
  wake WAKER MOMENT      wakes it, and uses the waker up
  release WAKER          drops the waker without a wake
  par                    opens a block of two threads, up to `join`
  1 COMMAND, 2 COMMAND   in a block: the first or second thread does a wakeref, wake or release
  join                   runs the threads of the block, and waits for both
  publish MOMENT         writes a line with what is new since the line before
  snapshot MOMENT        writes a line that says all
Resources have the commands resource, radd, rsub, rset and rclose, async operations op, optask,
opstart, opend, opclose, oadd, osub, oset and pollop: docs/FORMATS.md has their words.
Items are numbered from 1 in the order in which they are made, each kind by itself, and so are wakers.
A moment is a number of nanoseconds. Empty lines and lines that begin with # are skipped.

A new item and a poll operation are events. Of those since the line before 1024 are held if no capacity is
said; if there are more, `dropped` counts what was lost: publish more often, or begin with a greater capacity.

With a retention a line says which items are gone: each was closed for so long, and an earlier line showed that.
With times a line has the histograms that are new or have changed.
With waits a line says with each `sched` also how long the task waited in all.

A script has at most 1,048,576 bytes. It stops at its first fault, and the lines before it stay.";

pub(crate) const VIEW_ABOUT: &str =
    "Reads a stream and writes the report of its tables to standard output";

pub(crate) const VIEW_LONG_ABOUT: &str =
    "Reads a stream and writes the report of its tables to standard output.

  taskscope run < examples/first.script | taskscope view

The report has a line for each task, resource and async operation, and one for each warning:
`taskscope lint --help` says what they mean. docs/FORMATS.md explains the lines. A last line of the stream
without its line end is ignored. After a fault nothing is written.

With `--times` a line below a task says how many polls of it ended, how long the longest ran, and between which
times the percentiles 50, 90 and 99 lie, in nanoseconds. A second line says the same of its waits for a poll, and
since when it waits, if it does. Both are there if the stream has histograms, as that of a Rust program does.
A wall clock can't tell a long poll from one whose thread the system had put aside.

With `--findings` the report ends with what is odd in place of the warnings, as `taskscope lint --findings` shows it.

With `--by place` the report adds tasks up by place: where they were spawned, as what, and by which name but for
numbers. Each place has a line, which counts the tasks that have left, too, and one for each kind of warning there.
Resources and async operations are left out. `--place N` shows the place of that number, and the tasks of it that are
there. With `--times` two lines below a place say how long the polls of all its tasks ran, and how long they waited.
Neither can stand beside `--findings` and `--long-poll`.

With `--since` or `--last` the report by place has what came since then, and not what has added up before: that needs
a FILE, which is read twice. With `--findings` they show what was odd since then.

If a stream has no histograms, `--long-poll` goes by the polls that its lines show, which ran at least as long. A
line on standard error says so.

The report is written at the end of the stream: `taskscope watch` shows a stream while it comes.";

pub(crate) const LINT_ABOUT: &str =
    "Reads a stream and writes the warnings about its tasks to standard output";

const LINT_LONG_ABOUT: &str =
    "Reads a stream and writes the warnings about its tasks to standard output.

  taskscope run < examples/lost-waker.script | taskscope lint

A task has these warnings:
  lost-waker     nobody is left who could wake it: keep a waker of it until the wake
  self-wakes     too many wakes are its own: let an event or a timer wake it
  never-yielded  its first poll blocks, or loops without an await: move it to a blocking task
  long-poll      a poll of it ran as long as `--long-poll` says, or longer: let it yield, or move work that blocks
  long-wait      it waited for a poll as long as `--long-wait` says, or longer: look which task holds the thread

A wall clock can't tell a long poll from one whose thread the system had put aside. If a stream has no histograms,
`--long-poll` goes by the polls that its lines show, which ran at least as long, and a line on standard error says
so. Of waits only the one that lasts is known then.

With `--by place` a line says how many tasks of a place have one kind of warning, and which of them comes first. It
can't stand beside `--long-poll`. Each finding is of one place already, so `--findings` writes the same with it.

A waker, a task or a poll that a program lets go without its last call makes no entry, and counts as live: such a
waker hides a lost-waker, and such a task never closes.

With `--findings` all lines of the stream are judged, and what is odd is shown in place of warnings, worst first:
which tasks held up the others and for how long, at least. The words of each line stand in docs/FORMATS.md, and
docs/FINDINGS.md says what each finding means. `--long-poll` then says from when on a poll is long, and a wait for
it: 100 milliseconds if it isn't there. `--long-wait` says nothing to findings. With `--since` or `--last` what was odd
since then is shown, as a client finds it that reads from then on. There are these kinds:";

const LINT_END: &str =
    "A last line of the stream without its line end is ignored. After a fault nothing is written. The status is 3
if there are warnings, or findings with `--findings`.";

/// What the help of `lint` says at length, with the kinds of findings and what to do about each.
pub(crate) fn lint_long_about(alloc: Global) -> Result<String, AllocError> {
    let kinds = kinds_text(alloc)?;
    format!(in alloc; "{LINT_LONG_ABOUT}\n{kinds}\n{LINT_END}")
}

pub(crate) const PAGE_ABOUT: &str =
    "Reads a stream and writes it as one page of HTML to standard output";

pub(crate) const PAGE_LONG_ABOUT: &str =
    "Reads a stream and writes it as one page of HTML to standard output.

  taskscope run < examples/lost-waker.script | taskscope page > lost-waker.html

The page needs no network and no other file: open it in a browser. What is odd comes first, with what to do:
the warnings, which `taskscope lint --help` explains, and a task that holds up the others. Then each task has
a row with its course of time: when it was polled, when it waited, and its wakes. Resources with their
operations come last. At most 200 tasks are drawn, the odd ones first.

The title of the page is the path of the file, or what `--title` says: so you can tell two pages in two tabs apart.

With a second file the page shows what changed from the first stream to the second: which places are worse, better,
new or gone, and which findings are. `taskscope compare --help` says what a change is. The status stays 0.

  taskscope page main.stream new.stream > changes.html

A last line of the stream without its line end is ignored. After a fault nothing is written.";

pub(crate) const WATCH_ABOUT: &str =
    "Reads a stream and draws its tables as a screen while it comes";

pub(crate) const WATCH_LONG_ABOUT: &str =
    "Reads a stream and draws its tables as a screen while it comes.

  service | taskscope watch

A screen says how many tasks are in each state and what is odd about them, worst first (`taskscope lint --help`
explains the findings), and shows the open tasks of most in a column, with where each was spawned.
With `--by place` it shows what the tasks of each place came to, those that left among them: those that one line of
the source spawns under one name, but for numbers. docs/FORMATS.md explains the lines.

On a terminal a screen is drawn over the one before. It is cut to the terminal's size, or to COLUMNS by LINES if they
are set, and shows as many tasks as fit. It has colors unless NO_COLOR is set. Elsewhere, or if TERM is `dumb`, screens
are text, one after the other.

Tasks and places can be sorted by these columns:
  busy        how long their polls ran
  sched       how long they waited, scheduled
  polls       how many polls of them started
  wakes       how often they were woken
  self-wakes  how often they woke themselves
  held-up     of places alone: for how long others waited while their tasks ran long, at least

Both times count what still lasts. A wait is counted from its begin if the stream counts waits, as that of a Rust
program does, and otherwise from the task's last wake.

With `--keys` you go through all tasks, find some, sort by another column, pause, look at one task or at a finding's,
and quit: `?` shows the keys. The screen follows the terminal's size. If nothing came for three seconds, it says so. At
the end of the stream it stays until `q`.
What the terminal showed before is back once the watch has ended or was stopped.

A last line of the stream without its line end is ignored. At a fault the screen of what stood before it is drawn.";

pub(crate) const METRICS_ABOUT: &str =
    "Reads a stream and writes its numbers to standard output, as Prometheus reads them";

pub(crate) const METRICS_LONG_ABOUT: &str =
    "Reads a stream and writes its numbers to standard output, as Prometheus reads them.

  taskscope run < examples/lost-waker.script | taskscope metrics > /var/lib/prometheus/node-exporter/tasks.prom

Counts and times of tasks are sums over those of one name and kind. With tasks that left the stream, each sum
keeps what they had come to. With `--by place` they are sums over those that one line of the source spawns, whose
names differ in numbers alone, as `worker-17`. That is best for Prometheus, since there are few series. With `--by id`
each task has numbers of its own, as long as it hasn't left.
Names without end make series without end. With `--series 100` the first 100 names or places that come have numbers
of their own. All later ones are added up under the name `(others)`, and `taskscope_other_tasks_total` says how many
tasks these are.
While one task holds the thread no count of polls moves. Gauges say how long the longest poll and the longest wait
have lasted, and counters for how long tasks waited, and for whom.
Findings say who holds up whom, with the limits that `taskscope lint --findings` has if you set none.
`taskscope lint --help` explains the warnings, docs/FORMATS.md the families, and docs/alerts.yml has alerts to copy.

With `--to` the numbers are kept in a file while the stream comes, and nothing is written to standard output. The
file is written anew once lines came, and at the end of the stream in any case: beside the old one, with `.new`
after its name, which then takes its place. So who reads it never finds half of it. If it can't be written, as
on a full disk, the old one stays, that is said once, and it is tried again when it is time.

  service | taskscope metrics --to /var/lib/prometheus/node-exporter/tasks.prom

A last line of the stream without its line end is ignored. After a fault nothing is written to standard output, and
a file has the numbers of the lines before it.";

pub(crate) const COMPARE_ABOUT: &str =
    "Reads two streams and writes what changed from one to the other to standard output";

pub(crate) const COMPARE_LONG_ABOUT: &str =
    "Reads two streams and writes what changed from one to the other to standard output.

  taskscope compare main.stream new.stream

Both streams are read to their ends. Tasks are added up by place: where they were spawned, as what, and by which name
but for numbers. The first line says how many places and findings changed. Then comes a line for each finding that is
new, gone or still there, and for each place that is worse, new, better or gone: how many polls of its tasks started in
a second, how long they ran and how long they waited, before and after, and as a ratio. Below a place stand the
histograms of its polls and waits, if a stream has them. docs/formats/comparison.md explains the lines.

A place is worse if its tasks ran or waited longer, in a second and for each poll, by more than 50 percent, and by a
millisecond of each second at least. `--more-than` and `--at-least` say other numbers. If two runs of the same program
differ by up to 80 percent, say `--more-than 80`: then less is taken for noise.

The status is 3 if a place is worse or a finding is new, so that a job of yours can fail. It is 1 if a stream has a
fault, and then nothing is written.";

pub(crate) const BEFORE_HELP: &str = "The stream of the earlier run";

pub(crate) const AFTER_ARGUMENT_HELP: &str =
    "The stream of the later run, in place of standard input";

pub(crate) const MORE_THAN_HELP: &str =
    "Take for a change what is more or less by more than so many percent";

pub(crate) const AT_LEAST_HELP: &str =
    "And by so much of each second at least, as 500us or 10ms: 1ms if you say nothing; a number counts milliseconds";

pub(crate) const TITLE_HELP: &str = "Give the page this title, in place of the path of its file";

pub(crate) const LATER_HELP: &str = "Draw what changed from FILE to this later stream";

pub(crate) const UNTIL_HELP: &str =
    "Leave out what comes after this moment: nanoseconds, or a time before the end of FILE, as 12.5s";

pub(crate) const SINCE_HELP: &str =
    "Look at what came since this moment: nanoseconds, or a time before the end of FILE, as 12.5s";

pub(crate) const LAST_HELP: &str = "Look at so much time before the end of FILE, as 10s or 1m 30s";

pub(crate) const DEMO_ABOUT: &str =
    "Runs three small tasks and writes their report to standard output";

pub(crate) const DEMO_LONG_ABOUT: &str =
    "Runs three small tasks and writes their report to standard output.

`yield` wakes itself three times and is ready, `lose` drops the only waker that it had, and `hold` keeps its
own, which nobody calls. They run on an executor over live ledgers, by a clock that gives 1000, 2000 and so on,
until none is scheduled. An aggregator then reads them, and the report shows what it found.
crates/tk_app/src/demonstration.rt has the code. Nothing is read from standard input.";

pub(crate) const PERCENT_HELP: &str = "Warn if more of a hundred wakes are a task's own";

pub(crate) const LIMIT_HELP: &str = "Warn if a first poll has run for so many nanoseconds";

pub(crate) const NEVER_YIELDED_HELP: &str = "Or for this time, as 100ms or 2s";

pub(crate) const LONG_POLL_HELP: &str =
    "Warn of a poll that ran so long, as 100ms or 2s; a number counts milliseconds";

pub(crate) const FINDINGS_HELP: &str =
    "Say who holds up whom and what else is odd, in place of warnings";

pub(crate) const BY_PLACE_HELP: &str =
    "Add tasks up by `place`: where they were spawned, as what, and by which name but for numbers";

pub(crate) const LONG_WAIT_HELP: &str =
    "Warn of a wait for a poll that took so long, as 100ms or 2s; a number counts milliseconds";

pub(crate) const TIMES_HELP: &str =
    "Show below a task or a place how long its polls ran and it waited, if the stream has histograms";

pub(crate) const SORT_HELP: &str =
    "Sort by this column, the largest first: `busy` if you say nothing, and `held-up` by place";

pub(crate) const WATCH_BY_HELP: &str =
    "Show by `place` what tasks came to, also those that have left";

pub(crate) const ROWS_HELP: &str =
    "Show so many tasks at most; 0 shows as many as fit, and 20 as text";

pub(crate) const FILTER_HELP: &str =
    "Show only tasks with this text in their name, or in that of the file where they were made";

pub(crate) const RESOURCES_HELP: &str = "Show resources and async operations too";

pub(crate) const EVERY_HELP: &str =
    "Draw at most one screen in so long, as 500ms or 2s: 100ms if you say nothing, and up to an hour; a number counts milliseconds";

pub(crate) const FOLLOW_HELP: &str = "Keep reading as the file grows, like `tail -F`";

pub(crate) const KEYS_HELP: &str = "React to keys: `?` lists them";

pub(crate) const PLACE_HELP: &str =
    "Show the place of this number alone, with its tasks that are there";

pub(crate) const PLAIN_HELP: &str =
    "Write screens as text, one after the other, also on a terminal";

pub(crate) const BY_HELP: &str =
    "Add up tasks by `name`, as if you say nothing, or by `place`, or show each by its `id`";

pub(crate) const SERIES_HELP: &str =
    "Give so many names or places numbers of their own, from 1 on, and add up all others";

pub(crate) const TO_HELP: &str = "Keep the numbers in this file, and write none to standard output";

pub(crate) const EVERY_SECONDS_HELP: &str =
    "Write that file anew at most once in so long, as 30s or 1m: 10s if you say nothing, and up to a day; a number counts seconds";

pub(crate) const FOLLOW_INTO_HELP: &str =
    "Keep reading as the file grows, like `tail -F`, if numbers are kept in a file";

pub(crate) const EXPLAIN_HELP: &str =
    "Print below a fault its line and the rule that it breaks, or else what was left out";

pub(crate) const FILE_HELP: &str =
    "Read this file, or the socket unix:PATH or tcp:HOST:PORT, in place of standard input";
