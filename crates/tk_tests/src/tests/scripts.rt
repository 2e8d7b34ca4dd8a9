//! Scripts: the examples of the repository, and one that uses each command.

// As `examples/first.script`, but that no task is closed, and with a snapshot after it.
pub(super) fn first() -> &'static [u8] {
    b"# One task starves another: `heartbeat` may be polled from 1000 on, and waits until `resize_image` is through with its long poll.\ntask 1000 spawn resize_image\ntask 1000 spawn heartbeat\nstart 1 2000\n# While the long poll runs: `resize_image` is `polling`, `heartbeat` is `scheduled` and was polled 0 times.\npublish 500000\nend 1 902000\nstart 2 903000\nend 2 904000\n# `heartbeat` waited from 1000 to 903000, so its `sched` is 902000, and ran for 1000, its `busy`.\npublish 1000000\nsnapshot 9000000000000\n"
}

// As `examples/long-poll.script`, but that no task is closed, and with a snapshot after it.
pub(super) fn long_poll() -> &'static [u8] {
    b"# A poll that does not yield: `resize_image` started at 1000000 and is still `polling` five seconds later.\ntask 900000 spawn resize_image\nstart 1 1000000\n# `busy` is 0, since it counts polls that have ended.\npublish 2000000\n# Nothing was called since, so this line has no statistics: the poll goes on, and `now` is 5000000000 above `last_started`.\npublish 5001000000\nend 1 6001000000\n# Now `busy` is 6000000000.\npublish 6002000000\nsnapshot 9000000000000\n"
}

// `examples/never-woken.script`, with a snapshot after it.
pub(super) fn never_woken() -> &'static [u8] {
    b"# Nobody will wake `reader`: it was polled, it is neither closed nor `scheduled`, and no waker of it is out (`clones` minus `drops` is 0).\ntask 0 spawn reader\ntask 0 spawn writer\nstart 1 1000\nend 1 3000\nstart 2 3000\nend 2 8000\n# `writer` is closed, so it waits for no wake: `dropped` says since when.\nclose 2 8000\npublish 10000\nsnapshot 9000000000000\n"
}

// `examples/wakes-itself.script`, with a snapshot after it.
pub(super) fn wakes_itself() -> &'static [u8] {
    b"# A task that keeps itself busy: `spinner` wakes itself in each of its polls, so it is `scheduled` again before each poll ends.\ntask 0 spawn spinner\ntask 0 spawn timer\nstart 1 1000\nselfwake 1 1500\nend 1 2000\n# `timer` waits for its waker, which something outside the tasks holds.\nstart 2 2000\nclone 2\nend 2 2100\npublish 3000\nstart 1 3000\nselfwake 1 3500\nend 1 4000\nstart 1 4000\nselfwake 1 4500\n# In the middle of a third poll: all 3 wakes of `spinner` are its own (`self_wakes`). `timer` did nothing, so the line leaves it out.\npublish 5000\nend 1 5000\n# The timer fires. The wake uses its waker up: `clones` 1, `drops` 1.\nwake 1 6000\npublish 7000\n# For a client that comes late: one line that tells of all.\nsnapshot 7000\nsnapshot 9000000000000\n"
}

// As `examples/semaphore.script`, but that one task stays open, and with a snapshot after it.
pub(super) fn semaphore() -> &'static [u8] {
    b"# A semaphore with 2 permits, and two tasks that take them. `closed` is an attribute too.\ntask 10 spawn reader\ntask 10 spawn writer\nresource 20 Sync Semaphore permits=2 closed=false\nop 30 1 Semaphore::acquire wants=1\nop 30 1 Semaphore::acquire wants=2\n# `reader` polls its operation: a permit is free, so the poll is ready at once.\noptask 1 1\nstart 1 40\nopstart 1 40\nrsub 1 0 1\npollop 1 1 1 poll_acquire ready\nopend 1 45\nopclose 1 45\nend 1 50\n# `writer` wants two permits and gets none yet. It leaves a waker with the semaphore.\noptask 2 2\nstart 2 60\nopstart 2 60\npollop 1 2 2 poll_acquire pending\nclone 2\nopend 2 64\nend 2 65\n# One of two poll operations was ready: `poll_counts` is [resource, 1, 1].\npublish 100\n# `reader` gives its permit back, and that wakes `writer`.\nradd 1 0 1\nwake 1 110\nclose 1 115\nstart 2 120\nopstart 2 120\nrsub 1 0 2\npollop 1 2 2 poll_acquire ready\nopend 2 122\nopclose 2 122\nend 2 130\n# The semaphore is closed: its owner is gone, and `closed` was set before.\nrset 1 1 true\nrclose 1 140\npublish 200\nsnapshot 9000000000000\n"
}

// `examples/lost-waker.script`, with a snapshot after it.
pub(super) fn lost_waker() -> &'static [u8] {
    b"# A waker that is dropped: `fetch` hands its waker to a connection, which is dropped without a wake.\ntask 100 spawn fetch\ntask 100 blocking resolve\nstart 1 200\n# The connection keeps a waker, and a timeout keeps another that it clones from the first.\nclone 1\nagain 1\nend 1 300\nstart 2 300\n# `fetch` waits, and two wakers of it are out: `clones` 2, `drops` 0.\npublish 1000\n# The timeout fires by reference, so its waker stays; `fetch` is polled, and finds nothing to do.\nwakeref 2 2000\nstart 1 2100\nend 1 2200\n# Then both are dropped. Nobody is left who could wake `fetch`: it is not `scheduled`, and `clones` is `drops`.\nrelease 2\nrelease 1\nend 2 2500\nclose 2 2500\npublish 3000\nsnapshot 9000000000000\n"
}

// `examples/burst.script`, with a snapshot after it.
pub(super) fn burst() -> &'static [u8] {
    b"# A burst of poll operations pushes out a new task: `capacity 2` holds two events between two lines.\ncapacity 2\nresource 10 Sync Semaphore\nop 10 1 Semaphore::acquire\n# Each line takes out what is held, and so makes room.\npublish 20\ntask 30 spawn worker\npublish 40\npollop 1 1 1 poll_acquire pending\npollop 1 1 1 poll_acquire pending\n# No room for `late`: it is dropped, but keeps its number 2, so that it can be polled.\ntask 50 spawn late\nstart 2 60\nend 2 70\n# `dropped` is [1,0,0]: one task was lost. Publish more often, as below, or begin with a greater capacity.\npublish 80\ntask 90 spawn told\n# This task is number 3, and its line tells of it.\npublish 100\nsnapshot 9000000000000\n"
}

// `examples/two-threads.script`, with a snapshot after it.
pub(super) fn two_threads() -> &'static [u8] {
    b"# A task that two threads wake at once: `consumer` waits for what `fetch` and `decode` put into its queue.\ntask 0 spawn consumer\nstart 1 100\n# Each of the two keeps a waker of it, and a timeout keeps a third.\nclone 1\nclone 1\nagain 1\nend 1 200\npublish 1000\n# A block: the lines that begin with 1 are one thread, those that begin with 2 another. Which comes first is left open, so the\n# moments of the wakes are the same: `consumer` waits for its poll from 2000 on, whoever wakes it.\npar\n1 wakeref 1 2000\n2 wakeref 2 2000\n2 wake 2 2000\n# The timeout is not needed any more.\n1 release 3\njoin\n# After the block waker 1 is there, and 2 and 3 are spent.\nstart 1 2500\nwakeref 1 2600\nend 1 2700\npublish 3000\nsnapshot 9000000000000\n"
}

// `examples/queue-lag.script`, with a snapshot after it.
pub(super) fn queue_lag() -> &'static [u8] {
    b"# A queue's lag: how many items were put in, less how many were asked for. It may go below 0, so it is signed: `+0` has a sign.\ntask 10 spawn producer\ntask 10 spawn consumer\nresource 20 Sync Queue lag=+0 slots=8\n# `consumer` asks for three items and finds none. It leaves a waker with the queue.\nstart 2 30\nrsub 1 0 +3\nclone 2\nend 2 40\n# Three items are owed: the line tells the lag as `[-3]`. A signed value stands in a list of its own.\npublish 50\n# `producer` puts in five and takes one back: to add -1 is to take away 1. A 5 without a sign would be a `WrongKind` here.\nstart 1 60\nradd 1 0 +5\nradd 1 0 -1\nwake 1 65\nend 1 70\nclose 1 70\n# `consumer` takes its three and asks for three more. One is there, so two are owed: `lag` is -2, in the report too.\nstart 2 80\nrsub 1 0 +3\nclone 2\nend 2 90\npublish 100\nsnapshot 9000000000000\n"
}

// `examples/retention.script`, with a snapshot after it.
pub(super) fn retention() -> &'static [u8] {
    b"# Closed items leave: `retention 1000` lets each stay for 1000 nanoseconds after its close.\nretention 1000\ntask 0 spawn accept\ntask 100 spawn connection\nstart 2 150\nend 2 180\nclose 2 200\n# The lines are of version 2: they say what is gone. Nothing is yet, and `connection` is told of as closed at 200.\npublish 500\npublish 1199\n# 1000 after its close it leaves: its id stands in `gone_tasks`, and a client removes it.\npublish 1200\n# A snapshot removes nothing, and tells of what is left.\nsnapshot 1300\nsnapshot 9000000000000\n"
}

// A script that uses each command.
pub(super) fn every_command() -> &'static [u8] {
    b"# Each command that a script has, each at least once.\ncapacity 16\nretention 25\ntimes\nwaits\ntask 10 spawn worker\ntask 11 blocking helper\nstart 1 20\nselfwake 1 25\nclone 1\nagain 1\nwakeref 1 26\nend 1 30\nwake 1 40\nrelease 2\nclone 1\nclone 2\npar\n1 wakeref 3 41\n1 release 3\n2 wake 4 42\njoin\nresource 50 Sync Semaphore permits=5 closed=false lag=+1\nradd 1 0 1\nrsub 1 0 2\nrset 1 1 true\nrsub 1 2 +4\nop 60 1 Semaphore::acquire wants=1 fair=true\noptask 1 1\nopstart 1 61\noadd 1 0 3\nosub 1 0 1\noset 1 1 false\npollop 1 1 1 poll_acquire pending\npublish 70\npollop 1 1 1 poll_acquire ready\nopend 1 71\nopclose 1 72\nrclose 1 73\nstart 2 80\nend 2 90\npolls 2 3 91 1 1\nclose 2 95\npublish 100\npublish 100\nsnapshot 110\n"
}
