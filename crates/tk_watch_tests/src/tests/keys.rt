//! What keys ask for, and when what they ask for is drawn.

ghost use Rattle.std.specs.Prelude.{Option, length};
ghost use Rattle.tk_watch.specs.Keyed.{IsWithin};

use super::given::{EARLY, FIRST, LATE, ODD, SECOND, SEMAPHORE, THIRD, TIMED, is_text_of};
use std::alloc::Global;
use std::sync::Wait;
use std::thread::Threads;
use std::time::Clock;
use tk_client::Lints;
use tk_frame::{Column, Query, Typed};
use tk_keys::watch_terminal;
use tk_screen::{Canvas, Size};
use tk_watch::{Event, Screen, Source, watch_keys};

// What comes: bytes of the stream, or another event.
#[derive(Clone, Copy, Drop)]
enum Comes {
    Bytes(&'static [u8]),
    Is(Event),
}

use Comes::{Bytes, Is};

const DUE: Comes = Is(Event::Due);

fn key(byte: u8) -> Comes {
    Is(Event::Key(byte))
}

// Gives these one after the other, and then nothing more.
#[derive(Drop)]
struct Given<'a> {
    events: &'a [Comes],
    next: usize,
}

fn put(bytes: &[u8], room: &mut [u8]) -> Event
    ensures { IsWithin (Option.Some result) (length room.new) }
{
    match room.get_mut(..bytes.len()) {
        Some(front) => {
            front.copy_from_slice(bytes);
            Event::Piece(bytes.len())
        }
        None => Event::Broken,
    }
}

fn event_of(comes: Comes, room: &mut [u8]) -> Event
    ensures { IsWithin (Option.Some result) (length room.new) }
{
    match comes {
        Comes::Bytes(bytes) => put(bytes, room),
        Comes::Is(Event::Piece(_)) => Event::Broken,
        Comes::Is(event) => event,
    }
}

impl Source for Given<'_> {
    fn next(&mut self, room: &mut [u8]) -> Option<Event> {
        let comes = self.events.get(self.next).copied()?;
        self.next = self.next.saturating_add(1);
        Some(event_of(comes, room))
    }
}

// Whether these events are watched to a fault of this text, or to the end where that is empty, by this output, and so many of them taken. A screen has so
// many rows at most.
fn draws_on(
    alloc: Global,
    rows: usize,
    canvas: Canvas,
    events: &[Comes],
    fault: &str,
    output: &str,
    taken: usize,
) -> bool {
    let screen = Screen {
        query: Query {
            sort: Column::Busy,
            rising: false,
            rows: Some(rows),
            filter: b"",
            typed: Typed::none(),
            resources: false,
            by_place: false,
            recent: false,
        },
        lints: Lints::default(),
        canvas,
    };
    let mut source = Given { events, next: 0 };
    let mut writer = Vec::new(alloc);
    let ends = match watch_keys(alloc, &mut source, &mut writer, &screen) {
        Ok(()) => fault.is_empty(),
        Err(stop) => is_text_of(alloc, stop, fault),
    };
    ends && writer.as_slice() == output.as_bytes() && source.next == taken
}

// The same as text, of ten rows at most.
fn draws(alloc: Global, events: &[Comes], fault: &str, output: &str, taken: usize) -> bool {
    draws_on(alloc, 10, Canvas::Plain, events, fault, output, taken)
}

// The same of one row, up to the end.
fn shows_one_row(alloc: Global, events: &[Comes], output: &str) -> bool {
    draws_on(alloc, 1, Canvas::Plain, events, "", output, events.len())
}

const ODD_BY_BUSY: &str = "sorted by busy  ? shows the keys
now 1.0 s  tasks 2: 1 polling, 0 scheduled, 1 idle, 0 closed  findings 3
 1 NOW     resize 1.2 has never yielded, for 1.0 s (never-yielded, script:2:1)
 2 NOW     main 1.1 can be woken by nobody, for 999.9 ms (lost-waker, script:1:1)
 3 NOW     main 1.1 wakes itself, 66% of its wakes (self-wakes, script:1:1)
  TASK STATE         BUSY    SCHED  POLLS  WAKES SELF LOCATION        NAME                 KIND
>   1.2 polling      1.0 s    50 ns      1      0    - script:2:1      resize               spawn
   1.1 idle         20 ns   100 ns      2      3  66% script:1:1      main                 spawn
2 of 2 tasks

";

const ODD_BY_POLLS: &str = "sorted by polls  ? shows the keys
now 1.0 s  tasks 2: 1 polling, 0 scheduled, 1 idle, 0 closed  findings 3
 1 NOW     resize 1.2 has never yielded, for 1.0 s (never-yielded, script:2:1)
 2 NOW     main 1.1 can be woken by nobody, for 999.9 ms (lost-waker, script:1:1)
 3 NOW     main 1.1 wakes itself, 66% of its wakes (self-wakes, script:1:1)
  TASK STATE         BUSY    SCHED  POLLS  WAKES SELF LOCATION        NAME                 KIND
   1.1 idle         20 ns   100 ns      2      3  66% script:1:1      main                 spawn
>   1.2 polling      1.0 s    50 ns      1      0    - script:2:1      resize               spawn
2 of 2 tasks

";

#[test]
fn a_key_sorts_and_one_chooses_a_task_below(rt: HostRuntime) {
    let events = [Bytes(ODD), DUE, key(b'p'), key(b'j'), key(b'j'), DUE];
    let both = format!(in rt.alloc(); "{ODD_BY_BUSY}{ODD_BY_POLLS}").expect(&rt, "memory");
    assert!(rt; draws(rt.alloc(), &events, "", both.as_str(), 6));
}

#[test]
fn a_task_above_is_chosen_again_and_other_keys_change_nothing(rt: HostRuntime) {
    let events = [Bytes(ODD), key(b'j'), key(b'k'), key(b'k'), key(b'x'), DUE];
    assert!(rt;
        draws(rt.alloc(), &events, "", ODD_BY_BUSY, 6),
        "k chooses the task above, and x nothing"
    );
    let capitals = [Bytes(ODD), key(b'B'), DUE];
    assert!(rt;
        draws(rt.alloc(), &capitals, "", ODD_BY_BUSY, 3),
        "a capital B changes nothing"
    );
}

// By how long others waited, of which none did: then by how long its own tasks waited.
const BY_PLACE: &str = "by place, sorted by held-up  ? shows the keys
now 1.0 s  tasks 2: 1 polling, 0 scheduled, 1 idle, 0 closed  findings 3
 1 NOW     resize 1.2 has never yielded, for 1.0 s (never-yielded, script:2:1)
 2 NOW     main 1.1 can be woken by nobody, for 999.9 ms (lost-waker, script:1:1)
 3 NOW     main 1.1 wakes itself, 66% of its wakes (self-wakes, script:1:1)
 PLACE           NAME       OPEN WAIT      RAN  LONGEST  POLLS   WAITED  HELD UP
>script:1:1      main          1    0    20 ns        -      2   100 ns        -
 script:2:1      resize        1    0    1.0 s        -      1    50 ns        -
2 of 2 places

";

const PLACES_BY_BUSY: &str = "by place, sorted by busy  ? shows the keys
now 1.0 s  tasks 2: 1 polling, 0 scheduled, 1 idle, 0 closed  findings 3
 1 NOW     resize 1.2 has never yielded, for 1.0 s (never-yielded, script:2:1)
 2 NOW     main 1.1 can be woken by nobody, for 999.9 ms (lost-waker, script:1:1)
 3 NOW     main 1.1 wakes itself, 66% of its wakes (self-wakes, script:1:1)
 PLACE           NAME       OPEN WAIT      RAN  LONGEST  POLLS   WAITED  HELD UP
 script:2:1      resize        1    0    1.0 s        -      1    50 ns        -
>script:1:1      main          1    0    20 ns        -      2   100 ns        -
2 of 2 places

";

#[test]
fn a_key_shows_places_and_tasks_again(rt: HostRuntime) {
    let events = [Bytes(ODD), key(b'j'), key(b'g'), DUE, key(b'g'), DUE];
    let both = format!(in rt.alloc(); "{BY_PLACE}{ODD_BY_BUSY}").expect(&rt, "memory");
    assert!(rt; draws(rt.alloc(), &events, "", both.as_str(), 6));
}

#[test]
fn places_are_sorted_and_chosen(rt: HostRuntime) {
    let events = [
        Bytes(ODD),
        key(b'g'),
        key(b'b'),
        key(b'j'),
        DUE,
        key(b'k'),
        key(b'h'),
        DUE,
    ];
    let both = format!(in rt.alloc(); "{PLACES_BY_BUSY}{BY_PLACE}").expect(&rt, "memory");
    assert!(rt;
        draws(rt.alloc(), &events, "", both.as_str(), 8),
        "places by busy, and then by held-up"
    );
    let second = [Bytes(ODD), key(b'g'), key(b'b'), key(b'j'), key(b'j'), DUE];
    assert!(rt;
        draws(rt.alloc(), &second, "", PLACES_BY_BUSY, 6),
        "j chooses no place below the last"
    );
}

// What places came to in all, and since the line that came 5.5 s before.
const IN_ALL_AND_RECENT: &str = "by place, sorted by busy  ? shows the keys
now 6.5 s  tasks 2: 0 polling, 0 scheduled, 2 idle, 0 closed  findings 0
waiting  __  at most 0
no finding now or earlier: 0 tasks wait
 PLACE           NAME       OPEN WAIT      RAN  LONGEST  POLLS   WAITED  HELD UP
>script:2:1      a             1    0 600.0 ms        -     40   2.0 ms        -
 script:3:1      b             1    0 110.0 ms   1.0 ms     20   4.0 ms        -
2 of 2 places

by place, last 5.5 s, sorted by busy  ? shows the keys
now 6.5 s  tasks 2: 0 polling, 0 scheduled, 2 idle, 0 closed  findings 0
waiting  __  at most 0
no finding now or earlier: 0 tasks wait
 PLACE           NAME       OPEN WAIT      RAN  LONGEST  POLLS   WAITED  HELD UP
>script:3:1      b             1    0  10.0 ms   1.0 ms     10   3.0 ms        -
 script:2:1      a             1    0     0 ns        -      0     0 ns        -
2 of 2 places

";

// One line alone, before which nothing was.
const SO_FAR: &str = "by place, the whole time so far, sorted by held-up  ? shows the keys
now 1.0 s  tasks 2: 0 polling, 0 scheduled, 2 idle, 0 closed  findings 0
no finding now; who holds up others can't be seen: the lines span 0 ns, and it takes at least 100.0 ms
 PLACE           NAME       OPEN WAIT      RAN  LONGEST  POLLS   WAITED  HELD UP
>script:2:1      a             1    0 600.0 ms        -     40   2.0 ms        -
 script:3:1      b             1    0 100.0 ms        -     10   1.0 ms        -
2 of 2 places

";

#[test]
fn a_key_shows_what_places_came_to_lately(rt: HostRuntime) {
    let events = [
        Bytes(EARLY),
        Bytes(LATE),
        key(b'R'),
        key(b'g'),
        key(b'b'),
        DUE,
        key(b'R'),
        DUE,
    ];
    assert!(rt;
        draws(rt.alloc(), &events, "", IN_ALL_AND_RECENT, 8),
        "R shows what came lately, among places alone"
    );
    let first = [Bytes(EARLY), key(b'g'), key(b'R'), DUE];
    assert!(rt;
        draws(rt.alloc(), &first, "", SO_FAR, 4),
        "after one line R shows the whole time so far"
    );
}

const PLACE_OPENED: &str = "by place, sorted by held-up  ? shows the keys
 PLACE           NAME       OPEN WAIT      RAN  LONGEST  POLLS   WAITED  HELD UP
 script:1:1      main          1    0    20 ns        -      2   100 ns        -
 2 NOW     main 1.1 can be woken by nobody, for 999.9 ms (lost-waker, script:1:1)
  keep a waker of it until the wake
 3 NOW     main 1.1 wakes itself, 66% of its wakes (self-wakes, script:1:1)
  let an event or a timer wake it
  TASK STATE         BUSY    SCHED  POLLS  WAKES SELF LOCATION        NAME                 KIND
   1.1 idle         20 ns   100 ns      2      3  66% script:1:1      main                 spawn

";

#[test]
fn enter_shows_all_of_the_chosen_place(rt: HostRuntime) {
    let events = [Bytes(ODD), key(b'g'), key(b'\n'), DUE];
    assert!(rt;
        draws(rt.alloc(), &events, "", PLACE_OPENED, 4),
        "enter opens the chosen place"
    );
    let back = [Bytes(ODD), key(b'g'), key(b'\r'), key(b'\r'), DUE];
    assert!(rt;
        draws(rt.alloc(), &back, "", BY_PLACE, 5),
        "a second enter shows the places again"
    );
}

const PLACES_FILTERED: &str = "by place, sorted by held-up  /t:2_  ? shows the keys
now 1.0 s  tasks 2: 1 polling, 0 scheduled, 1 idle, 0 closed  findings 3
 1 NOW     resize 1.2 has never yielded, for 1.0 s (never-yielded, script:2:1)
 2 NOW     main 1.1 can be woken by nobody, for 999.9 ms (lost-waker, script:1:1)
 3 NOW     main 1.1 wakes itself, 66% of its wakes (self-wakes, script:1:1)
 PLACE           NAME       OPEN WAIT      RAN  LONGEST  POLLS   WAITED  HELD UP
>script:2:1      resize        1    0    1.0 s        -      1    50 ns        -
1 of 1 places

";

#[test]
fn a_text_names_places(rt: HostRuntime) {
    let typed = [
        Bytes(ODD),
        key(b'g'),
        key(b'/'),
        key(b't'),
        key(b':'),
        key(b'2'),
        DUE,
    ];
    assert!(rt; draws(rt.alloc(), &typed, "", PLACES_FILTERED, 7));
}

const LEAST_FIRST: &str = "sorted by busy, least first  ? shows the keys
now 1.0 s  tasks 2: 1 polling, 0 scheduled, 1 idle, 0 closed  findings 3
 1 NOW     resize 1.2 has never yielded, for 1.0 s (never-yielded, script:2:1)
 2 NOW     main 1.1 can be woken by nobody, for 999.9 ms (lost-waker, script:1:1)
 3 NOW     main 1.1 wakes itself, 66% of its wakes (self-wakes, script:1:1)
  TASK STATE         BUSY    SCHED  POLLS  WAKES SELF LOCATION        NAME                 KIND
>   1.1 idle         20 ns   100 ns      2      3  66% script:1:1      main                 spawn
   1.2 polling      1.0 s    50 ns      1      0    - script:2:1      resize               spawn
2 of 2 tasks

";

#[test]
fn a_key_sorts_the_other_way_round_and_back(rt: HostRuntime) {
    let events = [Bytes(ODD), key(b'v'), DUE, key(b'v'), DUE];
    let both = format!(in rt.alloc(); "{LEAST_FIRST}{ODD_BY_BUSY}").expect(&rt, "memory");
    assert!(rt; draws(rt.alloc(), &events, "", both.as_str(), 5));
}

const SECOND_PAGE: &str = "sorted by busy  ? shows the keys
now 1.0 s  tasks 2: 1 polling, 0 scheduled, 1 idle, 0 closed  findings 3
 1 NOW     resize 1.2 has never yielded, for 1.0 s (never-yielded, script:2:1)
 2 NOW     main 1.1 can be woken by nobody, for 999.9 ms (lost-waker, script:1:1)
 3 NOW     main 1.1 wakes itself, 66% of its wakes (self-wakes, script:1:1)
  TASK STATE         BUSY    SCHED  POLLS  WAKES SELF LOCATION        NAME                 KIND
>   1.1 idle         20 ns   100 ns      2      3  66% script:1:1      main                 spawn
1 of 2 tasks, after the first 1

";

#[test]
fn keys_show_the_next_page_and_the_last(rt: HostRuntime) {
    for last in [b'd', b'>', b'j', b'n'] {
        let events = [Bytes(ODD), key(last), DUE];
        assert!(rt;
            shows_one_row(rt.alloc(), &events, SECOND_PAGE),
            "key {last}"
        );
    }
    let page_down = [key(b'\x1b'), key(b'['), key(b'6'), key(b'~')];
    let events = [
        Bytes(ODD),
        page_down[0],
        page_down[1],
        page_down[2],
        page_down[3],
        DUE,
    ];
    assert!(rt; shows_one_row(rt.alloc(), &events, SECOND_PAGE));
}

const FILTERED: &str = "sorted by busy  /ain_  ? shows the keys
now 1.0 s  tasks 2: 1 polling, 0 scheduled, 1 idle, 0 closed  findings 3
 1 NOW     resize 1.2 has never yielded, for 1.0 s (never-yielded, script:2:1)
 2 NOW     main 1.1 can be woken by nobody, for 999.9 ms (lost-waker, script:1:1)
 3 NOW     main 1.1 wakes itself, 66% of its wakes (self-wakes, script:1:1)
  TASK STATE         BUSY    SCHED  POLLS  WAKES SELF LOCATION        NAME                 KIND
>   1.1 idle         20 ns   100 ns      2      3  66% script:1:1      main                 spawn
1 of 1 tasks

";

#[test]
fn a_text_is_typed_and_names_what_is_shown(rt: HostRuntime) {
    let typed = [
        Bytes(ODD),
        key(b'/'),
        key(b'a'),
        key(b'i'),
        key(b'x'),
        key(127),
        key(b'n'),
        DUE,
    ];
    assert!(rt;
        draws(rt.alloc(), &typed, "", FILTERED, 8),
        "tasks are filtered by the typed text"
    );
    let ended = [key(b'/'), key(b'q'), key(b'\n'), key(b'q'), DUE];
    assert!(rt;
        draws(rt.alloc(), &ended, "", "", 4),
        "q is typed into the text, and quits after it"
    );
}

// On a terminal of 20 columns and 6 lines, without colors.
const RESIZED: &str =
    "\x1b[H\x1b[Ksorted by busy  ? sh\n\x1b[Know 1.0 s  tasks 2: \n\x1b[K 1 NOW     resize 1.\n\x1b[K 2 NOW     main 1.1 \n\x1b[K.. and 1 more\n\x1b[J";

const SILENT: &str = "sorted by busy  nothing came for 12.0 s  ? shows the keys
now 1.0 s  tasks 2: 1 polling, 0 scheduled, 1 idle, 0 closed  findings 3
 1 NOW     resize 1.2 has never yielded, for 1.0 s (never-yielded, script:2:1)
 2 NOW     main 1.1 can be woken by nobody, for 999.9 ms (lost-waker, script:1:1)
 3 NOW     main 1.1 wakes itself, 66% of its wakes (self-wakes, script:1:1)
  TASK STATE         BUSY    SCHED  POLLS  WAKES SELF LOCATION        NAME                 KIND
>   1.2 polling      1.0 s    50 ns      1      0    - script:2:1      resize               spawn
   1.1 idle         20 ns   100 ns      2      3  66% script:1:1      main                 spawn
2 of 2 tasks

";

#[test]
fn it_is_said_for_how_long_nothing_came(rt: HostRuntime) {
    let silent = [
        Bytes(ODD),
        key(b'\x1b'),
        key(b'['),
        key(b'1'),
        key(b'2'),
        key(b'w'),
        DUE,
    ];
    assert!(rt;
        draws(rt.alloc(), &silent, "", SILENT, 7),
        "the screen says for how long nothing came"
    );
    let over = [
        Bytes(ODD),
        key(b'\x1b'),
        key(b'['),
        key(b'9'),
        key(b'w'),
        key(b'\x1b'),
        key(b'['),
        key(b'0'),
        key(b'w'),
        DUE,
    ];
    assert!(rt;
        draws(rt.alloc(), &over, "", ODD_BY_BUSY, 10),
        "a silence that is over isn't said"
    );
}

#[test]
fn a_terminal_tells_its_size(rt: HostRuntime) {
    let canvas = Canvas::Terminal {
        size: Size {
            columns: 80,
            lines: 24,
        },
        colors: false,
    };
    let answer = [
        Bytes(ODD),
        key(b'\x1b'),
        key(b'['),
        key(b'8'),
        key(b';'),
        key(b'6'),
        key(b';'),
        key(b'2'),
        key(b'0'),
        key(b't'),
        DUE,
    ];
    assert!(rt;
        draws_on(rt.alloc(), 10, canvas, &answer, "", RESIZED, 11),
        "the terminal tells its size itself"
    );
    let corner = [
        Bytes(ODD),
        key(b'\x1b'),
        key(b'['),
        key(b'6'),
        key(b';'),
        key(b'2'),
        key(b'0'),
        key(b'R'),
        DUE,
    ];
    assert!(rt;
        draws_on(rt.alloc(), 10, canvas, &corner, "", RESIZED, 9),
        "the place of the corner tells the size"
    );
}

const ODD_DETAILS: &str = "sorted by busy  ? shows the keys
TASK 1.1
name         main
kind         spawn
location     script:1:1
state        idle
 2 NOW     main 1.1 can be woken by nobody, for 999.9 ms (lost-waker, script:1:1)
  keep a waker of it until the wake
 3 NOW     main 1.1 wakes itself, 66% of its wakes (self-wakes, script:1:1)
  let an event or a timer wake it
polls        2
busy         20 ns
first poll   1.0 s ago
last poll    999.9 ms ago
last end     999.9 ms ago
wakes        3
self-wakes   2
self share   66%
last wake    999.9 ms ago
sched        100 ns
waiting      -
clones       1
drops        1
handles      2
created      1.0 s ago
closed       -

";

#[test]
fn enter_shows_all_of_the_chosen_task(rt: HostRuntime) {
    let events = [Bytes(ODD), key(b'j'), key(b'\n'), DUE];
    assert!(rt;
        draws(rt.alloc(), &events, "", ODD_DETAILS, 4),
        "enter opens the chosen task"
    );
    let events = [Bytes(ODD), key(b'2'), DUE];
    assert!(rt;
        draws(rt.alloc(), &events, "", ODD_DETAILS, 3),
        "a digit opens the task of that finding"
    );
    let arrow = [key(b'\x1b'), key(b'['), key(b'B')];
    let events = [Bytes(ODD), arrow[0], arrow[1], arrow[2], key(b'\n'), DUE];
    assert!(rt;
        draws(rt.alloc(), &events, "", ODD_DETAILS, 6),
        "an arrow chooses as j does"
    );
}

const TIMED_DETAILS: &str = "sorted by busy  ? shows the keys
TASK 1.1
name         a
kind         spawn
location     script:2:1
state        idle
median poll  16.3 us
p99 poll     4.1 ms
longest poll 5.0 ms
poll times   #_______..____  from under 16 us to over 67 ms, each twice the one before
polls        100
busy         600.0 ms
first poll   999.9 ms ago
last poll    10.0 ms ago
last end     9.0 ms ago
wakes        45
self-wakes   1
self share   2%
last wake    11.0 ms ago
sched        2.0 ms
waiting      -
clones       1
drops        0
handles      1
created      1.0 s ago
closed       -

";

#[test]
fn the_histograms_of_the_chosen_task_are_shown(rt: HostRuntime) {
    let events = [Bytes(TIMED), key(b'\n'), DUE];
    assert!(rt; draws(rt.alloc(), &events, "", TIMED_DETAILS, 3));
}

#[test]
fn enter_shows_tables_again(rt: HostRuntime) {
    let events = [Bytes(ODD), key(b'\r'), key(b'\r'), DUE];
    assert!(rt; draws(rt.alloc(), &events, "", ODD_BY_BUSY, 4));
}

const SEMAPHORE_SCREEN: &str = "sorted by busy  ? shows the keys
now 50 ns  tasks 1: 0 polling, 1 scheduled, 0 idle, 0 closed  findings 0
no finding now; who holds up others can't be seen: the lines span 0 ns, and it takes at least 100.0 ms
  TASK STATE         BUSY    SCHED  POLLS  WAKES SELF LOCATION        NAME                 KIND
>   1.1 scheduled     0 ns    40 ns      0      0    - script:1:1      worker               spawn
1 of 1 tasks
RESOURCE    READY  PENDING TYPE (KIND) LOCATION
     1.1        1        0 Semaphore (Sync) script:2:1
OPERATION STATE      POLLS      BUSY     TASK RESOURCE SOURCE
      1.1 idle           1      5 ns      1.1      1.1 Semaphore::acquire

";

const WORKER: &str = "sorted by busy  ? shows the keys
TASK 1.1
name         worker
kind         spawn
location     script:1:1
state        scheduled
operation    Semaphore::acquire on resource 1.1, idle, first polled 10 ns ago
resource     Semaphore (Sync) script:2:1, permits 3, closed false
polls        0
busy         0 ns
first poll   -
last poll    -
last end     -
wakes        0
self-wakes   0
self share   -
last wake    -
sched        40 ns
waiting      40 ns
clones       0
drops        0
handles      1
created      40 ns ago
closed       -

";

#[test]
fn the_operations_of_the_chosen_task_are_shown(rt: HostRuntime) {
    let events = [Bytes(SEMAPHORE), key(b'\n'), DUE];
    assert!(rt; draws(rt.alloc(), &events, "", WORKER, 3));
}

#[test]
fn a_key_shows_resources(rt: HostRuntime) {
    let events = [Bytes(SEMAPHORE), key(b'r'), DUE];
    assert!(rt; draws(rt.alloc(), &events, "", SEMAPHORE_SCREEN, 3));
}

const KEYS: &str = "sorted by busy  ? shows the keys
KEY    WHAT IT DOES
b      sorts tasks by how long their polls ran
s      sorts them by how long they waited, scheduled
p      sorts them by how many polls of them started
w      sorts them by how often they were woken
o      sorts them by how often they woke themselves
h      sorts places by how long others waited while their tasks ran
v      sorts them the other way round
j, k   chooses the task below, or above, as arrows do
d, u   goes a page down, or up, as Page Down and Page Up do
<, >   chooses the first task, or the last, as Home and End do
Enter  shows all of the chosen task or place, or not any more
1..9   shows the task of the finding that has this number
/      shows only tasks that a text names, by their name or their file; Enter ends it
g      shows places, or tasks again
R      shows what places came to in the last 5 seconds, or in all again
r      shows resources and async operations, or not any more
space  pauses, or goes on
?      shows this, or not any more
q      quits

";

#[test]
fn a_key_shows_the_keys(rt: HostRuntime) {
    let events = [Bytes(ODD), key(b'?'), DUE];
    assert!(rt; draws(rt.alloc(), &events, "", KEYS, 3));
}

// The screens of the first line, of the same in a pause, before and after the second line came, and of that.
const PAUSED: &str = "sorted by busy  ? shows the keys
now 6 ns  tasks 1: 0 polling, 0 scheduled, 0 idle, 1 closed  findings 0
no finding now; who holds up others can't be seen: the lines span 0 ns, and it takes at least 100.0 ms
  TASK STATE         BUSY    SCHED  POLLS  WAKES SELF LOCATION        NAME                 KIND
0 of 0 tasks

sorted by busy  paused  ? shows the keys
now 6 ns  tasks 1: 0 polling, 0 scheduled, 0 idle, 1 closed  findings 0
no finding now; who holds up others can't be seen: the lines span 0 ns, and it takes at least 100.0 ms
  TASK STATE         BUSY    SCHED  POLLS  WAKES SELF LOCATION        NAME                 KIND
0 of 0 tasks

sorted by busy  paused, 8 ns behind  ? shows the keys
now 6 ns  tasks 1: 0 polling, 0 scheduled, 0 idle, 1 closed  findings 0
no finding now; who holds up others can't be seen: the lines span 0 ns, and it takes at least 100.0 ms
  TASK STATE         BUSY    SCHED  POLLS  WAKES SELF LOCATION        NAME                 KIND
0 of 0 tasks

sorted by busy  ? shows the keys
now 14 ns  tasks 1: 0 polling, 0 scheduled, 0 idle, 1 closed  findings 0
waiting  __  at most 0
no finding now; who holds up others can't be seen: the lines span 8 ns, and it takes at least 100.0 ms
  TASK STATE         BUSY    SCHED  POLLS  WAKES SELF LOCATION        NAME                 KIND
0 of 0 tasks

";

#[test]
fn in_a_pause_what_was_shown_stays(rt: HostRuntime) {
    let events = [
        Bytes(FIRST),
        DUE,
        key(b' '),
        DUE,
        Bytes(SECOND),
        DUE,
        key(b' '),
        DUE,
    ];
    assert!(rt; draws(rt.alloc(), &events, "", PAUSED, 8));
}

#[test]
fn nothing_is_taken_after_a_key_that_quits(rt: HostRuntime) {
    let events = [Bytes(FIRST), key(b'q'), DUE];
    assert!(rt; draws(rt.alloc(), &events, "", "", 2));
}

const FIRST_SCREEN: &str = "sorted by busy  ? shows the keys
now 6 ns  tasks 1: 0 polling, 0 scheduled, 0 idle, 1 closed  findings 0
no finding now; who holds up others can't be seen: the lines span 0 ns, and it takes at least 100.0 ms
  TASK STATE         BUSY    SCHED  POLLS  WAKES SELF LOCATION        NAME                 KIND
0 of 0 tasks

";

#[test]
fn at_a_fault_what_stands_is_drawn(rt: HostRuntime) {
    let events = [Bytes(FIRST), Bytes(THIRD), DUE];
    let fault = "stream after 1 lines: Gap expected 2 found 3";
    assert!(rt;
        draws(rt.alloc(), &events, fault, FIRST_SCREEN, 2),
        "what stands before the line with the fault"
    );
    let events = [Bytes(FIRST), Is(Event::Broken), DUE];
    assert!(rt;
        draws(rt.alloc(), &events, "Read", "", 2),
        "a read that fails draws nothing"
    );
}

// Whether a watch by threads of the stream, which a key quits or nobody, ends well.
fn ends<R: Threads + Wait + Clock + Copy + Send + Sync + Drop + 'static>(
    rt: &R,
    alloc: Global,
    keys: &'static [u8],
) -> bool {
    let screen = Screen {
        query: Query {
            sort: Column::Busy,
            rising: false,
            rows: Some(10),
            filter: b"",
            typed: Typed::none(),
            resources: false,
            by_place: false,
            recent: false,
        },
        lints: Lints::default(),
        canvas: Canvas::Plain,
    };
    let mut writer = Vec::new(alloc);
    watch_terminal(rt, alloc, ODD, false, keys, &mut writer, &screen, 0).is_ok()
}

#[test]
fn threads_read_until_a_key_quits_or_none_comes(rt: HostRuntime) {
    assert!(rt; ends(&rt, rt.alloc(), b"pq"), "the key q quits");
    assert!(rt; ends(&rt, rt.alloc(), b""), "no key comes");
}
