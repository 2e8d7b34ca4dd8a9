//! Screens, as they are read.

use super::given::{Asked, CLOSED, Few, ODD, PLAIN, SEMAPHORE, comes_to};
use std::alloc::Global;
use tk_frame::Column;
use tk_screen::{Canvas, Size};

const ODD_SCREEN: &str = "now 1.0 s  tasks 2: 1 polling, 0 scheduled, 1 idle, 0 closed  findings 3
 1 NOW     resize 1.2 has never yielded, for 1.0 s (never-yielded, script:2:1)
 2 NOW     main 1.1 can be woken by nobody, for 999.9 ms (lost-waker, script:1:1)
 3 NOW     main 1.1 wakes itself, 66% of its wakes (self-wakes, script:1:1)
  TASK STATE         BUSY    SCHED  POLLS  WAKES SELF LOCATION        NAME                 KIND
   1.2 polling      1.0 s    50 ns      1      0    - script:2:1      resize               spawn
   1.1 idle         20 ns   100 ns      2      3  66% script:1:1      main                 spawn
2 of 2 tasks

";

// The end of that screen, sorted by polls, and where `ain` stands in the names; all have `crip` in the name of their file.
const BY_POLLS: &str =
    "   1.1 idle         20 ns   100 ns      2      3  66% script:1:1      main                 spawn
   1.2 polling      1.0 s    50 ns      1      0    - script:2:1      resize               spawn
2 of 2 tasks

";

const WITH_AIN: &str =
    "  TASK STATE         BUSY    SCHED  POLLS  WAKES SELF LOCATION        NAME                 KIND
   1.1 idle         20 ns   100 ns      2      3  66% script:1:1      main                 spawn
1 of 1 tasks

";

const SEMAPHORE_SCREEN: &str =
    "now 50 ns  tasks 1: 0 polling, 1 scheduled, 0 idle, 0 closed  findings 0
no finding now; who holds up others can't be seen: the lines span 0 ns, and it takes at least 100.0 ms
  TASK STATE         BUSY    SCHED  POLLS  WAKES SELF LOCATION        NAME                 KIND
   1.1 scheduled     0 ns    40 ns      0      0    - script:1:1      worker               spawn
1 of 1 tasks
RESOURCE    READY  PENDING TYPE (KIND) LOCATION
     1.1        1        0 Semaphore (Sync) script:2:1
OPERATION STATE      POLLS      BUSY     TASK RESOURCE SOURCE
      1.1 idle           1      5 ns      1.1      1.1 Semaphore::acquire

";

// The first screen on a terminal of 20 columns and 4 lines.
const NARROW_SCREEN: &str =
    "\x1b[H\x1b[Know 1.0 s  tasks 2: \n\x1b[K\x1b[31m 1 NOW     resize 1.\x1b[0m\n\x1b[K.. and 2 more\n\x1b[J";

// The first screen on such a terminal without colors, and lower by a line.
const DULL_SCREEN: &str = "\x1b[H\x1b[Know 1.0 s  tasks 2: \n\x1b[K 1 NOW     resize 1.\n\x1b[J";

fn written(alloc: Global, stream: &'static [u8], asked: Asked) -> Vec<u8> {
    let mut reader = stream;
    let mut writer = Vec::new(alloc);
    let mut pace = Few {
        due: 1,
        waits: 0,
        follows: 0,
    };
    if !comes_to(alloc, &mut reader, &mut writer, asked, &mut pace, "") {
        writer.clear();
    }
    writer
}

fn shows(alloc: Global, stream: &'static [u8], asked: Asked, wanted: &str) -> bool {
    written(alloc, stream, asked).as_slice() == wanted.as_bytes()
}

fn ends_with(alloc: Global, asked: Asked, end: &str) -> bool {
    written(alloc, ODD, asked)
        .as_slice()
        .ends_with(end.as_bytes())
}

#[test]
fn a_screen_is_read_as_text(rt: HostRuntime) {
    let with_resources = Asked {
        sort: Column::Wakes,
        filter: b"",
        resources: true,
        by_place: false,
        canvas: Canvas::Plain,
    };
    assert!(rt;
        shows(rt.alloc(), ODD, PLAIN, ODD_SCREEN),
        "the screen of tasks"
    );
    assert!(rt;
        shows(rt.alloc(), SEMAPHORE, with_resources, SEMAPHORE_SCREEN),
        "the screen with resources"
    );
}

#[test]
fn tasks_are_sorted_and_filtered(rt: HostRuntime) {
    for (sort, filter, end) in [
        (Column::Polls, "", BY_POLLS),
        (Column::SelfWakes, "main", WITH_AIN),
        (Column::Busy, "ain", WITH_AIN),
        (Column::Polls, "crip", BY_POLLS),
    ] {
        let asked = Asked {
            sort,
            filter: filter.as_bytes(),
            resources: false,
            by_place: false,
            canvas: Canvas::Plain,
        };
        assert!(rt;
            ends_with(rt.alloc(), asked, end),
            "the text '{filter}' filters"
        );
    }
}

// What a place's one task came to, which has left.
const LEFT_SCREEN: &str = "now 15 ns  tasks 0: 0 polling, 0 scheduled, 0 idle, 0 closed  findings 0
waiting  ___  at most 0
no finding now; who holds up others can't be seen: the lines span 9 ns, and it takes at least 100.0 ms
 PLACE           NAME       OPEN WAIT      RAN  LONGEST  POLLS   WAITED  HELD UP
 script:2:1      a             0    0     0 ns        -      0     0 ns        -
1 of 1 places

";

#[test]
fn what_left_stays_in_its_place(rt: HostRuntime) {
    let asked = Asked {
        sort: Column::HeldUp,
        filter: b"",
        resources: false,
        by_place: true,
        canvas: Canvas::Plain,
    };
    assert!(rt; shows(rt.alloc(), CLOSED, asked, LEFT_SCREEN));
}

fn on_terminal(alloc: Global, lines: usize, colors: bool, wanted: &str) -> bool {
    let asked = Asked {
        sort: Column::Busy,
        filter: b"",
        resources: false,
        by_place: false,
        canvas: Canvas::Terminal {
            size: Size { columns: 20, lines },
            colors,
        },
    };
    shows(alloc, ODD, asked, wanted)
}

#[test]
fn a_terminal_is_drawn_over_and_not_left(rt: HostRuntime) {
    assert!(rt;
        on_terminal(rt.alloc(), 4, true, NARROW_SCREEN),
        "a terminal of four lines in colors"
    );
    assert!(rt;
        on_terminal(rt.alloc(), 3, false, DULL_SCREEN),
        "a terminal of three lines without colors"
    );
    assert!(rt;
        on_terminal(rt.alloc(), 0, true, "\x1b[H\x1b[J"),
        "a terminal of no lines"
    );
}
