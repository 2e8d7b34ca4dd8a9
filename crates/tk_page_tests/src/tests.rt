//! Pages, and what is kept of a list.

use std::alloc::{AllocError, Global};
use std::io;
use std::io::Write;
use tk_client::Lints;
use tk_odd::Limits;
use tk_page::{view_page, view_page_with};
use tk_paper::Course;

// A task, a resource with an attribute, and an operation. Each text has the five bytes that mean something in a page, after a letter
// of its own.
const STRANGE: &[u8] =
    b"{\"dropped\":[0,0,0],\"new_ops\":[{\"attrs\":[],\"id\":1099511627777,\"parent\":null,\"resource\":1099511627777,\"source\":\"s<b>&\\\"'\"}],\"new_resources\":[{\"attrs\":[[\"n<b>&\\\"'\",\"u<b>&\\\"'\",\"u64\"]],\"id\":1099511627777,\"kind\":\"k<b>&\\\"'\",\"loc\":[\"g<b>&\\\"'\",2,1],\"parent\":null,\"type\":\"r<b>&\\\"'\"}],\"new_tasks\":[{\"id\":1099511627777,\"kind\":\"spawn\",\"loc\":[\"f<b>&\\\"'\",1,1],\"name\":\"t<b>&\\\"'\"}],\"now\":50,\"op_stats\":[{\"attrs\":[],\"busy\":5,\"created\":30,\"dropped\":null,\"first_poll\":40,\"handles\":1,\"id\":1099511627777,\"last_ended\":45,\"last_started\":40,\"polling\":false,\"polls\":1,\"task\":1099511627777}],\"poll_counts\":[[1099511627777,1,0]],\"resource_stats\":[{\"attrs\":[3],\"created\":20,\"dropped\":null,\"handles\":2,\"id\":1099511627777}],\"seq\":1,\"snapshot\":false,\"task_stats\":[{\"busy\":0,\"clones\":0,\"created\":10,\"dropped\":null,\"drops\":0,\"first_poll\":null,\"handles\":1,\"id\":1099511627777,\"last_ended\":null,\"last_started\":null,\"last_wake\":null,\"polling\":false,\"polls\":0,\"sched\":0,\"scheduled\":true,\"self_wakes\":0,\"wakes\":0}],\"v\":1}\n";

// A task that was created at 100 and polled from 150 to 170, at 200.
const POLLED: &[u8] =
    b"{\"dropped\":[0,0,0],\"new_ops\":[],\"new_resources\":[],\"new_tasks\":[{\"id\":1099511627777,\"kind\":\"spawn\",\"loc\":[\"script\",1,1],\"name\":\"main\"}],\"now\":200,\"op_stats\":[],\"poll_counts\":[],\"resource_stats\":[],\"seq\":1,\"snapshot\":false,\"task_stats\":[{\"busy\":20,\"clones\":3,\"created\":100,\"dropped\":null,\"drops\":1,\"first_poll\":150,\"handles\":1,\"id\":1099511627777,\"last_ended\":170,\"last_started\":150,\"last_wake\":null,\"polling\":false,\"polls\":1,\"sched\":50,\"scheduled\":false,\"self_wakes\":4,\"wakes\":9}],\"v\":1}\n";

// Its cells: 20 and 50 of the 100 that are shown, 20 a poll, 1 poll, 9 wakes, 4 of its own, and 2 wakers that are out.
const CELLS: &str =
    "<td data-v=\"20\" class=\"num\"><svg class=\"bar\" viewBox=\"0 0 100 10\" preserveAspectRatio=\"none\" aria-hidden=\"true\"><rect class=\"busy\" width=\"20\" height=\"10\"></rect></svg> 20\u{a0}% <small>20\u{a0}ns</small></td><td data-v=\"50\" class=\"num\"><svg class=\"bar\" viewBox=\"0 0 100 10\" preserveAspectRatio=\"none\" aria-hidden=\"true\"><rect class=\"wait\" width=\"50\" height=\"10\"></rect></svg> 50\u{a0}% <small>50\u{a0}ns</small></td><td data-v=\"20\" class=\"num\">20\u{a0}ns</td><td data-v=\"1\" class=\"num\">1</td><td data-v=\"9\" class=\"num\">9</td><td data-v=\"4\" class=\"num\">4</td><td data-v=\"2\" class=\"num\">2</td></tr>";

// From 1 s on a task runs, and another waits.
const HELD_UP: &[u8] =
    b"{\"dropped\":[0,0,0],\"new_ops\":[],\"new_resources\":[],\"new_tasks\":[{\"id\":1099511627777,\"kind\":\"spawn\",\"loc\":[\"script\",1,1],\"name\":\"hog\"},{\"id\":1099511627778,\"kind\":\"spawn\",\"loc\":[\"script\",1,1],\"name\":\"victim\"}],\"now\":1000000000,\"op_stats\":[],\"poll_counts\":[],\"resource_stats\":[],\"seq\":1,\"snapshot\":false,\"task_stats\":[{\"busy\":0,\"clones\":1,\"created\":0,\"dropped\":null,\"drops\":0,\"first_poll\":1000000000,\"handles\":1,\"id\":1099511627777,\"last_ended\":null,\"last_started\":1000000000,\"last_wake\":null,\"polling\":true,\"polls\":1,\"sched\":0,\"scheduled\":false,\"self_wakes\":0,\"wakes\":0},{\"busy\":0,\"clones\":1,\"created\":1000000000,\"dropped\":null,\"drops\":0,\"first_poll\":null,\"handles\":1,\"id\":1099511627778,\"last_ended\":null,\"last_started\":null,\"last_wake\":1000000000,\"polling\":false,\"polls\":0,\"sched\":0,\"scheduled\":true,\"self_wakes\":0,\"wakes\":1}],\"v\":1}\n";

// A line at 3 s that tells of no change.
const LATER: &[u8] =
    b"{\"dropped\":[0,0,0],\"new_ops\":[],\"new_resources\":[],\"new_tasks\":[],\"now\":3000000000,\"op_stats\":[],\"poll_counts\":[],\"resource_stats\":[],\"seq\":2,\"snapshot\":false,\"task_stats\":[],\"v\":1}\n";

const BANNER: &str =
    "<p class=\"now\"><span class=\"tag\">now</span> <a href=\"#t1099511627777\">hog</a> has held its thread for 2.0\u{a0}s; 1 task waits, the longest for 2.0\u{a0}s. It was made at script:1:1, kind spawn. What to do: split its polls, or move the work to a blocking task.</p>";

const CARD: &str =
    "<span class=\"count\">3 findings</span></h2><ul class=\"odd\"><li class=\"holds\"><h3><span class=\"icon\" aria-hidden=\"true\">▮</span> <a href=\"#t1099511627777\">hog</a> holds up the others <small>now</small></h3><p>Between 1.0\u{a0}s and 3.0\u{a0}s others waited for it, at least 2.0\u{a0}s in all. A poll of it took at least 2.0\u{a0}s. The largest part was waited by tasks of this place, at least 2.0\u{a0}s: spawn at script:1:1 name victim. It was made at script:1:1, kind spawn.</p><p class=\"do\">What to do: split its polls, or move the work to a blocking task.</p></li>";

// The page of a stream, and how many warnings it has.
fn page_of(alloc: Global, stream: &[u8]) -> Option<(Vec<u8>, u64)> {
    let mut reader = stream;
    let mut page = Vec::new(alloc);
    match view_page(alloc, &mut reader, &mut page, &Lints::default()) {
        Ok(warnings) => Some((page, warnings)),
        Err(_) => None,
    }
}

fn has(page: &[u8], text: &str) -> bool {
    match std::str::from_utf8(page) {
        Ok(page) => page.contains(text),
        Err(_) => false,
    }
}

// Whether the page of a stream has this text, and not that one.
fn shows(alloc: Global, stream: &[u8], text: &str, not: &str) -> bool {
    match page_of(alloc, stream) {
        Some((page, _)) => has(page.as_slice(), text) && !has(page.as_slice(), not),
        None => false,
    }
}

// Whether a strange text that begins with this letter stands escaped.
fn is_escaped(alloc: Global, letter: &str) -> Result<bool, AllocError> {
    let text = format!(in alloc; "{letter}&lt;b&gt;&amp;&quot;&#39;")?;
    let not = format!(in alloc; "{letter}<b>")?;
    Ok(shows(alloc, STRANGE, text.as_str(), not.as_str()))
}

#[test]
fn each_text_of_a_stranger_stands_escaped(rt: HostRuntime) {
    for letter in ["t", "f", "r", "k", "g", "n", "u", "s"] {
        assert!(rt; is_escaped(rt.alloc(), letter) == Ok(true), "{letter}");
    }
}

#[test]
fn a_row_has_the_numbers_of_its_task(rt: HostRuntime) {
    assert!(rt; shows(rt.alloc(), POLLED, CELLS, "<script>alert"));
}

// What its strip says in words: it was busy and waited in its one step, from the left on.
const WORDS: &str =
    "aria-label=\"main: busy 20\u{a0}%, waiting 50\u{a0}% of 100\u{a0}ns. Busiest between 0\u{a0}ns and 100\u{a0}ns: 20\u{a0}%. Waited most between 0\u{a0}ns and 100\u{a0}ns: 50\u{a0}%\">";

#[test]
fn a_strip_says_when_its_task_was_busiest(rt: HostRuntime) {
    assert!(rt; shows(rt.alloc(), POLLED, WORDS, "<script>alert"));
}

// The picture goes up to one task, of which half a task is the middle.
const MARKS: &str =
    "<div class=\"marks\" aria-hidden=\"true\"><span>1.0</span><span>0.5</span><span>0</span></div>";

#[test]
fn the_picture_has_a_scale(rt: HostRuntime) {
    assert!(rt; shows(rt.alloc(), POLLED, MARKS, "<script>alert"));
}

// The step of its strip: from the left on, 20 % busy, 50 % waiting, 9 wakes, 4 of its own.
#[test]
fn a_strip_has_the_numbers_of_its_steps(rt: HostRuntime) {
    let strip = "preserveAspectRatio=\"none\" data-steps=\"0,200,500,9,4;\" role=\"img\"";
    assert!(rt;
        shows(rt.alloc(), POLLED, strip, "data-steps=\"\""),
        "the task's strip"
    );
    let all = "preserveAspectRatio=\"none\" data-steps=\"0,500,0,0;\" role=\"img\"";
    assert!(rt;
        shows(rt.alloc(), POLLED, all, "data-steps=\"\""),
        "the strip of all tasks"
    );
}

// A task that polled an operation on a semaphore at 40, which is 30 from the left. It is woken or not, and the semaphore has so many permits.
fn waits(alloc: Global, woken: bool, permits: u64) -> Result<String, AllocError> {
    format!(in alloc;
        "{{\"dropped\":[0,0,0],\"new_ops\":[{{\"attrs\":[[\"wants\",null,\"i64\"]],\"id\":1099511627777,\"parent\":null,\"resource\":1099511627777,\"source\":\"Semaphore::acquire\"}}],\"new_resources\":[{{\"attrs\":[[\"permits\",\"MB\",\"u64\"]],\"id\":1099511627777,\"kind\":\"Sync\",\"loc\":[\"script\",2,1],\"parent\":null,\"type\":\"Semaphore\"}}],\"new_tasks\":[{{\"id\":1099511627778,\"kind\":\"spawn\",\"loc\":[\"script\",1,1],\"name\":\"writer\"}}],\"now\":50,\"op_stats\":[{{\"attrs\":[[-12345]],\"busy\":5,\"created\":30,\"dropped\":null,\"first_poll\":40,\"handles\":1,\"id\":1099511627777,\"last_ended\":45,\"last_started\":40,\"polling\":false,\"polls\":1,\"task\":1099511627778}}],\"poll_counts\":[],\"resource_stats\":[{{\"attrs\":[{permits}],\"created\":20,\"dropped\":null,\"handles\":2,\"id\":1099511627777}}],\"seq\":1,\"snapshot\":false,\"task_stats\":[{{\"busy\":5,\"clones\":1,\"created\":10,\"dropped\":null,\"drops\":0,\"first_poll\":40,\"handles\":1,\"id\":1099511627778,\"last_ended\":45,\"last_started\":40,\"last_wake\":null,\"polling\":false,\"polls\":1,\"sched\":30,\"scheduled\":{woken},\"self_wakes\":0,\"wakes\":0}}],\"v\":1}}\n"
    )
}

// Whether the page of such a stream has this text, and not that one.
fn waits_show(alloc: Global, woken: bool, permits: u64, text: &str, not: &str) -> bool {
    match waits(alloc, woken, permits) {
        Ok(stream) => shows(alloc, stream.as_bytes(), text, not),
        Err(_) => false,
    }
}

#[test]
fn an_idle_task_says_what_it_waits_for(rt: HostRuntime) {
    let odd = "</small><div class=\"badges\"";
    let awaited =
        "<div class=\"in\">in Semaphore::acquire, wants -12\u{202f}345 · Semaphore 1.1, permits 0 MB · since 30\u{a0}ns</div></th>";
    assert!(rt;
        waits_show(rt.alloc(), false, 0, awaited, odd),
        "the task says what it waits for"
    );
    assert!(rt;
        waits_show(rt.alloc(), true, 0, "Semaphore::acquire", "class=\"in\""),
        "a woken task doesn't say it"
    );
}

#[test]
fn a_resource_says_who_waits_for_it(rt: HostRuntime) {
    let waiter =
        "<div class=\"in\"><a href=\"#t1099511627778\">writer</a> waits in Semaphore::acquire, wants -12\u{202f}345 · since 30\u{a0}ns</div><p>poll operations: 0 ready, 0 pending</p>";
    assert!(rt; waits_show(rt.alloc(), false, 0, waiter, "class=\"more\""));
}

// Whether a page shows so many permits like this.
fn shows_permits(alloc: Global, permits: u64, digits: &str) -> Result<bool, AllocError> {
    let text = format!(in alloc; "<dt>permits</dt><dd>{digits} MB</dd>")?;
    Ok(waits_show(alloc, false, permits, text.as_str(), "class=\"more\""))
}

#[test]
fn digits_stand_in_groups_of_three(rt: HostRuntime) {
    for (permits, digits) in [
        (9999u64, "9999"),
        (10_000, "10\u{202f}000"),
        (123_456, "123\u{202f}456"),
        (
            u64::MAX,
            "18\u{202f}446\u{202f}744\u{202f}073\u{202f}709\u{202f}551\u{202f}615",
        ),
    ] {
        assert!(rt;
            shows_permits(rt.alloc(), permits, digits) == Ok(true),
            "{permits}"
        );
    }
}

#[test]
fn a_stream_without_lines_has_a_page_without_items(rt: HostRuntime) {
    let none =
        "<b>0</b> tasks · <b>0</b> resources · <b>0</b> operations · <b>0</b> lines over <b data-v=\"0\">0\u{a0}ns</b></p>";
    let no_line = "<p class=\"now\">No line came: this page knows nothing of any task.</p>";
    assert!(rt;
        shows(rt.alloc(), b"", none, "<tr id="),
        "no item is counted or listed"
    );
    assert!(rt;
        shows(rt.alloc(), b"", no_line, "class=\"count\""),
        "the page says that no line came"
    );
}

// A stream, and a line at 3 s.
fn and_later(alloc: Global, stream: &[u8]) -> Result<Vec<u8>, AllocError> {
    let mut both = Vec::from_slice(alloc, stream)?;
    both.extend_from_slice(LATER)?;
    Ok(both)
}

// Whether the page of a stream and of a line at 3 s has this text, and not that one.
fn later_shows(alloc: Global, stream: &[u8], text: &str, not: &str) -> bool {
    match and_later(alloc, stream) {
        Ok(both) => shows(alloc, both.as_slice(), text, not),
        Err(_) => false,
    }
}

#[test]
fn who_holds_up_others_now_stands_above_all_else(rt: HostRuntime) {
    assert!(rt;
        later_shows(rt.alloc(), HELD_UP, BANNER, "No line came"),
        "the banner at the top"
    );
    assert!(rt;
        later_shows(rt.alloc(), HELD_UP, CARD, "class=\"fine\""),
        "the card of the finding"
    );
}

#[test]
fn a_page_clears_nobody_by_one_line(rt: HostRuntime) {
    let unseen =
        "Who held up others can&#39;t be seen: the lines span 0\u{a0}ns, and it takes at least 100\u{a0}ms.";
    assert!(rt; shows(rt.alloc(), POLLED, unseen, "class=\"fine\""));
}

#[test]
fn a_page_shows_the_number_that_clears(rt: HostRuntime) {
    let calm =
        "Nothing: no poll is known to have taken 100\u{a0}ms. In the mean tasks waited 50\u{a0}ns for a poll. They may have waited longer,";
    assert!(rt; later_shows(rt.alloc(), POLLED, calm, "class=\"now\""));
}

// The page of a stream where a long poll is one of so many nanoseconds, with a strange title.
fn page_by(alloc: Global, stream: &[u8], long: u64) -> Option<Vec<u8>> {
    let mut reader = stream;
    let mut page = Vec::new(alloc);
    let limits = Limits {
        long,
        lints: Lints::default(),
    };
    match view_page_with(alloc, &mut reader, &mut page, limits, "h<b>&\"'") {
        Ok(_) => Some(page),
        Err(_) => None,
    }
}

// Whether a page says that a task holds up the others, where a long poll is one of so many nanoseconds.
fn accuses(alloc: Global, long: u64) -> Option<bool> {
    match and_later(alloc, HELD_UP) {
        Ok(stream) => match page_by(alloc, stream.as_slice(), long) {
            Some(page) => Some(has(page.as_slice(), " holds up the others")),
            None => None,
        },
        Err(_) => None,
    }
}

// Whether a page by a title has this text.
fn titled_shows(alloc: Global, text: &str) -> Option<bool> {
    match page_by(alloc, POLLED, 1) {
        Some(page) => Some(has(page.as_slice(), text)),
        None => None,
    }
}

#[test]
fn a_page_has_its_title_escaped(rt: HostRuntime) {
    assert!(rt;
        titled_shows(rt.alloc(), "<h1>h&lt;b&gt;&amp;&quot;&#39;</h1>") == Some(true),
        "the title is escaped"
    );
    assert!(rt;
        shows(rt.alloc(), POLLED, "<h1>taskscope</h1>", "id=\"sites\""),
        "without a title it is taskscope"
    );
}

#[test]
fn a_longer_poll_accuses_nobody(rt: HostRuntime) {
    assert!(rt;
        accuses(rt.alloc(), 2_000_000_000) == Some(true),
        "a poll of the limit is long"
    );
    assert!(rt;
        accuses(rt.alloc(), 2_000_000_001) == Some(false),
        "a poll below the limit is not long"
    );
}

// Takes so many bytes, and then gives an error.
#[derive(Drop)]
struct Narrow {
    got: Vec<u8>,
    room: usize,
}

impl Write for Narrow {
    fn write(&mut self, buf: &[u8]) -> io::Result<usize> {
        if self.room == 0 {
            return Err(io::ErrorKind::BrokenPipe.into());
        }
        let n = buf.len().min(self.room);
        self.got.extend_from_slice(&buf[..n])?;
        self.room -= n;
        Ok(n)
    }

    fn flush(&mut self) -> io::Result<()> {
        Ok(())
    }
}

// Whether a writer that takes so many bytes has got just the front of the page.
fn keeps_the_front(alloc: Global, page: &[u8], room: usize) -> bool {
    let mut reader = POLLED;
    let mut writer = Narrow {
        got: Vec::new(alloc),
        room,
    };
    let front = &page[..room.min(page.len())];
    view_page(alloc, &mut reader, &mut writer, &Lints::default()).is_err()
        && writer.got.as_slice() == front
}

#[test]
fn a_writer_that_fails_keeps_the_front_that_it_took(rt: HostRuntime) {
    let Some((page, warnings)) = page_of(rt.alloc(), POLLED) else {
        assert!(rt; false, "the whole page is written");
        return;
    };
    assert!(rt; warnings == 0, "nothing is warned of");
    for room in [0usize, 1, 1000] {
        assert!(rt;
            keeps_the_front(rt.alloc(), page.as_slice(), room),
            "{room}"
        );
    }
}

// What is kept of the numbers from 0 on.
fn course_of(alloc: Global, count: u64) -> Result<Course<u64>, AllocError> {
    let mut course = Course::new(alloc);
    for k in 0..count {
        course.push(k)?;
    }
    Ok(course)
}

// Whether each k-th of so many numbers is kept, and so many in all.
fn keeps(alloc: Global, count: u64, every: u64, many: usize) -> bool {
    let Ok(course) = course_of(alloc, count) else {
        return false;
    };
    let kept = course.kept();
    let mut next = 0u64;
    for number in kept {
        if *number != next {
            return false;
        }
        next = next.saturating_add(every);
    }
    kept.len() == many
}

#[test]
fn a_course_keeps_each_kth_number(rt: HostRuntime) {
    assert!(rt; keeps(rt.alloc(), 0, 1, 0), "of no number none is kept");
    assert!(rt;
        keeps(rt.alloc(), 64, 1, 64),
        "up to 64 each number is kept"
    );
    assert!(rt; keeps(rt.alloc(), 65, 2, 33), "of 65 each second is kept");
    assert!(rt;
        keeps(rt.alloc(), 1000, 16, 63),
        "of 1000 each 16th is kept"
    );
}

// The same, where numbers that aren't kept are passed over.
fn hurried_course_of(alloc: Global, count: usize) -> Result<Course<u64>, AllocError> {
    let mut course = Course::new(alloc);
    let mut next = 0usize;
    for k in 0..count {
        if k == next {
            course.push(k as u64)?;
            next = k
                .saturating_add(1)
                .saturating_add(course.pass(count - k - 1));
        }
    }
    course.copied(alloc)
}

// Whether the same is kept either way.
fn keeps_the_same(alloc: Global, count: usize) -> bool {
    let Ok(each) = course_of(alloc, count as u64) else {
        return false;
    };
    let Ok(hurried) = hurried_course_of(alloc, count) else {
        return false;
    };
    each.kept() == hurried.kept()
}

#[test]
fn numbers_that_are_not_kept_can_be_passed_over(rt: HostRuntime) {
    for count in [0usize, 64, 65, 129, 1000] {
        assert!(rt; keeps_the_same(rt.alloc(), count), "{count}");
    }
}
