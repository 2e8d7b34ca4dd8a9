//! Parts of lines. Each stands in a function that says nothing of it, so that no proof reads its bytes.

pub(super) fn before_tasks() -> &'static str {
    "{\"dropped\":[0,0,0],\"new_ops\":[],\"new_resources\":[],\"new_tasks\":"
}

pub(super) fn before_now() -> &'static str {
    ",\"now\":"
}

pub(super) fn before_seq() -> &'static str {
    ",\"op_stats\":[],\"poll_counts\":[],\"resource_stats\":[],\"seq\":"
}

pub(super) fn before_snapshot() -> &'static str {
    ",\"snapshot\":"
}

pub(super) fn before_stats() -> &'static str {
    ",\"task_stats\":"
}

pub(super) fn at_end() -> &'static str {
    ",\"v\":1}\n"
}

// The first task of recorder 1.
pub(super) fn main_task() -> &'static str {
    "[{\"id\":1099511627777,\"kind\":\"spawn\",\"loc\":[\"script\",1,1],\"name\":\"main\"}]"
}

pub(super) fn blocking_task() -> &'static str {
    "[{\"id\":1099511627777,\"kind\":\"blocking\",\"loc\":[\"script\",1,1],\"name\":\"main\"}]"
}

// What a row of that task begins with.
pub(super) fn row_head() -> &'static str {
    "[{\"id\":1099511627777,\"busy\":0,\"sched\":0,\"handles\":1,\"last_ended\":null,\"last_wake\":null,"
}

pub(super) fn unused() -> &'static str {
    "\"created\":100,\"clones\":0,\"dropped\":null,\"drops\":0,"
}

pub(super) fn released() -> &'static str {
    "\"created\":0,\"clones\":1,\"dropped\":null,\"drops\":1,"
}

pub(super) fn live() -> &'static str {
    "\"created\":0,\"clones\":2,\"dropped\":null,\"drops\":1,"
}

pub(super) fn closed() -> &'static str {
    "\"created\":0,\"clones\":0,\"dropped\":400,\"drops\":0,"
}

pub(super) fn unpolled() -> &'static str {
    "\"first_poll\":null,\"last_started\":null,\"polling\":false,\"polls\":0,"
}

pub(super) fn idle() -> &'static str {
    "\"first_poll\":0,\"last_started\":0,\"polling\":false,\"polls\":1,"
}

pub(super) fn in_first_poll() -> &'static str {
    "\"first_poll\":0,\"last_started\":0,\"polling\":true,\"polls\":1,"
}

pub(super) fn in_second_poll() -> &'static str {
    "\"first_poll\":0,\"last_started\":0,\"polling\":true,\"polls\":2,"
}

pub(super) fn without_start() -> &'static str {
    "\"first_poll\":null,\"last_started\":null,\"polling\":true,\"polls\":1,"
}

pub(super) fn scheduled() -> &'static str {
    "\"scheduled\":true,\"self_wakes\":"
}

pub(super) fn waiting() -> &'static str {
    "\"scheduled\":false,\"self_wakes\":"
}

pub(super) fn before_wakes() -> &'static str {
    ",\"wakes\":"
}

pub(super) fn row_end() -> &'static str {
    "}]"
}

// ---- lines that say what is gone

// Three tasks, of which the second has lost its waker, and the others are closed.
pub(super) fn three_tasks() -> &'static [u8] {
    b"{\"dropped\":[0,0,0],\"new_ops\":[],\"new_resources\":[],\"new_tasks\":[{\"id\":1099511627777,\"kind\":\"spawn\",\"loc\":[\"script\",1,1],\"name\":\"a\"},{\"id\":1099511627778,\"kind\":\"spawn\",\"loc\":[\"script\",2,1],\"name\":\"b\"},{\"id\":1099511627779,\"kind\":\"spawn\",\"loc\":[\"script\",3,1],\"name\":\"c\"}],\"now\":6,\"op_stats\":[],\"poll_counts\":[],\"resource_stats\":[],\"seq\":1,\"snapshot\":false,\"task_stats\":[{\"busy\":0,\"clones\":1,\"created\":1,\"dropped\":5,\"drops\":1,\"first_poll\":2,\"handles\":2,\"id\":1099511627777,\"last_ended\":3,\"last_started\":2,\"last_wake\":null,\"polling\":false,\"polls\":1,\"sched\":1,\"scheduled\":false,\"self_wakes\":0,\"wakes\":0},{\"busy\":0,\"clones\":1,\"created\":1,\"dropped\":null,\"drops\":1,\"first_poll\":2,\"handles\":2,\"id\":1099511627778,\"last_ended\":3,\"last_started\":2,\"last_wake\":null,\"polling\":false,\"polls\":1,\"sched\":1,\"scheduled\":false,\"self_wakes\":0,\"wakes\":0},{\"busy\":0,\"clones\":1,\"created\":1,\"dropped\":5,\"drops\":1,\"first_poll\":2,\"handles\":2,\"id\":1099511627779,\"last_ended\":3,\"last_started\":2,\"last_wake\":null,\"polling\":false,\"polls\":1,\"sched\":1,\"scheduled\":false,\"self_wakes\":0,\"wakes\":0}],\"v\":1}\n"
}

// Then the first is gone.
pub(super) fn without_first() -> &'static [u8] {
    b"{\"dropped\":[0,0,0],\"gone_ops\":[],\"gone_resources\":[],\"gone_tasks\":[1099511627777],\"new_ops\":[],\"new_resources\":[],\"new_tasks\":[],\"now\":6,\"op_stats\":[],\"poll_counts\":[],\"resource_stats\":[],\"seq\":2,\"snapshot\":false,\"task_stats\":[],\"v\":2}\n"
}

// Then the last is gone too, and another one has the number of the first.
pub(super) fn with_another() -> &'static [u8] {
    b"{\"dropped\":[0,0,0],\"gone_ops\":[],\"gone_resources\":[],\"gone_tasks\":[1099511627779],\"new_ops\":[],\"new_resources\":[],\"new_tasks\":[{\"id\":1099511627777,\"kind\":\"spawn\",\"loc\":[\"script\",1,1],\"name\":\"d\"}],\"now\":6,\"op_stats\":[],\"poll_counts\":[],\"resource_stats\":[],\"seq\":3,\"snapshot\":false,\"task_stats\":[{\"busy\":0,\"clones\":1,\"created\":1,\"dropped\":null,\"drops\":1,\"first_poll\":2,\"handles\":2,\"id\":1099511627777,\"last_ended\":3,\"last_started\":2,\"last_wake\":null,\"polling\":false,\"polls\":1,\"sched\":1,\"scheduled\":false,\"self_wakes\":0,\"wakes\":0}],\"v\":2}\n"
}

// After the three: a task that was never there is gone.
pub(super) fn gone_unknown() -> &'static [u8] {
    b"{\"dropped\":[0,0,0],\"gone_ops\":[],\"gone_resources\":[],\"gone_tasks\":[1099511627777,1099511627780],\"new_ops\":[],\"new_resources\":[],\"new_tasks\":[],\"now\":6,\"op_stats\":[],\"poll_counts\":[],\"resource_stats\":[],\"seq\":2,\"snapshot\":false,\"task_stats\":[],\"v\":2}\n"
}

// One is gone twice.
pub(super) fn gone_twice() -> &'static [u8] {
    b"{\"dropped\":[0,0,0],\"gone_ops\":[],\"gone_resources\":[],\"gone_tasks\":[1099511627778,1099511627778],\"new_ops\":[],\"new_resources\":[],\"new_tasks\":[],\"now\":6,\"op_stats\":[],\"poll_counts\":[],\"resource_stats\":[],\"seq\":2,\"snapshot\":false,\"task_stats\":[],\"v\":2}\n"
}

// One is gone and told of.
pub(super) fn gone_and_told() -> &'static [u8] {
    b"{\"dropped\":[0,0,0],\"gone_ops\":[],\"gone_resources\":[],\"gone_tasks\":[1099511627778],\"new_ops\":[],\"new_resources\":[],\"new_tasks\":[],\"now\":6,\"op_stats\":[],\"poll_counts\":[],\"resource_stats\":[],\"seq\":2,\"snapshot\":false,\"task_stats\":[{\"busy\":0,\"clones\":1,\"created\":1,\"dropped\":6,\"drops\":1,\"first_poll\":2,\"handles\":2,\"id\":1099511627778,\"last_ended\":3,\"last_started\":2,\"last_wake\":null,\"polling\":false,\"polls\":1,\"sched\":1,\"scheduled\":false,\"self_wakes\":0,\"wakes\":0}],\"v\":2}\n"
}

// One is gone and new.
pub(super) fn gone_and_new() -> &'static [u8] {
    b"{\"dropped\":[0,0,0],\"gone_ops\":[],\"gone_resources\":[],\"gone_tasks\":[1099511627778],\"new_ops\":[],\"new_resources\":[],\"new_tasks\":[{\"id\":1099511627778,\"kind\":\"spawn\",\"loc\":[\"script\",2,1],\"name\":\"b\"}],\"now\":6,\"op_stats\":[],\"poll_counts\":[],\"resource_stats\":[],\"seq\":2,\"snapshot\":false,\"task_stats\":[{\"busy\":0,\"clones\":1,\"created\":1,\"dropped\":null,\"drops\":1,\"first_poll\":2,\"handles\":2,\"id\":1099511627778,\"last_ended\":3,\"last_started\":2,\"last_wake\":null,\"polling\":false,\"polls\":1,\"sched\":1,\"scheduled\":false,\"self_wakes\":0,\"wakes\":0}],\"v\":2}\n"
}

// A snapshot knows of nothing that could be gone.
pub(super) fn gone_in_snapshot() -> &'static [u8] {
    b"{\"dropped\":[0,0,0],\"gone_ops\":[],\"gone_resources\":[],\"gone_tasks\":[1099511627777],\"new_ops\":[],\"new_resources\":[],\"new_tasks\":[],\"now\":6,\"op_stats\":[],\"poll_counts\":[],\"resource_stats\":[],\"seq\":2,\"snapshot\":true,\"task_stats\":[],\"v\":2}\n"
}

// Nor does a first line.
pub(super) fn gone_at_first() -> &'static [u8] {
    b"{\"dropped\":[0,0,0],\"gone_ops\":[],\"gone_resources\":[],\"gone_tasks\":[1099511627777],\"new_ops\":[],\"new_resources\":[],\"new_tasks\":[],\"now\":6,\"op_stats\":[],\"poll_counts\":[],\"resource_stats\":[],\"seq\":1,\"snapshot\":false,\"task_stats\":[],\"v\":2}\n"
}

// A line with an item of each kind, attributes of each kind, and poll counts.
pub(super) fn items_line() -> &'static str {
    r#"{"dropped":[1,0,0],"new_ops":[{"attrs":[["ahead",null,"i64"],["queued",null,"bool"]],"id":1099511627777,"parent":null,"resource":1099511627777,"source":"pop"}],"new_resources":[{"attrs":[["lag","ms","i64"],["most",null,"u64"]],"id":1099511627777,"kind":"Sync","loc":["script",1,1],"parent":null,"type":"Queue"}],"new_tasks":[{"id":1099511627777,"kind":"spawn","loc":["script",1,1],"name":"main"}],"now":50,"op_stats":[{"attrs":[[7],true],"busy":0,"created":30,"dropped":null,"first_poll":null,"handles":1,"id":1099511627777,"last_ended":null,"last_started":null,"polling":false,"polls":0,"task":null}],"poll_counts":[[1099511627777,1,0]],"resource_stats":[{"attrs":[[-3],9],"created":20,"dropped":null,"handles":2,"id":1099511627777}],"seq":1,"snapshot":false,"task_stats":[{"busy":0,"clones":0,"created":5,"dropped":null,"drops":0,"first_poll":null,"handles":1,"id":1099511627777,"last_ended":null,"last_started":null,"last_wake":null,"polling":false,"polls":0,"sched":0,"scheduled":true,"self_wakes":0,"wakes":0}],"v":1}"#
}

// A first line that says what is gone: nothing, though it has the lists.
pub(super) fn gone_line() -> &'static str {
    r#"{"dropped":[0,0,0],"gone_ops":[],"gone_resources":[],"gone_tasks":[],"new_ops":[],"new_resources":[],"new_tasks":[],"now":15,"op_stats":[],"poll_counts":[],"resource_stats":[],"seq":1,"snapshot":false,"task_stats":[],"v":2}"#
}

// A first line of version 4 with the keys of version 3: the first row counts its waits, and the second doesn't.
pub(super) fn waits_line() -> &'static str {
    r#"{"dropped":[0,0,0],"gone_ops":[],"gone_resources":[],"gone_tasks":[],"new_ops":[],"new_resources":[],"new_tasks":[{"id":1099511627777,"kind":"spawn","loc":["script",1,1],"name":"a"},{"id":1099511627778,"kind":"spawn","loc":["script",2,1],"name":"b"}],"now":15,"op_stats":[],"poll_counts":[],"resource_stats":[],"seq":1,"snapshot":false,"task_stats":[{"busy":0,"clones":0,"created":1,"dropped":null,"drops":0,"first_poll":null,"handles":1,"id":1099511627777,"last_ended":null,"last_started":null,"last_wake":null,"polling":false,"polls":0,"sched":[1,2,2],"scheduled":true,"self_wakes":0,"wakes":0},{"busy":0,"clones":0,"created":1,"dropped":null,"drops":0,"first_poll":null,"handles":1,"id":1099511627778,"last_ended":null,"last_started":null,"last_wake":null,"polling":false,"polls":0,"sched":0,"scheduled":true,"self_wakes":0,"wakes":0}],"task_times":[{"counts":[[0,1]],"id":1099511627777,"longest":5}],"v":4}"#
}

// Values that stand in another's place: of each kind, too wide or too deep for any that a line has, and no JSON.
pub(super) fn other_values() -> [&'static str; 16] {
    [
        "null",
        "0",
        "-1",
        "1.0",
        "1e999",
        "true",
        "\"\"",
        "\"\\u0041\"",
        "[]",
        "[0,0,0,0,0,0,0]",
        "[[[[[0]]]]]",
        "{}",
        "{\"\":0}",
        "{\"a\":0,\"b\":0,\"c\":0,\"d\":0,\"e\":0,\"f\":0,\"g\":0,\"h\":0,\"i\":0,\"j\":0,\"k\":0,\"l\":0,\"m\":0,\"n\":0,\"o\":0,\"p\":0,\"q\":0,\"r\":0}",
        "[1,]",
        "01",
    ]
}
