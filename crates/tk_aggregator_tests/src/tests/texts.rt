//! Texts of lines.

// A task that was created at 100, told at 200.
pub(super) const MAIN: &str =
    r#"{"dropped":[0,0,0],"new_ops":[],"new_resources":[],"new_tasks":[{"id":1099511627777,"kind":"spawn","loc":["script",1,1],"name":"main"}],"now":200,"op_stats":[],"poll_counts":[],"resource_stats":[],"seq":1,"snapshot":false,"task_stats":[{"busy":0,"clones":0,"created":100,"dropped":null,"drops":0,"first_poll":null,"handles":1,"id":1099511627777,"last_ended":null,"last_started":null,"last_wake":null,"polling":false,"polls":0,"sched":0,"scheduled":true,"self_wakes":0,"wakes":0}],"v":1}
"#;

// The snapshot of that task that is the second line.
pub(super) const MAIN_AGAIN: &str =
    r#"{"dropped":[0,0,0],"new_ops":[],"new_resources":[],"new_tasks":[{"id":1099511627777,"kind":"spawn","loc":["script",1,1],"name":"main"}],"now":300,"op_stats":[],"poll_counts":[],"resource_stats":[],"seq":2,"snapshot":true,"task_stats":[{"busy":0,"clones":0,"created":100,"dropped":null,"drops":0,"first_poll":null,"handles":1,"id":1099511627777,"last_ended":null,"last_started":null,"last_wake":null,"polling":false,"polls":0,"sched":0,"scheduled":true,"self_wakes":0,"wakes":0}],"v":1}
"#;

// The second line where nothing has changed.
pub(super) const UNCHANGED: &str =
    r#"{"dropped":[0,0,0],"new_ops":[],"new_resources":[],"new_tasks":[],"now":300,"op_stats":[],"poll_counts":[],"resource_stats":[],"seq":2,"snapshot":false,"task_stats":[],"v":1}
"#;

// Two lines of one moment without items.
pub(super) const EMPTY_TWICE: &str =
    r#"{"dropped":[0,0,0],"new_ops":[],"new_resources":[],"new_tasks":[],"now":5,"op_stats":[],"poll_counts":[],"resource_stats":[],"seq":1,"snapshot":false,"task_stats":[],"v":1}
{"dropped":[0,0,0],"new_ops":[],"new_resources":[],"new_tasks":[],"now":5,"op_stats":[],"poll_counts":[],"resource_stats":[],"seq":2,"snapshot":false,"task_stats":[],"v":1}
"#;

// A task created at 1 and told at 2, which starts a poll at 3, wakes itself there and is told at 4, and a snapshot at 5.
pub(super) const POLLED: &str =
    r#"{"dropped":[0,0,0],"new_ops":[],"new_resources":[],"new_tasks":[{"id":1099511627777,"kind":"spawn","loc":["script",1,1],"name":"a"}],"now":2,"op_stats":[],"poll_counts":[],"resource_stats":[],"seq":1,"snapshot":false,"task_stats":[{"busy":0,"clones":0,"created":1,"dropped":null,"drops":0,"first_poll":null,"handles":1,"id":1099511627777,"last_ended":null,"last_started":null,"last_wake":null,"polling":false,"polls":0,"sched":0,"scheduled":true,"self_wakes":0,"wakes":0}],"v":1}
{"dropped":[0,0,0],"new_ops":[],"new_resources":[],"new_tasks":[],"now":4,"op_stats":[],"poll_counts":[],"resource_stats":[],"seq":2,"snapshot":false,"task_stats":[{"busy":0,"clones":0,"created":1,"dropped":null,"drops":0,"first_poll":3,"handles":1,"id":1099511627777,"last_ended":null,"last_started":3,"last_wake":3,"polling":true,"polls":1,"sched":2,"scheduled":true,"self_wakes":1,"wakes":1}],"v":1}
{"dropped":[0,0,0],"new_ops":[],"new_resources":[],"new_tasks":[{"id":1099511627777,"kind":"spawn","loc":["script",1,1],"name":"a"}],"now":5,"op_stats":[],"poll_counts":[],"resource_stats":[],"seq":3,"snapshot":true,"task_stats":[{"busy":0,"clones":0,"created":1,"dropped":null,"drops":0,"first_poll":3,"handles":1,"id":1099511627777,"last_ended":null,"last_started":3,"last_wake":3,"polling":true,"polls":1,"sched":2,"scheduled":true,"self_wakes":1,"wakes":1}],"v":1}
"#;

// A task polls an operation on a semaphore with three attributes, of which one went below 0.
pub(super) const WORKED: &str =
    r#"{"dropped":[0,0,0],"new_ops":[{"attrs":[],"id":1099511627777,"parent":null,"resource":1099511627777,"source":"Semaphore::acquire"}],"new_resources":[{"attrs":[["permits",null,"u64"],["closed",null,"bool"],["lag",null,"i64"]],"id":1099511627777,"kind":"Sync","loc":["script",2,1],"parent":null,"type":"Semaphore"}],"new_tasks":[{"id":1099511627777,"kind":"spawn","loc":["script",1,1],"name":"worker"}],"now":50,"op_stats":[{"attrs":[],"busy":5,"created":30,"dropped":null,"first_poll":40,"handles":1,"id":1099511627777,"last_ended":45,"last_started":40,"polling":false,"polls":1,"task":1099511627777}],"poll_counts":[[1099511627777,1,0]],"resource_stats":[{"attrs":[3,false,[-3]],"created":20,"dropped":null,"handles":2,"id":1099511627777}],"seq":1,"snapshot":false,"task_stats":[{"busy":0,"clones":0,"created":10,"dropped":null,"drops":0,"first_poll":null,"handles":1,"id":1099511627777,"last_ended":null,"last_started":null,"last_wake":null,"polling":false,"polls":0,"sched":0,"scheduled":true,"self_wakes":0,"wakes":0}],"v":1}
"#;

// Of three tasks in a buffer of two the third is dropped.
pub(super) const DROPPED: &str =
    r#"{"dropped":[1,0,0],"new_ops":[],"new_resources":[],"new_tasks":[{"id":1099511627777,"kind":"spawn","loc":["script",1,1],"name":"a"},{"id":1099511627778,"kind":"spawn","loc":["script",1,1],"name":"b"}],"now":10,"op_stats":[],"poll_counts":[],"resource_stats":[],"seq":1,"snapshot":false,"task_stats":[{"busy":0,"clones":0,"created":1,"dropped":null,"drops":0,"first_poll":null,"handles":1,"id":1099511627777,"last_ended":null,"last_started":null,"last_wake":null,"polling":false,"polls":0,"sched":0,"scheduled":true,"self_wakes":0,"wakes":0},{"busy":0,"clones":0,"created":2,"dropped":null,"drops":0,"first_poll":null,"handles":1,"id":1099511627778,"last_ended":null,"last_started":null,"last_wake":null,"polling":false,"polls":0,"sched":0,"scheduled":true,"self_wakes":0,"wakes":0}],"v":1}
"#;

// After a line that told of a closed task: a line before it is due, and the one with which it leaves.
pub(super) const STAYED_AND_LEFT: &str =
    r#"{"dropped":[0,0,0],"gone_ops":[],"gone_resources":[],"gone_tasks":[],"new_ops":[],"new_resources":[],"new_tasks":[],"now":14,"op_stats":[],"poll_counts":[],"resource_stats":[],"seq":2,"snapshot":false,"task_stats":[],"v":2}
{"dropped":[0,0,0],"gone_ops":[],"gone_resources":[],"gone_tasks":[1099511627777],"new_ops":[],"new_resources":[],"new_tasks":[],"now":15,"op_stats":[],"poll_counts":[],"resource_stats":[],"seq":3,"snapshot":false,"task_stats":[],"v":2}
"#;

// How a snapshot of version 2 with a new task begins: nothing is gone.
pub(super) const NOTHING_GONE: &str =
    r#"{"dropped":[0,0,0],"gone_ops":[],"gone_resources":[],"gone_tasks":[],"new_ops":[],"new_resources":[],"new_tasks":[{"id":1099511627777,"#;

// After a line that told of a task that is closed for long: it leaves.
pub(super) const LEFT: &str =
    r#"{"dropped":[0,0,0],"gone_ops":[],"gone_resources":[],"gone_tasks":[1099511627777],"new_ops":[],"new_resources":[],"new_tasks":[],"now":20,"op_stats":[],"poll_counts":[],"resource_stats":[],"seq":2,"snapshot":false,"task_stats":[],"v":2}
"#;

// A task with a histogram that was created at 1 and told at 2; two polls of it, of 20,000 ns and 5 ns, told at 40,000; a line that tells nothing new,
// and a snapshot.
pub(super) const TIMED: &str =
    r#"{"dropped":[0,0,0],"gone_ops":[],"gone_resources":[],"gone_tasks":[],"new_ops":[],"new_resources":[],"new_tasks":[{"id":1099511627777,"kind":"spawn","loc":["script",1,1],"name":"a"}],"now":2,"op_stats":[],"poll_counts":[],"resource_stats":[],"seq":1,"snapshot":false,"task_stats":[{"busy":0,"clones":0,"created":1,"dropped":null,"drops":0,"first_poll":null,"handles":1,"id":1099511627777,"last_ended":null,"last_started":null,"last_wake":null,"polling":false,"polls":0,"sched":0,"scheduled":true,"self_wakes":0,"wakes":0}],"task_times":[{"counts":[],"id":1099511627777,"longest":0}],"v":3}
{"dropped":[0,0,0],"gone_ops":[],"gone_resources":[],"gone_tasks":[],"new_ops":[],"new_resources":[],"new_tasks":[],"now":40000,"op_stats":[],"poll_counts":[],"resource_stats":[],"seq":2,"snapshot":false,"task_stats":[{"busy":20005,"clones":0,"created":1,"dropped":null,"drops":0,"first_poll":3,"handles":1,"id":1099511627777,"last_ended":30005,"last_started":30000,"last_wake":null,"polling":false,"polls":2,"sched":2,"scheduled":false,"self_wakes":0,"wakes":0}],"task_times":[{"counts":[[0,1],[1,1]],"id":1099511627777,"longest":20000}],"v":3}
{"dropped":[0,0,0],"gone_ops":[],"gone_resources":[],"gone_tasks":[],"new_ops":[],"new_resources":[],"new_tasks":[],"now":40001,"op_stats":[],"poll_counts":[],"resource_stats":[],"seq":3,"snapshot":false,"task_stats":[],"task_times":[],"v":3}
{"dropped":[0,0,0],"gone_ops":[],"gone_resources":[],"gone_tasks":[],"new_ops":[],"new_resources":[],"new_tasks":[{"id":1099511627777,"kind":"spawn","loc":["script",1,1],"name":"a"}],"now":40002,"op_stats":[],"poll_counts":[],"resource_stats":[],"seq":4,"snapshot":true,"task_stats":[{"busy":20005,"clones":0,"created":1,"dropped":null,"drops":0,"first_poll":3,"handles":1,"id":1099511627777,"last_ended":30005,"last_started":30000,"last_wake":null,"polling":false,"polls":2,"sched":2,"scheduled":false,"self_wakes":0,"wakes":0}],"task_times":[{"counts":[[0,1],[1,1]],"id":1099511627777,"longest":20000}],"v":3}
"#;

// After a line that told of a closed task with a histogram: it leaves.
pub(super) const TIMED_LEFT: &str =
    r#"{"dropped":[0,0,0],"gone_ops":[],"gone_resources":[],"gone_tasks":[1099511627777],"new_ops":[],"new_resources":[],"new_tasks":[],"now":20,"op_stats":[],"poll_counts":[],"resource_stats":[],"seq":2,"snapshot":false,"task_stats":[],"task_times":[],"v":3}
"#;
