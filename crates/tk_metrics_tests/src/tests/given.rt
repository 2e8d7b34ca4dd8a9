//! Streams, and the numbers that `tests/metrics/plain_metrics.py` reckons of them.

// That of examples/lost-waker.script.
pub(super) const LOST: &[u8] =
    b"{\"dropped\":[0,0,0],\"new_ops\":[],\"new_resources\":[],\"new_tasks\":[{\"id\":1099511627777,\"kind\":\"spawn\",\"loc\":[\"script\",2,1],\"name\":\"fetch\"},{\"id\":1099511627778,\"kind\":\"blocking\",\"loc\":[\"script\",3,1],\"name\":\"resolve\"}],\"now\":1000,\"op_stats\":[],\"poll_counts\":[],\"resource_stats\":[],\"seq\":1,\"snapshot\":false,\"task_stats\":[{\"busy\":100,\"clones\":2,\"created\":100,\"dropped\":null,\"drops\":0,\"first_poll\":200,\"handles\":3,\"id\":1099511627777,\"last_ended\":300,\"last_started\":200,\"last_wake\":null,\"polling\":false,\"polls\":1,\"sched\":100,\"scheduled\":false,\"self_wakes\":0,\"wakes\":0},{\"busy\":0,\"clones\":0,\"created\":100,\"dropped\":null,\"drops\":0,\"first_poll\":300,\"handles\":1,\"id\":1099511627778,\"last_ended\":null,\"last_started\":300,\"last_wake\":null,\"polling\":true,\"polls\":1,\"sched\":200,\"scheduled\":false,\"self_wakes\":0,\"wakes\":0}],\"v\":1}\n{\"dropped\":[0,0,0],\"new_ops\":[],\"new_resources\":[],\"new_tasks\":[],\"now\":3000,\"op_stats\":[],\"poll_counts\":[],\"resource_stats\":[],\"seq\":2,\"snapshot\":false,\"task_stats\":[{\"busy\":200,\"clones\":2,\"created\":100,\"dropped\":null,\"drops\":2,\"first_poll\":200,\"handles\":3,\"id\":1099511627777,\"last_ended\":2200,\"last_started\":2100,\"last_wake\":2000,\"polling\":false,\"polls\":2,\"sched\":200,\"scheduled\":false,\"self_wakes\":0,\"wakes\":1},{\"busy\":2200,\"clones\":0,\"created\":100,\"dropped\":2500,\"drops\":0,\"first_poll\":300,\"handles\":1,\"id\":1099511627778,\"last_ended\":2500,\"last_started\":300,\"last_wake\":null,\"polling\":false,\"polls\":1,\"sched\":200,\"scheduled\":false,\"self_wakes\":0,\"wakes\":0}],\"v\":1}\n";

pub(super) const LOST_NUMBERS: &str = "# TYPE taskscope_task_polls_total counter
# HELP taskscope_task_polls_total Polls of tasks that have started.
taskscope_task_polls_total{name=\"fetch\",kind=\"spawn\"} 2
taskscope_task_polls_total{name=\"resolve\",kind=\"blocking\"} 1
# TYPE taskscope_task_busy_seconds_total counter
# UNIT taskscope_task_busy_seconds seconds
# HELP taskscope_task_busy_seconds_total How long polls of tasks ran that have ended.
taskscope_task_busy_seconds_total{name=\"fetch\",kind=\"spawn\"} 0.000000200
taskscope_task_busy_seconds_total{name=\"resolve\",kind=\"blocking\"} 0.000002200
# TYPE taskscope_task_scheduled_seconds_total counter
# UNIT taskscope_task_scheduled_seconds seconds
# HELP taskscope_task_scheduled_seconds_total How long tasks were scheduled until polls of them started.
taskscope_task_scheduled_seconds_total{name=\"fetch\",kind=\"spawn\"} 0.000000200
taskscope_task_scheduled_seconds_total{name=\"resolve\",kind=\"blocking\"} 0.000000200
# TYPE taskscope_task_wakes_total counter
# HELP taskscope_task_wakes_total Wakes of tasks.
taskscope_task_wakes_total{name=\"fetch\",kind=\"spawn\"} 1
taskscope_task_wakes_total{name=\"resolve\",kind=\"blocking\"} 0
# TYPE taskscope_task_self_wakes_total counter
# HELP taskscope_task_self_wakes_total Wakes of tasks that came from within the task.
taskscope_task_self_wakes_total{name=\"fetch\",kind=\"spawn\"} 0
taskscope_task_self_wakes_total{name=\"resolve\",kind=\"blocking\"} 0
# TYPE taskscope_task_waker_clones_total counter
# HELP taskscope_task_waker_clones_total Clones of wakers of tasks.
taskscope_task_waker_clones_total{name=\"fetch\",kind=\"spawn\"} 2
taskscope_task_waker_clones_total{name=\"resolve\",kind=\"blocking\"} 0
# TYPE taskscope_task_waker_drops_total counter
# HELP taskscope_task_waker_drops_total Drops of wakers of tasks.
taskscope_task_waker_drops_total{name=\"fetch\",kind=\"spawn\"} 2
taskscope_task_waker_drops_total{name=\"resolve\",kind=\"blocking\"} 0
# TYPE taskscope_tasks gauge
# HELP taskscope_tasks Tasks by the state that they are in.
taskscope_tasks{name=\"fetch\",kind=\"spawn\",state=\"idle\"} 1
taskscope_tasks{name=\"fetch\",kind=\"spawn\",state=\"scheduled\"} 0
taskscope_tasks{name=\"fetch\",kind=\"spawn\",state=\"polling\"} 0
taskscope_tasks{name=\"fetch\",kind=\"spawn\",state=\"closed\"} 0
taskscope_tasks{name=\"resolve\",kind=\"blocking\",state=\"idle\"} 0
taskscope_tasks{name=\"resolve\",kind=\"blocking\",state=\"scheduled\"} 0
taskscope_tasks{name=\"resolve\",kind=\"blocking\",state=\"polling\"} 0
taskscope_tasks{name=\"resolve\",kind=\"blocking\",state=\"closed\"} 1
# TYPE taskscope_task_open_poll_seconds gauge
# UNIT taskscope_task_open_poll_seconds seconds
# HELP taskscope_task_open_poll_seconds How long the longest poll has run that has not ended.
taskscope_task_open_poll_seconds{name=\"fetch\",kind=\"spawn\"} 0.000000000
taskscope_task_open_poll_seconds{name=\"resolve\",kind=\"blocking\"} 0.000000000
# TYPE taskscope_task_open_wait_seconds gauge
# UNIT taskscope_task_open_wait_seconds seconds
# HELP taskscope_task_open_wait_seconds How long the longest wait for a poll has lasted that has not ended.
taskscope_task_open_wait_seconds{name=\"fetch\",kind=\"spawn\"} 0.000000000
taskscope_task_open_wait_seconds{name=\"resolve\",kind=\"blocking\"} 0.000000000
# TYPE taskscope_task_waiting_seconds gauge
# UNIT taskscope_task_waiting_seconds seconds
# HELP taskscope_task_waiting_seconds How long all tasks that wait for a poll have waited for it.
taskscope_task_waiting_seconds{name=\"fetch\",kind=\"spawn\"} 0.000000000
taskscope_task_waiting_seconds{name=\"resolve\",kind=\"blocking\"} 0.000000000
# TYPE taskscope_resource_poll_ops_total counter
# HELP taskscope_resource_poll_ops_total Poll operations of resources by what they answered.
# TYPE taskscope_warnings gauge
# HELP taskscope_warnings Warnings about tasks.
taskscope_warnings{kind=\"self-wakes\"} 0
taskscope_warnings{kind=\"lost-waker\"} 1
taskscope_warnings{kind=\"never-yielded\"} 0
# TYPE taskscope_dropped_events_total counter
# HELP taskscope_dropped_events_total Events that the event buffer had no room for.
taskscope_dropped_events_total{kind=\"task\"} 0
taskscope_dropped_events_total{kind=\"resource\"} 0
taskscope_dropped_events_total{kind=\"op\"} 0
# TYPE taskscope_stream_lines_total counter
# HELP taskscope_stream_lines_total Lines of the stream.
taskscope_stream_lines_total 2
# TYPE taskscope_stream_moment_seconds gauge
# UNIT taskscope_stream_moment_seconds seconds
# HELP taskscope_stream_moment_seconds The moment of the last line, by the clock of the stream.
taskscope_stream_moment_seconds 0.000003000
# TYPE taskscope_build_info gauge
# HELP taskscope_build_info The program that made these numbers.
taskscope_build_info{version=\"0.1.0\"} 1
# TYPE taskscope_findings gauge
# HELP taskscope_findings How many tasks a finding is about.
taskscope_findings{kind=\"lost-waker\",when=\"now\",place=\"spawn at script:2:1 name fetch\"} 1
# TYPE taskscope_held_up_seconds_total counter
# UNIT taskscope_held_up_seconds seconds
# HELP taskscope_held_up_seconds_total How long others waited while tasks of a place ran long.
# TYPE taskscope_waited_seconds_total counter
# UNIT taskscope_waited_seconds seconds
# HELP taskscope_waited_seconds_total How long tasks waited for a poll, by what for.
taskscope_waited_seconds_total{for=\"long-polls\"} 0.000000000
taskscope_waited_seconds_total{for=\"queue\"} 0.000000000
taskscope_waited_seconds_total{for=\"nobody\"} 0.000000000
# EOF
";

pub(super) const LOST_BY_ID: &str = "# TYPE taskscope_task_polls_total counter
# HELP taskscope_task_polls_total Polls of tasks that have started.
taskscope_task_polls_total{id=\"1.1\",name=\"fetch\",kind=\"spawn\"} 2
taskscope_task_polls_total{id=\"1.2\",name=\"resolve\",kind=\"blocking\"} 1
# TYPE taskscope_task_busy_seconds_total counter
# UNIT taskscope_task_busy_seconds seconds
# HELP taskscope_task_busy_seconds_total How long polls of tasks ran that have ended.
taskscope_task_busy_seconds_total{id=\"1.1\",name=\"fetch\",kind=\"spawn\"} 0.000000200
taskscope_task_busy_seconds_total{id=\"1.2\",name=\"resolve\",kind=\"blocking\"} 0.000002200
# TYPE taskscope_task_scheduled_seconds_total counter
# UNIT taskscope_task_scheduled_seconds seconds
# HELP taskscope_task_scheduled_seconds_total How long tasks were scheduled until polls of them started.
taskscope_task_scheduled_seconds_total{id=\"1.1\",name=\"fetch\",kind=\"spawn\"} 0.000000200
taskscope_task_scheduled_seconds_total{id=\"1.2\",name=\"resolve\",kind=\"blocking\"} 0.000000200
# TYPE taskscope_task_wakes_total counter
# HELP taskscope_task_wakes_total Wakes of tasks.
taskscope_task_wakes_total{id=\"1.1\",name=\"fetch\",kind=\"spawn\"} 1
taskscope_task_wakes_total{id=\"1.2\",name=\"resolve\",kind=\"blocking\"} 0
# TYPE taskscope_task_self_wakes_total counter
# HELP taskscope_task_self_wakes_total Wakes of tasks that came from within the task.
taskscope_task_self_wakes_total{id=\"1.1\",name=\"fetch\",kind=\"spawn\"} 0
taskscope_task_self_wakes_total{id=\"1.2\",name=\"resolve\",kind=\"blocking\"} 0
# TYPE taskscope_task_waker_clones_total counter
# HELP taskscope_task_waker_clones_total Clones of wakers of tasks.
taskscope_task_waker_clones_total{id=\"1.1\",name=\"fetch\",kind=\"spawn\"} 2
taskscope_task_waker_clones_total{id=\"1.2\",name=\"resolve\",kind=\"blocking\"} 0
# TYPE taskscope_task_waker_drops_total counter
# HELP taskscope_task_waker_drops_total Drops of wakers of tasks.
taskscope_task_waker_drops_total{id=\"1.1\",name=\"fetch\",kind=\"spawn\"} 2
taskscope_task_waker_drops_total{id=\"1.2\",name=\"resolve\",kind=\"blocking\"} 0
# TYPE taskscope_tasks gauge
# HELP taskscope_tasks Tasks by the state that they are in.
taskscope_tasks{id=\"1.1\",name=\"fetch\",kind=\"spawn\",state=\"idle\"} 1
taskscope_tasks{id=\"1.1\",name=\"fetch\",kind=\"spawn\",state=\"scheduled\"} 0
taskscope_tasks{id=\"1.1\",name=\"fetch\",kind=\"spawn\",state=\"polling\"} 0
taskscope_tasks{id=\"1.1\",name=\"fetch\",kind=\"spawn\",state=\"closed\"} 0
taskscope_tasks{id=\"1.2\",name=\"resolve\",kind=\"blocking\",state=\"idle\"} 0
taskscope_tasks{id=\"1.2\",name=\"resolve\",kind=\"blocking\",state=\"scheduled\"} 0
taskscope_tasks{id=\"1.2\",name=\"resolve\",kind=\"blocking\",state=\"polling\"} 0
taskscope_tasks{id=\"1.2\",name=\"resolve\",kind=\"blocking\",state=\"closed\"} 1
# TYPE taskscope_task_open_poll_seconds gauge
# UNIT taskscope_task_open_poll_seconds seconds
# HELP taskscope_task_open_poll_seconds How long the longest poll has run that has not ended.
taskscope_task_open_poll_seconds{id=\"1.1\",name=\"fetch\",kind=\"spawn\"} 0.000000000
taskscope_task_open_poll_seconds{id=\"1.2\",name=\"resolve\",kind=\"blocking\"} 0.000000000
# TYPE taskscope_task_open_wait_seconds gauge
# UNIT taskscope_task_open_wait_seconds seconds
# HELP taskscope_task_open_wait_seconds How long the longest wait for a poll has lasted that has not ended.
taskscope_task_open_wait_seconds{id=\"1.1\",name=\"fetch\",kind=\"spawn\"} 0.000000000
taskscope_task_open_wait_seconds{id=\"1.2\",name=\"resolve\",kind=\"blocking\"} 0.000000000
# TYPE taskscope_task_waiting_seconds gauge
# UNIT taskscope_task_waiting_seconds seconds
# HELP taskscope_task_waiting_seconds How long all tasks that wait for a poll have waited for it.
taskscope_task_waiting_seconds{id=\"1.1\",name=\"fetch\",kind=\"spawn\"} 0.000000000
taskscope_task_waiting_seconds{id=\"1.2\",name=\"resolve\",kind=\"blocking\"} 0.000000000
# TYPE taskscope_resource_poll_ops_total counter
# HELP taskscope_resource_poll_ops_total Poll operations of resources by what they answered.
# TYPE taskscope_warnings gauge
# HELP taskscope_warnings Warnings about tasks.
taskscope_warnings{kind=\"self-wakes\"} 0
taskscope_warnings{kind=\"lost-waker\"} 1
taskscope_warnings{kind=\"never-yielded\"} 0
# TYPE taskscope_dropped_events_total counter
# HELP taskscope_dropped_events_total Events that the event buffer had no room for.
taskscope_dropped_events_total{kind=\"task\"} 0
taskscope_dropped_events_total{kind=\"resource\"} 0
taskscope_dropped_events_total{kind=\"op\"} 0
# TYPE taskscope_stream_lines_total counter
# HELP taskscope_stream_lines_total Lines of the stream.
taskscope_stream_lines_total 2
# TYPE taskscope_stream_moment_seconds gauge
# UNIT taskscope_stream_moment_seconds seconds
# HELP taskscope_stream_moment_seconds The moment of the last line, by the clock of the stream.
taskscope_stream_moment_seconds 0.000003000
# TYPE taskscope_build_info gauge
# HELP taskscope_build_info The program that made these numbers.
taskscope_build_info{version=\"0.1.0\"} 1
# TYPE taskscope_findings gauge
# HELP taskscope_findings How many tasks a finding is about.
taskscope_findings{id=\"1.1\",kind=\"lost-waker\",when=\"now\",place=\"spawn at script:2:1 name fetch\"} 1
# TYPE taskscope_held_up_seconds_total counter
# UNIT taskscope_held_up_seconds seconds
# HELP taskscope_held_up_seconds_total How long others waited while tasks of a place ran long.
# TYPE taskscope_waited_seconds_total counter
# UNIT taskscope_waited_seconds seconds
# HELP taskscope_waited_seconds_total How long tasks waited for a poll, by what for.
taskscope_waited_seconds_total{for=\"long-polls\"} 0.000000000
taskscope_waited_seconds_total{for=\"queue\"} 0.000000000
taskscope_waited_seconds_total{for=\"nobody\"} 0.000000000
# EOF
";

// That of examples/retention.script, in which a connection leaves.
pub(super) const LEAVING: &[u8] =
    b"{\"dropped\":[0,0,0],\"gone_ops\":[],\"gone_resources\":[],\"gone_tasks\":[],\"new_ops\":[],\"new_resources\":[],\"new_tasks\":[{\"id\":1099511627777,\"kind\":\"spawn\",\"loc\":[\"script\",3,1],\"name\":\"accept\"},{\"id\":1099511627778,\"kind\":\"spawn\",\"loc\":[\"script\",4,1],\"name\":\"connection\"}],\"now\":500,\"op_stats\":[],\"poll_counts\":[],\"resource_stats\":[],\"seq\":1,\"snapshot\":false,\"task_stats\":[{\"busy\":0,\"clones\":0,\"created\":0,\"dropped\":null,\"drops\":0,\"first_poll\":null,\"handles\":1,\"id\":1099511627777,\"last_ended\":null,\"last_started\":null,\"last_wake\":null,\"polling\":false,\"polls\":0,\"sched\":0,\"scheduled\":true,\"self_wakes\":0,\"wakes\":0},{\"busy\":30,\"clones\":0,\"created\":100,\"dropped\":200,\"drops\":0,\"first_poll\":150,\"handles\":1,\"id\":1099511627778,\"last_ended\":180,\"last_started\":150,\"last_wake\":null,\"polling\":false,\"polls\":1,\"sched\":50,\"scheduled\":false,\"self_wakes\":0,\"wakes\":0}],\"v\":2}\n{\"dropped\":[0,0,0],\"gone_ops\":[],\"gone_resources\":[],\"gone_tasks\":[],\"new_ops\":[],\"new_resources\":[],\"new_tasks\":[],\"now\":1199,\"op_stats\":[],\"poll_counts\":[],\"resource_stats\":[],\"seq\":2,\"snapshot\":false,\"task_stats\":[],\"v\":2}\n{\"dropped\":[0,0,0],\"gone_ops\":[],\"gone_resources\":[],\"gone_tasks\":[1099511627778],\"new_ops\":[],\"new_resources\":[],\"new_tasks\":[],\"now\":1200,\"op_stats\":[],\"poll_counts\":[],\"resource_stats\":[],\"seq\":3,\"snapshot\":false,\"task_stats\":[],\"v\":2}\n{\"dropped\":[0,0,0],\"gone_ops\":[],\"gone_resources\":[],\"gone_tasks\":[],\"new_ops\":[],\"new_resources\":[],\"new_tasks\":[{\"id\":1099511627777,\"kind\":\"spawn\",\"loc\":[\"script\",3,1],\"name\":\"accept\"}],\"now\":1300,\"op_stats\":[],\"poll_counts\":[],\"resource_stats\":[],\"seq\":4,\"snapshot\":true,\"task_stats\":[{\"busy\":0,\"clones\":0,\"created\":0,\"dropped\":null,\"drops\":0,\"first_poll\":null,\"handles\":1,\"id\":1099511627777,\"last_ended\":null,\"last_started\":null,\"last_wake\":null,\"polling\":false,\"polls\":0,\"sched\":0,\"scheduled\":true,\"self_wakes\":0,\"wakes\":0}],\"v\":2}\n";

pub(super) const LEAVING_NUMBERS: &str = "# TYPE taskscope_task_polls_total counter
# HELP taskscope_task_polls_total Polls of tasks that have started.
taskscope_task_polls_total{name=\"connection\",kind=\"spawn\"} 1
taskscope_task_polls_total{name=\"accept\",kind=\"spawn\"} 0
# TYPE taskscope_task_busy_seconds_total counter
# UNIT taskscope_task_busy_seconds seconds
# HELP taskscope_task_busy_seconds_total How long polls of tasks ran that have ended.
taskscope_task_busy_seconds_total{name=\"connection\",kind=\"spawn\"} 0.000000030
taskscope_task_busy_seconds_total{name=\"accept\",kind=\"spawn\"} 0.000000000
# TYPE taskscope_task_scheduled_seconds_total counter
# UNIT taskscope_task_scheduled_seconds seconds
# HELP taskscope_task_scheduled_seconds_total How long tasks were scheduled until polls of them started.
taskscope_task_scheduled_seconds_total{name=\"connection\",kind=\"spawn\"} 0.000000050
taskscope_task_scheduled_seconds_total{name=\"accept\",kind=\"spawn\"} 0.000000000
# TYPE taskscope_task_wakes_total counter
# HELP taskscope_task_wakes_total Wakes of tasks.
taskscope_task_wakes_total{name=\"connection\",kind=\"spawn\"} 0
taskscope_task_wakes_total{name=\"accept\",kind=\"spawn\"} 0
# TYPE taskscope_task_self_wakes_total counter
# HELP taskscope_task_self_wakes_total Wakes of tasks that came from within the task.
taskscope_task_self_wakes_total{name=\"connection\",kind=\"spawn\"} 0
taskscope_task_self_wakes_total{name=\"accept\",kind=\"spawn\"} 0
# TYPE taskscope_task_waker_clones_total counter
# HELP taskscope_task_waker_clones_total Clones of wakers of tasks.
taskscope_task_waker_clones_total{name=\"connection\",kind=\"spawn\"} 0
taskscope_task_waker_clones_total{name=\"accept\",kind=\"spawn\"} 0
# TYPE taskscope_task_waker_drops_total counter
# HELP taskscope_task_waker_drops_total Drops of wakers of tasks.
taskscope_task_waker_drops_total{name=\"connection\",kind=\"spawn\"} 0
taskscope_task_waker_drops_total{name=\"accept\",kind=\"spawn\"} 0
# TYPE taskscope_tasks gauge
# HELP taskscope_tasks Tasks by the state that they are in.
taskscope_tasks{name=\"connection\",kind=\"spawn\",state=\"idle\"} 0
taskscope_tasks{name=\"connection\",kind=\"spawn\",state=\"scheduled\"} 0
taskscope_tasks{name=\"connection\",kind=\"spawn\",state=\"polling\"} 0
taskscope_tasks{name=\"connection\",kind=\"spawn\",state=\"closed\"} 0
taskscope_tasks{name=\"accept\",kind=\"spawn\",state=\"idle\"} 0
taskscope_tasks{name=\"accept\",kind=\"spawn\",state=\"scheduled\"} 1
taskscope_tasks{name=\"accept\",kind=\"spawn\",state=\"polling\"} 0
taskscope_tasks{name=\"accept\",kind=\"spawn\",state=\"closed\"} 0
# TYPE taskscope_task_open_poll_seconds gauge
# UNIT taskscope_task_open_poll_seconds seconds
# HELP taskscope_task_open_poll_seconds How long the longest poll has run that has not ended.
taskscope_task_open_poll_seconds{name=\"connection\",kind=\"spawn\"} 0.000000000
taskscope_task_open_poll_seconds{name=\"accept\",kind=\"spawn\"} 0.000000000
# TYPE taskscope_task_open_wait_seconds gauge
# UNIT taskscope_task_open_wait_seconds seconds
# HELP taskscope_task_open_wait_seconds How long the longest wait for a poll has lasted that has not ended.
taskscope_task_open_wait_seconds{name=\"connection\",kind=\"spawn\"} 0.000000000
taskscope_task_open_wait_seconds{name=\"accept\",kind=\"spawn\"} 0.000001300
# TYPE taskscope_task_waiting_seconds gauge
# UNIT taskscope_task_waiting_seconds seconds
# HELP taskscope_task_waiting_seconds How long all tasks that wait for a poll have waited for it.
taskscope_task_waiting_seconds{name=\"connection\",kind=\"spawn\"} 0.000000000
taskscope_task_waiting_seconds{name=\"accept\",kind=\"spawn\"} 0.000001300
# TYPE taskscope_resource_poll_ops_total counter
# HELP taskscope_resource_poll_ops_total Poll operations of resources by what they answered.
# TYPE taskscope_warnings gauge
# HELP taskscope_warnings Warnings about tasks.
taskscope_warnings{kind=\"self-wakes\"} 0
taskscope_warnings{kind=\"lost-waker\"} 0
taskscope_warnings{kind=\"never-yielded\"} 0
# TYPE taskscope_dropped_events_total counter
# HELP taskscope_dropped_events_total Events that the event buffer had no room for.
taskscope_dropped_events_total{kind=\"task\"} 0
taskscope_dropped_events_total{kind=\"resource\"} 0
taskscope_dropped_events_total{kind=\"op\"} 0
# TYPE taskscope_stream_lines_total counter
# HELP taskscope_stream_lines_total Lines of the stream.
taskscope_stream_lines_total 4
# TYPE taskscope_stream_moment_seconds gauge
# UNIT taskscope_stream_moment_seconds seconds
# HELP taskscope_stream_moment_seconds The moment of the last line, by the clock of the stream.
taskscope_stream_moment_seconds 0.000001300
# TYPE taskscope_build_info gauge
# HELP taskscope_build_info The program that made these numbers.
taskscope_build_info{version=\"0.1.0\"} 1
# TYPE taskscope_findings gauge
# HELP taskscope_findings How many tasks a finding is about.
# TYPE taskscope_held_up_seconds_total counter
# UNIT taskscope_held_up_seconds seconds
# HELP taskscope_held_up_seconds_total How long others waited while tasks of a place ran long.
# TYPE taskscope_waited_seconds_total counter
# UNIT taskscope_waited_seconds seconds
# HELP taskscope_waited_seconds_total How long tasks waited for a poll, by what for.
taskscope_waited_seconds_total{for=\"long-polls\"} 0.000000000
taskscope_waited_seconds_total{for=\"queue\"} 0.000000000
taskscope_waited_seconds_total{for=\"nobody\"} 0.000000000
# EOF
";

// The first name that came stands by itself.
pub(super) const LEAVING_FEW: &str = "# TYPE taskscope_task_polls_total counter
# HELP taskscope_task_polls_total Polls of tasks that have started.
taskscope_task_polls_total{name=\"(others)\",kind=\"-\"} 1
taskscope_task_polls_total{name=\"accept\",kind=\"spawn\"} 0
# TYPE taskscope_task_busy_seconds_total counter
# UNIT taskscope_task_busy_seconds seconds
# HELP taskscope_task_busy_seconds_total How long polls of tasks ran that have ended.
taskscope_task_busy_seconds_total{name=\"(others)\",kind=\"-\"} 0.000000030
taskscope_task_busy_seconds_total{name=\"accept\",kind=\"spawn\"} 0.000000000
# TYPE taskscope_task_scheduled_seconds_total counter
# UNIT taskscope_task_scheduled_seconds seconds
# HELP taskscope_task_scheduled_seconds_total How long tasks were scheduled until polls of them started.
taskscope_task_scheduled_seconds_total{name=\"(others)\",kind=\"-\"} 0.000000050
taskscope_task_scheduled_seconds_total{name=\"accept\",kind=\"spawn\"} 0.000000000
# TYPE taskscope_task_wakes_total counter
# HELP taskscope_task_wakes_total Wakes of tasks.
taskscope_task_wakes_total{name=\"(others)\",kind=\"-\"} 0
taskscope_task_wakes_total{name=\"accept\",kind=\"spawn\"} 0
# TYPE taskscope_task_self_wakes_total counter
# HELP taskscope_task_self_wakes_total Wakes of tasks that came from within the task.
taskscope_task_self_wakes_total{name=\"(others)\",kind=\"-\"} 0
taskscope_task_self_wakes_total{name=\"accept\",kind=\"spawn\"} 0
# TYPE taskscope_task_waker_clones_total counter
# HELP taskscope_task_waker_clones_total Clones of wakers of tasks.
taskscope_task_waker_clones_total{name=\"(others)\",kind=\"-\"} 0
taskscope_task_waker_clones_total{name=\"accept\",kind=\"spawn\"} 0
# TYPE taskscope_task_waker_drops_total counter
# HELP taskscope_task_waker_drops_total Drops of wakers of tasks.
taskscope_task_waker_drops_total{name=\"(others)\",kind=\"-\"} 0
taskscope_task_waker_drops_total{name=\"accept\",kind=\"spawn\"} 0
# TYPE taskscope_tasks gauge
# HELP taskscope_tasks Tasks by the state that they are in.
taskscope_tasks{name=\"(others)\",kind=\"-\",state=\"idle\"} 0
taskscope_tasks{name=\"(others)\",kind=\"-\",state=\"scheduled\"} 0
taskscope_tasks{name=\"(others)\",kind=\"-\",state=\"polling\"} 0
taskscope_tasks{name=\"(others)\",kind=\"-\",state=\"closed\"} 0
taskscope_tasks{name=\"accept\",kind=\"spawn\",state=\"idle\"} 0
taskscope_tasks{name=\"accept\",kind=\"spawn\",state=\"scheduled\"} 1
taskscope_tasks{name=\"accept\",kind=\"spawn\",state=\"polling\"} 0
taskscope_tasks{name=\"accept\",kind=\"spawn\",state=\"closed\"} 0
# TYPE taskscope_task_open_poll_seconds gauge
# UNIT taskscope_task_open_poll_seconds seconds
# HELP taskscope_task_open_poll_seconds How long the longest poll has run that has not ended.
taskscope_task_open_poll_seconds{name=\"(others)\",kind=\"-\"} 0.000000000
taskscope_task_open_poll_seconds{name=\"accept\",kind=\"spawn\"} 0.000000000
# TYPE taskscope_task_open_wait_seconds gauge
# UNIT taskscope_task_open_wait_seconds seconds
# HELP taskscope_task_open_wait_seconds How long the longest wait for a poll has lasted that has not ended.
taskscope_task_open_wait_seconds{name=\"(others)\",kind=\"-\"} 0.000000000
taskscope_task_open_wait_seconds{name=\"accept\",kind=\"spawn\"} 0.000001300
# TYPE taskscope_task_waiting_seconds gauge
# UNIT taskscope_task_waiting_seconds seconds
# HELP taskscope_task_waiting_seconds How long all tasks that wait for a poll have waited for it.
taskscope_task_waiting_seconds{name=\"(others)\",kind=\"-\"} 0.000000000
taskscope_task_waiting_seconds{name=\"accept\",kind=\"spawn\"} 0.000001300
# TYPE taskscope_resource_poll_ops_total counter
# HELP taskscope_resource_poll_ops_total Poll operations of resources by what they answered.
# TYPE taskscope_warnings gauge
# HELP taskscope_warnings Warnings about tasks.
taskscope_warnings{kind=\"self-wakes\"} 0
taskscope_warnings{kind=\"lost-waker\"} 0
taskscope_warnings{kind=\"never-yielded\"} 0
# TYPE taskscope_dropped_events_total counter
# HELP taskscope_dropped_events_total Events that the event buffer had no room for.
taskscope_dropped_events_total{kind=\"task\"} 0
taskscope_dropped_events_total{kind=\"resource\"} 0
taskscope_dropped_events_total{kind=\"op\"} 0
# TYPE taskscope_stream_lines_total counter
# HELP taskscope_stream_lines_total Lines of the stream.
taskscope_stream_lines_total 4
# TYPE taskscope_stream_moment_seconds gauge
# UNIT taskscope_stream_moment_seconds seconds
# HELP taskscope_stream_moment_seconds The moment of the last line, by the clock of the stream.
taskscope_stream_moment_seconds 0.000001300
# TYPE taskscope_build_info gauge
# HELP taskscope_build_info The program that made these numbers.
taskscope_build_info{version=\"0.1.0\"} 1
# TYPE taskscope_other_tasks_total counter
# HELP taskscope_other_tasks_total Tasks that came and have no series of their own labels.
taskscope_other_tasks_total 1
# TYPE taskscope_findings gauge
# HELP taskscope_findings How many tasks a finding is about.
# TYPE taskscope_held_up_seconds_total counter
# UNIT taskscope_held_up_seconds seconds
# HELP taskscope_held_up_seconds_total How long others waited while tasks of a place ran long.
# TYPE taskscope_waited_seconds_total counter
# UNIT taskscope_waited_seconds seconds
# HELP taskscope_waited_seconds_total How long tasks waited for a poll, by what for.
taskscope_waited_seconds_total{for=\"long-polls\"} 0.000000000
taskscope_waited_seconds_total{for=\"queue\"} 0.000000000
taskscope_waited_seconds_total{for=\"nobody\"} 0.000000000
# EOF
";

pub(super) const LEAVING_BY_ID: &str = "# TYPE taskscope_task_polls_total counter
# HELP taskscope_task_polls_total Polls of tasks that have started.
taskscope_task_polls_total{id=\"1.1\",name=\"accept\",kind=\"spawn\"} 0
# TYPE taskscope_task_busy_seconds_total counter
# UNIT taskscope_task_busy_seconds seconds
# HELP taskscope_task_busy_seconds_total How long polls of tasks ran that have ended.
taskscope_task_busy_seconds_total{id=\"1.1\",name=\"accept\",kind=\"spawn\"} 0.000000000
# TYPE taskscope_task_scheduled_seconds_total counter
# UNIT taskscope_task_scheduled_seconds seconds
# HELP taskscope_task_scheduled_seconds_total How long tasks were scheduled until polls of them started.
taskscope_task_scheduled_seconds_total{id=\"1.1\",name=\"accept\",kind=\"spawn\"} 0.000000000
# TYPE taskscope_task_wakes_total counter
# HELP taskscope_task_wakes_total Wakes of tasks.
taskscope_task_wakes_total{id=\"1.1\",name=\"accept\",kind=\"spawn\"} 0
# TYPE taskscope_task_self_wakes_total counter
# HELP taskscope_task_self_wakes_total Wakes of tasks that came from within the task.
taskscope_task_self_wakes_total{id=\"1.1\",name=\"accept\",kind=\"spawn\"} 0
# TYPE taskscope_task_waker_clones_total counter
# HELP taskscope_task_waker_clones_total Clones of wakers of tasks.
taskscope_task_waker_clones_total{id=\"1.1\",name=\"accept\",kind=\"spawn\"} 0
# TYPE taskscope_task_waker_drops_total counter
# HELP taskscope_task_waker_drops_total Drops of wakers of tasks.
taskscope_task_waker_drops_total{id=\"1.1\",name=\"accept\",kind=\"spawn\"} 0
# TYPE taskscope_tasks gauge
# HELP taskscope_tasks Tasks by the state that they are in.
taskscope_tasks{id=\"1.1\",name=\"accept\",kind=\"spawn\",state=\"idle\"} 0
taskscope_tasks{id=\"1.1\",name=\"accept\",kind=\"spawn\",state=\"scheduled\"} 1
taskscope_tasks{id=\"1.1\",name=\"accept\",kind=\"spawn\",state=\"polling\"} 0
taskscope_tasks{id=\"1.1\",name=\"accept\",kind=\"spawn\",state=\"closed\"} 0
# TYPE taskscope_task_open_poll_seconds gauge
# UNIT taskscope_task_open_poll_seconds seconds
# HELP taskscope_task_open_poll_seconds How long the longest poll has run that has not ended.
taskscope_task_open_poll_seconds{id=\"1.1\",name=\"accept\",kind=\"spawn\"} 0.000000000
# TYPE taskscope_task_open_wait_seconds gauge
# UNIT taskscope_task_open_wait_seconds seconds
# HELP taskscope_task_open_wait_seconds How long the longest wait for a poll has lasted that has not ended.
taskscope_task_open_wait_seconds{id=\"1.1\",name=\"accept\",kind=\"spawn\"} 0.000001300
# TYPE taskscope_task_waiting_seconds gauge
# UNIT taskscope_task_waiting_seconds seconds
# HELP taskscope_task_waiting_seconds How long all tasks that wait for a poll have waited for it.
taskscope_task_waiting_seconds{id=\"1.1\",name=\"accept\",kind=\"spawn\"} 0.000001300
# TYPE taskscope_resource_poll_ops_total counter
# HELP taskscope_resource_poll_ops_total Poll operations of resources by what they answered.
# TYPE taskscope_warnings gauge
# HELP taskscope_warnings Warnings about tasks.
taskscope_warnings{kind=\"self-wakes\"} 0
taskscope_warnings{kind=\"lost-waker\"} 0
taskscope_warnings{kind=\"never-yielded\"} 0
# TYPE taskscope_dropped_events_total counter
# HELP taskscope_dropped_events_total Events that the event buffer had no room for.
taskscope_dropped_events_total{kind=\"task\"} 0
taskscope_dropped_events_total{kind=\"resource\"} 0
taskscope_dropped_events_total{kind=\"op\"} 0
# TYPE taskscope_stream_lines_total counter
# HELP taskscope_stream_lines_total Lines of the stream.
taskscope_stream_lines_total 4
# TYPE taskscope_stream_moment_seconds gauge
# UNIT taskscope_stream_moment_seconds seconds
# HELP taskscope_stream_moment_seconds The moment of the last line, by the clock of the stream.
taskscope_stream_moment_seconds 0.000001300
# TYPE taskscope_build_info gauge
# HELP taskscope_build_info The program that made these numbers.
taskscope_build_info{version=\"0.1.0\"} 1
# TYPE taskscope_findings gauge
# HELP taskscope_findings How many tasks a finding is about.
# TYPE taskscope_held_up_seconds_total counter
# UNIT taskscope_held_up_seconds seconds
# HELP taskscope_held_up_seconds_total How long others waited while tasks of a place ran long.
# TYPE taskscope_waited_seconds_total counter
# UNIT taskscope_waited_seconds seconds
# HELP taskscope_waited_seconds_total How long tasks waited for a poll, by what for.
taskscope_waited_seconds_total{for=\"long-polls\"} 0.000000000
taskscope_waited_seconds_total{for=\"queue\"} 0.000000000
taskscope_waited_seconds_total{for=\"nobody\"} 0.000000000
# EOF
";

// Two tasks of a name that has to be escaped, whose sums are too great, and two resources of a type, in one line.
pub(super) const FULL: &[u8] =
    b"{\"dropped\":[1,2,3],\"new_ops\":[],\"new_resources\":[{\"attrs\":[],\"id\":1099511627777,\"kind\":\"Sync\",\"loc\":[\"script\",1,1],\"parent\":null,\"type\":\"S\"},{\"attrs\":[],\"id\":1099511627778,\"kind\":\"Sync\",\"loc\":[\"script\",1,1],\"parent\":null,\"type\":\"S\"}],\"new_tasks\":[{\"id\":1099511627777,\"kind\":\"spawn\",\"loc\":[\"script\",1,1],\"name\":\"a\\\\b\\\"c\"},{\"id\":1099511627778,\"kind\":\"spawn\",\"loc\":[\"script\",1,1],\"name\":\"a\\\\b\\\"c\"}],\"now\":50,\"op_stats\":[],\"poll_counts\":[[1099511627777,1,2],[1099511627778,3,4]],\"resource_stats\":[{\"attrs\":[],\"created\":20,\"dropped\":null,\"handles\":2,\"id\":1099511627777},{\"attrs\":[],\"created\":20,\"dropped\":null,\"handles\":2,\"id\":1099511627778}],\"seq\":1,\"snapshot\":false,\"task_stats\":[{\"busy\":18446744073709551615,\"clones\":0,\"created\":10,\"dropped\":null,\"drops\":0,\"first_poll\":null,\"handles\":1,\"id\":1099511627777,\"last_ended\":null,\"last_started\":null,\"last_wake\":null,\"polling\":false,\"polls\":0,\"sched\":1000000001,\"scheduled\":true,\"self_wakes\":0,\"wakes\":0},{\"busy\":18446744073709551615,\"clones\":0,\"created\":10,\"dropped\":null,\"drops\":0,\"first_poll\":10,\"handles\":1,\"id\":1099511627778,\"last_ended\":null,\"last_started\":10,\"last_wake\":null,\"polling\":true,\"polls\":1,\"sched\":999999999,\"scheduled\":false,\"self_wakes\":0,\"wakes\":0}],\"v\":1}\n";

pub(super) const FULL_NUMBERS: &str = "# TYPE taskscope_task_polls_total counter
# HELP taskscope_task_polls_total Polls of tasks that have started.
taskscope_task_polls_total{name=\"a\\\\b\\\"c\",kind=\"spawn\"} 1
# TYPE taskscope_task_busy_seconds_total counter
# UNIT taskscope_task_busy_seconds seconds
# HELP taskscope_task_busy_seconds_total How long polls of tasks ran that have ended.
taskscope_task_busy_seconds_total{name=\"a\\\\b\\\"c\",kind=\"spawn\"} 18446744073.709551615
# TYPE taskscope_task_scheduled_seconds_total counter
# UNIT taskscope_task_scheduled_seconds seconds
# HELP taskscope_task_scheduled_seconds_total How long tasks were scheduled until polls of them started.
taskscope_task_scheduled_seconds_total{name=\"a\\\\b\\\"c\",kind=\"spawn\"} 2.000000000
# TYPE taskscope_task_wakes_total counter
# HELP taskscope_task_wakes_total Wakes of tasks.
taskscope_task_wakes_total{name=\"a\\\\b\\\"c\",kind=\"spawn\"} 0
# TYPE taskscope_task_self_wakes_total counter
# HELP taskscope_task_self_wakes_total Wakes of tasks that came from within the task.
taskscope_task_self_wakes_total{name=\"a\\\\b\\\"c\",kind=\"spawn\"} 0
# TYPE taskscope_task_waker_clones_total counter
# HELP taskscope_task_waker_clones_total Clones of wakers of tasks.
taskscope_task_waker_clones_total{name=\"a\\\\b\\\"c\",kind=\"spawn\"} 0
# TYPE taskscope_task_waker_drops_total counter
# HELP taskscope_task_waker_drops_total Drops of wakers of tasks.
taskscope_task_waker_drops_total{name=\"a\\\\b\\\"c\",kind=\"spawn\"} 0
# TYPE taskscope_tasks gauge
# HELP taskscope_tasks Tasks by the state that they are in.
taskscope_tasks{name=\"a\\\\b\\\"c\",kind=\"spawn\",state=\"idle\"} 0
taskscope_tasks{name=\"a\\\\b\\\"c\",kind=\"spawn\",state=\"scheduled\"} 1
taskscope_tasks{name=\"a\\\\b\\\"c\",kind=\"spawn\",state=\"polling\"} 1
taskscope_tasks{name=\"a\\\\b\\\"c\",kind=\"spawn\",state=\"closed\"} 0
# TYPE taskscope_task_open_poll_seconds gauge
# UNIT taskscope_task_open_poll_seconds seconds
# HELP taskscope_task_open_poll_seconds How long the longest poll has run that has not ended.
taskscope_task_open_poll_seconds{name=\"a\\\\b\\\"c\",kind=\"spawn\"} 0.000000040
# TYPE taskscope_task_open_wait_seconds gauge
# UNIT taskscope_task_open_wait_seconds seconds
# HELP taskscope_task_open_wait_seconds How long the longest wait for a poll has lasted that has not ended.
taskscope_task_open_wait_seconds{name=\"a\\\\b\\\"c\",kind=\"spawn\"} 0.000000040
# TYPE taskscope_task_waiting_seconds gauge
# UNIT taskscope_task_waiting_seconds seconds
# HELP taskscope_task_waiting_seconds How long all tasks that wait for a poll have waited for it.
taskscope_task_waiting_seconds{name=\"a\\\\b\\\"c\",kind=\"spawn\"} 0.000000040
# TYPE taskscope_resource_poll_ops_total counter
# HELP taskscope_resource_poll_ops_total Poll operations of resources by what they answered.
taskscope_resource_poll_ops_total{type=\"S\",readiness=\"ready\"} 4
taskscope_resource_poll_ops_total{type=\"S\",readiness=\"pending\"} 6
# TYPE taskscope_warnings gauge
# HELP taskscope_warnings Warnings about tasks.
taskscope_warnings{kind=\"self-wakes\"} 0
taskscope_warnings{kind=\"lost-waker\"} 0
taskscope_warnings{kind=\"never-yielded\"} 0
# TYPE taskscope_dropped_events_total counter
# HELP taskscope_dropped_events_total Events that the event buffer had no room for.
taskscope_dropped_events_total{kind=\"task\"} 1
taskscope_dropped_events_total{kind=\"resource\"} 2
taskscope_dropped_events_total{kind=\"op\"} 3
# TYPE taskscope_stream_lines_total counter
# HELP taskscope_stream_lines_total Lines of the stream.
taskscope_stream_lines_total 1
# TYPE taskscope_stream_moment_seconds gauge
# UNIT taskscope_stream_moment_seconds seconds
# HELP taskscope_stream_moment_seconds The moment of the last line, by the clock of the stream.
taskscope_stream_moment_seconds 0.000000050
# TYPE taskscope_build_info gauge
# HELP taskscope_build_info The program that made these numbers.
taskscope_build_info{version=\"0.1.0\"} 1
# TYPE taskscope_findings gauge
# HELP taskscope_findings How many tasks a finding is about.
# TYPE taskscope_held_up_seconds_total counter
# UNIT taskscope_held_up_seconds seconds
# HELP taskscope_held_up_seconds_total How long others waited while tasks of a place ran long.
# TYPE taskscope_waited_seconds_total counter
# UNIT taskscope_waited_seconds seconds
# HELP taskscope_waited_seconds_total How long tasks waited for a poll, by what for.
taskscope_waited_seconds_total{for=\"long-polls\"} 0.000000000
taskscope_waited_seconds_total{for=\"queue\"} 0.000000000
taskscope_waited_seconds_total{for=\"nobody\"} 0.000000000
# EOF
";

// A report holds up `accept`, then nobody runs, and then another report does.
pub(super) const HELD: &[u8] =
    b"{\"dropped\":[0,0,0],\"new_ops\":[],\"new_resources\":[],\"new_tasks\":[{\"id\":1099511627777,\"kind\":\"spawn\",\"loc\":[\"script\",1,1],\"name\":\"accept\"},{\"id\":1099511627778,\"kind\":\"spawn\",\"loc\":[\"script\",2,1],\"name\":\"report-1\"},{\"id\":1099511627779,\"kind\":\"spawn\",\"loc\":[\"script\",3,1],\"name\":\"report-2\"}],\"now\":1000,\"op_stats\":[],\"poll_counts\":[],\"resource_stats\":[],\"seq\":1,\"snapshot\":false,\"task_stats\":[{\"busy\":1000,\"clones\":1,\"created\":0,\"dropped\":null,\"drops\":0,\"first_poll\":0,\"handles\":2,\"id\":1099511627777,\"last_ended\":1000,\"last_started\":0,\"last_wake\":null,\"polling\":false,\"polls\":1,\"sched\":0,\"scheduled\":false,\"self_wakes\":0,\"wakes\":0},{\"busy\":0,\"clones\":0,\"created\":0,\"dropped\":null,\"drops\":0,\"first_poll\":null,\"handles\":1,\"id\":1099511627778,\"last_ended\":null,\"last_started\":null,\"last_wake\":null,\"polling\":false,\"polls\":0,\"sched\":0,\"scheduled\":true,\"self_wakes\":0,\"wakes\":0},{\"busy\":0,\"clones\":0,\"created\":0,\"dropped\":null,\"drops\":0,\"first_poll\":null,\"handles\":1,\"id\":1099511627779,\"last_ended\":null,\"last_started\":null,\"last_wake\":null,\"polling\":false,\"polls\":0,\"sched\":0,\"scheduled\":true,\"self_wakes\":0,\"wakes\":0}],\"v\":1}\n{\"dropped\":[0,0,0],\"new_ops\":[],\"new_resources\":[],\"new_tasks\":[],\"now\":200002000,\"op_stats\":[],\"poll_counts\":[],\"resource_stats\":[],\"seq\":2,\"snapshot\":false,\"task_stats\":[{\"busy\":1000,\"clones\":1,\"created\":0,\"dropped\":null,\"drops\":0,\"first_poll\":0,\"handles\":2,\"id\":1099511627777,\"last_ended\":1000,\"last_started\":0,\"last_wake\":10000,\"polling\":false,\"polls\":1,\"sched\":0,\"scheduled\":true,\"self_wakes\":0,\"wakes\":1},{\"busy\":0,\"clones\":0,\"created\":0,\"dropped\":null,\"drops\":0,\"first_poll\":2000,\"handles\":1,\"id\":1099511627778,\"last_ended\":null,\"last_started\":2000,\"last_wake\":null,\"polling\":true,\"polls\":1,\"sched\":2000,\"scheduled\":false,\"self_wakes\":0,\"wakes\":0}],\"v\":1}\n{\"dropped\":[0,0,0],\"new_ops\":[],\"new_resources\":[],\"new_tasks\":[],\"now\":400001000,\"op_stats\":[],\"poll_counts\":[],\"resource_stats\":[],\"seq\":3,\"snapshot\":false,\"task_stats\":[{\"busy\":2000,\"clones\":1,\"created\":0,\"dropped\":null,\"drops\":0,\"first_poll\":0,\"handles\":2,\"id\":1099511627777,\"last_ended\":300001000,\"last_started\":300000000,\"last_wake\":400000000,\"polling\":false,\"polls\":2,\"sched\":299990000,\"scheduled\":true,\"self_wakes\":0,\"wakes\":2},{\"busy\":299998000,\"clones\":0,\"created\":0,\"dropped\":null,\"drops\":0,\"first_poll\":2000,\"handles\":1,\"id\":1099511627778,\"last_ended\":300000000,\"last_started\":2000,\"last_wake\":null,\"polling\":false,\"polls\":1,\"sched\":2000,\"scheduled\":false,\"self_wakes\":0,\"wakes\":0}],\"v\":1}\n{\"dropped\":[0,0,0],\"new_ops\":[],\"new_resources\":[],\"new_tasks\":[],\"now\":600001000,\"op_stats\":[],\"poll_counts\":[],\"resource_stats\":[],\"seq\":4,\"snapshot\":false,\"task_stats\":[],\"v\":1}\n{\"dropped\":[0,0,0],\"new_ops\":[],\"new_resources\":[],\"new_tasks\":[],\"now\":800001000,\"op_stats\":[],\"poll_counts\":[],\"resource_stats\":[],\"seq\":5,\"snapshot\":false,\"task_stats\":[{\"busy\":0,\"clones\":0,\"created\":0,\"dropped\":null,\"drops\":0,\"first_poll\":600001000,\"handles\":1,\"id\":1099511627779,\"last_ended\":null,\"last_started\":600001000,\"last_wake\":null,\"polling\":true,\"polls\":1,\"sched\":600001000,\"scheduled\":false,\"self_wakes\":0,\"wakes\":0}],\"v\":1}\n";

// What their numbers end with.
pub(super) const HELD_END: &str = "# TYPE taskscope_findings gauge
# HELP taskscope_findings How many tasks a finding is about.
taskscope_findings{kind=\"holds-up\",when=\"now\",place=\"spawn at script:3:1 name report-#\"} 1
taskscope_findings{kind=\"lost-waker\",when=\"now\",place=\"spawn at script:2:1 name report-#\"} 1
taskscope_findings{kind=\"holds-up\",when=\"earlier\",place=\"spawn at script:2:1 name report-#\"} 1
taskscope_findings{kind=\"nobody-ran\",when=\"earlier\",place=\"\"} 1
# TYPE taskscope_held_up_seconds_total counter
# UNIT taskscope_held_up_seconds seconds
# HELP taskscope_held_up_seconds_total How long others waited while tasks of a place ran long.
taskscope_held_up_seconds_total{place=\"spawn at script:1:1 name accept\"} 0.000000000
taskscope_held_up_seconds_total{place=\"spawn at script:2:1 name report-#\"} 0.599987999
taskscope_held_up_seconds_total{place=\"spawn at script:3:1 name report-#\"} 0.200000000
# TYPE taskscope_waited_seconds_total counter
# UNIT taskscope_waited_seconds seconds
# HELP taskscope_waited_seconds_total How long tasks waited for a poll, by what for.
taskscope_waited_seconds_total{for=\"long-polls\"} 0.799987999
taskscope_waited_seconds_total{for=\"queue\"} 0.000001000
taskscope_waited_seconds_total{for=\"nobody\"} 0.500003001
# EOF
";

pub(super) const HELD_END_BY_ID: &str = "# TYPE taskscope_findings gauge
# HELP taskscope_findings How many tasks a finding is about.
taskscope_findings{id=\"1.3\",kind=\"holds-up\",when=\"now\",place=\"spawn at script:3:1 name report-#\"} 1
taskscope_findings{id=\"1.2\",kind=\"lost-waker\",when=\"now\",place=\"spawn at script:2:1 name report-#\"} 1
taskscope_findings{id=\"1.2\",kind=\"holds-up\",when=\"earlier\",place=\"spawn at script:2:1 name report-#\"} 1
taskscope_findings{kind=\"nobody-ran\",when=\"earlier\",place=\"\"} 1
# TYPE taskscope_held_up_seconds_total counter
# UNIT taskscope_held_up_seconds seconds
# HELP taskscope_held_up_seconds_total How long others waited while tasks of a place ran long.
taskscope_held_up_seconds_total{place=\"spawn at script:1:1 name accept\"} 0.000000000
taskscope_held_up_seconds_total{place=\"spawn at script:2:1 name report-#\"} 0.599987999
taskscope_held_up_seconds_total{place=\"spawn at script:3:1 name report-#\"} 0.200000000
# TYPE taskscope_waited_seconds_total counter
# UNIT taskscope_waited_seconds seconds
# HELP taskscope_waited_seconds_total How long tasks waited for a poll, by what for.
taskscope_waited_seconds_total{for=\"long-polls\"} 0.799987999
taskscope_waited_seconds_total{for=\"queue\"} 0.000001000
taskscope_waited_seconds_total{for=\"nobody\"} 0.500003001
# EOF
";

// Two tasks of one place, of which the first leaves, and a resource that leaves; with histograms of polls, and of the second task's waits.
pub(super) const TIMED: &[u8] =
    b"{\"dropped\":[0,0,0],\"gone_ops\":[],\"gone_resources\":[],\"gone_tasks\":[],\"new_ops\":[],\"new_resources\":[{\"attrs\":[],\"id\":1099511627777,\"kind\":\"Sync\",\"loc\":[\"a.rs\",2,1],\"parent\":null,\"type\":\"Mutex\"}],\"new_tasks\":[{\"id\":1099511627777,\"kind\":\"spawn\",\"loc\":[\"a.rs\",7,1],\"name\":\"worker-1\"},{\"id\":1099511627778,\"kind\":\"spawn\",\"loc\":[\"a.rs\",7,1],\"name\":\"worker-2\"}],\"now\":1000,\"op_stats\":[],\"poll_counts\":[[1099511627777,3,4]],\"resource_stats\":[{\"attrs\":[],\"created\":1,\"dropped\":null,\"handles\":1,\"id\":1099511627777}],\"seq\":1,\"snapshot\":false,\"task_stats\":[{\"busy\":20000,\"clones\":0,\"created\":100,\"dropped\":null,\"drops\":0,\"first_poll\":100,\"handles\":1,\"id\":1099511627777,\"last_ended\":20100,\"last_started\":100,\"last_wake\":null,\"polling\":false,\"polls\":1,\"sched\":0,\"scheduled\":false,\"self_wakes\":0,\"wakes\":0},{\"busy\":0,\"clones\":0,\"created\":100,\"dropped\":null,\"drops\":0,\"first_poll\":null,\"handles\":1,\"id\":1099511627778,\"last_ended\":null,\"last_started\":null,\"last_wake\":null,\"polling\":false,\"polls\":0,\"sched\":0,\"scheduled\":true,\"self_wakes\":0,\"wakes\":0}],\"task_times\":[{\"counts\":[[1,1]],\"id\":1099511627777,\"longest\":20000}],\"v\":3}\n{\"dropped\":[0,0,0],\"gone_ops\":[],\"gone_resources\":[],\"gone_tasks\":[],\"new_ops\":[],\"new_resources\":[],\"new_tasks\":[],\"now\":200000000,\"op_stats\":[],\"poll_counts\":[],\"resource_stats\":[],\"seq\":2,\"snapshot\":false,\"task_stats\":[{\"busy\":120020000,\"clones\":0,\"created\":100,\"dropped\":120030000,\"drops\":0,\"first_poll\":100,\"handles\":1,\"id\":1099511627777,\"last_ended\":120030000,\"last_started\":30000,\"last_wake\":null,\"polling\":false,\"polls\":2,\"sched\":0,\"scheduled\":false,\"self_wakes\":0,\"wakes\":0},{\"busy\":16384,\"clones\":0,\"created\":100,\"dropped\":null,\"drops\":0,\"first_poll\":70100,\"handles\":1,\"id\":1099511627778,\"last_ended\":86484,\"last_started\":70100,\"last_wake\":null,\"polling\":false,\"polls\":1,\"sched\":[70000,70000,70000],\"scheduled\":false,\"self_wakes\":0,\"wakes\":0}],\"task_times\":[{\"counts\":[[1,1],[13,1]],\"id\":1099511627777,\"longest\":120000000},{\"counts\":[[1,1]],\"id\":1099511627778,\"longest\":16384,\"longest_wait\":70000,\"waits\":[[3,1]]}],\"v\":4}\n{\"dropped\":[0,0,0],\"gone_ops\":[],\"gone_resources\":[1099511627777],\"gone_tasks\":[1099511627777],\"new_ops\":[],\"new_resources\":[],\"new_tasks\":[],\"now\":300000000,\"op_stats\":[],\"poll_counts\":[],\"resource_stats\":[],\"seq\":3,\"snapshot\":false,\"task_stats\":[],\"task_times\":[],\"v\":3}\n";

pub(super) const TIMED_BEGIN_BY_PLACE: &str = "# TYPE taskscope_task_polls_total counter
# HELP taskscope_task_polls_total Polls of tasks that have started.
taskscope_task_polls_total{name=\"worker-#\",kind=\"spawn\",location=\"a.rs:7:1\"} 3
";

pub(super) const TIMED_END_BY_PLACE: &str = "# TYPE taskscope_task_poll_seconds histogram
# UNIT taskscope_task_poll_seconds seconds
# HELP taskscope_task_poll_seconds How long polls of tasks ran that have ended.
taskscope_task_poll_seconds_bucket{name=\"worker-#\",kind=\"spawn\",location=\"a.rs:7:1\",le=\"0.000016384\"} 0
taskscope_task_poll_seconds_bucket{name=\"worker-#\",kind=\"spawn\",location=\"a.rs:7:1\",le=\"0.000032768\"} 2
taskscope_task_poll_seconds_bucket{name=\"worker-#\",kind=\"spawn\",location=\"a.rs:7:1\",le=\"0.000065536\"} 2
taskscope_task_poll_seconds_bucket{name=\"worker-#\",kind=\"spawn\",location=\"a.rs:7:1\",le=\"0.000131072\"} 2
taskscope_task_poll_seconds_bucket{name=\"worker-#\",kind=\"spawn\",location=\"a.rs:7:1\",le=\"0.000262144\"} 2
taskscope_task_poll_seconds_bucket{name=\"worker-#\",kind=\"spawn\",location=\"a.rs:7:1\",le=\"0.000524288\"} 2
taskscope_task_poll_seconds_bucket{name=\"worker-#\",kind=\"spawn\",location=\"a.rs:7:1\",le=\"0.001048576\"} 2
taskscope_task_poll_seconds_bucket{name=\"worker-#\",kind=\"spawn\",location=\"a.rs:7:1\",le=\"0.002097152\"} 2
taskscope_task_poll_seconds_bucket{name=\"worker-#\",kind=\"spawn\",location=\"a.rs:7:1\",le=\"0.004194304\"} 2
taskscope_task_poll_seconds_bucket{name=\"worker-#\",kind=\"spawn\",location=\"a.rs:7:1\",le=\"0.008388608\"} 2
taskscope_task_poll_seconds_bucket{name=\"worker-#\",kind=\"spawn\",location=\"a.rs:7:1\",le=\"0.016777216\"} 2
taskscope_task_poll_seconds_bucket{name=\"worker-#\",kind=\"spawn\",location=\"a.rs:7:1\",le=\"0.033554432\"} 2
taskscope_task_poll_seconds_bucket{name=\"worker-#\",kind=\"spawn\",location=\"a.rs:7:1\",le=\"0.067108864\"} 2
taskscope_task_poll_seconds_bucket{name=\"worker-#\",kind=\"spawn\",location=\"a.rs:7:1\",le=\"+Inf\"} 3
taskscope_task_poll_seconds_sum{name=\"worker-#\",kind=\"spawn\",location=\"a.rs:7:1\"} 0.120036384
taskscope_task_poll_seconds_count{name=\"worker-#\",kind=\"spawn\",location=\"a.rs:7:1\"} 3
# TYPE taskscope_task_wait_seconds histogram
# UNIT taskscope_task_wait_seconds seconds
# HELP taskscope_task_wait_seconds How long tasks waited for polls that have started.
taskscope_task_wait_seconds_bucket{name=\"worker-#\",kind=\"spawn\",location=\"a.rs:7:1\",le=\"0.000016384\"} 0
taskscope_task_wait_seconds_bucket{name=\"worker-#\",kind=\"spawn\",location=\"a.rs:7:1\",le=\"0.000032768\"} 0
taskscope_task_wait_seconds_bucket{name=\"worker-#\",kind=\"spawn\",location=\"a.rs:7:1\",le=\"0.000065536\"} 0
taskscope_task_wait_seconds_bucket{name=\"worker-#\",kind=\"spawn\",location=\"a.rs:7:1\",le=\"0.000131072\"} 1
taskscope_task_wait_seconds_bucket{name=\"worker-#\",kind=\"spawn\",location=\"a.rs:7:1\",le=\"0.000262144\"} 1
taskscope_task_wait_seconds_bucket{name=\"worker-#\",kind=\"spawn\",location=\"a.rs:7:1\",le=\"0.000524288\"} 1
taskscope_task_wait_seconds_bucket{name=\"worker-#\",kind=\"spawn\",location=\"a.rs:7:1\",le=\"0.001048576\"} 1
taskscope_task_wait_seconds_bucket{name=\"worker-#\",kind=\"spawn\",location=\"a.rs:7:1\",le=\"0.002097152\"} 1
taskscope_task_wait_seconds_bucket{name=\"worker-#\",kind=\"spawn\",location=\"a.rs:7:1\",le=\"0.004194304\"} 1
taskscope_task_wait_seconds_bucket{name=\"worker-#\",kind=\"spawn\",location=\"a.rs:7:1\",le=\"0.008388608\"} 1
taskscope_task_wait_seconds_bucket{name=\"worker-#\",kind=\"spawn\",location=\"a.rs:7:1\",le=\"0.016777216\"} 1
taskscope_task_wait_seconds_bucket{name=\"worker-#\",kind=\"spawn\",location=\"a.rs:7:1\",le=\"0.033554432\"} 1
taskscope_task_wait_seconds_bucket{name=\"worker-#\",kind=\"spawn\",location=\"a.rs:7:1\",le=\"0.067108864\"} 1
taskscope_task_wait_seconds_bucket{name=\"worker-#\",kind=\"spawn\",location=\"a.rs:7:1\",le=\"+Inf\"} 1
taskscope_task_wait_seconds_sum{name=\"worker-#\",kind=\"spawn\",location=\"a.rs:7:1\"} 0.000070000
taskscope_task_wait_seconds_count{name=\"worker-#\",kind=\"spawn\",location=\"a.rs:7:1\"} 1
# EOF
";

pub(super) const TIMED_END_BY_ID: &str = "# TYPE taskscope_task_poll_seconds histogram
# UNIT taskscope_task_poll_seconds seconds
# HELP taskscope_task_poll_seconds How long polls of tasks ran that have ended.
taskscope_task_poll_seconds_bucket{id=\"1.2\",name=\"worker-2\",kind=\"spawn\",le=\"0.000016384\"} 0
taskscope_task_poll_seconds_bucket{id=\"1.2\",name=\"worker-2\",kind=\"spawn\",le=\"0.000032768\"} 1
taskscope_task_poll_seconds_bucket{id=\"1.2\",name=\"worker-2\",kind=\"spawn\",le=\"0.000065536\"} 1
taskscope_task_poll_seconds_bucket{id=\"1.2\",name=\"worker-2\",kind=\"spawn\",le=\"0.000131072\"} 1
taskscope_task_poll_seconds_bucket{id=\"1.2\",name=\"worker-2\",kind=\"spawn\",le=\"0.000262144\"} 1
taskscope_task_poll_seconds_bucket{id=\"1.2\",name=\"worker-2\",kind=\"spawn\",le=\"0.000524288\"} 1
taskscope_task_poll_seconds_bucket{id=\"1.2\",name=\"worker-2\",kind=\"spawn\",le=\"0.001048576\"} 1
taskscope_task_poll_seconds_bucket{id=\"1.2\",name=\"worker-2\",kind=\"spawn\",le=\"0.002097152\"} 1
taskscope_task_poll_seconds_bucket{id=\"1.2\",name=\"worker-2\",kind=\"spawn\",le=\"0.004194304\"} 1
taskscope_task_poll_seconds_bucket{id=\"1.2\",name=\"worker-2\",kind=\"spawn\",le=\"0.008388608\"} 1
taskscope_task_poll_seconds_bucket{id=\"1.2\",name=\"worker-2\",kind=\"spawn\",le=\"0.016777216\"} 1
taskscope_task_poll_seconds_bucket{id=\"1.2\",name=\"worker-2\",kind=\"spawn\",le=\"0.033554432\"} 1
taskscope_task_poll_seconds_bucket{id=\"1.2\",name=\"worker-2\",kind=\"spawn\",le=\"0.067108864\"} 1
taskscope_task_poll_seconds_bucket{id=\"1.2\",name=\"worker-2\",kind=\"spawn\",le=\"+Inf\"} 1
taskscope_task_poll_seconds_sum{id=\"1.2\",name=\"worker-2\",kind=\"spawn\"} 0.000016384
taskscope_task_poll_seconds_count{id=\"1.2\",name=\"worker-2\",kind=\"spawn\"} 1
# TYPE taskscope_task_wait_seconds histogram
# UNIT taskscope_task_wait_seconds seconds
# HELP taskscope_task_wait_seconds How long tasks waited for polls that have started.
taskscope_task_wait_seconds_bucket{id=\"1.2\",name=\"worker-2\",kind=\"spawn\",le=\"0.000016384\"} 0
taskscope_task_wait_seconds_bucket{id=\"1.2\",name=\"worker-2\",kind=\"spawn\",le=\"0.000032768\"} 0
taskscope_task_wait_seconds_bucket{id=\"1.2\",name=\"worker-2\",kind=\"spawn\",le=\"0.000065536\"} 0
taskscope_task_wait_seconds_bucket{id=\"1.2\",name=\"worker-2\",kind=\"spawn\",le=\"0.000131072\"} 1
taskscope_task_wait_seconds_bucket{id=\"1.2\",name=\"worker-2\",kind=\"spawn\",le=\"0.000262144\"} 1
taskscope_task_wait_seconds_bucket{id=\"1.2\",name=\"worker-2\",kind=\"spawn\",le=\"0.000524288\"} 1
taskscope_task_wait_seconds_bucket{id=\"1.2\",name=\"worker-2\",kind=\"spawn\",le=\"0.001048576\"} 1
taskscope_task_wait_seconds_bucket{id=\"1.2\",name=\"worker-2\",kind=\"spawn\",le=\"0.002097152\"} 1
taskscope_task_wait_seconds_bucket{id=\"1.2\",name=\"worker-2\",kind=\"spawn\",le=\"0.004194304\"} 1
taskscope_task_wait_seconds_bucket{id=\"1.2\",name=\"worker-2\",kind=\"spawn\",le=\"0.008388608\"} 1
taskscope_task_wait_seconds_bucket{id=\"1.2\",name=\"worker-2\",kind=\"spawn\",le=\"0.016777216\"} 1
taskscope_task_wait_seconds_bucket{id=\"1.2\",name=\"worker-2\",kind=\"spawn\",le=\"0.033554432\"} 1
taskscope_task_wait_seconds_bucket{id=\"1.2\",name=\"worker-2\",kind=\"spawn\",le=\"0.067108864\"} 1
taskscope_task_wait_seconds_bucket{id=\"1.2\",name=\"worker-2\",kind=\"spawn\",le=\"+Inf\"} 1
taskscope_task_wait_seconds_sum{id=\"1.2\",name=\"worker-2\",kind=\"spawn\"} 0.000070000
taskscope_task_wait_seconds_count{id=\"1.2\",name=\"worker-2\",kind=\"spawn\"} 1
# EOF
";

// By ids, too, what a resource that has left came to stays.
pub(super) const TIMED_OPS_BY_ID: &str = "# TYPE taskscope_resource_poll_ops_total counter
# HELP taskscope_resource_poll_ops_total Poll operations of resources by what they answered.
taskscope_resource_poll_ops_total{type=\"Mutex\",readiness=\"ready\"} 3
taskscope_resource_poll_ops_total{type=\"Mutex\",readiness=\"pending\"} 4
";
